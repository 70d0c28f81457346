use crate::numbers::or_number;
use crate::ordered_lists::{Line, entry, number_in};
use ordered_list::OrderedArray;

#[test]
fn takes_as_many_as_it_has_places(rt: HostRuntime) {
    let mut list: OrderedArray<Line, 3> = OrderedArray::new();
    let first = or_number(list.insert(entry(100, 1)));
    let second = or_number(list.insert(entry(102, 2)));
    let third = or_number(list.insert(entry(101, 3)));
    let fourth = or_number(list.insert(entry(103, 4)));
    assert_eq!(rt; [first, second, third, fourth], [0, 0, 1, 51]);
    assert_eq!(rt;
        list.as_slice(),
        [entry(102, 2), entry(101, 3), entry(100, 1)].as_slice()
    );
}

#[test]
fn shows_its_lines_alone(rt: HostRuntime) {
    let mut list: OrderedArray<Line, 3> = OrderedArray::new();
    let _ = list.insert(entry(100, 1));
    let _ = list.insert(entry(102, 2));
    let past = number_in(list.remove(2));
    let front = number_in(list.remove(0));
    assert_eq!(rt; [past, front], [52, 2]);
    assert_eq!(rt; list.as_slice().len(), 1);
    list.clear();
    assert_eq!(rt; list.as_slice().len(), 0);
}

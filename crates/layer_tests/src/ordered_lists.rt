ghost use Rattle.ordered_list.specs.Keys.{upward, downward, then_by};
ghost use Rattle.ordered_list.proofs.Keys.{down_up-lawful};

use crate::numbers::or_number;
use ordered_list::{ListFault, OrderedList, Ranked};

#[derive(Clone, Copy, Debug, Default, PartialEq, Eq)]
pub(crate) struct Line {
    pub(crate) price: u32,
    pub(crate) number: u32,
}

// by price downward, then by number upward
impl Ranked for Line {
    ghost after = { then_by (downward (λ l. l.price)) (upward (λ l. l.number)) };

    ghost apart = { (down_up-lawful (λ l. l.price) (λ l. l.number)).apart };

    ghost chain = { (down_up-lawful (λ l. l.price) (λ l. l.number)).chain };

    ghost alike = { (down_up-lawful (λ l. l.price) (λ l. l.number)).alike };

    fn ranks_after(&self, other: &Line) -> bool {
        (other.price, self.number) > (self.price, other.number)
    }
}

pub(crate) fn entry(price: u32, number: u32) -> Line {
    Line { price, number }
}

/// The number of the line that was taken out, or 52.
pub(crate) fn number_in(removed: Result<Line, ListFault>) -> u32 {
    or_number(removed.map(|line| line.number))
}

/// The numbers of four lines.
fn numbers(memory: [Line; 4]) -> [u32; 4] {
    memory.map(|line| line.number)
}

#[test]
fn inserts_in_order(rt: HostRuntime) {
    let mut memory = [entry(0, 0); 4];
    let mut list = OrderedList::over(&mut memory, 0);
    let first = or_number(list.insert(entry(100, 1)));
    let second = or_number(list.insert(entry(102, 2)));
    let third = or_number(list.insert(entry(100, 3)));
    let fourth = or_number(list.insert(entry(102, 4)));
    let len = list.done();
    assert_eq!(rt; [first, second, third, fourth, len], [0, 0, 2, 1, 4]);
    assert_eq!(rt; numbers(memory), [2, 4, 1, 3]);
}

#[test]
fn inserts_behind_equals(rt: HostRuntime) {
    let mut memory = [entry(101, 5), entry(100, 7), entry(99, 1), entry(0, 0)];
    let mut list = OrderedList::over(&mut memory, 3);
    let at = or_number(list.insert(entry(100, 7)));
    let len = list.done();
    assert_eq!(rt; [at, len], [2, 4]);
    assert_eq!(rt; numbers(memory), [5, 7, 7, 1]);
}

#[test]
fn full_memory_stays(rt: HostRuntime) {
    let mut memory = [entry(104, 4), entry(103, 3), entry(102, 2), entry(101, 1)];
    let mut list = OrderedList::over(&mut memory, 4);
    let at = or_number(list.insert(entry(105, 5)));
    let len = list.done();
    assert_eq!(rt; [at, len], [51, 4]);
    assert_eq!(rt; numbers(memory), [4, 3, 2, 1]);
}

#[test]
fn removes_what_is_there(rt: HostRuntime) {
    let mut memory = [entry(103, 1), entry(102, 2), entry(101, 3), entry(9, 9)];
    let mut list = OrderedList::over(&mut memory, 3);
    let past = number_in(list.remove(3));
    let last = number_in(list.remove(2));
    let first = number_in(list.remove(0));
    let len = list.done();
    assert_eq!(rt; [past, last, first], [52, 3, 1]);
    assert_eq!(rt; len, 1);
    assert_eq!(rt; numbers(memory), [2, 1, 3, 9]);
}

#[test]
fn length_past_the_end_means_all(rt: HostRuntime) {
    let mut memory = [entry(104, 4), entry(103, 3), entry(102, 2), entry(101, 1)];
    let mut list = OrderedList::over(&mut memory, 9);
    let held = list.len();
    let last = number_in(list.remove(3));
    let len = list.done();
    assert_eq!(rt; [held, len], [4, 3]);
    assert_eq!(rt; last, 1);
}

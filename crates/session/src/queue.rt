ghost use Rattle.std.specs.Prelude.{◌≡◌, ◌<◌, length, nat_eq, position};
ghost use Rattle.ordered_list.specs.Order.{placed};
ghost use Rattle.market.specs.Orders.{queue_after, number_of};
ghost use Rattle.session.specs.Lists.{first_with, without_first};

use market::{OrderNumber, Resting};
use ordered_list::OrderedArray;

/// What waits on a side, in queue order.
pub(crate) type Queue = OrderedArray<Resting, 512>;

/// What waits of an order in a queue, if anything does.
pub(crate) fn entry_in(queue: &[Resting], number: OrderNumber) -> Option<Resting>
    ensures { result ≡ first_with number.0 queue.now }
{
    queue
        .iter()
        .copied()
        .find(|entry| entry.order.number == number)
}

/// Puts an entry behind all that do not rank after it.
pub(crate) fn put_in(queue: &mut Queue, entry: Resting)
    requires { length queue.old < 512 }
    ensures { queue.new ≡ placed queue_after entry queue.old }
{
    let _ = queue.insert(entry);
}

/// Takes the entry of an order out, if it is there.
pub(crate) fn take_out(queue: &mut Queue, number: OrderNumber)
    ensures { queue.new ≡ without_first number.0 queue.old }
{
    if let Some(place) = place_in(queue.as_slice(), number) {
        let _ = queue.remove(place);
    }
}

fn place_in(queue: &[Resting], number: OrderNumber) -> Option<usize>
    ensures { result ≡ position (λ e. nat_eq (number_of e) number.0) queue.now }
{
    queue.iter().position(|entry| entry.order.number == number)
}

ghost use Rattle.std.specs.Prelude.{◌≡◌, ◌<◌, ◌≤◌, ◌-◌, ◌^◌, min, List, reverse, drop};
ghost use Rattle.std.specs.Iterator.{AlwaysYields, IsFinite, size};
ghost use Rattle.market.specs.declared.order.Resting.{Resting as Order};
ghost use Rattle.market.specs.Orders.{lots_in};
ghost use Rattle.pricing.specs.Levels.{front_orders, front_lots};

use market::Resting;
use units::{Lots, Price};

/// The orders of one limit at an end of a queue: their lots, and the queue without them.
#[derive(Clone, Copy)]
pub(crate) struct Level<'a> {
    pub(crate) lots: Lots,
    pub(crate) rest: &'a [Resting],
}

// Two functions: `first_level` and `last_level` differ in the end that they cut from, and share `leading`.
/// The orders at the front that have this limit. Lots that no u64 holds count as the most that it can.
pub(crate) fn first_level(queue: &[Resting], limit: Price) -> Level<'_>
    ensures lots { result.lots.0 ≡ min (front_lots limit.0 queue.now) (2 ^ 64 - 1) }
    ensures rest { result.rest.now ≡ drop (front_orders limit.0 queue.now) queue.now }
{
    let count = leading(queue.iter(), limit);
    let (level, rest) = queue.split_at(count);
    Level {
        lots: lots_in(level),
        rest,
    }
}

/// The orders at the back that have this limit: the front of the queue the other way round.
pub(crate) fn last_level(queue: &[Resting], limit: Price) -> Level<'_>
    ensures lots { result.lots.0 ≡ min (front_lots limit.0 (reverse queue.now)) (2 ^ 64 - 1) }
    ensures rest { reverse result.rest.now ≡ drop (front_orders limit.0 (reverse queue.now)) (reverse queue.now) }
{
    let count = leading(queue.iter().rev(), limit);
    let (rest, level) = queue.split_at(queue.len() - count);
    Level {
        lots: lots_in(level),
        rest,
    }
}

/// How many orders, from the first on, have this limit.
fn leading<'a, I: Iterator<Item = &'a Resting> + Drop>(orders: I, limit: Price) -> usize
    requires can { I.can_next orders }
    requires finite { IsFinite (I.remaining orders) }
    requires fits { size (I.remaining orders) < 2 ^ 64 }
    ensures within { result ≤ size (I.remaining orders) }
    ensures count { (q : List Order) → AlwaysYields I.next_gives (λ y. y.now) orders q → result ≡ front_orders limit.0 q }
{
    orders
        .take_while(|entry| entry.order.limit == limit)
        .count()
}

/// All lots of a queue, or the most that a u64 holds where they are more.
pub fn lots_in(queue: &[Resting]) -> Lots
    ensures { result.0 ≡ min (lots_in queue.now) (2 ^ 64 - 1) }
{
    Lots(
        queue
            .iter()
            .fold(0, |lots: u64, entry| lots.saturating_add(entry.lots.0)),
    )
}

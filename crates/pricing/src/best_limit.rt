ghost use Rattle.std.specs.Prelude.{◌≡◌, ◌^◌, ◌-◌, min};
ghost use Rattle.market.specs.Queues.{Queue};
ghost use Rattle.units.specs.declared.side.Side.{Side};
ghost use Rattle.pricing.specs.Levels.{front_lots};
ghost use Rattle.pricing.specs.Best.{best_of};

use market::Resting;
use units::{Lots, Price};

/// The best waiting limit of a queue, with the lots that wait at it: for sells the lowest, for buys the highest.
pub fn best(queue: &[Resting]) -> Option<(Price, Lots)>
    ensures { (side : Side) → Queue side queue.now → result ≡ best_of side queue.now }
{
    let limit = queue.first()?.order.limit;
    Some((limit, first_lots(queue, limit)))
}

/// The lots at the front that have this limit, or the most that a u64 holds where they are more. In one pass: a level's rest is
/// not asked for here.
fn first_lots(queue: &[Resting], limit: Price) -> Lots
    ensures { result.0 ≡ min (front_lots limit.0 queue.now) (2 ^ 64 - 1) }
{
    Lots(
        queue
            .iter()
            .take_while(|entry| entry.order.limit == limit)
            .fold(0, |lots: u64, entry| lots.saturating_add(entry.lots.0)),
    )
}

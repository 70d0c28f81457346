ghost use Rattle.std.specs.Prelude.{◌≡◌, [], Ok};
ghost use Rattle.ordered_list.specs.Order.{placed};
ghost use Rattle.ordered_list.specs.Arrays.{insert_answer_within, placed_within};
ghost use Rattle.allotment.specs.Bids.{queue_order};

use super::bid::Bid;
use ordered_list::{ListFault, OrderedArray};

/// The bids of the level, in queue order: memory for three, which nobody else sees.
type Level = OrderedArray<Bid, 3>;

/// Puts a bid into the queue, and answers its position.
fn queue(level: &mut Level, bid: Bid) -> Result<usize, ListFault>
    ensures answer { result ≡ insert_answer_within queue_order 3 level.old bid }
    ensures after { level.new ≡ placed_within queue_order 3 bid level.old }
{
    level.insert(bid)
}

/// Three bids in queue order: the queue's whole memory once they are in.
pub(crate) fn queued(a: Bid, b: Bid, c: Bid) -> Result<[Bid; 3], ListFault>
    ensures { result ≡ Ok (placed queue_order c (placed queue_order b (placed queue_order a []))) }
{
    let mut level = Level::new();
    queue(&mut level, a)?;
    queue(&mut level, b)?;
    queue(&mut level, c)?;
    Ok([level.remove(0)?, level.remove(0)?, level.remove(0)?])
}

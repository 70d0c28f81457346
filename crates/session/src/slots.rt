ghost use Rattle.std.specs.Prelude.{◌≡◌, slice_set, Some};
ghost use Rattle.market.specs.Orders.{number_of};
ghost use Rattle.session.specs.Slots.{slotted, by_number};

use super::book::Book;
use market::Resting;

/// Puts each entry into the slot of its order's number.
fn place_by_number(queue: &[Resting], slots: &mut [Option<Resting>])
    ensures { slots.new ≡ slotted queue.now slots.old }
{
    for entry in queue {
        place(*entry, slots);
    }
}

// A test and an index: what a write through `get_mut` leaves in the slice was tried, and its proof did not close.
fn place(entry: Resting, slots: &mut [Option<Resting>])
    ensures { slots.new ≡ slice_set slots.old (number_of entry) (Some entry) }
{
    let slot = usize::from(entry.order.number.0);
    if slot < slots.len() {
        slots[slot] = Some(entry);
    }
}

impl Book {
    /// What waits, by number: the entry of order n in slot n. No order has the number 0, so the slots of 512 orders are 513.
    pub(crate) fn by_number(&self) -> [Option<Resting>; 513]
        ensures { result ≡ by_number self.now.sells self.now.buys }
    {
        let mut slots = [None; 513];
        place_by_number(self.sells.as_slice(), &mut slots);
        place_by_number(self.buys.as_slice(), &mut slots);
        slots
    }
}

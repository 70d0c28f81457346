ghost use Rattle.std.specs.Prelude.{◌≡◌};
ghost use Rattle.market.specs.Orders.{lots_in};
ghost use Rattle.market.specs.State.{waiting};
ghost use Rattle.market.specs.Calls.{all_annulled};
ghost use Rattle.market.specs.Law.{Books};

use super::session::Session;
use depository::Depository;
use units::Lots;

impl<D: Depository> Session<D> {
    /// Annuls all that waits, by rising number, and answers how many lots that was. What is released was blocked, so no
    /// release is refused.
    pub(crate) fn annul_all(&mut self) -> Lots
        requires { Books self.old.state }
        ensures answer { result.0 ≡ lots_in (waiting self.old.state) }
        ensures after { self.new.state ≡ all_annulled self.old.state }
    {
        let lots = self.book.waiting_lots();
        // laid out by number once, so that no order is looked up in its queue. The queues are emptied first: a cancellation
        // takes up the room that the entry had
        let slots = self.book.by_number();
        self.book.empty_queues();
        // by slot: over a `flatten` the loop's invariant has the iterator's four parts, where the slot's place is enough
        for slot in &slots[1..=self.book.orders.len()] {
            if let Some(entry) = slot {
                self.depository
                    .release(entry.order.participant, entry.cover())
                    .unwrap();
                self.book.note(*entry);
            }
        }
        lots
    }
}

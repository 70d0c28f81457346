ghost use Rattle.std.specs.Prelude.{◌≡◌};
ghost use Rattle.market.specs.State.{queue_of};
ghost use Rattle.pricing.specs.Best.{best_of};
ghost use Rattle.pricing.specs.Summaries.{summary_answer, summary_after};

use super::session::Session;
use depository::{AccountBook, Depository};
use market::{Cancellation, Deal, Order, Phase, SessionFault, SummaryLine};
use units::{Lots, Price, Side};

impl<D: Depository> Session<D> {
    /// A side's best limit and the lots that wait at it, or nothing where no order waits.
    pub fn best(&self, side: Side) -> Option<(Price, Lots)>
        ensures { result ≡ best_of side (queue_of side self.now.state) }
    {
        pricing::best(self.book.queue(side))
    }

    /// Writes a line for each waiting limit, price downward, to the front of the caller's slice, and answers how many
    /// these are. Refuses 23, and then leaves the slice as it was.
    pub fn summary(&self, lines: &mut [SummaryLine]) -> Result<usize, SessionFault>
        ensures answer { result ≡ summary_answer self.now.state.sells self.now.state.buys lines.old }
        ensures after { lines.new ≡ summary_after self.now.state.sells self.now.state.buys lines.old }
    {
        let queues = self.book.queues();
        queues.summary(lines)
    }

    /// Where the session stands.
    pub fn phase(&self) -> Phase
        ensures { result ≡ self.now.state.phase }
    {
        self.phase
    }

    /// The records of all accepted orders, by number.
    pub fn orders(&self) -> &[Order]
        ensures { result.now ≡ self.now.state.orders }
    {
        self.book.orders.as_slice()
    }

    /// The deal list.
    pub fn deals(&self) -> &[Deal]
        ensures { result.now ≡ self.now.state.deals }
    {
        self.book.deals.as_slice()
    }

    /// The cancellation list.
    pub fn cancellations(&self) -> &[Cancellation]
        ensures { result.now ≡ self.now.state.cancellations }
    {
        self.book.cancellations.as_slice()
    }

    /// The depository, to be read.
    pub fn depository(&self) -> &D
        ensures depository { result.now ≡ self.now.depository }
        ensures accounts { D.AccountBook.accounts result.now ≡ self.now.state.accounts }
    {
        &self.depository
    }
}

ghost use Rattle.std.specs.Prelude.{◌≡◌, true};
ghost use Rattle.units.specs.Answers.{answered};
ghost use Rattle.market.specs.CutOff.{crosses, cut_off_found, GreatestBetween};
ghost use Rattle.market.specs.Calls.{strike_answer, strike_after};
ghost use Rattle.session.specs.Slips.{with_slip, GivesUnspent};

use super::session::Session;
use super::slip::StrikeSlip;
use depository::Depository;
use market::{Phase, SessionFault};
use units::Price;

impl<D: Depository> Session<D> {
    /// Looks for the cut-off, the one price of this iteration, and hands it out with the slip that deal or annul will take.
    /// Where no waiting sell meets a waiting buy, there is none: all that waited is annulled, and Gathering goes on.
    /// Refuses 21.
    pub fn strike(&mut self) -> Result<Option<(Price, StrikeSlip)>, SessionFault>
        ensures answer { result ≡ answered with_slip (strike_answer self.old.state) }
        ensures after { self.new.state ≡ strike_after self.old.state }
        ensures unspent { GivesUnspent result }
        ensures greatest { crosses self.old.state.sells self.old.state.buys ≡ true → GreatestBetween self.old.state.sells self.old.state.buys }
    {
        if !self.phase.is_gathering() {
            return Err(SessionFault::WrongPhase);
        }
        match self.cut_off() {
            Some(cut_off) => {
                self.phase = Phase::Struck { cut_off };
                Ok(Some((cut_off, StrikeSlip::make())))
            }
            None => {
                self.annul_all();
                Ok(None)
            }
        }
    }

    /// The cut-off that the waiting orders give, if there is one.
    fn cut_off(&self) -> Option<Price>
        ensures { result ≡ cut_off_found self.now.state.sells self.now.state.buys }
    {
        let queues = self.book.queues();
        queues.cut_off()
    }
}

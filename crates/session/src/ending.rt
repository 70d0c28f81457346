ghost use Rattle.std.specs.Prelude.{◌≡◌, IfErr, IfOk};
ghost use Rattle.market.specs.Calls.{annul_answer, annul_after, close_answer, close_after};
ghost use Rattle.session.specs.Opening.{hand_back_answer};
ghost use Rattle.session.specs.Slips.{handing_back};

use super::session::Session;
use super::slip::StrikeSlip;
use depository::{AccountBook, Depository};
use market::{Phase, SessionFault};
use units::Lots;

impl<D: Depository> Session<D> {
    /// Ends a struck iteration without deals: annuls all that waits, and answers how many lots that was. Gathering follows.
    /// It spends the slip; where it refuses (21), the slip comes back.
    pub fn annul(&mut self, slip: StrikeSlip) -> Result<Lots, (SessionFault, StrikeSlip)>
        ensures answer { result ≡ handing_back slip (annul_answer self.old.state) }
        ensures back { IfErr result (λ refused. refused.1 ≡ slip) }
        ensures after { self.new.state ≡ annul_after self.old.state }
    {
        if !self.phase.is_struck() {
            return Err((SessionFault::WrongPhase, slip));
        }
        let lots = self.annul_all();
        slip.spend();
        self.phase = Phase::Gathering;
        Ok(lots)
    }

    /// Closes the session: annuls all that waits, and answers how many lots that was. Refuses 21.
    pub fn close(&mut self) -> Result<Lots, SessionFault>
        ensures answer { result ≡ close_answer self.old.state }
        ensures after { self.new.state ≡ close_after self.old.state }
    {
        if !self.phase.is_trading() {
            return Err(SessionFault::WrongPhase);
        }
        let lots = self.annul_all();
        self.phase = Phase::Closed;
        Ok(lots)
    }

    /// Hands the depository back, once the session is closed. Refuses 21, and then the session itself comes back.
    pub fn hand_back(self) -> Result<D, (SessionFault, Session<D>)>
        ensures answer { result ≡ hand_back_answer self }
        ensures accounts { IfOk result (λ d. D.AccountBook.accounts d ≡ self.state.accounts) }
    {
        if !self.phase.is_closed() {
            return Err((SessionFault::WrongPhase, self));
        }
        let Session {
            depository,
            phase: _,
            book: _,
        } = self;
        Ok(depository)
    }
}

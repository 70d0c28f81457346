ghost use Rattle.std.specs.Prelude.{◌≡◌};
ghost use Rattle.market.specs.Calls.{open_answer};
ghost use Rattle.market.specs.Runs.{answer_to, desk_after};
ghost use Rattle.tape.specs.Desks.{accounts_in, newly_opened, annulled_and_closed};

use market::{Answer, Call, SessionFault};
use session::{Session, StrikeSlip, run};
use std::marker::Model;
use table_depository::TableDepository;

/// A session after open, with the strike slip that the run keeps. A slip is held just while the session is struck.
pub(crate) struct Desk {
    session: Session<TableDepository>,
    slip: Option<StrikeSlip>,
}

impl Model for Desk {
    ghost use Rattle.market.specs.Runs.{Desk as Seen};

    ghost Value = { Seen };

    ghost use Rattle.session.specs.Desks.{desk_of};
    ghost use Rattle.tape.specs.Desks.{Matched};

    ghost view = { λ d. desk_of d.session d.slip };

    ghost invariant = { λ d. Matched (desk_of d.session d.slip) };
}

impl Desk {
    /// Opens a session over a depository. One whose opening is refused is Closed.
    pub(crate) fn open(depository: TableDepository) -> (Result<(), SessionFault>, Desk)
        ensures answer { result.0 ≡ open_answer (accounts_in depository) }
        ensures after { result.1 ≡ newly_opened (accounts_in depository) }
    {
        let (answer, session) = match Session::open(depository) {
            Ok(session) => (Ok(()), session),
            Err((fault, session)) => (Err(fault), session),
        };
        let slip = None;
        (answer, Desk { session, slip })
    }

    /// Makes a call.
    // In place, as all that a command does is: a session is large, and each hand on by value would copy it.
    pub(crate) fn call(&mut self, call: Call) -> Answer
        ensures answer { result ≡ answer_to call self.old }
        ensures after { self.new ≡ desk_after call self.old }
    {
        // blank, overwritten by run
        let mut answers = [Err(SessionFault::WrongPhase)];
        let held = self.slip.take();
        let slip = run(&mut self.session, held, &[call], &mut answers);
        self.slip = slip;
        answers[0]
    }

    /// Annuls if struck, then closes. Afterwards no slip is held, for annul has spent it.
    pub(crate) fn close(self) -> Session<TableDepository>
        ensures { result.state ≡ (annulled_and_closed self).session }
    {
        let Desk { mut session, slip } = self;
        // blank, overwritten by run
        let mut answers = [Err(SessionFault::WrongPhase); 2];
        match run(
            &mut session,
            slip,
            &[Call::Annul, Call::Close],
            &mut answers,
        ) {
            None => session,
            Some(_) => unreachable!(),
        }
    }
}

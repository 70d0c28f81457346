ghost use Rattle.std.specs.Prelude.{◌≡◌};
ghost use Rattle.units.specs.Answers.{raised};
ghost use Rattle.command.specs.declared.fault.TapeFault.TheVariants.{Session as OfSession};
ghost use Rattle.tape.specs.declared.task.Task.TheVariants.{PayIn as Paying};
ghost use Rattle.tape.specs.Desks.{accounts_in};
ghost use Rattle.tape.specs.Stages.{unopened, floor_of, task_answer, task_after, command_answer, command_after};
ghost use Rattle.tape.specs.Plays.{left};

use super::answer::Done;
use super::desk::Desk;
use super::task::Task;
use command::Command;
use depository::{Amount, BackOffice};
use market::{Outcome, SessionFault};
use session::Session;
use std::mem;
use table_depository::TableDepository;
use units::Participant;

/// How far a run has come: before open there is a depository, and after it a session at its desk.
pub(crate) enum Stage {
    Before(TableDepository),
    Opened(Desk),
}

impl Stage {
    /// Makes a command.
    pub(crate) fn perform(&mut self, command: Command) -> Done
        ensures answer { result ≡ command_answer command (floor_of self.old) }
        ensures after { floor_of self.new ≡ command_after command (floor_of self.old) }
    {
        match command.checked() {
            Ok(command) => self.carry_out(command.into()),
            Err(fault) => Err(fault),
        }
    }

    /// Does what a command asks for: pay-ins and the opening before open, calls after it.
    fn carry_out(&mut self, task: Task) -> Done
        ensures answer { result ≡ task_answer task (floor_of self.old) }
        ensures after { floor_of self.new ≡ task_after task (floor_of self.old) }
    {
        match self {
            Stage::Before(depository) => match task {
                Task::PayIn(who, what) => pay_in(depository, who, what),
                Task::Open => {
                    let (opened, desk) = Desk::open(*depository);
                    match mem::replace(self, Stage::Opened(desk)) {
                        Stage::Before(_) => raised(opened.map(|()| None)),
                        // what was replaced is the depository. A desk could not be let go, so it is closed here
                        Stage::Opened(there) => {
                            let _ = there.close();
                            unreachable!()
                        }
                    }
                }
                _ => Err(SessionFault::WrongPhase.into()),
            },
            Stage::Opened(desk) => match task {
                Task::Call(call) => raised(desk.call(call).map(Some)),
                _ => Err(SessionFault::WrongPhase.into()),
            },
        }
    }

    /// The session that a run leaves: annulled if it was struck, and closed. A run that never opened leaves one without orders.
    pub(crate) fn finish(self) -> Session<TableDepository>
        ensures { result.state ≡ (left (floor_of self)).session }
    {
        match self {
            Stage::Opened(desk) => desk.close(),
            Stage::Before(depository) => {
                let (_, desk) = Desk::open(depository);
                desk.close()
            }
        }
    }
}

fn pay_in(depository: &mut TableDepository, who: Participant, what: Amount) -> Done
    ensures answer { result ≡ task_answer (Paying who what) (unopened (accounts_in depository.old)) }
    ensures after { unopened (accounts_in depository.new) ≡ task_after (Paying who what) (unopened (accounts_in depository.old)) }
{
    depository.pay_in(who, what)?;
    Ok(None)
}

/// What the session's answer comes to on the tape.
fn raised(answer: Result<Option<Outcome>, SessionFault>) -> Done
    ensures { result ≡ raised OfSession answer }
{
    Ok(answer?)
}

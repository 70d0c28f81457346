use command::Command;
use depository::Amount;
use market::Call;
use units::Participant;

/// What a command asks for.
#[derive(Clone, Copy)]
pub(crate) enum Task {
    /// A pay-in, before open.
    PayIn(Participant, Amount),
    /// The opening of the session.
    Open,
    /// A call of the session.
    Call(Call),
    /// A call that no session takes yet.
    NotYet,
}

impl From<Command> for Task {
    ghost use Rattle.std.specs.Prelude.{◌≡◌};
    ghost use Rattle.tape.specs.Tasks.{task_of};

    ghost from_gives = { λ command task. task ≡ task_of command };

    fn from(command: Command) -> Task {
        // a match on data: a command is what stands on the tape, and runs quantify over calls
        match command {
            Command::PayIn { participant, what } => Task::PayIn(participant, what),
            Command::Open => Task::Open,
            Command::Submit(order) => Task::Call(Call::Submit(order)),
            Command::Withdraw { participant, order } => {
                Task::Call(Call::Withdraw { participant, order })
            }
            Command::Strike => Task::Call(Call::Strike),
            Command::Add { .. } | Command::Deal { .. } => Task::NotYet,
            Command::Annul => Task::Call(Call::Annul),
            Command::Close => Task::Call(Call::Close),
        }
    }
}

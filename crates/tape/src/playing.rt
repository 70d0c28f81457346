ghost use Rattle.std.specs.Prelude.{◌≡◌, ◌-◌, ◌<◌, ◌≤◌, [], length};
ghost use Rattle.tape.specs.Stages.{floor_of};
ghost use Rattle.tape.specs.Plays.{Plays, start, turned};
ghost use Rattle.tape.specs.Results.{ResultOf};

use super::answer::{Done, TapeAnswer};
use super::host::HostFault;
use super::played::{MOST_BYTES, Played};
use super::stage::Stage;
use arrayvec::ArrayVec;
use command::read;
use table_depository::TableDepository;

/// Runs a tape. Refuses 61: the tape has more than 4,096 bytes.
pub fn play(tape: &[u8]) -> Result<Played, HostFault>
    ensures { ResultOf tape.now result }
{
    if tape.len() > MOST_BYTES {
        return Err(HostFault::TapeTooLong);
    }
    let mut answers = ArrayVec::new();
    let stage = play_through(tape, &mut answers);
    let session = stage.finish();
    Ok(Played { answers, session })
}

/// Plays a tape to its end, and writes the answer of each command. Answers how far the run has come.
fn play_through(tape: &[u8], answers: &mut ArrayVec<TapeAnswer, MOST_BYTES>) -> Stage
    requires short { length tape.now ≤ 4096 }
    requires none { answers.old.items ≡ [] }
    ensures { Plays (length tape.now) tape.now start answers.new.items (floor_of result) }
{
    // A loop over the rest of the tape: a fault leaves nothing of it, and as a chain the stage and the answers would be carried
    // through a closure.
    let mut stage = Stage::Before(TableDepository::new());
    let mut rest = tape;
    while !rest.is_empty() {
        let offset = offset_of(tape, rest);
        let (outcome, behind) = turn(rest, &mut stage);
        answers.push(TapeAnswer { offset, outcome });
        rest = behind;
    }
    stage
}

/// How far into the tape its rest begins.
fn offset_of(tape: &[u8], rest: &[u8]) -> u16
    requires within { length rest.now ≤ length tape.now }
    requires short { length tape.now ≤ 4096 }
    ensures { result ≡ length tape.now - length rest.now }
{
    (tape.len() - rest.len()) as u16
}

/// Reads the command at the front of the tape and makes it. Answers what it came to, and the rest of the tape: nothing, where
/// the run ends with this command.
fn turn<'a>(tape: &'a [u8], stage: &mut Stage) -> (Done, &'a [u8])
    ensures answer { result.0 ≡ (turned tape.now (floor_of stage.old)).answer }
    ensures floor { floor_of stage.new ≡ (turned tape.now (floor_of stage.old)).floor }
    ensures rest { result.1.now ≡ (turned tape.now (floor_of stage.old)).rest }
    ensures shorter { 0 < length tape.now → length result.1.now < length tape.now }
{
    match read(tape) {
        Ok((command, rest)) => (stage.perform(command), rest),
        Err(fault) => (Err(fault), &tape[tape.len()..]),
    }
}

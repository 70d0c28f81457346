ghost use Rattle.std.specs.Prelude.{◌≡◌, Some, None, Ok};
ghost use Rattle.std.specs.List.{join_with_byte};
ghost use Rattle.tape.specs.Answers.{line_of, answer_fields};

use super::line::Line;
use command::TapeFault;
use market::Outcome;
use std::fmt;

/// What a command came to: what the session's call answers, and nothing at a pay-in or the opening; or why it was refused.
pub(crate) type Done = Result<Option<Outcome>, TapeFault>;

/// The answer to one command of the tape.
#[derive(Clone, Copy, Debug, PartialEq, Eq)]
pub struct TapeAnswer {
    /// Where the command's byte stands on the tape, counted from 0.
    pub offset: u16,
    /// What a call of the session came to, nothing where a pay-in or the opening was accepted; or the refusal.
    pub outcome: Result<Option<Outcome>, TapeFault>,
}

/// What stands in memory that no answer uses.
// By hand: a Result has no default.
impl Default for TapeAnswer {
    ghost is_default = { λ answer. answer ≡ line_of 0 (Ok None) };

    fn default() -> TapeAnswer {
        TapeAnswer {
            offset: 0,
            outcome: Ok(None),
        }
    }
}

/// The answer's line: offset, layer, number, order and figure. Layer and number are 0 where the command was accepted, order and
/// figure where it was refused.
impl fmt::Display for TapeAnswer {
    ghost output = { λ answer. Some (join_with_byte 32 (answer_fields answer)) };

    fn fmt<W: fmt::Write>(&self, f: &mut fmt::Formatter<W>) -> fmt::Result {
        Line::from(*self).fmt(f)
    }
}

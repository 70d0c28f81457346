ghost use Rattle.std.specs.Prelude.{◌≡◌, Some};
ghost use Rattle.std.specs.List.{join_with_byte};
ghost use Rattle.tape.specs.Answers.{accepted, refused, shown_of, fields_in};

use super::answer::TapeAnswer;
use market::Outcome;
use std::fmt;
use units::RefusalCode;

/// The figures that a line of the result shows for an answer, 0 for each that it hasn't.
// Numbers, since they are what is printed; the answer itself has the outcome or the fault whole.
#[derive(Clone, Copy)]
pub(crate) struct Line {
    offset: u16,
    /// The layer that refused, and the number of the refusal; 0 where the command was accepted.
    layer: u8,
    number: u8,
    /// The order's number, at submit and withdraw; else 0.
    order: u16,
    /// Lots accepted or annulled, or the cut-off; else 0.
    figure: u64,
}

impl Line {
    fn accepted(offset: u16, order: u16, figure: u64) -> Line
        ensures { result ≡ accepted offset order figure }
    {
        Line {
            offset,
            layer: 0,
            number: 0,
            order,
            figure,
        }
    }

    pub(crate) fn refused(offset: u16, code: RefusalCode) -> Line
        ensures { result ≡ refused offset code }
    {
        Line {
            offset,
            layer: code.layer,
            number: code.number,
            order: 0,
            figure: 0,
        }
    }
}

impl From<TapeAnswer> for Line {
    ghost from_gives = { λ answer line. line ≡ shown_of answer };

    fn from(answer: TapeAnswer) -> Line {
        let offset = answer.offset;
        match answer.outcome {
            Ok(None | Some(Outcome::Abandoned)) => Line::accepted(offset, 0, 0),
            Ok(Some(Outcome::Accepted { order, lots } | Outcome::Withdrawn { order, lots })) => {
                Line::accepted(offset, order.0, lots.0)
            }
            Ok(Some(Outcome::CutOff(price))) => Line::accepted(offset, 0, u64::from(price.0)),
            Ok(Some(Outcome::Annulled(lots))) => Line::accepted(offset, 0, lots.0),
            Err(fault) => Line::refused(offset, fault.into()),
        }
    }
}

impl fmt::Display for Line {
    ghost output = { λ line. Some (join_with_byte 32 (fields_in line)) };

    fn fmt<W: fmt::Write>(&self, f: &mut fmt::Formatter<W>) -> fmt::Result {
        let Line {
            offset,
            layer,
            number,
            order,
            figure,
        } = *self;
        write!(f, "{offset} {layer} {number} {order} {figure}")
    }
}

ghost use Rattle.std.specs.Prelude.{◌≡◌, ℕ, ◌<◌, ◌==◌, ◌||◌, cond, Ok, slice_index};
ghost use Rattle.command.specs.Reads.{Whole, read_one, seen};
ghost use Rattle.units.specs.declared.side.Side.TheVariants.{Sell, Buy};

use super::command::Command;
use super::fault::TapeFault;
use super::operand::Operand;
use super::rule::Rule;
use super::table::width_of;
use depository::Amount;
use market::{NewOrder, OrderNumber};
use units::{Lots, Money, Participant, Price, Side};

/// The command at the front of the tape, and the rest of the tape.
/// It is asked only where a byte is left; an empty tape counts as cut short.
pub fn read(tape: &[u8]) -> Result<(Command, &[u8]), TapeFault>
    ensures { seen result ≡ read_one tape.now }
{
    let [byte, operands @ ..] = tape else {
        return Err(TapeFault::CutShort);
    };
    let width = width_of(*byte).ok_or(TapeFault::Unknown)?;
    if operands.len() < width {
        return Err(TapeFault::CutShort);
    }
    Ok(taken_apart(tape))
}

/// Takes a whole command apart.
// Slice patterns, one for each command: the asked-for form is that each command is taken apart by a pattern with the rest of
// the tape, so its bytes stand here as they stand on the tape.
fn taken_apart(tape: &[u8]) -> (Command, &[u8])
    requires { (w : ℕ) × Whole w tape.now }
    ensures { Ok (result.0, result.1.now) ≡ read_one tape.now }
{
    match tape {
        [0x01, ph, pl, l3, l2, l1, l0, rest @ ..] => {
            let participant = Participant::from_bytes([*ph, *pl]);
            let what = Amount::Lots(Lots::from_bytes([*l3, *l2, *l1, *l0]));
            (Command::PayIn { participant, what }, rest)
        }
        [0x02, ph, pl, m7, m6, m5, m4, m3, m2, m1, m0, rest @ ..] => {
            let participant = Participant::from_bytes([*ph, *pl]);
            let what = Amount::Money(Money::from_bytes([*m7, *m6, *m5, *m4, *m3, *m2, *m1, *m0]));
            (Command::PayIn { participant, what }, rest)
        }
        [0x03, rest @ ..] => (Command::Open, rest),
        [0x20, rest @ ..] => (Command::Strike, rest),
        [0x23, rule, rest @ ..] => {
            let rule = Rule::try_from(*rule);
            (Command::Deal { rule }, rest)
        }
        [0x24, rest @ ..] => (Command::Annul, rest),
        [0x30, rest @ ..] => (Command::Close, rest),
        _ => with_order(tape),
    }
}

/// Takes a whole command about an order apart: a submit, a withdraw or an add.
fn with_order(tape: &[u8]) -> (Command, &[u8])
    requires { (w : ℕ) × (1 < w) × (2 < slice_index tape.now 0) × Whole w tape.now }
    ensures { Ok (result.0, result.1.now) ≡ read_one tape.now }
{
    match tape {
        // by a guard: with an @ inside, the formatter sets a pattern of this length one name to a line
        [byte, ph, pl, c3, c2, c1, c0, l3, l2, l1, l0, rest @ ..] if matches!(*byte, 0x10 | 0x11) =>
            {
                let order = NewOrder {
                    participant: Participant::from_bytes([*ph, *pl]),
                    side: side_of(*byte),
                    limit: Price::from_bytes([*c3, *c2, *c1, *c0]),
                    lots: Lots::from_bytes([*l3, *l2, *l1, *l0]),
                };
                (Command::Submit(order), rest)
            }
        [0x12, ph, pl, o1, o0, rest @ ..] => {
            let participant = Participant::from_bytes([*ph, *pl]);
            let order = OrderNumber::from_bytes([*o1, *o0]);
            (Command::Withdraw { participant, order }, rest)
        }
        [byte @ (0x21 | 0x22), ph, pl, l3, l2, l1, l0, rest @ ..] => {
            let command = Command::Add {
                participant: Participant::from_bytes([*ph, *pl]),
                side: side_of(*byte),
                lots: Lots::from_bytes([*l3, *l2, *l1, *l0]),
            };
            (command, rest)
        }
        // the table has no other command with an order
        _ => unreachable!(),
    }
}

/// The side that the byte of a submit or an add stands for.
fn side_of(byte: u8) -> Side
    ensures { result ≡ cond (byte == 16 || byte == 33) Sell Buy }
{
    match byte {
        0x10 | 0x21 => Side::Sell,
        _ => Side::Buy,
    }
}

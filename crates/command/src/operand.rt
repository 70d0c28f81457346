//! Operands made of their bytes, high byte first.

ghost use Rattle.std.specs.Prelude.{◌≡◌, ℕ};
ghost use Rattle.std.proofs.Common.{refl};
ghost use Rattle.command.specs.Operands.{number, as_lots, as_money, as_order_number, as_participant, as_price};

use market::OrderNumber;
use units::{Lots, Money, Participant, Price};

/// A quantity that stands on the tape as a number of so many bytes.
// A trait for the one name of five conversions, each with its law. Its callers know the type from the pattern that takes the
// bytes, and name it; a generic reader would only make the same call.
pub(crate) trait Operand<const WIDTH: usize> {
    /// The quantity that a number stands for.
    ghost standing_for: { ℕ → Self };

    /// The number that a quantity has.
    ghost number_of: { Self → ℕ };

    fn from_bytes(bytes: [u8; WIDTH]) -> Self
        ensures { result ≡ standing_for (number bytes.entry) };

    // no two numbers are one quantity
    ghost alone: { (n : ℕ) → number_of (standing_for n) ≡ n };
}

impl Operand<2> for Participant {
    ghost standing_for = { as_participant };

    ghost number_of = { λ p. p.0 };

    ghost alone = { λ n. refl };

    fn from_bytes(bytes: [u8; 2]) -> Participant
        ensures { result ≡ as_participant (number bytes) }
    {
        Participant(u16::from_be_bytes(bytes))
    }
}

impl Operand<2> for OrderNumber {
    ghost standing_for = { as_order_number };

    ghost number_of = { λ n. n.0 };

    ghost alone = { λ n. refl };

    fn from_bytes(bytes: [u8; 2]) -> OrderNumber
        ensures { result ≡ as_order_number (number bytes) }
    {
        OrderNumber(u16::from_be_bytes(bytes))
    }
}

impl Operand<4> for Price {
    ghost standing_for = { as_price };

    ghost number_of = { λ p. p.0 };

    ghost alone = { λ n. refl };

    fn from_bytes(bytes: [u8; 4]) -> Price
        ensures { result ≡ as_price (number bytes) }
    {
        Price(u32::from_be_bytes(bytes))
    }
}

impl Operand<4> for Lots {
    ghost standing_for = { as_lots };

    ghost number_of = { λ n. n.0 };

    ghost alone = { λ n. refl };

    fn from_bytes(bytes: [u8; 4]) -> Lots
        ensures { result ≡ as_lots (number bytes) }
    {
        Lots(u64::from(u32::from_be_bytes(bytes)))
    }
}

impl Operand<8> for Money {
    ghost standing_for = { as_money };

    ghost number_of = { λ m. m.0 };

    ghost alone = { λ n. refl };

    fn from_bytes(bytes: [u8; 8]) -> Money
        ensures { result ≡ as_money (number bytes) }
    {
        Money(u128::from(u64::from_be_bytes(bytes)))
    }
}

ghost use Rattle.std.specs.Prelude.{◌≡◌};

use super::order::{OrderNumber, Resting};
use std::fmt;
use units::{Lots, Price};

/// A line of the deal list.
#[derive(Clone, Copy, Debug, PartialEq, Eq, Default)]
pub struct Deal {
    pub sell: OrderNumber,
    pub buy: OrderNumber,
    pub price: Price,
    pub lots: Lots,
}

/// A line of the cancellation list: what was annulled of an order.
#[derive(Clone, Copy, Debug, PartialEq, Eq, Default)]
pub struct Cancellation {
    pub order: OrderNumber,
    pub lots: Lots,
}

impl From<Resting> for Cancellation {
    ghost use Rattle.market.specs.Calls.{cancellation_of};

    ghost from_gives = { λ entry line. line ≡ cancellation_of entry };

    fn from(entry: Resting) -> Cancellation {
        Cancellation {
            order: entry.order.number,
            lots: entry.lots,
        }
    }
}

/// The line of a deal: its mark, and its fields in decimal.
impl fmt::Display for Deal {
    ghost use Rattle.std.specs.Prelude.{Some};
    ghost use Rattle.std.specs.List.{join_with_byte};
    ghost use Rattle.market.specs.Texts.{deal_fields};

    ghost output = { λ deal. Some (join_with_byte 32 (deal_fields deal)) };

    fn fmt<W: fmt::Write>(&self, f: &mut fmt::Formatter<W>) -> fmt::Result {
        let Deal {
            sell,
            buy,
            price,
            lots,
        } = self;
        write!(f, "D {sell} {buy} {price} {lots}")
    }
}

/// The line of a cancellation: its mark, and its fields in decimal.
impl fmt::Display for Cancellation {
    ghost use Rattle.std.specs.Prelude.{Some};
    ghost use Rattle.std.specs.List.{join_with_byte};
    ghost use Rattle.market.specs.Texts.{cancellation_fields};

    ghost output = { λ line. Some (join_with_byte 32 (cancellation_fields line)) };

    fn fmt<W: fmt::Write>(&self, f: &mut fmt::Formatter<W>) -> fmt::Result {
        let Cancellation { order, lots } = self;
        write!(f, "C {order} {lots}")
    }
}

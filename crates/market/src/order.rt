ghost use Rattle.std.specs.Prelude.{◌≡◌};
ghost use Rattle.market.specs.Orders.{away_from_best, queue_after, meets, cover_of};
ghost use Rattle.std.proofs.Common.{rules};

use depository::Amount;
use ordered_list::Ranked;
use std::fmt;
use units::{Lots, Participant, Price, Side};

/// The number of an accepted order: 1, 2 and so on, as they come.
#[derive(Clone, Copy, Debug, PartialEq, Eq, PartialOrd, Ord, Default)]
pub struct OrderNumber(pub u16);

// the number in decimal
impl fmt::Display for OrderNumber {
    ghost use Rattle.std.specs.Prelude.{Some, decimal};

    ghost output = { λ n. Some (decimal n.0) };

    fn fmt<W: fmt::Write>(&self, f: &mut fmt::Formatter<W>) -> fmt::Result {
        let OrderNumber(number) = self;
        write!(f, "{number}")
    }
}

/// An order as it is handed in.
#[derive(Clone, Copy, Debug, PartialEq, Eq)]
pub struct NewOrder {
    pub participant: Participant,
    pub side: Side,
    pub limit: Price,
    pub lots: Lots,
}

impl NewOrder {
    /// Whether an order of the other side with this limit meets it: the sell's limit is at or below the buy's.
    pub fn meets(self, other: Price) -> bool
        ensures { result ≡ meets self.side self.limit.0 other.0 }
    {
        match self.side {
            Side::Sell => self.limit <= other,
            Side::Buy => other <= self.limit,
        }
    }

    /// The record that it has once it is accepted under this number.
    pub fn numbered(self, number: OrderNumber) -> Order
        ensures { result ≡ record { number = number; participant = self.participant; side = self.side; limit = self.limit; accepted = self.lots } }
    {
        Order {
            number,
            participant: self.participant,
            side: self.side,
            limit: self.limit,
            accepted: self.lots,
        }
    }
}

/// The record of an accepted order. It stays for good.
#[derive(Clone, Copy, Debug, PartialEq, Eq, Default)]
pub struct Order {
    pub number: OrderNumber,
    pub participant: Participant,
    pub side: Side,
    pub limit: Price,
    pub accepted: Lots,
}

/// An order that waits in a queue, with the lots that wait of it.
#[derive(Clone, Copy, Debug, PartialEq, Eq, Default)]
pub struct Resting {
    pub order: Order,
    pub lots: Lots,
}

impl Resting {
    /// All of an order waits.
    pub fn whole(order: Order) -> Resting
        ensures order { result.order ≡ order }
        ensures lots { result.lots ≡ order.accepted }
    {
        Resting {
            order,
            lots: order.accepted,
        }
    }

    /// What is blocked for it: the lots of a sell, limit times lots for a buy.
    pub fn cover(self) -> Amount
        ensures { result ≡ cover_of self }
    {
        match self.order.side {
            Side::Sell => Amount::Lots(self.lots),
            Side::Buy => Amount::Money(self.order.limit.times(self.lots)),
        }
    }

    /// How far the limit is from the best that its side can offer: sells queue price upward, buys price downward.
    fn distance(self) -> u32
        ensures { result ≡ away_from_best self }
    {
        match self.order.side {
            Side::Sell => self.order.limit.0,
            Side::Buy => Price::HIGHEST.saturating_sub(self.order.limit.0),
        }
    }
}

// the better limit goes first, and of one limit the lower number
impl Ranked for Resting {
    ghost after = { queue_after };

    ghost apart = { Prim.search rules };

    ghost chain = { Prim.search rules };

    ghost alike = { Prim.search rules };

    fn ranks_after(&self, other: &Resting) -> bool {
        (self.distance(), self.order.number) > (other.distance(), other.order.number)
    }
}

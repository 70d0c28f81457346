ghost use Rattle.std.specs.Prelude.{◌≡◌};
ghost use Rattle.units.specs.Ranges.{is_price, is_order_size};
ghost use Rattle.units.specs.Worth.{worth};

use std::fmt;

/// A price in whole price steps. An order's limit and a cut-off lie from 1 to 1,000,000,000.
#[derive(Clone, Copy, Debug, PartialEq, Eq, PartialOrd, Ord, Default)]
pub struct Price(pub u32);

/// A number of lots. One order has 1 to 1,000,000, all participants together at most 10^12.
#[derive(Clone, Copy, Debug, PartialEq, Eq, PartialOrd, Ord, Default)]
pub struct Lots(pub u64);

/// Money: price steps times lots. All participants together have at most 10^18.
/// It is wide enough for any price times any lots, so a product is never refused.
#[derive(Clone, Copy, Debug, PartialEq, Eq, PartialOrd, Ord, Default)]
pub struct Money(pub u128);

impl Price {
    // Public constants, here and below: numbers, and no values of the type, as the crates above count with some of them.
    pub const LOWEST: u32 = 1;

    pub const HIGHEST: u32 = 1_000_000_000;

    /// Whether an order may have this price as its limit.
    pub fn in_range(self) -> bool
        ensures { result ≡ is_price self }
    {
        (Self::LOWEST..=Self::HIGHEST).contains(&self.0)
    }

    /// What so many lots cost at this price.
    pub fn times(self, lots: Lots) -> Money
        ensures { result ≡ worth self lots }
    {
        Money(u128::from(self.0) * u128::from(lots.0))
    }
}

impl Lots {
    pub const LEAST_ORDER: u64 = 1;

    pub const LARGEST_ORDER: u64 = 1_000_000;
    /// The most lots that all participants together may hold.
    pub const GREATEST_TOTAL: u64 = 1_000_000_000_000;

    /// Whether one order may have so many lots.
    pub fn in_order_range(self) -> bool
        ensures { result ≡ is_order_size self }
    {
        (Self::LEAST_ORDER..=Self::LARGEST_ORDER).contains(&self.0)
    }
}

impl Money {
    /// The most money that all participants together may hold.
    pub const GREATEST_TOTAL: u128 = 1_000_000_000_000_000_000;
}

// the number in decimal
impl fmt::Display for Price {
    ghost use Rattle.std.specs.Prelude.{Some, decimal};

    ghost output = { λ price. Some (decimal price.0) };

    fn fmt<W: fmt::Write>(&self, f: &mut fmt::Formatter<W>) -> fmt::Result {
        let Price(steps) = self;
        write!(f, "{steps}")
    }
}

// the number in decimal
impl fmt::Display for Lots {
    ghost use Rattle.std.specs.Prelude.{Some, decimal};

    ghost output = { λ lots. Some (decimal lots.0) };

    fn fmt<W: fmt::Write>(&self, f: &mut fmt::Formatter<W>) -> fmt::Result {
        let Lots(count) = self;
        write!(f, "{count}")
    }
}

// the number in decimal
impl fmt::Display for Money {
    ghost use Rattle.std.specs.Prelude.{Some, decimal};

    ghost output = { λ money. Some (decimal money.0) };

    fn fmt<W: fmt::Write>(&self, f: &mut fmt::Formatter<W>) -> fmt::Result {
        let Money(amount) = self;
        write!(f, "{amount}")
    }
}

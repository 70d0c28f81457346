ghost use Rattle.std.specs.Prelude.{◌≡◌};
ghost use Rattle.depository.specs.Amounts.{size, most_of};

use units::{Lots, Money};

/// An amount of lots or of money.
#[derive(Clone, Copy, Debug, PartialEq, Eq)]
pub enum Amount {
    Lots(Lots),
    Money(Money),
}

impl Amount {
    /// How many lots, or how much money.
    pub(crate) fn size(self) -> u128
        ensures { result ≡ size self }
    {
        match self {
            Amount::Lots(n) => u128::from(n.0),
            Amount::Money(n) => n.0,
        }
    }

    /// The most of its kind that all participants together may hold.
    pub(crate) fn most(self) -> u128
        ensures { result ≡ most_of self }
    {
        match self {
            Amount::Lots(_) => u128::from(Lots::GREATEST_TOTAL),
            Amount::Money(_) => Money::GREATEST_TOTAL,
        }
    }
}

ghost use Rattle.std.specs.Prelude.{◌≡◌};
ghost use Rattle.units.specs.Ranges.{is_participant};

use std::fmt;

/// The number of a participant. The market has 1 to 64; any other number is nobody's, and calls refuse it.
#[derive(Clone, Copy, Debug, PartialEq, Eq, PartialOrd, Ord, Default)]
pub struct Participant(pub u16);

impl Participant {
    pub const FIRST: u16 = 1;

    pub const LAST: u16 = 64;

    /// Whether somebody has this number.
    // A line of its own, as `Price::in_range` and `Lots::in_order_range`: the three have numbers of three widths.
    pub fn is_known(self) -> bool
        ensures { result ≡ is_participant self }
    {
        (Self::FIRST..=Self::LAST).contains(&self.0)
    }
}

// the number in decimal
impl fmt::Display for Participant {
    ghost use Rattle.std.specs.Prelude.{Some, decimal};

    ghost output = { λ who. Some (decimal who.0) };

    fn fmt<W: fmt::Write>(&self, f: &mut fmt::Formatter<W>) -> fmt::Result {
        let Participant(number) = self;
        write!(f, "{number}")
    }
}

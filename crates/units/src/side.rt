ghost use Rattle.std.specs.Prelude.{◌≡◌};
ghost use Rattle.units.specs.Sides.{counter};

/// The side of an order. The default is for memory that holds no order yet.
#[derive(Clone, Copy, Debug, PartialEq, Eq, Default)]
pub enum Side {
    #[default]
    Sell,
    Buy,
}

impl Side {
    /// The side that this one deals with.
    pub fn opposite(self) -> Side
        ensures { result ≡ counter self }
    {
        match self {
            Side::Sell => Side::Buy,
            Side::Buy => Side::Sell,
        }
    }
}

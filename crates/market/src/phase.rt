ghost use Rattle.std.specs.Prelude.{◌≡◌};

use units::Price;

/// Where a session stands. Between strike and what ends it (deal or annul) there is a cut-off.
#[derive(Clone, Copy, Debug, PartialEq, Eq)]
pub enum Phase {
    Gathering,
    Struck { cut_off: Price },
    Continuous,
    Closed,
}

impl Phase {
    ghost use Rattle.market.specs.State.{is_gathering, is_struck, is_trading, is_closed};

    /// Whether orders are taken, and a cut-off can be struck.
    pub fn is_gathering(self) -> bool
        ensures { result ≡ is_gathering self }
    {
        matches!(self, Phase::Gathering)
    }

    /// Whether there is a cut-off, and the iteration has still to end.
    pub fn is_struck(self) -> bool
        ensures { result ≡ is_struck self }
    {
        matches!(self, Phase::Struck { .. })
    }

    /// Whether orders can be withdrawn, and the session closed.
    pub fn is_trading(self) -> bool
        ensures { result ≡ is_trading self }
    {
        matches!(self, Phase::Gathering | Phase::Continuous)
    }

    /// Whether all is over.
    pub fn is_closed(self) -> bool
        ensures { result ≡ is_closed self }
    {
        matches!(self, Phase::Closed)
    }
}

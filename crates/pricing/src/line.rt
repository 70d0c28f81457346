ghost use Rattle.std.specs.Prelude.{◌≡◌};
ghost use Rattle.pricing.specs.Candidates.{volume_of, imbalance_of};
ghost use Rattle.pricing.specs.Lines.{by_price, summary_of};
ghost use Rattle.std.proofs.Common.{rules};

use market::SummaryLine;
use ordered_list::{OrderedArray, Ranked};
use units::{Lots, Price};

/// What waits at a limit: the sell lots with limits at or below it, and the buy lots with limits at or above it.
#[derive(Clone, Copy, Default)]
pub(crate) struct Line {
    pub(crate) price: Price,
    pub(crate) supply: Lots,
    pub(crate) demand: Lots,
}

/// A line for each limit that two queues have: they have 1024 at the most.
pub(crate) type Lines = OrderedArray<Line, 1024>;

// price downward
impl Ranked for Line {
    ghost after = { by_price };

    ghost apart = { Prim.search rules };

    ghost chain = { Prim.search rules };

    ghost alike = { Prim.search rules };

    fn ranks_after(&self, other: &Line) -> bool {
        self.price < other.price
    }
}

impl Line {
    /// What can deal at the price.
    pub(crate) fn volume(self) -> Lots
        ensures { result.0 ≡ volume_of self }
    {
        self.supply.min(self.demand)
    }

    /// How far supply and demand are apart.
    pub(crate) fn imbalance(self) -> Lots
        ensures { result.0 ≡ imbalance_of self }
    {
        Lots(self.supply.0.abs_diff(self.demand.0))
    }
}

/// The line as the summary has it.
impl From<Line> for SummaryLine {
    ghost from_gives = { λ line r. r ≡ summary_of line };

    fn from(line: Line) -> SummaryLine {
        SummaryLine {
            price: line.price,
            supply: line.supply,
            demand: line.demand,
            volume: line.volume(),
            difference: i128::from(line.supply.0) - i128::from(line.demand.0),
        }
    }
}

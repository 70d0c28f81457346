use units::{Lots, Price};

/// What waits at a limit: the sell lots with limits at or below it, the buy lots with limits at or above it, the lesser of
/// the two, and the first less the second.
#[derive(Clone, Copy, Debug, PartialEq, Eq)]
pub struct SummaryLine {
    pub price: Price,
    pub supply: Lots,
    pub demand: Lots,
    pub volume: Lots,
    /// Wide enough for any lots less any lots.
    pub difference: i128,
}

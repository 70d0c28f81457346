use units::Lots;

/// A line of a price level: the lots that wait there, and the share of the total that a rule writes beside them.
#[derive(Clone, Copy, Debug, PartialEq, Eq)]
pub struct Share {
    pub lots: Lots,
    pub share: Lots,
}

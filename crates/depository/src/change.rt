use super::amount::Amount;

/// What can be done to one account.
// Data and no closure: what a change gives is said by cases, for every store alike.
#[derive(Clone, Copy, PartialEq, Eq)]
pub enum Change {
    /// From free to blocked.
    Block(Amount),
    /// From blocked to free.
    Release(Amount),
    /// More is free.
    Gain(Amount),
    /// Less is free.
    Lose(Amount),
    /// Less is blocked.
    Surrender(Amount),
}

#![tactic(auto)]

//! How a total is shared out among the lines of one price level: what every sharing rule promises, and two rules.

mod by_time;
mod check;
mod fault;
mod pro_rata;
mod rule;
mod shares;
mod take;
mod worked;

pub use by_time::ByTime;
pub use check::{LARGEST_LINE, MOST_LINES, checked_sum};
pub use fault::SharingFault;
pub use pro_rata::ProRata;
pub use rule::SharingRule;
pub use shares::Share;
pub use worked::worked_cases;

#![tactic(auto)]

//! What two queues of waiting orders say of prices: the best limit, the summary of what can deal at each limit, and the
//! cut-off.

mod best_limit;
mod candidates;
mod level;
mod line;
mod span;
mod waiting;

pub use best_limit::best;
pub use level::lots_in;
pub use waiting::Waiting;

#![tactic(auto)]

//! The words of the session: orders, queues, deals, calls and their answers. What they mean, what each call gives and what
//! holds after every run of calls is in specs/.

mod call;
mod deal;
mod fault;
mod order;
mod phase;
mod summary;
mod worked;

pub use call::{Answer, Call, Outcome};
pub use deal::{Cancellation, Deal};
pub use fault::SessionFault;
pub use order::{NewOrder, Order, OrderNumber, Resting};
pub use phase::Phase;
pub use summary::SummaryLine;
pub use worked::worked_cases;

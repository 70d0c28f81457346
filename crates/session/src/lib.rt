#![tactic(auto)]

//! A session over any depository: it gathers orders, strikes one price, and annuls.

mod annulling;
mod book;
mod ending;
mod open;
mod queue;
mod reading;
mod runs;
mod session;
mod slip;
mod slots;
mod strike;
mod submit;
mod withdraw;

pub use runs::run;
pub use session::Session;
pub use slip::StrikeSlip;

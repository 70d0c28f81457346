#![tactic(auto)]

//! Prices, lots, money, sides, participants, and the code that a refusal carries.

mod participant;
mod quantity;
mod refusal;
mod side;

pub use participant::Participant;
pub use quantity::{Lots, Money, Price};
pub use refusal::RefusalCode;
pub use side::Side;

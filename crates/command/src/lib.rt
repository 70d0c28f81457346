#![tactic(auto)]

//! The commands of a tape: their layout as bytes, and reading the one at the tape's front.

mod command;
mod fault;
mod operand;
mod reading;
mod rule;
mod table;

pub use command::Command;
pub use fault::TapeFault;
pub use reading::read;
pub use rule::{Rule, UnknownRule};
pub use table::{FORMATS, width_of};

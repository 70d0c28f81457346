#![tactic(auto)]

//! A depository that has a place for every participant.

mod calls;
mod table;

pub use table::TableDepository;

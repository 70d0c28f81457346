#![tactic(auto)]

//! A depository that has entries only for those who hold something, in an ordered list.

mod calls;
mod entry;
mod exchange;
mod sparse;

pub use sparse::SparseDepository;

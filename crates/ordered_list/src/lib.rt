#![tactic(auto)]

//! One list for lines of any kind that have an order, kept in memory that the caller lends, or with memory of its
//! own.

mod array;
mod edit;
mod fault;
mod list;
mod position;
mod ranked;

pub use array::OrderedArray;
pub use fault::ListFault;
pub use list::OrderedList;
pub use ranked::Ranked;

#![tactic(auto)]

//! The text of a result: a line for each answer, deal and cancellation, fields in decimal with one space between.

mod text;

pub use text::{lines_of, refusal_line};

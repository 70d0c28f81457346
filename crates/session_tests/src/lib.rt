#![tactic(auto)]

//! Tests of the session on the compiled code, at its edges, over both depositories.

#[cfg(test)]
mod edges;
#[cfg(test)]
mod orders;
#[cfg(test)]
mod reading;

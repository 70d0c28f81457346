#![tactic(auto)]

//! Runs of the layers on cases worked out by hand.

#[cfg(test)]
mod depositories;
#[cfg(test)]
mod numbers;
#[cfg(test)]
mod ordered_arrays;
#[cfg(test)]
mod ordered_lists;
#[cfg(test)]
mod sharing_rules;

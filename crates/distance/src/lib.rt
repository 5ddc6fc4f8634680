// The shortest distance to the final states: the least cost still to come from each state.
#![tactic(auto)]

mod cells;
mod entry;
mod near;

pub use entry::{costs_accepted, costs_to_come};
pub use near::{distances, unvalidated};

// Trimming: what lies on accepting paths.
#![tactic(auto)]

mod renumber;
mod trimming;

pub use trimming::{trim, trim_into};

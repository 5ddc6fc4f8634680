// Composition with the epsilon-sequencing filter (paper 01: the join).
#![tactic(auto)]

mod entry;
mod finish;
mod sides;
mod walking;

pub use entry::{compose, compose_into};

// Counts of paths that stop at 99, and marks of counted and live states.
#![tactic(auto)]

mod capped;
mod marks;

pub use capped::{MOST, own};
pub use marks::{all_marked, dead_unmarked, mark_dead};

// A count of paths: 99 stands for 99 or more.
// C is told 99 for 99 or more.
#[derive(Clone, Copy, PartialEq, Eq, PartialOrd, Ord, Debug)]
pub struct Count {
    pub value: u8,
}

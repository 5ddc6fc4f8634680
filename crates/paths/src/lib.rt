// Accepting paths: their count, and the k-th path.
#![tactic(auto)]

mod counts;
mod entry;
mod path;
mod sorted;

use capped::Count;
pub use entry::{
    count as path_count, count_accepted, counts_by_state, nth as nth_path, nth_accepted,
};
pub use path::nth_arcs;
use transducer::MAX_STATES;

// The counts of the accepting paths from each state; where infinitely many go from a state, its count says nothing. The variant says whether those from
// the start are infinitely many.
// Both variants have the counts: they are promised of the other states too where paths are infinitely many.
#[derive(Clone, Copy)]
pub enum Totals {
    Finite([Count; MAX_STATES]),
    Endless([Count; MAX_STATES]),
}

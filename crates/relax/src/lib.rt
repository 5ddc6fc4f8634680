// By state, the least cost to come and the size of a path that has it, on their way: what is known first, and one arc relaxed.
#![tactic(auto)]

mod begun;
mod relaxing;
mod sizes;

pub use begun::{FEW_STATES, begin, is_small};
pub use relaxing::{Change, relax};
pub use sizes::{UNREACHED, arc_size, arcs_of, comes_first, sum};

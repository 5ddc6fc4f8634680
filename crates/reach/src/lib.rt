// The states that paths reach, and the arcs by their targets.
#![tactic(auto)]

mod arcs;
mod cells;
mod index;
mod marks;
mod stack;
mod sweep;

pub use arcs::{source, target};
pub use cells::{cell_of, link_of, state_of};
pub use index::by_target;
pub use marks::{accessible, coaccessible, coaccessible_chained};

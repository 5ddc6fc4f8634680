// Arcs relaxed until none makes a state better: by a sweep, and by a queue where that does not settle all.
#![tactic(auto)]

mod queue;
mod seek;
mod sweep;
mod worklist;

pub use seek::first_arc;
pub use sweep::{can_sweep_by_state, is_plain, sweep_once};
pub use worklist::drain;

// The shortest path: the accepting path of least cost, then fewest labels written, then fewest arcs, then first in path order.
#![tactic(auto)]

mod entry;
mod walk;

pub use entry::{shortest_accepted, shortest_path};

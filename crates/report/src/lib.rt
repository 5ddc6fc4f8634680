// A path told: its cost, how many arcs and labels it has, and its labels.
#![tactic(auto)]

mod path;

pub use path::{answer, put_labels, tell};

// Where an accepting path ends: its last state, what its arcs cost, and how many labels it writes.
#[derive(Clone, Copy)]
pub struct PathEnd {
    pub state: usize,
    pub cost: i64,
    pub labels: usize,
}

// What is told of a path beside its arcs and labels: what it costs, and how many of them there are.
#[derive(Clone, Copy, Debug, PartialEq, Eq)]
pub struct PathNumbers {
    pub cost: i64,
    pub arcs: u32,
    pub labels: u32,
}

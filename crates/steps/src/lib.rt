// The steps of a composed state, by the epsilon-sequencing filter (paper 01: what comes from a triple): packed states, the right arcs by
// look-up, and steps in runs.
#![tactic(auto)]

mod keys;
mod lookup;
mod runs;

pub use keys::{pack, unpack};
pub use lookup::{LABEL_BUCKETS, first_any, put_chains};
pub use runs::{left_origin, next_run, only_label, right_origin, run_of, step_of};

// The arcs that a step of the composition comes from: an arc of the left transducer alone, of the right one alone, or one of each.
#[derive(Clone, Copy)]
pub enum Origin {
    Left(u16),
    Right(u16),
    Both(u16, u16),
}

// A composed state: a left state, a right state and the filter state.
#[derive(Clone, Copy)]
pub struct State {
    pub left: u32,
    pub right: u32,
    pub filter: u32,
}

// A step from a composed state; its target is a packed state.
#[derive(Clone, Copy)]
pub struct Step {
    pub origin: Origin,
    pub input: u16,
    pub output: u16,
    pub target: u32,
    pub weight: i32,
}

// Steps that differ in their right arc alone: of one left arc alone, of one left arc with each right arc that fits `label`, or of the
// right arcs alone that read nothing (then `left` is 65,535). The right part of `target` is where a left arc alone leads; a right arc leads
// to its own target.
// It is no enum: `step_of`, which docs/MAP.md names, takes any of these.
#[derive(Clone, Copy)]
pub struct Run {
    pub alone: bool,
    pub left: u16,
    pub label: u16,
    pub input: u16,
    pub target: State,
    pub weight: i32,
}

// Where the next run begins: at left arc `i`, or behind the last one, with right arc `j`.
// It is no enum: `run_of`, which docs/MAP.md names, takes any of these.
#[derive(Clone, Copy)]
pub struct Begin {
    pub alone: bool,
    pub i: usize,
    pub j: usize,
}

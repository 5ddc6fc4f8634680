// Applying an input string to a transducer.
#![tactic(auto)]

mod applying;
mod packing;
mod trimming;

pub use applying::{apply, apply_into, string_ok};

// A lattice state: a position in the string (paper 01: a place) and a state of the transducer.
#[derive(Clone, Copy)]
pub struct State {
    pub position: u32,
    pub state: u32,
}

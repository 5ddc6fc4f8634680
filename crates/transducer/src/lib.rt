// A weighted transducer's bytes: refusals 1 to 8, arcs and finals read straight from accepted bytes, and records written.
#![tactic(auto)]

mod accepted;
mod check;
mod naming;
mod preparing;
mod refusals;
mod store;

pub use accepted::{arc_of, header as head_of, plus, put_codes, put_index, weight_of};
pub use bounds::{
    ANY, ARC_BYTES, BARRED, FINAL_BYTES, HEAD_BYTES, INDEX_LEN, MAX_ARCS, MAX_BYTES, MAX_COUNT,
    MAX_FIELDS, MAX_ORIGINS, MAX_PATH, MAX_STATES, MAX_SYMBOLS, MAX_WEIGHT, MIN_WEIGHT, Refusal,
    arcs_at, head_ok, weight_ok,
};
pub use check::{
    ARC_WORD, FINAL_WORD, check_arc, check_final, load_arc, load_final, restart, verdict,
};
pub use naming::{label_at, no_any_input, passed};
pub use preparing::{Shape, prepare, shape_of};
pub use refusals::{ensure_accepted, validate};
pub use store::{put_arc, put_final, put_head};

// An arc: from its source, reading one label and writing one, to its target, at a weight.
#[derive(Clone, Copy, Debug, PartialEq, Eq)]
pub struct Arc {
    pub source: u16,
    pub input: u16,
    pub output: u16,
    pub target: u16,
    pub weight: i32,
}

// A final state with its final weight.
#[derive(Clone, Copy, Debug, PartialEq, Eq)]
pub struct Final {
    pub state: u16,
    pub weight: i32,
}

// The tests that have passed so far: heads of records, 5 states, 6 order, 7 labels, 8 weights; and the least state that may come next.
#[derive(Clone, Copy, Debug, PartialEq, Eq)]
pub struct Checks {
    pub heads: bool,
    pub states: bool,
    pub order: bool,
    pub labels: bool,
    pub weights: bool,
    pub floor: u32,
}

// What validating tells of accepted bytes: a weight that none of the arcs is below; `top_sorted` only if each arc leads to a higher state,
// `no_output_epsilon` only if each writes a label, `no_any_input` only if none is for any symbol.
#[derive(Clone, Copy, Debug, PartialEq, Eq)]
pub struct Facts {
    pub least: i32,
    pub top_sorted: bool,
    pub no_output_epsilon: bool,
    pub no_any_input: bool,
}

// A head's numbers.
#[derive(Clone, Copy, Debug, PartialEq, Eq)]
pub struct Head {
    pub states: u32,
    pub arcs: u32,
    pub finals: u32,
    pub start: u32,
}

// The limits of paper 01, the sizes of records in bytes, and the tests of numbers against them.
#![tactic(auto)]

ghost use Rattle.std.specs.Prelude.{◌≡◌, ◌<◌};
ghost use Rattle.bounds.specs.Bounds.{arcs_at, weight_good, labels_good, head_good, first_of};
ghost use Rattle.bounds.specs.Refusal.{refusal_in};

mod refusals;

pub use refusals::Refusal;

pub const MAX_STATES: usize = 1024;

pub const MAX_ARCS: usize = 3072;

// An index by state has one entry more than there are states.
pub const INDEX_LEN: usize = MAX_STATES + 1;

pub const MAX_WEIGHT: i32 = 1000000;

pub const MIN_WEIGHT: i32 = -MAX_WEIGHT;

// No symbol: strings may not hold it.
pub const BARRED: u16 = 65535;

// As an input it fits any symbol that no arc of its state names, as an output it passes on the symbol read.
pub const ANY: u16 = BARRED;

// The longest string.
pub const MAX_SYMBOLS: usize = 64;

// The longest accepting path where there are finitely many.
pub const MAX_PATH: usize = MAX_STATES - 1;

// Paths are counted up to here.
pub const MAX_COUNT: u32 = 99;

// An arc's record has four fields of two bytes.
pub const MAX_FIELDS: usize = 4 * MAX_ARCS;

// A composed arc has two origins.
pub const MAX_ORIGINS: usize = 2 * MAX_ARCS;

pub const HEAD_BYTES: usize = 12;

pub const FINAL_BYTES: usize = 10;

pub const ARC_BYTES: usize = 16;

// The length of the largest transducer.
pub const MAX_BYTES: usize = HEAD_BYTES + FINAL_BYTES * MAX_STATES + ARC_BYTES * MAX_ARCS;

// Where the arcs begin behind this many finals.
pub fn arcs_at(finals: usize) -> usize
    requires { finals < 65536 }
    ensures { result ≡ arcs_at finals }
{
    HEAD_BYTES + FINAL_BYTES * finals
}

// 3: whether the head's numbers are in range.
#[tactic(auto, unfolding(crate::specs::Bounds::head_good))]
pub fn head_ok(n: u32, m: u32, f: u32, start: u32) -> bool
    ensures { result ≡ head_good n m f start }
{
    ((1 <= n) & (n <= MAX_STATES as u32)) & ((m <= MAX_ARCS as u32) & ((f <= n) & (start < n)))
}

// 7: whether an arc may bear these two labels: only one that reads any symbol passes it on.
#[tactic(auto, unfolding(crate::specs::Bounds::labels_good))]
pub fn labels_ok(input: u16, output: u16) -> bool
    ensures { result ≡ labels_good input output }
{
    if input == ANY {
        return true;
    }
    (input < ANY) & (output < ANY)
}

// 8: whether a weight is in range.
#[tactic(auto, unfolding(crate::specs::Bounds::weight_good))]
pub fn weight_ok(weight: i32) -> bool
    ensures { result ≡ weight_good weight }
{
    (MIN_WEIGHT <= weight) & (weight <= MAX_WEIGHT)
}

// The first of these tests that failed, as its refusal.
#[tactic(auto, unfolding(crate::specs::Bounds::first_of))]
pub fn first_failed(states: bool, order: bool, labels: bool, weights: bool) -> Result<(), Refusal>
    ensures { refusal_in result ≡ first_of states order labels weights }
{
    if !states {
        return Err(Refusal::States);
    }
    if !order {
        return Err(Refusal::Order);
    }
    if !labels {
        return Err(Refusal::Labels);
    }
    if !weights {
        return Err(Refusal::Weights);
    }
    Ok(())
}

// The path count and the k-th path.
ghost use Rattle.std.specs.Prelude.{◌≡◌, ◌≤◌, length};
ghost use Rattle.transducer.specs.Format.{max_path, decode, refusal};
ghost use Rattle.transducer.specs.Accepted.{FinalsByState};
ghost use Rattle.paths.specs.Sweep.{Ready, TotalsSay};
ghost use Rattle.report.specs.Answer.{told};
ghost use Rattle.paths.specs.Answer.{counted};
ghost use Rattle.paths.specs.Entry.{CountSays, accepted_count_refusal, count_refusal, NthSays, accepted_nth_refusal, nth_refusal};

use crate::{Totals, counts, path, sorted};
use report::PathNumbers;
use transducer::{INDEX_LEN, MAX_STATES, Refusal};

// The counts of the accepting paths from each state, and whether those from the start are infinitely many: what the k-th path and the
// listing share.
#[tactic(auto, using(crate::proofs::Ready::few_states))]
pub fn counts_by_state(
    table: &[u8],
    first: usize,
    states: usize,
    start: usize,
    index: &[u16; INDEX_LEN],
    codes: &[u32; MAX_STATES],
) -> Totals
    requires { Ready table.now first states index.now × (start ≡ (decode table.now).start) × FinalsByState (decode table.now) codes.now }
    ensures { TotalsSay (decode table.now) result }
{
    let arcs = index[states] as usize;
    let empty = sorted::empty_by_codes(table, states, codes);
    let mut counts = empty;
    if sorted::counts_sorted(table, first, arcs, &mut counts) {
        return Totals::Finite(counts);
    }
    counts::counts_of(table, first, states, arcs, start, empty)
}

// Counts the accepting paths of accepted bytes, 99 standing for 99 or more; refuses only with 14. Linear in states and arcs.
#[tactic(auto, using(crate::proofs::Ready::few_arcs))]
pub fn count_accepted(table: &[u8]) -> Result<u32, Refusal>
    requires { refusal table.now ≡ 0 }
    ensures { CountSays table.now (accepted_count_refusal (decode table.now)) (counted result) }
{
    let shape = transducer::shape_of(table);
    let start = shape.start;
    // By way of 32 bits, so that the compiler sees that no loop over the arcs wraps.
    let m = shape.arcs as u32 as usize;
    if let Some(all) = sorted::count_from_start(table, shape.first, m, shape.finals, start) {
        return Ok(all.value as u32);
    }
    let empty = sorted::empty_paths(table, shape.finals);
    match counts::counts_of(table, shape.first, shape.states, m, start, empty) {
        Totals::Finite(counts) => Ok(counts[start].value as u32),
        Totals::Endless(_) => Err(Refusal::Endless),
    }
}

// The number of accepting paths, 99 standing for 99 or more.
pub fn count(table: &[u8]) -> Result<u32, Refusal>
    ensures { CountSays table.now (count_refusal table.now) (counted result) }
{
    transducer::ensure_accepted(table)?;
    count_accepted(table)
}

// Puts the k-th path of accepted bytes into two lent buffers that are long enough: its arc numbers, and the labels that it writes. Refuses only with
// 14 and 15. Linear in states and arcs.
pub fn nth_accepted(
    table: &[u8],
    k: u32,
    arcs: &mut [u16],
    labels: &mut [u16],
) -> Result<PathNumbers, Refusal>
    requires { (refusal table.now ≡ 0) × (max_path ≤ length arcs.old) × (max_path ≤ length labels.old) }
    ensures { NthSays table.now k (accepted_nth_refusal (decode table.now) k)
        (told result) arcs.old arcs.new labels.old labels.new }
{
    let mut index = [0u16; transducer::INDEX_LEN];
    let mut codes = [0u32; transducer::MAX_STATES];
    let shape = transducer::prepare(table, &mut index, &mut codes);
    let start = shape.start;
    let Totals::Finite(counts) = counts_by_state(
        table,
        shape.first,
        shape.states,
        start,
        &index,
        &codes,
    ) else {
        return Err(Refusal::Endless);
    };
    let all = counts[start];
    if (all.value as u32) <= k {
        return Err(Refusal::NoSuchPath);
    }
    let len = path::nth_arcs(
        table,
        shape.first,
        shape.states,
        start,
        k,
        &index,
        &codes,
        counts,
        arcs,
    );
    Ok(report::tell(table, shape.first, start, &codes, arcs, len, labels))
}

// The k-th path: its arc numbers and the labels that it writes go into two lent buffers.
pub fn nth(
    table: &[u8],
    k: u32,
    arcs: &mut [u16],
    labels: &mut [u16],
) -> Result<PathNumbers, Refusal>
    ensures { NthSays table.now k
        (nth_refusal table.now k (length arcs.old) (length labels.old))
        (told result) arcs.old arcs.new labels.old labels.new }
{
    transducer::ensure_accepted(table)?;
    if arcs.len() < transducer::MAX_PATH {
        return Err(Refusal::Room);
    }
    if labels.len() < transducer::MAX_PATH {
        return Err(Refusal::Room);
    }
    nth_accepted(table, k, arcs, labels)
}

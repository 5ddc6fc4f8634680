// The counts of a transducer whose states are topologically sorted, as those of most lattices are: each arc leads to a higher number.
ghost use Rattle.std.specs.Prelude.{◌≡◌, ◌≤◌, length};
ghost use Rattle.transducer.specs.Format.{max_states, decode, refusal, head_finals};
ghost use Rattle.transducer.specs.Accepted.{AcceptedAt, FinalsByState};
ghost use Rattle.paths.specs.TopSorted.{EmptyPaths, PassSays, FromStartSays};

use capped::Count;
use transducer::MAX_STATES;

// The counts of the empty paths: 1 at each final state.
pub fn empty_paths(table: &[u8], finals: usize) -> [Count; MAX_STATES]
    requires { (refusal table.now ≡ 0) × (finals ≡ head_finals table.now) }
    ensures { EmptyPaths (decode table.now) (decode table.now).states result }
{
    let mut counts = [Count { value: 0 }; MAX_STATES];
    for i in 0..finals {
        // The record of final `i` stands where the arcs would begin if there were `i` finals.
        let f = transducer::load_final(table, transducer::arcs_at(i));
        counts[f.state as usize] = Count { value: 1 };
    }
    counts
}

// The counts of the empty paths from the states below `states`, by their final codes: if the codes are known, the records are not read again.
pub fn empty_by_codes(table: &[u8], states: usize, codes: &[u32; MAX_STATES]) -> [Count; MAX_STATES]
    requires { FinalsByState (decode table.now) codes.now × (states ≤ max_states) }
    ensures { EmptyPaths (decode table.now) states result }
{
    let mut counts = [Count { value: 0 }; MAX_STATES];
    for s in 0..states {
        counts[s] = capped::own(codes[s]);
    }
    counts
}

// Adds to the counts of the empty paths those of all others, in place, by one pass over the arcs, the last one first. Whether the states are topologically
// sorted: then the count that an arc adds is complete, and else the counts say nothing.
// It works in place and tells whether the states are sorted: an Option of the counts would be copied.
#[tactic(auto, using(crate::proofs::Ready::few_states))]
pub fn counts_sorted(
    table: &[u8],
    first: usize,
    arcs: usize,
    counts: &mut [Count; MAX_STATES],
) -> bool
    requires { AcceptedAt table.now first × (arcs ≡ length (decode table.now).arcs)
        × EmptyPaths (decode table.now) (decode table.now).states counts.old }
    ensures { PassSays (decode table.now) result counts.new }
{
    for i in (0..arcs).rev() {
        let s = reach::source(table, first, i);
        let to = reach::target(table, first, i);
        if to <= s {
            return false;
        }
        // A count at its most is left alone: a store that the next arc's load waits for costs more than the test.
        let here = counts[s];
        if here.value != capped::MOST {
            counts[s] = here.add(counts[to]);
        }
    }
    true
}

// The count from the start by such a pass. It hands back no array: to copy one takes longer than most of what small tables ask for.
#[tactic(auto, using(crate::proofs::Ready::start_low))]
pub fn count_from_start(
    table: &[u8],
    first: usize,
    arcs: usize,
    finals: usize,
    start: usize,
) -> Option<Count>
    requires { AcceptedAt table.now first × (arcs ≡ length (decode table.now).arcs) × (finals ≡ head_finals table.now)
        × (start ≡ (decode table.now).start) }
    ensures { FromStartSays (decode table.now) result }
{
    let mut counts = empty_paths(table, finals);
    if counts_sorted(table, first, arcs, &mut counts) {
        Some(counts[start])
    } else {
        None
    }
}

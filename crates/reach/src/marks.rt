// The accessible and the coaccessible states: marks from the start, and back from the final states.
ghost use Rattle.std.specs.Prelude.{◌≡◌, true, length};
ghost use Rattle.transducer.specs.Format.{max_states, refusal, decode, head_finals};
ghost use Rattle.transducer.specs.Path.{is_final};
ghost use Rattle.transducer.specs.Accepted.{AcceptedAt};
ghost use Rattle.reach.specs.Reach.{accessible, coaccessible};
ghost use Rattle.reach.specs.Marks.{Closure, Marked};
ghost use Rattle.reach.specs.Stack.{Chained};

use crate::{stack, sweep};
use transducer::{FINAL_BYTES, HEAD_BYTES, MAX_ARCS, MAX_STATES};

// Spreads marks until no more are to come: one sweep is enough if few arcs lead to lower states, and needs no chains. What it leaves is spread along chains
// that are made for it.
fn settle(
    table: &[u8],
    first: usize,
    states: usize,
    arcs: usize,
    back: bool,
    marks: &mut [bool; MAX_STATES],
)
    requires { AcceptedAt table.now first × (states ≡ (decode table.now).states) × (arcs ≡ length (decode table.now).arcs)
        × (length marks.old ≡ max_states) }
    ensures { Closure (decode table.now) back marks.old marks.new }
{
    if !sweep::sweep(table, first, arcs, back, marks) {
        return;
    }
    stack::spread_all(table, first, states, arcs, back, marks);
}

// The accessible states.
pub fn accessible(
    table: &[u8],
    first: usize,
    states: usize,
    arcs: usize,
    start: usize,
) -> [bool; MAX_STATES]
    requires { AcceptedAt table.now first × (states ≡ (decode table.now).states) × (arcs ≡ length (decode table.now).arcs)
        × (start ≡ (decode table.now).start) }
    ensures { Marked (accessible (decode table.now).states (decode table.now)) result }
{
    let mut marks = [false; MAX_STATES];
    marks[start] = true;
    settle(table, first, states, arcs, false, &mut marks);
    marks
}

// The final states.
fn final_marks(table: &[u8], finals: usize) -> [bool; MAX_STATES]
    requires { (refusal table.now ≡ 0) × (finals ≡ head_finals table.now) }
    ensures { Marked (is_final (decode table.now).finals) result }
{
    let mut marks = [false; MAX_STATES];
    for i in 0..finals {
        let f = transducer::load_final(table, HEAD_BYTES + FINAL_BYTES * i);
        marks[f.state as usize] = true;
    }
    marks
}

// The coaccessible states.
pub fn coaccessible(
    table: &[u8],
    first: usize,
    states: usize,
    arcs: usize,
    finals: usize,
) -> [bool; MAX_STATES]
    requires { AcceptedAt table.now first × (states ≡ (decode table.now).states) × (arcs ≡ length (decode table.now).arcs)
        × (finals ≡ head_finals table.now) }
    ensures { Marked (coaccessible (decode table.now).states (decode table.now)) result }
{
    let mut marks = final_marks(table, finals);
    settle(table, first, states, arcs, true, &mut marks);
    marks
}

// Spreads marks back along the chains that the caller has made of the arcs by their targets, until no more marks are to come.
// One function for this and `settle`, to which the chains were handed as an Option, was tried: its frame has room for the chains that `settle` makes, even if
// none are made, and counting then took half as much stack again.
fn settle_chained(
    table: &[u8],
    first: usize,
    states: usize,
    arcs: usize,
    heads: &[u32; MAX_STATES],
    next: &[u32; MAX_ARCS],
    marks: &mut [bool; MAX_STATES],
)
    requires { AcceptedAt table.now first × (states ≡ (decode table.now).states) × (arcs ≡ length (decode table.now).arcs)
        × Chained (decode table.now) true heads.now next.now × (length marks.old ≡ max_states) }
    ensures { Closure (decode table.now) true marks.old marks.new }
{
    if !sweep::sweep(table, first, arcs, true, marks) {
        return;
    }
    stack::spread_chained(table, states, true, heads, next, marks);
}

// The coaccessible states, the arcs standing in chains by their targets.
// Counting has chains to give, and trimming has none.
pub fn coaccessible_chained(
    table: &[u8],
    first: usize,
    states: usize,
    arcs: usize,
    finals: usize,
    heads: &[u32; MAX_STATES],
    next: &[u32; MAX_ARCS],
) -> [bool; MAX_STATES]
    requires { AcceptedAt table.now first × (states ≡ (decode table.now).states) × (arcs ≡ length (decode table.now).arcs)
        × (finals ≡ head_finals table.now) × Chained (decode table.now) true heads.now next.now }
    ensures { Marked (coaccessible (decode table.now).states (decode table.now)) result }
{
    let mut marks = final_marks(table, finals);
    settle_chained(table, first, states, arcs, heads, next, &mut marks);
    marks
}

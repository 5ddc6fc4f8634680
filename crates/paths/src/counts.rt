// One running count for each state, complete once all its arcs lead to states whose counts are.
ghost use Rattle.std.specs.Prelude.{◌≡◌, true, false, cond, ◌-◌, ◌≤◌, ◌<◌, length, get_or, replicate};
ghost use Rattle.transducer.specs.Format.{max_arcs, max_states, refusal, decode};
ghost use Rattle.transducer.specs.Accepted.{AcceptedAt};
ghost use Rattle.reach.specs.Stack.{Chained};
ghost use Rattle.paths.specs.declared.Totals.TheVariants.{Finite, Endless};
ghost use Rattle.paths.specs.Sweep.{TotalsSay};
ghost use Rattle.paths.specs.TopSorted.{EmptyPaths};
ghost use Rattle.paths.specs.Counting.{by_marks, OpenedArcs, Stacked, ClosedArc, Underway, Rested, Grown};

use crate::Totals;
use capped::Count;
use transducer::{FINAL_BYTES, HEAD_BYTES, MAX_ARCS, MAX_STATES};

// Puts the arcs in chains by their targets and counts those of each state, `heads` and `pending` being zeros.
// The chains are those of `reach`, whose cell 0 is none.
#[tactic(auto, using(crate::proofs::Ready::few_states, crate::proofs::Ready::few_arcs))]
fn link_arcs(
    table: &[u8],
    first: usize,
    arcs: usize,
    heads: &mut [u32; MAX_STATES],
    next: &mut [u32; MAX_ARCS],
    pending: &mut [u16; MAX_STATES],
)
    requires { AcceptedAt table.now first × (arcs ≡ length (decode table.now).arcs) × (heads.old ≡ replicate max_states 0)
        × (length next.old ≡ max_arcs)
        × (pending.old ≡ replicate max_states 0) }
    ensures { Chained (decode table.now) true heads.new next.new
        × OpenedArcs (decode table.now) (by_marks (decode table.now) (replicate max_states false)) arcs pending.new }
{
    for i in 0..arcs {
        let s = reach::source(table, first, i);
        let to = reach::target(table, first, i);
        next[i] = heads[to];
        pending[s] += 1;
        heads[to] = reach::cell_of(s, i + 1);
    }
}

// Counts the open arcs of each state, those to states that are not marked, in an array of zeros.
#[tactic(auto, using(crate::proofs::Ready::few_states, crate::proofs::Ready::few_arcs))]
fn count_open(
    table: &[u8],
    first: usize,
    arcs: usize,
    marks: &[bool; MAX_STATES],
    pending: &mut [u16; MAX_STATES],
)
    requires { AcceptedAt table.now first × (arcs ≡ length (decode table.now).arcs) × (pending.old ≡ replicate max_states 0) }
    ensures { OpenedArcs (decode table.now) (by_marks (decode table.now) marks.now) arcs pending.new }
{
    for i in 0..arcs {
        let s = reach::source(table, first, i);
        let to = reach::target(table, first, i);
        if !marks[to] {
            pending[s] += 1;
        }
    }
}

// Puts the states that are not marked and have no open arc on the stack. How many there are.
// Reach `push_marked` has another test: a function that takes the test as a closure would say in its contract what the closure answers, and be no shorter.
fn push_ready(
    states: usize,
    marks: &[bool; MAX_STATES],
    pending: &[u16; MAX_STATES],
    stack: &mut [u16; MAX_STATES],
) -> usize
    requires { (states ≤ max_states) × (length stack.old ≡ max_states) }
    ensures { Stacked states marks.now pending.now stack.new result }
{
    let mut top = 0;
    for s in 0..states {
        if !marks[s] && pending[s] == 0 {
            stack[top] = s as u16;
            top += 1;
        }
    }
    top
}

// Takes one off the open arcs of a state, which goes on the stack where that was the last. Where the stack ends.
fn drop_pending(
    u: usize,
    top: usize,
    pending: &mut [u16; MAX_STATES],
    stack: &mut [u16; MAX_STATES],
) -> usize
    requires { (u < max_states) × (length pending.old ≡ max_states) × (length stack.old ≡ max_states) × (0 < get_or pending.old u 0)
        × (get_or pending.old u 0 - 1 ≡ 0 → top < max_states) }
    ensures { ClosedArc pending.old stack.old u top pending.new stack.new result }
{
    let fewer = pending[u] - 1;
    pending[u] = fewer;
    if fewer != 0 {
        return top;
    }
    stack[top] = u as u16;
    top + 1
}

// Takes each state off the stack, marks it, and adds its count, which is complete, to those of the sources of its arcs: a source without an open arc
// goes on the stack. From a state that stays unmarked arcs lead on to unmarked ones.
fn count_all(
    table: &[u8],
    heads: &[u32; MAX_STATES],
    next: &[u32; MAX_ARCS],
    waiting: usize,
    parts: [Count; MAX_STATES],
    marks: &mut [bool; MAX_STATES],
    pending: &mut [u16; MAX_STATES],
    stack: &mut [u16; MAX_STATES],
) -> [Count; MAX_STATES]
    requires { (refusal table.now ≡ 0) × Chained (decode table.now) true heads.now next.now
        × Underway (decode table.now) marks.old pending.old stack.old waiting parts }
    ensures { Rested (decode table.now) marks.new result × Grown marks.old marks.new }
{
    let mut counts = parts;
    let mut top = waiting;
    // The stack also grows while it is emptied, so there is no index to count.
    while 0 < top {
        top -= 1;
        let s = stack[top] as usize;
        marks[s] = true;
        let whole = counts[s];
        let mut cell = heads[s];
        // A chain is followed by its links, so there is no index to count.
        while cell != 0 {
            let u = reach::state_of(cell);
            let link = reach::link_of(cell);
            cell = next[link - 1];
            counts[u] = counts[u].add(whole);
            top = drop_pending(u, top, pending, stack);
        }
    }
    counts
}

// The counts: where the start is not counted, accepting paths are infinitely many.
fn totals(counted: bool, counts: [Count; MAX_STATES]) -> Totals
    ensures { result ≡ cond counted (Finite counts) (Endless counts) }
{
    if counted {
        Totals::Finite(counts)
    } else {
        Totals::Endless(counts)
    }
}

// What is left to count where there are cycles: the dead states count 0, and those that led only to them and to counted ones are counted then.
#[tactic(auto, using(crate::proofs::Ready::few_states, crate::proofs::Ready::start_low))]
fn counts_with_cycles(
    table: &[u8],
    first: usize,
    states: usize,
    arcs: usize,
    start: usize,
    heads: &[u32; MAX_STATES],
    next: &[u32; MAX_ARCS],
    parts: [Count; MAX_STATES],
    marks: &mut [bool; MAX_STATES],
) -> Totals
    requires { AcceptedAt table.now first × (states ≡ (decode table.now).states) × (arcs ≡ length (decode table.now).arcs)
        × (start ≡ (decode table.now).start) × Chained (decode table.now) true heads.now next.now × Rested (decode table.now) marks.old parts }
    ensures { TotalsSay (decode table.now) result }
{
    let finals = (first - HEAD_BYTES) / FINAL_BYTES;
    let live = reach::coaccessible_chained(table, first, states, arcs, finals, heads, next);
    if !capped::dead_unmarked(states, &live, marks) {
        return totals(marks[start], parts);
    }
    capped::mark_dead(states, &live, marks);
    let mut pending = [0u16; MAX_STATES];
    let mut stack = [0u16; MAX_STATES];
    count_open(table, first, arcs, marks, &mut pending);
    let waiting = push_ready(states, marks, &pending, &mut stack);
    let counts = count_all(
        table,
        heads,
        next,
        waiting,
        parts,
        marks,
        &mut pending,
        &mut stack,
    );
    totals(marks[start], counts)
}

// The counts of the accepting paths from each state, and whether those from the start are infinitely many: each state is counted once all its arcs
// lead to counted ones, which takes time in proportion to states and arcs. Where no cycle keeps a state waiting, nothing else is to be known.
#[tactic(auto, using(crate::proofs::Ready::few_states))]
pub fn counts_of(
    table: &[u8],
    first: usize,
    states: usize,
    arcs: usize,
    start: usize,
    empty: [Count; MAX_STATES],
) -> Totals
    requires { AcceptedAt table.now first × (states ≡ (decode table.now).states) × (arcs ≡ length (decode table.now).arcs)
        × (start ≡ (decode table.now).start) × EmptyPaths (decode table.now) (decode table.now).states empty }
    ensures { TotalsSay (decode table.now) result }
{
    let mut heads = [0u32; MAX_STATES];
    let mut next = [0u32; MAX_ARCS];
    let mut marks = [false; MAX_STATES];
    let mut pending = [0u16; MAX_STATES];
    let mut stack = [0u16; MAX_STATES];
    link_arcs(table, first, arcs, &mut heads, &mut next, &mut pending);
    let waiting = push_ready(states, &marks, &pending, &mut stack);
    let counts = count_all(
        table,
        &heads,
        &next,
        waiting,
        empty,
        &mut marks,
        &mut pending,
        &mut stack,
    );
    if capped::all_marked(states, &marks) {
        return Totals::Finite(counts);
    }
    counts_with_cycles(
        table, first, states, arcs, start, &heads, &next, counts, &mut marks,
    )
}

// Marks that spread state by state: a state goes on a stack when it is marked, and once its arcs are followed it is done. This takes time in
// proportion to states and arcs, whatever their numbers.
ghost use Rattle.std.specs.Prelude.{◌≡◌, ◌+◌, ◌≤◌, length, replicate};
ghost use Rattle.wire.specs.Bytes.{Bytes};
ghost use Rattle.transducer.specs.Format.{max_arcs, max_states, refusal, decode};
ghost use Rattle.transducer.specs.Accepted.{AcceptedAt};
ghost use Rattle.reach.specs.Marks.{Closure};
ghost use Rattle.reach.specs.Stack.{Chained, Waiting, Served, Pushed};

use crate::{arcs, cells};
use transducer::{MAX_ARCS, MAX_STATES};

// Puts the arcs in chains, `heads` being zeros: at a state the cell of its last arc, at an arc the cell of the one before it.
// `by_target` keeps numbers of two bytes alone: one function of both would write two kinds of cells, and be no plainer.
fn chain(
    table: &[u8],
    first: usize,
    arcs: usize,
    back: bool,
    heads: &mut [u32; MAX_STATES],
    next: &mut [u32; MAX_ARCS],
)
    requires { AcceptedAt table.now first × (arcs ≡ length (decode table.now).arcs)
        × (heads.old ≡ replicate max_states 0) × (length next.old ≡ max_arcs) }
    ensures { Chained (decode table.now) back heads.new next.new }
{
    for i in 0..arcs {
        let from = arcs::from_end(table, first, i, back);
        let to = arcs::to_end(table, first, i, back);
        next[i] = heads[from];
        heads[from] = cells::cell_of(to, i + 1);
    }
}

// Puts each marked state on the stack. Answers how many there are.
// There is no heap, so that a stack is an array and the place where it ends.
fn push_marked(states: usize, marks: &[bool; MAX_STATES], stack: &mut [u16; MAX_STATES]) -> usize
    requires { (states ≤ max_states) × (length marks.now ≡ max_states) × (length stack.old ≡ max_states) }
    ensures { Pushed states marks.now stack.new result }
{
    let mut top = 0;
    for state in 0..states {
        if marks[state] {
            stack[top] = state as u16;
            top += 1;
        }
    }
    top
}

// Takes the state at `top` off the stack, and marks and puts on it those that its arcs lead to and that are not marked. One that the last arc of a chain
// leads to is not put there but followed at once: on a line each step would wait for the stack. Answers where the stack ends.
fn pop_state(
    table: &[u8],
    back: bool,
    heads: &[u32; MAX_STATES],
    next: &[u32; MAX_ARCS],
    top: usize,
    marks: &mut [bool; MAX_STATES],
    stack: &mut [u16; MAX_STATES],
) -> usize
    requires { Bytes table.now × (refusal table.now ≡ 0) × Chained (decode table.now) back heads.now next.now
        × Waiting (decode table.now) back marks.old stack.old (top + 1) }
    ensures { Served (decode table.now) back top marks.old marks.new stack.new result }
{
    let mut s = stack[top] as usize;
    let mut cell = heads[s];
    let mut end = top;
    // A chain is followed by its links, so there is no index to count.
    while cell != 0 {
        let to = cells::state_of(cell);
        let link = cells::link_of(cell);
        cell = next[link - 1];
        if marks[to] {
            continue;
        }
        marks[to] = true;
        if cell == 0 {
            s = to;
            cell = heads[s];
            continue;
        }
        stack[end] = to as u16;
        end += 1;
    }
    end
}

// Follows the arcs of all states on the stack, and of those that come on it, until none is left.
fn drain_stack(
    table: &[u8],
    back: bool,
    heads: &[u32; MAX_STATES],
    next: &[u32; MAX_ARCS],
    count: usize,
    marks: &mut [bool; MAX_STATES],
    stack: &mut [u16; MAX_STATES],
)
    requires { (refusal table.now ≡ 0) × Chained (decode table.now) back heads.now next.now
        × Waiting (decode table.now) back marks.old stack.old count }
    ensures { Closure (decode table.now) back marks.old marks.new }
{
    let mut top = count;
    // The stack also grows while it is emptied, so there is no index to count.
    while 0 < top {
        top = pop_state(table, back, heads, next, top - 1, marks, stack);
    }
}

// Spreads marks along the arcs in chains until no more are to come.
pub fn spread_chained(
    table: &[u8],
    states: usize,
    back: bool,
    heads: &[u32; MAX_STATES],
    next: &[u32; MAX_ARCS],
    marks: &mut [bool; MAX_STATES],
)
    requires { (refusal table.now ≡ 0) × (states ≡ (decode table.now).states) × Chained (decode table.now) back heads.now next.now
        × (length marks.old ≡ max_states) }
    ensures { Closure (decode table.now) back marks.old marks.new }
{
    let mut stack = [0u16; MAX_STATES];
    let count = push_marked(states, marks, &mut stack);
    drain_stack(table, back, heads, next, count, marks, &mut stack);
}

// Puts the arcs in chains and spreads marks along them.
pub fn spread_all(
    table: &[u8],
    first: usize,
    states: usize,
    arcs: usize,
    back: bool,
    marks: &mut [bool; MAX_STATES],
)
    requires { AcceptedAt table.now first × (states ≡ (decode table.now).states) × (arcs ≡ length (decode table.now).arcs)
        × (length marks.old ≡ max_states) }
    ensures { Closure (decode table.now) back marks.old marks.new }
{
    let mut heads = [0u32; MAX_STATES];
    let mut next = [0u32; MAX_ARCS];
    chain(table, first, arcs, back, &mut heads, &mut next);
    spread_chained(table, states, back, &heads, &next, marks);
}

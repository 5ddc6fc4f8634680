// A queue of the states that got better, which settles what a sweep may leave.
ghost use Rattle.std.specs.Prelude.{◌≡◌, ◌<◌, false, length, replicate, is_ok, IsOkUnless};
ghost use Rattle.transducer.specs.Format.{max_states, decode};
ghost use Rattle.transducer.specs.Accepted.{AcceptedAt};
ghost use Rattle.reach.specs.Index.{leads_to, ByTarget};
ghost use Rattle.relax.specs.Tentative.{cost_at, by_state, Tentative, Cells};
ghost use Rattle.relaxation.specs.Queue.{mark, Inside, Joins, Draining, Drains, Drained, to_do};

use crate::queue::StateQueue;
use relax::Change;
use transducer::{MAX_ARCS, MAX_STATES, Refusal};

// Relaxes arc `i` where its source is marked; where that gets better it joins the states that wait, unless it is one of them.
fn relax_and_join(
    table: &[u8],
    first: usize,
    i: usize,
    states: usize,
    marks: &[bool; MAX_STATES],
    costs: &mut [i32],
    lens: &mut [u32],
    queue: &mut StateQueue,
) -> Result<(), Refusal>
    requires { AcceptedAt table.now first × (i < length (decode table.now).arcs) × (states ≡ (decode table.now).states)
        × Tentative (decode table.now) (cost_at costs.old) (by_state lens.old) × Cells (decode table.now).states costs.old lens.old
        × Inside (decode table.now) queue.old.waits }
    ensures says { Joins (decode table.now) (mark marks.now) i
        costs.old lens.old queue.old.waits queue.old.count
        costs.new lens.new queue.new.waits queue.new.count result }
    ensures refusal { IsOkUnless result Refusal.NegativeCycle }
{
    let from = reach::source(table, first, i);
    if !marks[from] {
        return Ok(());
    }
    match relax::relax(table, first, i, states, costs, lens) {
        Change::Kept => Ok(()),
        Change::TooLong => Err(Refusal::NegativeCycle),
        Change::Better => {
            if !queue.has(from) {
                queue.push(from);
            }
            Ok(())
        }
    }
}

// Relaxes all arcs from marked states in order, with an empty queue that what gets better joins.
fn relax_all(
    table: &[u8],
    first: usize,
    states: usize,
    arcs: usize,
    marks: &[bool; MAX_STATES],
    costs: &mut [i32],
    lens: &mut [u32],
    queue: &mut StateQueue,
) -> Result<(), Refusal>
    requires { AcceptedAt table.now first × (states ≡ (decode table.now).states) × (arcs ≡ length (decode table.now).arcs)
        × Tentative (decode table.now) (cost_at costs.old) (by_state lens.old) × Cells (decode table.now).states costs.old lens.old
        × (queue.old.waits ≡ replicate max_states false) × (queue.old.count ≡ 0) }
    ensures says { Drains (decode table.now) (mark marks.now)
        (to_do (decode table.now) costs.new lens.new queue.new.count)
        costs.new lens.new queue.new.waits queue.new.count result }
    ensures refusal { IsOkUnless result Refusal.NegativeCycle }
{
    for i in 0..arcs {
        relax_and_join(table, first, i, states, marks, costs, lens, queue)?;
    }
    Ok(())
}

// Relaxes the arcs that lead to state `s`, and what gets better joins the states that wait. They stand in a chain, which is followed by links, so there is no
// index to count.
// A link of 0 is none, as `by_target` has it.
fn relax_into(
    table: &[u8],
    first: usize,
    states: usize,
    s: usize,
    heads: &[u16; MAX_STATES],
    links: &[u16; MAX_ARCS],
    marks: &[bool; MAX_STATES],
    costs: &mut [i32],
    lens: &mut [u32],
    queue: &mut StateQueue,
) -> Result<(), Refusal>
    requires { AcceptedAt table.now first × (states ≡ (decode table.now).states) × ByTarget (decode table.now) heads.now links.now
        × (s < (decode table.now).states) × Draining (decode table.now) (mark marks.now) (leads_to (decode table.now) s)
        costs.old lens.old queue.old.waits }
    ensures says { Drains (decode table.now) (mark marks.now)
        (to_do (decode table.now) costs.old lens.old queue.old.count)
        costs.new lens.new queue.new.waits queue.new.count result }
    ensures refusal { IsOkUnless result Refusal.NegativeCycle }
{
    let mut link = heads[s] as usize;
    while 0 < link {
        let i = link - 1;
        link = links[i] as usize;
        relax_and_join(table, first, i, states, marks, costs, lens, queue)?;
    }
    Ok(())
}

// Settles what a sweep may leave at marked states, by a queue of the states that got better: when one comes off, the arcs that lead to it are relaxed.
// Refuses where a path had too many arcs: a cycle below zero lies on an accepting path.
pub fn drain(
    table: &[u8],
    first: usize,
    states: usize,
    arcs: usize,
    marks: &[bool; MAX_STATES],
    costs: &mut [i32],
    lens: &mut [u32],
) -> Result<(), Refusal>
    requires { AcceptedAt table.now first × (states ≡ (decode table.now).states) × (arcs ≡ length (decode table.now).arcs)
        × Tentative (decode table.now) (cost_at costs.old) (by_state lens.old) × Cells (decode table.now).states costs.old lens.old }
    ensures says { Drained (decode table.now) (mark marks.now) costs.new lens.new (is_ok result) }
    ensures refusal { IsOkUnless result Refusal.NegativeCycle }
{
    let mut heads = [0u16; MAX_STATES];
    let mut links = [0u16; MAX_ARCS];
    reach::by_target(table, first, arcs, &mut heads, &mut links);
    let mut queue = StateQueue::new();
    relax_all(table, first, states, arcs, marks, costs, lens, &mut queue)?;
    // What is served may join the queue again, so there is no range: the queue is served until it is empty.
    while let Some(s) = queue.pop() {
        relax_into(
            table, first, states, s, &heads, &links, marks, costs, lens, &mut queue,
        )?;
    }
    Ok(())
}

// One arc relaxed.
ghost use Rattle.std.specs.Prelude.{◌≡◌, ◌<◌, length};
ghost use Rattle.transducer.specs.Format.{decode};
ghost use Rattle.transducer.specs.Accepted.{AcceptedAt};
ghost use Rattle.relax.specs.Tentative.{cost_at, by_state, Tentative, Cells, Relaxed};

use crate::sizes::{arc_size, arcs_of, comes_first, sum};

// What relaxing an arc comes to.
#[derive(Clone, Copy, PartialEq, Eq, Debug)]
pub enum Change {
    // The arc's source is kept as it is.
    Kept,
    // It got better.
    Better,
    // It would get better by a path of too many arcs, and is kept.
    TooLong,
}

// Brings the source of arc `i` up to date by its target; what that came to. Where the arc is dearer its size is not counted. A path of as many
// arcs as there are states comes back to a state: it got better by a cycle below zero.
// Costs and sizes go as two slices: of a struct of `&mut` two fields cannot be lent to one call.
pub fn relax(
    table: &[u8],
    first: usize,
    i: usize,
    states: usize,
    costs: &mut [i32],
    lens: &mut [u32],
) -> Change
    requires { AcceptedAt table.now first × (i < length (decode table.now).arcs) × (states ≡ (decode table.now).states)
        × Tentative (decode table.now) (cost_at costs.old) (by_state lens.old) × Cells (decode table.now).states costs.old lens.old }
    ensures { Relaxed (decode table.now) i costs.old lens.old
        costs.new lens.new result }
{
    let a = transducer::arc_of(table, first, i);
    let s = a.source as usize;
    let to = a.target as usize;
    let cost = sum(a.weight, costs[to]);
    if costs[s] < cost {
        return Change::Kept;
    }
    let len = lens[to] + arc_size(a.output);
    if !comes_first(cost, len, costs[s], lens[s]) {
        return Change::Kept;
    }
    if states <= arcs_of(len) {
        return Change::TooLong;
    }
    costs[s] = cost;
    lens[s] = len;
    Change::Better
}

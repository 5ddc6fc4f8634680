// The path along the first tight arcs, by the costs to come and the sizes.
ghost use Rattle.std.specs.Prelude.{◌≡◌, ◌-◌, ◌≤◌, ◌<◌, true, length, IfSome};
ghost use Rattle.wire.specs.Bytes.{filled};
ghost use Rattle.transducer.specs.Format.{max_states, decode};
ghost use Rattle.transducer.specs.Accepted.{AcceptedAt, Indexed};
ghost use Rattle.transducer.specs.Path.{runs};
ghost use Rattle.relax.specs.Tentative.{unpacked, cost_at, by_state, cost_by, size_by, Cells};
ghost use Rattle.shortest.specs.Tight.{HasArcs, first_giving, first_tight, follow};

use transducer::INDEX_LEN;

// A cost to come and a size.
#[derive(Clone, Copy)]
struct Distance {
    cost: i32,
    size: u32,
}

// The same by way of arc `i`.
fn by_arc(table: &[u8], first: usize, i: usize, costs: &[i32], lens: &[u32]) -> Distance
    requires { AcceptedAt table.now first × (i < length (decode table.now).arcs) × Cells (decode table.now).states costs.now lens.now }
    ensures { (result.cost ≡ cost_by (decode table.now) (cost_at costs.now) i)
        × (unpacked result.size ≡ size_by (decode table.now) (by_state lens.now) i) }
{
    let a = transducer::arc_of(table, first, i);
    let to = a.target as usize;
    Distance {
        cost: relax::sum(a.weight, costs[to]),
        size: lens[to] + relax::arc_size(a.output),
    }
}

// The first arc from `from` to below `to` that gives the cost and the size of state `s`, or `to` where none does.
// On the path that is walked there is always one, so that an Option would only be unwrapped.
fn first_giving(
    table: &[u8],
    first: usize,
    s: usize,
    from: usize,
    to: usize,
    costs: &[i32],
    lens: &[u32],
) -> usize
    requires { AcceptedAt table.now first × (s < (decode table.now).states) × (from ≤ to) × (to ≤ length (decode table.now).arcs)
        × Cells (decode table.now).states costs.now lens.now }
    ensures { result ≡ first_giving (to - from) (decode table.now) (cost_at costs.now)
        (by_state lens.now) s from }
{
    for i in from..to {
        let by = by_arc(table, first, i, costs, lens);
        if !relax::comes_first(costs[s], lens[s], by.cost, by.size) {
            return i;
        }
    }
    to
}

// A path of up to 12 arcs is walked without an index, as that takes longer to clear and to fill than to seek a few arcs.
const SHORT: usize = 12;

// Where the arcs of state `s` begin, and where they end or a place behind that: by the first-arc index, or from an arc that is `near`, as far as there are
// arcs.
fn arcs_from(
    table: &[u8],
    first: usize,
    arcs: usize,
    index: Option<&[u16; INDEX_LEN]>,
    s: usize,
    near: usize,
) -> (usize, usize)
    requires asked { AcceptedAt table.now first × (arcs ≡ length (decode table.now).arcs) × (s < (decode table.now).states) × (s < max_states)
        × (near ≤ arcs) }
    requires indexed { IfSome index (λ i. Indexed (decode table.now) i.now) }
    ensures { HasArcs (decode table.now) s result.0 result.1 }
{
    match index {
        Some(index) => (index[s] as usize, index[s + 1] as usize),
        None => (relaxation::first_arc(table, first, arcs, s, near), arcs),
    }
}

// Puts that path into `out` by an index, or without one. Without an index the arcs of a state are sought from the arc that led
// to it.
fn walk(
    table: &[u8],
    first: usize,
    arcs: usize,
    index: Option<&[u16; INDEX_LEN]>,
    start: usize,
    len: usize,
    costs: &[i32],
    lens: &[u32],
    out: &mut [u16],
)
    requires asked { AcceptedAt table.now first × (arcs ≡ length (decode table.now).arcs) × (start < (decode table.now).states) × (len ≤ length out.old)
        × (runs (decode table.now) start
        (follow len (decode table.now) (first_tight (decode table.now) (cost_at costs.now) (by_state lens.now)) start) ≡ true)
        × Cells (decode table.now).states costs.now lens.now }
    requires indexed { IfSome index (λ i. Indexed (decode table.now) i.now) }
    ensures { out.new ≡ filled (length out.old)
        (follow len (decode table.now)
        (first_tight (decode table.now) (cost_at costs.now) (by_state lens.now)) start) }
{
    let mut s = start;
    let mut near = 0;
    for n in 0..len {
        let (from, to) = arcs_from(table, first, arcs, index, s, near);
        let i = first_giving(table, first, s, from, to, costs, lens);
        out[n] = i as u16;
        near = i + 1;
        s = transducer::arc_of(table, first, i).target as usize;
    }
    wire::clear(out, len, 0);
}

// Puts the path of `len` arcs along the first tight arcs into `out`, zeros behind.
pub fn follow(
    table: &[u8],
    first: usize,
    states: usize,
    arcs: usize,
    start: usize,
    len: usize,
    costs: &[i32],
    lens: &[u32],
    out: &mut [u16],
)
    requires { AcceptedAt table.now first × (states ≡ (decode table.now).states) × (arcs ≡ length (decode table.now).arcs)
        × (start < (decode table.now).states) × (len ≤ length out.old)
        × (runs (decode table.now) start
        (follow len (decode table.now) (first_tight (decode table.now) (cost_at costs.now) (by_state lens.now)) start) ≡ true)
        × Cells (decode table.now).states costs.now lens.now }
    ensures { out.new ≡ filled (length out.old)
        (follow len (decode table.now)
        (first_tight (decode table.now) (cost_at costs.now) (by_state lens.now)) start) }
{
    if len <= SHORT {
        walk(table, first, arcs, None, start, len, costs, lens, out);
        return;
    }
    let mut index = [0u16; INDEX_LEN];
    transducer::put_index(table, first, states, arcs, &mut index);
    walk(
        table,
        first,
        arcs,
        Some(&index),
        start,
        len,
        costs,
        lens,
        out,
    );
}

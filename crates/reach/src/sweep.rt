// One sweep over the arcs: enough where most of them lead to higher states.
ghost use Rattle.std.specs.Prelude.{◌≡◌, cond, ◌+◌, ◌-◌, ◌<◌, length};
ghost use Rattle.transducer.specs.Format.{max_states, decode};
ghost use Rattle.transducer.specs.Accepted.{AcceptedAt};
ghost use Rattle.reach.specs.Marks.{Spread, waits, Swept};

use crate::arcs;
use transducer::MAX_STATES;

// Sets the mark of `to` where that of `from` is set. It is set without a test whether it was: a test at each arc that no one can foretell costs
// more than a store.
#[tactic(auto, using(crate::proofs::Spreading::spread_none, crate::proofs::Spreading::spread_set))]
fn spread(marks: &mut [bool; MAX_STATES], from: usize, to: usize)
    requires { (from < max_states) × (to < max_states) × (length marks.old ≡ max_states) }
    ensures { Spread marks.old from to marks.new }
{
    if marks[from] {
        marks[to] = true;
    }
}

// Whether an arc leads against the order of a sweep and has not both marks: only then may a later mark have to spread along it.
#[tactic(auto, unfolding(crate::specs::Marks::waits))]
fn waits(marks: &[bool; MAX_STATES], from: usize, to: usize, back: bool) -> bool
    requires { (from < max_states) × (to < max_states) × (length marks.now ≡ max_states) }
    ensures { result ≡ waits marks.now back from to }
{
    let against = if back { from < to } else { to < from };
    against & !(marks[from] & marks[to])
}

// The number of the arc that a sweep takes at its turn `k`: in order, or the last arc first where marks spread back.
fn arc_at_turn(arcs: usize, k: usize, back: bool) -> usize
    requires { k < arcs }
    ensures { result ≡ cond back (arcs - (k + 1)) k }
{
    if back { arcs - (k + 1) } else { k }
}

// Spreads marks along each arc once, or back, and stops at the first arc that waits. Whether more may come.
pub fn sweep(
    table: &[u8],
    first: usize,
    arcs: usize,
    back: bool,
    marks: &mut [bool; MAX_STATES],
) -> bool
    requires { AcceptedAt table.now first × (arcs ≡ length (decode table.now).arcs) × (length marks.old ≡ max_states) }
    ensures { Swept (decode table.now) back marks.old marks.new result }
{
    for k in 0..arcs {
        let i = arc_at_turn(arcs, k, back);
        let from = arcs::from_end(table, first, i, back);
        let to = arcs::to_end(table, first, i, back);
        if waits(marks, from, to, back) {
            return true;
        }
        spread(marks, from, to);
    }
    false
}

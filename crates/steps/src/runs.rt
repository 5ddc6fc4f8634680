// Runs of steps: where the next one begins, and each of its steps.
ghost use Rattle.std.specs.Prelude.{◌≡◌, true, false, cond, eqb, ℕ, ◌+◌, ◌*◌, ◌-◌, ◌≤◌, ◌<◌, length};
ghost use Rattle.transducer.specs.Format.{Transducer, max_arcs, weight_good, decode, barred, any};
ghost use Rattle.transducer.specs.Accepted.{AcceptedAt, Leaving};
ghost use Rattle.steps.specs.Steps.{left_origin, right_origin};
ghost use Rattle.steps.specs.Lookup.{Heads, Chain};
ghost use Rattle.steps.specs.Packing.{Bounded};
ghost use Rattle.steps.specs.Runs.{run_step, run_at, begin_from, reading_from, FitsOnly};

use crate::{Begin, Origin, Run, State, Step, keys, lookup};
use transducer::ARC_BYTES;

// Stands for the arc of a side that stands still.
// C reads it in the origins, so that it is no Option.
const STILL: u16 = transducer::BARRED;

// The filter state that a step leads to: of a left arc alone, of a right arc alone, of one of each.
// They are numbers and no enum, since the filter state is a bit of the key of a composed state.
const AFTER_LEFT: u32 = 0;

const AFTER_RIGHT: u32 = 1;

const AFTER_BOTH: u32 = 0;

// What `only_label` tells where more than one label may fit: no label. It is a number and no `Option`: `next_run`, which docs/MAP.md names,
// takes any number there.
const SEVERAL: u32 = transducer::ANY as u32 + 1;

// The one label that the arcs of a right state, from `from` to below `to`, may fit: that of its one arc, 0 where it has none. `wild` is the first of them for
// any symbol. With fewer than two left arcs, from `first` to below `last`, nothing is to be gained.
pub fn only_label(
    right: &[u8],
    rfirst: usize,
    from: usize,
    wild: usize,
    to: usize,
    first: usize,
    last: usize,
) -> u32
    requires { AcceptedAt right.now rfirst × (from ≤ to) × (to ≤ length (decode right.now).arcs) × (first ≤ last) × (last ≤ max_arcs) }
    ensures { (q : ℕ) → Leaving (decode right.now) q from to →
        wild ≡ reading_from (decode right.now) any (to - from) from → FitsOnly (decode right.now) from to result }
{
    if last < first + 2 || wild < to || from + 1 < to {
        return SEVERAL;
    }
    if from == to {
        return 0;
    }
    wire::u16_at(right, rfirst + ARC_BYTES * from + 6) as u32
}

// The first left arc from `i` on that writes nothing or `only`: those before it have no step. Where several labels may fit it is `i`.
fn pass_over(left: &[u8], lfirst: usize, i: usize, last: usize, only: u32) -> usize
    requires { AcceptedAt left.now lfirst × (i ≤ last) × (last ≤ length (decode left.now).arcs) }
    ensures { (result ≤ last) × ((u : Transducer) (filter from to : ℕ) → from ≤ to → FitsOnly u from to only →
        begin_from (decode left.now) u filter from (to - from) (last - result) result
        ≡ begin_from (decode left.now) u filter from (to - from) (last - i) i) }
{
    if SEVERAL <= only {
        return i;
    }
    // A `for` over i..last was tried: composing W3 and W4 took 3 to 6 percent longer.
    let mut k = i;
    while k < last {
        let label = wire::u16_at(left, lfirst + ARC_BYTES * k + 8);
        if label == 0 {
            return k;
        }
        if label as u32 == only {
            return k;
        }
        k += 1;
    }
    k
}

// Where the next run with a step begins, from left arc `i` on: a left arc that writes nothing, where the filter state allows it; one
// whose output some right arc fits, by name or else as one for any symbol, of which `wild` is the first; or behind the last left arc, with the first
// right arc that reads nothing. Where one label alone may fit, `only` tells it, and no other is looked up.
pub fn next_run(
    left: &[u8],
    lfirst: usize,
    i: usize,
    last: usize,
    filter: u32,
    right: &[u8],
    rfirst: usize,
    heads: &[u16; lookup::LABEL_BUCKETS],
    chain: &[u16],
    q: u16,
    only: u32,
    wild: usize,
    to: usize,
) -> Begin
    requires accepted_at { AcceptedAt left.now lfirst × (i ≤ last) × (last ≤ length (decode left.now).arcs) }
    requires accepted_at_2 { AcceptedAt right.now rfirst × Heads (decode right.now) 0 heads.now × Chain (decode right.now) 0 chain.now }
    ensures { (from : ℕ) → Leaving (decode right.now) q from to →
        wild ≡ reading_from (decode right.now) any (to - from) from → FitsOnly (decode right.now) from to only →
        result ≡ begin_from (decode left.now) (decode right.now) filter from (to - from) (last - i) i }
{
    for at in pass_over(left, lfirst, i, last, only)..last {
        let label = wire::u16_at(left, lfirst + ARC_BYTES * at + 8);
        if label == 0 {
            if filter == 0 {
                return Begin {
                    alone: true,
                    i: at,
                    j: 0,
                };
            }
        } else {
            let j = lookup::first_reading(right, rfirst, heads, chain, q, label, to);
            if j < to {
                return Begin {
                    alone: false,
                    i: at,
                    j,
                };
            }
            if wild < to {
                return Begin {
                    alone: false,
                    i: at,
                    j: wild,
                };
            }
        }
    }
    Begin {
        alone: false,
        i: last,
        j: lookup::first_reading(right, rfirst, heads, chain, q, 0, to),
    }
}

// The run that begins there.
#[tactic(auto, unfolding(crate::specs::Runs::run_at))]
pub fn run_of(left: &[u8], lfirst: usize, at: Begin, last: usize, x: State) -> Run
    requires { AcceptedAt left.now lfirst × (at.i ≤ last) × (at.alone ≡ true → at.i < last) × (last ≤ length (decode left.now).arcs) }
    ensures { result ≡ run_at (decode left.now) last x at }
{
    let i = at.i;
    if at.alone {
        let a = transducer::arc_of(left, lfirst, i);
        return Run {
            alone: true,
            left: i as u16,
            label: 0,
            input: a.input,
            target: State {
                left: a.target as u32,
                right: x.right,
                filter: AFTER_LEFT,
            },
            weight: a.weight,
        };
    }
    if i == last {
        return Run {
            alone: false,
            left: STILL,
            label: 0,
            input: 0,
            target: State {
                left: x.left,
                right: x.right,
                filter: AFTER_RIGHT,
            },
            weight: 0,
        };
    }
    let a = transducer::arc_of(left, lfirst, i);
    Run {
        alone: false,
        left: i as u16,
        label: a.output,
        input: a.input,
        target: State {
            left: a.target as u32,
            right: x.right,
            filter: AFTER_BOTH,
        },
        weight: a.weight,
    }
}

// The origin of a step with right arc `j`.
fn with_right(left: u16, j: u16) -> Origin
    ensures { result ≡ cond (eqb left barred) (Origin.Right j) (Origin.Both left j) }
{
    if left == STILL {
        return Origin::Right(j);
    }
    Origin::Both(left, j)
}

// The step of a run with right arc `j`.
#[tactic(auto, unfolding(crate::specs::Runs::run_step))]
pub fn step_of(run: Run, right: &[u8], rfirst: usize, j: usize) -> Step
    requires { AcceptedAt right.now rfirst × (run.alone ≡ false → j < length (decode right.now).arcs)
        × Bounded run.target × (weight_good run.weight ≡ true) }
    ensures { result ≡ run_step (decode right.now) run j }
{
    let to = run.target;
    if run.alone {
        return Step {
            origin: Origin::Left(run.left),
            input: run.input,
            output: 0,
            target: keys::pack(to.left, to.right, to.filter),
            weight: run.weight,
        };
    }
    let b = transducer::arc_of(right, rfirst, j);
    Step {
        origin: with_right(run.left, j as u16),
        input: run.input,
        output: transducer::passed(run.label, b),
        target: keys::pack(to.left, b.target as u32, to.filter),
        weight: run.weight + b.weight,
    }
}

// The left and the right arc of an origin, 65,535 where that side stood still.
// It is a match of three lines, as `right_origin` is: one function of both would be no plainer.
#[tactic(auto, unfolding(crate::specs::Steps::left_origin))]
pub fn left_origin(o: Origin) -> u16
    ensures { result ≡ left_origin o }
{
    match o {
        Origin::Left(i) => i,
        Origin::Right(_) => STILL,
        Origin::Both(i, _) => i,
    }
}

#[tactic(auto, unfolding(crate::specs::Steps::right_origin))]
pub fn right_origin(o: Origin) -> u16
    ensures { result ≡ right_origin o }
{
    match o {
        Origin::Left(_) => STILL,
        Origin::Right(j) => j,
        Origin::Both(_, j) => j,
    }
}

// A sweep over the arcs, the last one first. Arcs most often lead to higher numbers, so that one most often settles all.
ghost use Rattle.std.specs.Prelude.{◌≡◌, ℕ, ◌≤◌, ◌<◌, true, length};
ghost use Rattle.transducer.specs.Format.{decode, weight_good};
ghost use Rattle.transducer.specs.Accepted.{AcceptedAt};
ghost use Rattle.transducer.specs.Weight.{Weight, AtMost, no_weight};
ghost use Rattle.relax.specs.Tentative.{unpacked, cost_at, by_state, Rising, is_nearest, Tentative, Cells, Writes, Forward, LeadsUp, PlainCosts};
ghost use Rattle.relaxation.specs.Swept.{Leave, Barred, SweptFrom, StateSwept, SweptSays};

use crate::seek;
use relax::Change;

// No state has a higher number.
// Any target is at most this, so that the least of them can begin with it.
const LAST: u16 = 65535;

// Whether no arc makes a cost and a size better where each arc writes a label and none gives a cost below `bar`.
#[tactic(auto, unfolding(relax::specs::Tentative::is_nearest, relax::specs::Tentative::unpacked))]
fn is_nearest(bar: i32, cost: i32, size: u32) -> bool
    ensures { result ≡ is_nearest bar cost (unpacked size) }
{
    (cost <= bar) & (size <= 65537)
}

// Whether no cost of the states below `states` is below zero.
fn costs_rise(states: usize, costs: &[i32]) -> bool
    requires { states ≤ length costs.now }
    ensures { result ≡ true → (s : ℕ) → s < states → AtMost no_weight (cost_at costs.now s) }
{
    costs[..states].iter().all(|cost| 0 <= *cost)
}

// Whether it is plain that no weight is below zero and each arc writes a label, by what validation told: whether each is known to write one (`writing`),
// which is
// so only where states have many arcs, and a weight that none is below. Only there is it worth going through the costs of the empty paths.
// These flags are facts that validation tells, and no choice of a step.
pub fn is_plain(states: usize, writing: bool, least: i32, costs: &[i32]) -> bool
    requires { states ≤ length costs.now }
    ensures { result ≡ true → (writing ≡ true) × PlainCosts least states costs.now }
{
    if !writing {
        return false;
    }
    if least < 0 {
        return false;
    }
    costs_rise(states, costs)
}

// Whether a sweep goes by states: where some weights are below zero, and validation told that each arc writes a label (`writing`) and leads to a higher state
// (`up`), as it does only where states have many arcs.
pub fn can_sweep_by_state(writing: bool, least: i32, up: bool) -> bool
    ensures { result ≡ true → (writing ≡ true) × (up ≡ true) × (weight_good least ≡ true) × AtMost least no_weight }
{
    if 0 <= least {
        return false;
    }
    if !transducer::weight_ok(least) {
        return false;
    }
    writing & up
}

// Relaxes the arcs from `from` to below `to`, those of state `s`, last arc first, until none of the rest makes it better: none gives a cost below `bar`.
// True where a path had too many arcs.
fn sweep_state(
    table: &[u8],
    first: usize,
    states: usize,
    s: usize,
    from: usize,
    to: usize,
    bar: i32,
    costs: &mut [i32],
    lens: &mut [u32],
) -> bool
    requires { AcceptedAt table.now first × (states ≡ (decode table.now).states) × LeadsUp (decode table.now) × Writes (decode table.now)
        × Leave (decode table.now) s from to × Barred (decode table.now) from to bar costs.old
        × SweptFrom (decode table.now) to costs.old lens.old }
    ensures { StateSwept (decode table.now) s from costs.old costs.new
        lens.new result }
{
    for i in (from..to).rev() {
        match relax::relax(table, first, i, states, costs, lens) {
            Change::Kept => {}
            Change::TooLong => return true,
            Change::Better => {
                if is_nearest(bar, costs[s], lens[s]) {
                    return false;
                }
            }
        }
    }
    false
}

// What `sweep` does, for a table in which each arc leads to a higher state and has no weight below `least`: it goes by states, last state first.
// None of a state's arcs gives a cost below the least one of the states above it and `least`.
fn sweep_states(
    table: &[u8],
    first: usize,
    states: usize,
    arcs: usize,
    least: i32,
    costs: &mut [i32],
    lens: &mut [u32],
) -> bool
    requires { AcceptedAt table.now first × (states ≡ (decode table.now).states) × (arcs ≡ length (decode table.now).arcs)
        × Forward (decode table.now) least
        × Tentative (decode table.now) (cost_at costs.old) (by_state lens.old) × Cells (decode table.now).states costs.old lens.old }
    ensures { SweptSays (decode table.now) costs.new lens.new result }
{
    let mut floor = relax::UNREACHED;
    let mut to = arcs;
    for s in (0..states).rev() {
        let from = seek::first_back(table, first, s, to);
        let bar = relax::sum(least, floor);
        if sweep_state(table, first, states, s, from, to, bar, costs, lens) {
            return true;
        }
        floor = floor.min(costs[s]);
        to = from;
    }
    false
}

// Relaxes each arc, last arc first; where it is `plain` that no weight is below zero and each arc writes a label, once no arc makes a state better the rest
// of its arcs are passed over.
// More may change where a state changed after an arc was read that leads to it or to one before it, or where a path had too many arcs.
// A turn may jump back over the arcs of its state, so there is no index to count.
fn sweep(
    table: &[u8],
    first: usize,
    states: usize,
    arcs: usize,
    plain: bool,
    costs: &mut [i32],
    lens: &mut [u32],
) -> bool
    requires { AcceptedAt table.now first × (states ≡ (decode table.now).states) × (arcs ≡ length (decode table.now).arcs)
        × (plain ≡ true → Rising (decode table.now))
        × Tentative (decode table.now) (cost_at costs.old) (by_state lens.old) × Cells (decode table.now).states costs.old lens.old }
    ensures { SweptSays (decode table.now) costs.new lens.new result }
{
    let mut again = false;
    let mut low = LAST;
    let mut i = arcs;
    while i > 0 {
        i -= 1;
        let a = transducer::arc_of(table, first, i);
        let s = a.source as usize;
        if plain & is_nearest(0, costs[s], lens[s]) {
            i = seek::first_back(table, first, s, i);
            continue;
        }
        low = low.min(a.target);
        match relax::relax(table, first, i, states, costs, lens) {
            Change::Kept => {}
            Change::TooLong => again = true,
            Change::Better => again = again | (low <= a.source),
        }
    }
    again
}

// A sweep in one of the two ways. `plain` and `forward` are facts of the table, of which each way asks for another: a closure would have to carry that fact.
pub fn sweep_once(
    table: &[u8],
    first: usize,
    states: usize,
    arcs: usize,
    plain: bool,
    forward: bool,
    least: i32,
    costs: &mut [i32],
    lens: &mut [u32],
) -> bool
    requires { AcceptedAt table.now first × (states ≡ (decode table.now).states) × (arcs ≡ length (decode table.now).arcs)
        × (plain ≡ true → Rising (decode table.now)) × (forward ≡ true → Forward (decode table.now) least)
        × Tentative (decode table.now) (cost_at costs.old) (by_state lens.old) × Cells (decode table.now).states costs.old lens.old }
    ensures { SweptSays (decode table.now) costs.new lens.new result }
{
    if forward {
        return sweep_states(table, first, states, arcs, least, costs, lens);
    }
    sweep(table, first, states, arcs, plain, costs, lens)
}

// Refusals 5 to 8 gathered in one pass over the records.
ghost use Rattle.std.specs.Prelude.{◌≡◌, ◌+◌, ◌*◌, ◌<◌, ◌≤◌, true, false, length, IfSome};
ghost use Rattle.std.specs.Int.{w32};
ghost use Rattle.std.proofs.Common.{to_z};
ghost use Rattle.wire.specs.Bytes.{four};
ghost use Rattle.transducer.specs.Format.{final_bytes, arc_bytes, final_at, arc_at, first_of, weight_limit, min_weight, max_weight};
ghost use Rattle.transducer.specs.Check.{final_checked, arc_checked, finals_checked, arcs_checked, from_0};
ghost use Rattle.transducer.specs.Check.{eight, GoodUpTo, GoodFields, Plain, Rows, Between, Passing, GoesOn, Seen, FastCheckSays};
ghost use Rattle.transducer.specs.Weight.{rebate};
ghost use Rattle.transducer.specs.Answer.{refusal_in};

use crate::{Arc, Checks, Final, Refusal};

// What is gathered by `&` begins with this.
const ALL_ONES: u64 = 18446744073709551615;

// One field of the four of an arc that stand side by side in a word.
const FIELD: u64 = 65535;

// Length and kind of a head's, a final's and an arc's record, as one number of four bytes.
pub const HEAD_WORD: u32 = 65544;

pub const FINAL_WORD: u32 = 131078;

pub const ARC_WORD: u32 = 196620;

// The tests with those of one more final whose record begins with `word`.
#[tactic(auto, unfolding(crate::specs::Check::final_checked))]
pub fn check_final(c: Checks, n: u32, word: u32, f: Final) -> Checks
    ensures { result ≡ final_checked n word f c }
{
    let state = f.state as u32;
    Checks {
        heads: c.heads & (word == FINAL_WORD),
        states: c.states & (state < n),
        order: c.order & (c.floor <= state),
        weights: c.weights & bounds::weight_ok(f.weight),
        floor: state + 1,
        ..c
    }
}

// The tests with those of one more arc whose record begins with `word`.
#[tactic(auto, unfolding(crate::specs::Check::arc_checked))]
pub fn check_arc(c: Checks, n: u32, word: u32, a: Arc) -> Checks
    ensures { result ≡ arc_checked n word a c }
{
    let source = a.source as u32;
    let target = a.target as u32;
    Checks {
        heads: c.heads & (word == ARC_WORD),
        states: c.states & ((source < n) & (target < n)),
        order: c.order & (c.floor <= source),
        labels: c.labels & bounds::labels_ok(a.input, a.output),
        weights: c.weights & bounds::weight_ok(a.weight),
        floor: source,
    }
}

// The first of the tests that failed, as its refusal.
pub fn verdict(c: Checks) -> Result<(), Refusal>
    ensures { refusal_in result ≡ first_of c.states c.order c.labels c.weights }
{
    bounds::first_failed(c.states, c.order, c.labels, c.weights)
}

// Any state may come next again: between the finals and the arcs.
#[tactic(auto, unfolding(crate::specs::Check::from_0))]
pub fn restart(c: Checks) -> Checks
    ensures { result ≡ from_0 c }
{
    Checks { floor: 0, ..c }
}

// The final whose record begins at `at`.
#[tactic(auto, unfolding(crate::specs::Format::final_at, crate::specs::Format::weight_at))]
pub fn load_final(bytes: &[u8], at: usize) -> Final
    requires { at + final_bytes ≤ length bytes.now }
    ensures { result ≡ final_at bytes.now at }
{
    Final {
        state: wire::u16_at(bytes, at + 4),
        weight: wire::i32_at(bytes, at + 6),
    }
}

// The arc whose record begins at `at`.
#[tactic(auto, unfolding(crate::specs::Format::arc_at, crate::specs::Format::weight_at))]
pub fn load_arc(bytes: &[u8], at: usize) -> Arc
    requires { at + arc_bytes ≤ length bytes.now }
    ensures { result ≡ arc_at bytes.now at }
{
    Arc {
        source: wire::u16_at(bytes, at + 4),
        input: wire::u16_at(bytes, at + 6),
        output: wire::u16_at(bytes, at + 8),
        target: wire::u16_at(bytes, at + 10),
        weight: wire::i32_at(bytes, at + 12),
    }
}

// The tests of `count` finals whose records begin at `at`.
pub fn check_finals(bytes: &[u8], at: usize, count: usize, n: u32, c: Checks) -> Checks
    requires { at + final_bytes * count ≤ length bytes.now }
    ensures { result ≡ finals_checked count at final_bytes n (four bytes.now) (final_at bytes.now) c }
{
    let mut checks = c;
    for i in 0..count {
        let place = at + bounds::FINAL_BYTES * i;
        checks = check_final(
            checks,
            n,
            wire::u32_at(bytes, place),
            load_final(bytes, place),
        );
    }
    checks
}

// The tests of `count` arcs whose records begin at `at`, with what the fast check told of them: where it is not sure, they have to be tested one by one.
#[tactic(auto, unfolding(crate::specs::Check::with_floor))]
pub fn check_arcs(
    bytes: &[u8],
    at: usize,
    count: usize,
    n: u32,
    c: Checks,
    last: Option<u32>,
) -> Checks
    requires { (at + arc_bytes * count ≤ length bytes.now) × Plain bytes.now at count n c.floor last }
    ensures { result ≡ arcs_checked count at arc_bytes n (four bytes.now) (arc_at bytes.now) c }
{
    match last {
        Some(floor) => Checks { floor, ..c },
        None => check_each_arc(bytes, at, count, n, c),
    }
}

// What the fast check of arcs tells: the source of the last, if it is sure that each passes each test; a weight that none is below; and where `close` is set,
// `top_sorted` only where each leads to a higher state and `no_output_epsilon` only where each writes a label.
#[derive(Clone, Copy, Debug, PartialEq, Eq)]
pub struct FastCheck {
    pub last: Option<u32>,
    pub least: i32,
    pub top_sorted: bool,
    pub no_output_epsilon: bool,
}

// No arc is known to pass; no good weight is below this one.
fn not_sure() -> FastCheck
    ensures { (result.last ≡ None) × (result.least ≡ min_weight) × (result.top_sorted ≡ false) × (result.no_output_epsilon ≡ false) }
{
    FastCheck {
        last: None,
        least: bounds::MIN_WEIGHT,
        top_sorted: false,
        no_output_epsilon: false,
    }
}

// The source of the last of these arcs, `floor` where there are none, if the fast check shows that each passes each test; else none.
// Most often no weight is below zero. Else the run of arcs goes on with the weight that ended it, as long as that is lower than before.
// Where the number of states is a power of two, targets gathered by `|` tell as much as each by itself, so none is tested alone. Only if `close` is set are
// fields gathered
// by `&`, so that it costs nothing where it is not asked for.
pub fn fast_check(
    bytes: &[u8],
    at: usize,
    count: usize,
    n: u32,
    floor: u32,
    close: bool,
) -> FastCheck
    requires { at + arc_bytes * count ≤ length bytes.now }
    ensures { FastCheckSays bytes.now at count n floor result }
{
    let end = at + bounds::ARC_BYTES * count;
    let each = !n.is_power_of_two();
    let mut run = first_run(bytes, at, end, n, each, floor, close);
    let mut below = 0;
    // A run ends where an arc fails a test, so there is no index to count.
    while run.place < end {
        // How far the weight is below zero; too much where it is above.
        let lower = 0u32.wrapping_sub(wire::u32_at(bytes, run.place + 12));
        if lower <= below {
            return not_sure();
        }
        if lower > bounds::MAX_WEIGHT as u32 {
            return not_sure();
        }
        below = lower;
        run = run_on(bytes, run, end, n, each, below);
    }
    if n <= run.last {
        return not_sure();
    }
    if !fields_good(run.any, n, each) {
        return FastCheck {
            least: minus(below),
            ..not_sure()
        };
    }
    FastCheck {
        last: Some(run.last),
        least: minus(below),
        top_sorted: u64::from(run.last) < run.all >> 48,
        no_output_epsilon: 0 < (run.all >> 32) & FIELD,
    }
}

// Minus `below`, as a weight. It asks for a limit of `below`, so that the difference is in range: `Neg` could not ask.
fn minus(below: u32) -> i32
    requires { below ≤ weight_limit }
    ensures { result ≡ rebate below }
{
    0 - below as i32
}

// Whether these are the bits of a weight that is not under minus `below`, and not too high. One comparison, as it is made at each arc.
fn weight_in(bits: u32, below: u32) -> bool
    requires { below ≤ weight_limit }
    ensures { result ≡ true → Between (rebate below) (to_z w32 bits) max_weight }
{
    bits.wrapping_add(below) <= bounds::MAX_WEIGHT as u32 + below
}

// Source, input, output and target of the arc whose fields begin at `at`, as one number of eight bytes.
// Two words that `wire` reads: `from_le_bytes` would list the eight bytes one by one.
#[tactic(auto, unfolding(crate::specs::Check::eight))]
fn fields_at(bytes: &[u8], at: usize) -> u64
    requires { at + 8 ≤ length bytes.now }
    ensures { result ≡ eight bytes.now at }
{
    u64::from(wire::u32_at(bytes, at)) + 4294967296 * u64::from(wire::u32_at(bytes, at + 4))
}

// Where a run of arcs ends that pass each test but that of what is gathered, the source of the last, and their fields gathered: by `|`, which is never below
// any of them, and by `&`, which is never above.
#[derive(Clone, Copy, Debug, PartialEq, Eq)]
struct Run {
    place: usize,
    last: u32,
    any: u64,
    all: u64,
}

// The source of the arc at `place` if it passes each test but that of what is gathered: its weight is no more than `below` below zero and not too high, and its
// source is not below `before`. The target is tested only if `each`: a bool and not a closure, since the contract says by it what is known of the targets.
fn passing(bytes: &[u8], place: usize, n: u32, each: bool, before: u32, below: u32) -> Option<u32>
    requires { (place + arc_bytes ≤ length bytes.now) × (below ≤ weight_limit) }
    ensures { IfSome result (λ source. Passing bytes.now place n each before (rebate below) source) }
{
    if !weight_in(wire::u32_at(bytes, place + 12), below) {
        return None;
    }
    if each & (n <= wire::u16_at(bytes, place + 10) as u32) {
        return None;
    }
    if wire::u32_at(bytes, place) != ARC_WORD {
        return None;
    }
    let source = wire::u16_at(bytes, place + 4) as u32;
    if source < before {
        return None;
    }
    Some(source)
}

// The run of such arcs from where `before` ended and up to `end`, with what was gathered before.
fn run_on(bytes: &[u8], before: Run, end: usize, n: u32, each: bool, below: u32) -> Run
    requires { (end ≤ length bytes.now) × Rows before.place end × (below ≤ weight_limit) }
    ensures { GoesOn bytes.now before.place end n each before.last before.any before.all (rebate below) result.last result.any result.all result.place }
{
    let mut run = before;
    // The run ends where an arc fails a test, and says where: a range would count the place beside it.
    while run.place < end {
        let Some(source) = passing(bytes, run.place, n, each, run.last, below) else {
            break;
        };
        let fields = fields_at(bytes, run.place + 4);
        run = Run {
            place: run.place + bounds::ARC_BYTES,
            last: source,
            any: run.any | fields,
            all: run.all & fields,
        };
    }
    run
}

// The run by two arcs at a time, as far as both pass: one test of the end for two. Called once only, so that the compiler knows `below` in its loop.
fn run_by_two(bytes: &[u8], before: Run, end: usize, n: u32, each: bool, below: u32) -> Run
    requires { (end ≤ length bytes.now) × Rows before.place end × (below ≤ weight_limit) × (arc_bytes ≤ end) }
    ensures { GoesOn bytes.now before.place end n each before.last before.any before.all (rebate below) result.last result.any result.all result.place }
{
    let mut run = before;
    let pairs = end - bounds::ARC_BYTES;
    // The run ends where an arc fails a test, so there is no range by steps of two arcs.
    while run.place < pairs {
        let Some(between) = passing(bytes, run.place, n, each, run.last, below) else {
            break;
        };
        let next = run.place + bounds::ARC_BYTES;
        let Some(source) = passing(bytes, next, n, each, between, below) else {
            break;
        };
        let fields = fields_at(bytes, run.place + 4);
        let others = fields_at(bytes, next + 4);
        run = Run {
            place: next + bounds::ARC_BYTES,
            last: source,
            any: run.any | fields | others,
            all: run.all & fields & others,
        };
    }
    run_on(bytes, run, end, n, each, below)
}

// The first run, with no weight below zero. Two calls: one that begins with 0 need not gather by `&`, as that stays 0.
fn first_run(
    bytes: &[u8],
    at: usize,
    end: usize,
    n: u32,
    each: bool,
    floor: u32,
    close: bool,
) -> Run
    requires { (end ≤ length bytes.now) × Rows at end }
    ensures { Seen bytes.now at end n each floor result.last result.any result.all result.place }
{
    let none = Run {
        place: at,
        last: floor,
        any: 0,
        all: 0,
    };
    if close & (bounds::ARC_BYTES <= end) {
        let full = Run {
            all: ALL_ONES,
            ..none
        };
        return run_by_two(bytes, full, end, n, each, 0);
    }
    run_on(bytes, none, end, n, each, 0)
}

// If true, all labels up to these are good, and unless each target was tested, all targets up to these are states.
fn fields_good(any: u64, n: u32, each: bool) -> bool
    ensures { result ≡ true → GoodFields any n each }
{
    labels_bounded(any) && (each || any >> 48 < u64::from(n))
}

// If true, all labels up to these are good.
fn labels_bounded(any: u64) -> bool
    ensures { result ≡ true → GoodUpTo any }
{
    let barred = u64::from(bounds::BARRED);
    (any >> 16) & FIELD < barred && (any >> 32) & FIELD < barred
}

// The tests of these arcs, one by one. It differs from `check_finals` in record, size and test, so that one generic function would be no plainer.
fn check_each_arc(bytes: &[u8], at: usize, count: usize, n: u32, c: Checks) -> Checks
    requires { at + arc_bytes * count ≤ length bytes.now }
    ensures { result ≡ arcs_checked count at arc_bytes n (four bytes.now) (arc_at bytes.now) c }
{
    let mut checks = c;
    for i in 0..count {
        let place = at + bounds::ARC_BYTES * i;
        checks = check_arc(
            checks,
            n,
            wire::u32_at(bytes, place),
            load_arc(bytes, place),
        );
    }
    checks
}

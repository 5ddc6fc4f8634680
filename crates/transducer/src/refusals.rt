// Refusals 1 to 8 of bytes. Accepted bytes have their records at places that the head gives, so these are tested first, in one pass;
// only where they are not there do the records' lengths and kinds say which of 1 to 4 it is.
ghost use Rattle.std.specs.Prelude.{◌≡◌, ◌+◌, ◌*◌, ◌<◌, true, false, length};
ghost use Rattle.transducer.specs.Format.{framed, kinds_good, kind_good, records, refusal, arcs_at, arc_bytes, min_weight};
ghost use Rattle.transducer.specs.Check.{all_checked, diagnosis, NoneBelow, EachUp, EachWrites, EachNamed};
ghost use Rattle.transducer.specs.Accepted.{ValidationSays};
ghost use Rattle.transducer.specs.Answer.{validation};
ghost use Rattle.transducer.specs.Answer.{number, refusal_in};

use crate::{Checks, Facts, Refusal, check};

// More facts are gathered only if there are more than this many arcs to a state.
const MANY: u32 = 16;

// 1: whether records follow one another to the very end. A record tells where the next begins, so there is no index to count.
fn framing_ok(bytes: &[u8]) -> bool
    ensures { result ≡ framed bytes.now }
{
    let mut at: usize = 0;
    while at < bytes.len() {
        if bytes.len() - at < 4 {
            return false;
        }
        let size = wire::u16_at(bytes, at) as usize;
        if bytes.len() - at - 4 < size {
            return false;
        }
        at += 4 + size;
    }
    true
}

// 2: whether the head comes first, then finals, then arcs, each of its length. The framing is known to be right.
// A record tells where the next begins, so there is no index to count.
fn kinds_ok(bytes: &[u8]) -> bool
    requires { framed bytes.now ≡ true }
    ensures { result ≡ kinds_good (records bytes.now) }
{
    if bytes.len() == 0 {
        return false;
    }
    if wire::u16_at(bytes, 2) != 1 {
        return false;
    }
    if wire::u16_at(bytes, 0) != 8 {
        return false;
    }
    let mut after_arc = false;
    let mut at: usize = bounds::HEAD_BYTES;
    while at < bytes.len() {
        let size = wire::u16_at(bytes, at) as usize;
        let kind = wire::u16_at(bytes, at + 2);
        if !kind_ok(after_arc, kind, size) {
            return false;
        }
        after_arc = kind == 3;
        at += 4 + size;
    }
    true
}

// Whether a record of this kind and length may come next.
// Kinds are the numbers 1, 2 and 3 of the format, and each is compared once: an enum would be no plainer.
#[tactic(auto, unfolding(crate::specs::Format::kind_good))]
fn kind_ok(after_arc: bool, kind: u16, size: usize) -> bool
    ensures { result ≡ kind_good after_arc kind size }
{
    match kind {
        2 => !after_arc & (size == 6),
        3 => size == 12,
        _ => false,
    }
}

// Which of 1 to 4 holds of bytes whose records do not stand where the head says.
#[tactic(auto, unfolding(crate::specs::Check::diagnosis, crate::specs::Format::head_states, crate::specs::Format::head_arcs, crate::specs::Format::head_finals, crate::specs::Format::head_start))]
fn diagnose(bytes: &[u8]) -> Refusal
    ensures { number result ≡ diagnosis bytes.now }
{
    if !framing_ok(bytes) {
        return Refusal::Framing;
    }
    if !kinds_ok(bytes) {
        return Refusal::Kinds;
    }
    let n = wire::u16_at(bytes, 4) as u32;
    let m = wire::u16_at(bytes, 6) as u32;
    let f = wire::u16_at(bytes, 8) as u32;
    let start = wire::u16_at(bytes, 10) as u32;
    if !bounds::head_ok(n, m, f, start) {
        return Refusal::Head;
    }
    Refusal::Counts
}

// The tests of all records, and what is told of the arcs.
#[derive(Clone, Copy)]
struct All {
    checks: Checks,
    facts: Facts,
}

// Tests the records at the places that the head gives. The arcs come first: what is known of the finals would take registers from that loop.
#[tactic(auto, unfolding(crate::specs::Check::from_0, crate::specs::Check::all_checked))]
fn check_all(bytes: &[u8], n: u32, m: usize, f: usize, close: bool) -> All
    requires { (length bytes.now ≡ arcs_at f + arc_bytes * m) × (f < 65536) }
    ensures { (result.checks ≡ all_checked bytes.now n m f) × NoneBelow bytes.now (arcs_at f) m result.facts.least
        × (result.facts.top_sorted ≡ true → EachUp bytes.now (arcs_at f) m) × (result.facts.no_output_epsilon ≡ true
        → EachWrites bytes.now (arcs_at f) m)
        × (result.facts.no_any_input ≡ true → EachNamed bytes.now (arcs_at f) m) }
{
    let none = Checks {
        heads: true,
        states: true,
        order: true,
        labels: true,
        weights: true,
        floor: 0,
    };
    let at = bounds::arcs_at(f);
    let seen = check::fast_check(bytes, at, m, n, 0, close);
    let finals = check::restart(check::check_finals(bytes, bounds::HEAD_BYTES, f, n, none));
    All {
        checks: check::check_arcs(bytes, at, m, n, finals, seen.last),
        facts: Facts {
            least: seen.least,
            top_sorted: seen.top_sorted,
            no_output_epsilon: seen.no_output_epsilon,
            no_any_input: seen.last.is_some(),
        },
    }
}

// Refuses bytes with one of 1 to 8, or tells of accepted ones a weight that none of the arcs is below, whether it is known that none is for any symbol, and, if
// `close` is set and states have many arcs, that each leads up and that each writes a label. Linear in the bytes.
pub fn validate(bytes: &[u8], close: bool) -> Result<Facts, Refusal>
    ensures { ValidationSays bytes.now (validation result) }
{
    if bytes.len() < bounds::HEAD_BYTES {
        return Err(diagnose(bytes));
    }
    if wire::u32_at(bytes, 0) != check::HEAD_WORD {
        return Err(diagnose(bytes));
    }
    let n = wire::u16_at(bytes, 4) as u32;
    let m = wire::u16_at(bytes, 6) as u32;
    let f = wire::u16_at(bytes, 8) as u32;
    let start = wire::u16_at(bytes, 10) as u32;
    if !bounds::head_ok(n, m, f, start) {
        return Err(diagnose(bytes));
    }
    if bytes.len() != bounds::arcs_at(f as usize) + bounds::ARC_BYTES * (m as usize) {
        return Err(diagnose(bytes));
    }
    let all = check_all(bytes, n, m as usize, f as usize, close & (MANY * n < m));
    if !all.checks.heads {
        return Err(diagnose(bytes));
    }
    check::verdict(all.checks)?;
    Ok(all.facts)
}

// Refuses bytes with one of 1 to 8, or accepts them. Linear in the bytes.
pub fn ensure_accepted(bytes: &[u8]) -> Result<(), Refusal>
    ensures { refusal_in result ≡ refusal bytes.now }
{
    validate(bytes, false)?;
    Ok(())
}

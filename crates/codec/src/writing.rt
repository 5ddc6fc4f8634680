// Writing a transducer.
ghost use Rattle.std.specs.Prelude.{◌≡◌, ℕ, ◌+◌, ◌*◌, ◌≤◌, ◌<◌, length};
ghost use Rattle.std.proofs.lemmas.List.Edits.{sets};
ghost use Rattle.wire.specs.Bytes.{places};
ghost use Rattle.transducer.specs.Format.{head_bytes, arc_bytes, arcs_at, content_refusal};
ghost use Rattle.transducer.specs.Encode.{final_records, arc_records};
ghost use Rattle.transducer.specs.Check.{finals_checked, arcs_checked, final_word, arc_word};
ghost use Rattle.transducer.specs.Answer.{written};
ghost use Rattle.transducer.specs.Answer.{refusal_in};
ghost use Rattle.codec.specs.Entry.{WriteSays, write_refusal, given, final_of, arc_of};

use transducer::{Arc, Checks, Final, Refusal};

// Writes `count` final records from two runs behind the head.
fn put_finals(states: &[u16], weights: &[i32], count: usize, out: &mut [u8])
    requires { (count ≤ length states.now) × (count ≤ length weights.now) × (arcs_at count ≤ length out.old) }
    ensures { out.new ≡ sets out.old head_bytes
        (final_records (places count 0 1 (final_of states.now weights.now))) }
{
    for i in 0..count {
        let at = transducer::HEAD_BYTES + transducer::FINAL_BYTES * i;
        transducer::put_final(out, at, given_final(states, weights, i));
    }
}

// Writes `count` arc records from two runs at a place.
fn put_arcs(fields: &[u16], weights: &[i32], count: usize, first: usize, out: &mut [u8])
    requires { (4 * count ≤ length fields.now) × (count ≤ length weights.now) × (first + arc_bytes * count ≤ length out.old) }
    ensures { out.new ≡ sets out.old first (arc_records (places count 0 1 (arc_of fields.now weights.now))) }
{
    for i in 0..count {
        let at = first + transducer::ARC_BYTES * i;
        transducer::put_arc(out, at, given_arc(fields, weights, i));
    }
}

// The tests of the first `count` finals in two runs.
fn check_given_finals(states: &[u16], weights: &[i32], count: usize, n: u32, c: Checks) -> Checks
    requires { (count ≤ length states.now) × (count ≤ length weights.now) }
    ensures { result ≡ finals_checked count 0 1 n (λ _. final_word) (final_of states.now weights.now) c }
{
    let mut checks = c;
    for i in 0..count {
        let f = given_final(states, weights, i);
        checks = transducer::check_final(checks, n, transducer::FINAL_WORD, f);
    }
    checks
}

// The tests of the first `count` arcs in two runs, four fields to an arc in the first.
// Finals and arcs differ in record, size and test, so that one generic function would be no plainer.
fn check_given_arcs(fields: &[u16], weights: &[i32], count: usize, n: u32, c: Checks) -> Checks
    requires { (4 * count ≤ length fields.now) × (count ≤ length weights.now) }
    ensures { result ≡ arcs_checked count 0 1 n (λ _. arc_word) (arc_of fields.now weights.now) c }
{
    let mut checks = c;
    for i in 0..count {
        let a = given_arc(fields, weights, i);
        checks = transducer::check_arc(checks, n, transducer::ARC_WORD, a);
    }
    checks
}

// Final `i` of two runs.
#[tactic(auto, unfolding(crate::specs::Entry::final_of))]
fn given_final(states: &[u16], weights: &[i32], i: usize) -> Final
    requires { (i < length states.now) × (i < length weights.now) }
    ensures { result ≡ final_of states.now weights.now i }
{
    Final {
        state: states[i],
        weight: weights[i],
    }
}

// Arc `i` of two runs.
#[tactic(auto, unfolding(crate::specs::Entry::arc_of))]
fn given_arc(fields: &[u16], weights: &[i32], i: usize) -> Arc
    requires { (4 * i + 3 < length fields.now) × (i < length weights.now) }
    ensures { result ≡ arc_of fields.now weights.now i }
{
    Arc {
        source: fields[4 * i],
        input: fields[4 * i + 1],
        output: fields[4 * i + 2],
        target: fields[4 * i + 3],
        weight: weights[i],
    }
}

// The tests of 5 to 8 over the four runs.
fn check_content(
    n: u32,
    m: usize,
    f: usize,
    final_states: &[u16],
    final_weights: &[i32],
    fields: &[u16],
    arc_weights: &[i32],
) -> Result<(), Refusal>
    requires { (f ≤ length final_states.now) × (f ≤ length final_weights.now) × (4 * m ≤ length fields.now) × (m ≤ length arc_weights.now) }
    ensures { (start : ℕ) → refusal_in result ≡ content_refusal (given n m f start final_states.now final_weights.now
        fields.now arc_weights.now) }
{
    let none = Checks {
        heads: true,
        states: true,
        order: true,
        labels: true,
        weights: true,
        floor: 0,
    };
    let finals = transducer::restart(check_given_finals(final_states, final_weights, f, n, none));
    transducer::verdict(check_given_arcs(fields, arc_weights, m, n, finals))
}

// Writes a transducer from its four numbers and four runs into a lent buffer. Linear in finals and arcs and in what is lent.
// The four runs and their counts are those that C gives.
pub fn write(
    n: u32,
    m: u32,
    f: u32,
    start: u32,
    final_states: &[u16],
    final_weights: &[i32],
    fields: &[u16],
    arc_weights: &[i32],
    out: &mut [u8],
) -> Result<u32, Refusal>
    ensures { WriteSays
        (given n m f start final_states.now final_weights.now fields.now arc_weights.now)
        (write_refusal n m f start final_states.now final_weights.now fields.now arc_weights.now
        (length out.old))
        (written result) out.old out.new }
{
    if !transducer::head_ok(n, m, f, start) {
        return Err(Refusal::Head);
    }
    let finals = f as usize;
    let arcs = m as usize;
    if final_states.len() < finals {
        return Err(Refusal::Counts);
    }
    if final_weights.len() < finals {
        return Err(Refusal::Counts);
    }
    if fields.len() < 4 * arcs {
        return Err(Refusal::Counts);
    }
    if arc_weights.len() < arcs {
        return Err(Refusal::Counts);
    }
    check_content(
        n,
        arcs,
        finals,
        final_states,
        final_weights,
        fields,
        arc_weights,
    )?;
    if out.len() < transducer::MAX_BYTES {
        return Err(Refusal::Room);
    }
    let first = transducer::arcs_at(finals);
    let end = first + transducer::ARC_BYTES * arcs;
    transducer::put_head(out, n as u16, m as u16, f as u16, start as u16);
    put_finals(final_states, final_weights, finals, out);
    put_arcs(fields, arc_weights, arcs, first, out);
    wire::clear(out, end, 0);
    Ok(end as u32)
}

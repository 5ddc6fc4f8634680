// Reading a transducer.
ghost use Rattle.std.specs.Prelude.{◌≡◌, ℕ, ◌+◌, ◌*◌, ◌≤◌, ◌<◌, ◌++◌, length, drop};
ghost use Rattle.wire.specs.Bytes.{places, filled};
ghost use Rattle.transducer.specs.Format.{arc_bytes, arc_at, max_bytes};
ghost use Rattle.transducer.specs.Answer.{header};
ghost use Rattle.codec.specs.Entry.{ReadSays, read_refusal, arc_fields};

use transducer::{Head, Refusal};

// Where the first final's state and weight stand.
const STATE_AT: usize = transducer::HEAD_BYTES + 4;

const WEIGHT_AT: usize = transducer::HEAD_BYTES + 6;

// Puts the numbers that `load` reads at `count` places, the first at `at`, each `step` past the one before, to the front of `out`.
fn copy<T: Copy, F: Fn(usize) -> T>(load: F, at: usize, step: usize, count: usize, out: &mut [T])
    requires room { count ≤ length out.old }
    requires loads { (i : ℕ) → i < count → F.pre load (at + step * i) }
    requires within { at + step * count ≤ 2 * max_bytes }
    ensures { (value : ℕ → T) → ((place : ℕ) (x : T) → F.post load place x → x ≡ value place)
        → out.new ≡ places count at step value ++ drop count out.old }
{
    for i in 0..count {
        out[i] = load(at + step * i);
    }
}

// Copies the four fields of `count` arcs whose records begin at `at` to the front of `out`; behind them it puts zeros.
fn copy_fields(bytes: &[u8], at: usize, count: usize, out: &mut [u16])
    requires { (4 * count ≤ length out.old) × (at + arc_bytes * count ≤ length bytes.now) }
    ensures { out.new ≡ filled (length out.old) (arc_fields (places count at arc_bytes (arc_at bytes.now))) }
{
    for i in 0..count {
        let a = transducer::load_arc(bytes, at + transducer::ARC_BYTES * i);
        out[4 * i] = a.source;
        out[4 * i + 1] = a.input;
        out[4 * i + 2] = a.output;
        out[4 * i + 3] = a.target;
    }
    wire::clear(out, 4 * count, 0);
}

// Reads a transducer into four lent buffers. Linear in the bytes and in what is lent.
pub fn read(
    bytes: &[u8],
    final_states: &mut [u16],
    final_weights: &mut [i32],
    fields: &mut [u16],
    arc_weights: &mut [i32],
) -> Result<Head, Refusal>
    ensures { ReadSays bytes.now
        (read_refusal bytes.now (length final_states.old) (length final_weights.old)
        (length fields.old) (length arc_weights.old))
        (header result) final_states.old final_states.new final_weights.old final_weights.new
        fields.old fields.new arc_weights.old arc_weights.new }
{
    transducer::ensure_accepted(bytes)?;
    if final_states.len() < transducer::MAX_STATES {
        return Err(Refusal::Room);
    }
    if final_weights.len() < transducer::MAX_STATES {
        return Err(Refusal::Room);
    }
    if fields.len() < transducer::MAX_FIELDS {
        return Err(Refusal::Room);
    }
    if arc_weights.len() < transducer::MAX_ARCS {
        return Err(Refusal::Room);
    }
    let head = transducer::head_of(bytes);
    let f = head.finals as usize;
    let m = head.arcs as usize;
    let first = transducer::arcs_at(f);
    let state_at = |place| wire::u16_at(bytes, place);
    let weight_at = |place| wire::i32_at(bytes, place);
    copy(state_at, STATE_AT, transducer::FINAL_BYTES, f, final_states);
    wire::clear(final_states, f, 0);
    copy(
        weight_at,
        WEIGHT_AT,
        transducer::FINAL_BYTES,
        f,
        final_weights,
    );
    wire::clear(final_weights, f, 0);
    copy_fields(bytes, first, m, fields);
    copy(weight_at, first + 12, transducer::ARC_BYTES, m, arc_weights);
    wire::clear(arc_weights, m, 0);
    Ok(head)
}

// Trimming: what lies on accepting paths, in its order, renumbered.
ghost use Rattle.std.specs.Prelude.{◌≡◌, true, ◌+◌, ◌*◌, ◌≤◌, length, get_or};
ghost use Rattle.std.proofs.lemmas.List.Edits.{sets};
ghost use Rattle.transducer.specs.Format.{max_states, max_arcs, max_bytes, head_bytes, arc_bytes, arcs_at};
ghost use Rattle.transducer.specs.Format.{refusal, decode, head_finals};
ghost use Rattle.transducer.specs.Encode.{final_records};
ghost use Rattle.transducer.specs.Accepted.{AcceptedAt};
ghost use Rattle.transducer.specs.Answer.{written};
ghost use Rattle.trim.specs.Trim.{arc_useful, moved, kept_finals};
ghost use Rattle.trim.specs.Passing.{PassingPut};
ghost use Rattle.reach.specs.Reach.{AllAccessible};
ghost use Rattle.trim.specs.Parts.{Renumbered, Trims};
ghost use Rattle.trim.specs.TrimEntry.{TrimSays, trim_refusal};

use crate::renumber;
use transducer::{Arc, Final, Refusal};

// Writes the finals that are kept behind the head. Answers how many. Compose, lattice and codec write other finals; what they share is `put_final`.
fn put_finals(
    bytes: &[u8],
    finals: usize,
    index: &[u16; transducer::MAX_STATES + 1],
    out: &mut [u8],
) -> usize
    requires { (refusal bytes.now ≡ 0) × (finals ≡ head_finals bytes.now)
        × Renumbered (decode bytes.now) index.now × (arcs_at finals ≤ length out.old) }
    ensures { (result ≡ length (kept_finals (decode bytes.now) (decode bytes.now).finals))
        × (out.new ≡ sets out.old head_bytes
        (final_records (kept_finals (decode bytes.now) (decode bytes.now).finals))) }
{
    let mut count = 0;
    for i in 0..finals {
        let f = transducer::load_final(bytes, transducer::arcs_at(i));
        let s = f.state as usize;
        if index[s] == index[s + 1] {
            continue;
        }
        let kept = Final {
            state: index[s],
            ..f
        };
        transducer::put_final(out, transducer::arcs_at(count), kept);
        count += 1;
    }
    count
}

// Writes the arcs that are kept from `at` on, and their numbers to the front of `origins`. Answers how many.
// Derived `put_within` tests an arc by other arrays and writes it unchanged, as is said there.
fn put_arcs(
    bytes: &[u8],
    first: usize,
    arcs: usize,
    index: &[u16; transducer::MAX_STATES + 1],
    at: usize,
    out: &mut [u8],
    origins: &mut [u16],
) -> usize
    requires { AcceptedAt bytes.now first × (arcs ≡ length (decode bytes.now).arcs) × Renumbered (decode bytes.now) index.now
        × (at + arc_bytes * arcs ≤ length out.old) × (arcs ≤ length origins.old) }
    ensures { PassingPut (arc_useful (decode bytes.now)) (moved (decode bytes.now)) (decode bytes.now).arcs
        at result out.old out.new origins.old origins.new }
{
    let mut count = 0;
    for i in 0..arcs {
        let a = transducer::arc_of(bytes, first, i);
        let s = a.source as usize;
        let t = a.target as usize;
        if index[s] == index[s + 1] {
            continue;
        }
        if index[t] == index[t + 1] {
            continue;
        }
        let kept = Arc {
            source: index[s],
            target: index[t],
            ..a
        };
        transducer::put_arc(out, at + transducer::ARC_BYTES * count, kept);
        origins[count] = i as u16;
        count += 1;
    }
    count
}

// The new number of a state.
fn new_number(index: &[u16; transducer::MAX_STATES + 1], state: u16) -> u16
    requires { state ≤ max_states }
    ensures { result ≡ get_or index.now state 0 }
{
    index[state as usize]
}

// Writes what trimming leaves of accepted bytes, and for each arc the number that it had. Answers the length in bytes. `all_accessible` tells
// that each state is known to be accessible: a bool, since the contract asks by it for that fact.
pub fn trim_into(table: &[u8], all_accessible: bool, out: &mut [u8], origins: &mut [u16]) -> usize
    requires { (refusal table.now ≡ 0) × (max_bytes ≤ length out.old) × (max_arcs ≤ length origins.old)
        × (all_accessible ≡ true → AllAccessible (decode table.now)) }
    ensures { Trims (decode table.now) result out.old out.new origins.old origins.new }
{
    let head = transducer::head_of(table);
    let n = head.states as usize;
    let m = head.arcs as usize;
    let f = head.finals as usize;
    let start = head.start as usize;
    let first = transducer::arcs_at(f);
    let index = renumber::renumber(table, first, n, m, f, start, all_accessible);
    if index[start] == index[start + 1] {
        transducer::put_head(out, 1, 0, 0, 0);
        wire::clear(out, transducer::HEAD_BYTES, 0);
        wire::clear(origins, 0, 0);
        return transducer::HEAD_BYTES;
    }
    let finals = put_finals(table, f, &index, out);
    let at = transducer::arcs_at(finals);
    let arcs = put_arcs(table, first, m, &index, at, out, origins);
    let end = at + transducer::ARC_BYTES * arcs;
    transducer::put_head(
        out,
        index[n],
        arcs as u16,
        finals as u16,
        new_number(&index, head.start as u16),
    );
    wire::clear(out, end, 0);
    wire::clear(origins, arcs, 0);
    end
}

// Trims a transducer into a lent buffer, and hands over one origin for each arc that is kept: its number in the table. Linear in states and arcs.
pub fn trim(table: &[u8], out: &mut [u8], origins: &mut [u16]) -> Result<u32, Refusal>
    ensures { TrimSays table.now (trim_refusal table.now (length out.old) (length origins.old))
        (written result) out.old out.new origins.old origins.new }
{
    transducer::ensure_accepted(table)?;
    if out.len() < transducer::MAX_BYTES {
        return Err(Refusal::Room);
    }
    if origins.len() < transducer::MAX_ARCS {
        return Err(Refusal::Room);
    }
    let len = trim_into(table, false, out, origins);
    Ok(len as u32)
}

// Inversion: the input and the output label exchanged on each arc.
ghost use Rattle.std.specs.Prelude.{◌≡◌, true, map, ◌+◌, ◌*◌, ◌≤◌, length};
ghost use Rattle.std.proofs.lemmas.List.Edits.{sets};
ghost use Rattle.transducer.specs.Each.{has_no_any_input};
ghost use Rattle.transducer.specs.Encode.{arc_records};
ghost use Rattle.transducer.specs.Format.{decode, refusal, arc_bytes, max_bytes};
ghost use Rattle.transducer.specs.Accepted.{AcceptedAt};
ghost use Rattle.derived.specs.Inverted.{inverted_arc, inverted};
ghost use Rattle.derived.specs.Put.{Puts};

use crate::front;
use transducer::Arc;

// Exchanges the labels of an arc.
#[tactic(auto, unfolding(crate::specs::Inverted::inverted_arc))]
fn inverted_arc(a: Arc) -> Arc
    ensures { result ≡ inverted_arc a }
{
    Arc {
        input: a.output,
        output: a.input,
        ..a
    }
}

// Writes all arcs with their labels exchanged, each at the place that it has in the table.
fn put_inverted(table: &[u8], first: usize, arcs: usize, out: &mut [u8])
    requires { AcceptedAt table.now first × (arcs ≡ length (decode table.now).arcs) × (first + arc_bytes * arcs ≤ length out.old) }
    ensures { out.new ≡ sets out.old first (arc_records (map inverted_arc (decode table.now).arcs)) }
{
    for i in 0..arcs {
        let a = transducer::arc_of(table, first, i);
        transducer::put_arc(out, first + transducer::ARC_BYTES * i, inverted_arc(a));
    }
}

// Writes an accepted table inverted and returns its length in bytes. An arc for any symbol (65,535) that writes another label would, inverted, have
// 65,535 as output only, which refusal 7 forbids; so no arc of the table may be for any symbol. Linear in the length of the table.
pub fn invert_into(table: &[u8], out: &mut [u8]) -> usize
    requires { (refusal table.now ≡ 0) × (has_no_any_input (decode table.now) ≡ true) × (max_bytes ≤ length out.old) }
    ensures { Puts (inverted (decode table.now)) result out.new }
{
    let shape = transducer::shape_of(table);
    let at = shape.first;
    front::copy_front(table, at, out);
    put_inverted(table, at, shape.arcs, out);
    at + transducer::ARC_BYTES * shape.arcs
}

// Records written at a place.
ghost use Rattle.std.specs.Prelude.{◌≡◌, ◌+◌, ◌≤◌, length};
ghost use Rattle.std.proofs.lemmas.List.Edits.{sets};
ghost use Rattle.transducer.specs.Format.{head_bytes, final_bytes, arc_bytes};
ghost use Rattle.transducer.specs.Encode.{head_record, final_record, arc_record};

use crate::{Arc, Final};

// Writes the head record at the front.
pub fn put_head(out: &mut [u8], n: u16, m: u16, f: u16, start: u16)
    requires { head_bytes ≤ length out.old }
    ensures { out.new ≡ sets out.old 0 (head_record n m f start) }
{
    wire::put_u16(out, 0, 8);
    wire::put_u16(out, 2, 1);
    wire::put_u16(out, 4, n);
    wire::put_u16(out, 6, m);
    wire::put_u16(out, 8, f);
    wire::put_u16(out, 10, start);
}

// Writes a final's record at a place.
pub fn put_final(out: &mut [u8], at: usize, f: Final)
    requires { at + final_bytes ≤ length out.old }
    ensures { out.new ≡ sets out.old at (final_record f) }
{
    wire::put_u16(out, at, 6);
    wire::put_u16(out, at + 2, 2);
    wire::put_u16(out, at + 4, f.state);
    wire::put_i32(out, at + 6, f.weight);
}

// Writes an arc's record at a place.
pub fn put_arc(out: &mut [u8], at: usize, a: Arc)
    requires { at + arc_bytes ≤ length out.old }
    ensures { out.new ≡ sets out.old at (arc_record a) }
{
    wire::put_u16(out, at, 12);
    wire::put_u16(out, at + 2, 3);
    wire::put_u16(out, at + 4, a.source);
    wire::put_u16(out, at + 6, a.input);
    wire::put_u16(out, at + 8, a.output);
    wire::put_u16(out, at + 10, a.target);
    wire::put_i32(out, at + 12, a.weight);
}

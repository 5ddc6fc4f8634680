// The whole listing, from the bytes of two transducers and of a code.
ghost use Rattle.std.specs.Prelude.{◌≡◌, ◌≤◌, length};
ghost use Rattle.transducer.specs.Format.{refusal, decode};
ghost use Rattle.listing.specs.Text.{Whole, least_room};
ghost use Rattle.listing.specs.Answer.{listed, listed_of};
ghost use Rattle.listing.specs.Entry.{applied_refusal, applied_text, listing_refusal, text_of, text_room, ListingSays};

use crate::{Listing, code, lines};
use transducer::Refusal;

// The bytes that the longest text takes.
pub const LEAST_ROOM: usize = 602996;

// Applies a code to an accepted transducer and lists what comes of it.
fn list_applied(table: &[u8], bytes: &[u8], out: &mut [u8]) -> Listing
    requires { (refusal table.now ≡ 0) × (least_room ≤ length out.old) }
    ensures { Whole out.old out.new (listed_of result) (applied_refusal (decode table.now) bytes.now)
        (applied_text (decode table.now) bytes.now) }
{
    if bytes.len() % 2 != 0 {
        return lines::put_refusal(Refusal::Symbols, out);
    }
    let mut string = [0u16; code::MOST_LOADED];
    let count = code::load_labels(bytes, &mut string);
    let mut lattice = [0u8; transducer::MAX_BYTES];
    let mut origins = [0u16; transducer::MAX_ARCS];
    let mut pairs = [0u32; transducer::MAX_STATES];
    let applied = lattice::apply(
        &string[..count],
        table,
        &mut lattice,
        &mut origins,
        &mut pairs,
    );
    match applied {
        Ok(len) => lines::list_into(&lattice[..len as usize], out),
        Err(refusal) => lines::put_refusal(refusal, out),
    }
}

// Composes two transducers, applies a code and lists what comes of it.
// The listing of a cascade differs from this in its calls and in the order of its refusals, so that one function of both would be no plainer.
fn list_composed(left: &[u8], right: &[u8], bytes: &[u8], out: &mut [u8]) -> Listing
    requires { least_room ≤ length out.old }
    ensures { Whole out.old out.new (listed_of result) (listing_refusal left.now right.now bytes.now)
        (text_of left.now right.now bytes.now) }
{
    let mut table = [0u8; transducer::MAX_BYTES];
    let mut origins = [0u16; transducer::MAX_ORIGINS];
    let mut states = [0u32; transducer::MAX_STATES];
    let composed = compose::compose(left, right, &mut table, &mut origins, &mut states);
    match composed {
        Ok(len) => list_applied(&table[..len as usize], bytes, out),
        Err(refusal) => lines::put_refusal(refusal, out),
    }
}

// The listing of two transducers and a code: the text from the front of `out`, zeros behind, its length, and the number of the refusal that it says:
// a refusal of theirs is a text too. Where `out` is too short for the longest text, 10 is answered and nothing written. Time is that of composing,
// applying and counting, and of a walk along each path listed.
pub fn listing(left: &[u8], right: &[u8], bytes: &[u8], out: &mut [u8]) -> Result<Listing, Refusal>
    ensures { ListingSays left.now right.now bytes.now (text_room (length out.old))
        (listed result) out.old out.new }
{
    if out.len() < LEAST_ROOM {
        return Err(Refusal::Room);
    }
    Ok(list_composed(left, right, bytes, out))
}

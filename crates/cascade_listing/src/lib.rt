// The listing of a cascade as text: a string applied to the left transducer first, its lattice composed with the right one, and a line for each accepting
// path of the result. specs/PrintedCascade.antt says what is claimed of the text.
#![tactic(auto)]

ghost use Rattle.std.specs.Prelude.{◌≡◌, ◌≤◌, length};
ghost use Rattle.transducer.specs.Entry.{or_else};
ghost use Rattle.cascade.specs.Entry.{tables_refusal};
ghost use Rattle.listing.specs.Text.{Whole, refused_text, least_room};
ghost use Rattle.listing.specs.Entry.{text_room};
ghost use Rattle.listing.specs.Answer.{listed, listed_of};
ghost use Rattle.cascade_listing.specs.Entry.{cascade_listing_refusal, cascade_text, CascadeListingSays};

use listing::{LEAST_ROOM, Listing, MOST_LOADED};
use transducer::{MAX_BYTES, MAX_ORIGINS, MAX_STATES, Refusal};

// Writes the line of the refusal if the code has an odd last byte: 1 to 8 of the two transducers come before 9.
fn refuse_odd(left: &[u8], right: &[u8], out: &mut [u8]) -> Listing
    requires { least_room ≤ length out.old }
    ensures { Whole out.old out.new (listed_of result) (or_else (tables_refusal left.now right.now) 9)
        (refused_text (or_else (tables_refusal left.now right.now) 9)) }
{
    match cascade::ensure_both_accepted(left, right) {
        Ok(()) => listing::put_refusal(Refusal::Symbols, out),
        Err(refusal) => listing::put_refusal(refusal, out),
    }
}

// Lists the cascade into a buffer that is long enough.
fn list_cascade(left: &[u8], right: &[u8], bytes: &[u8], out: &mut [u8]) -> Listing
    requires { least_room ≤ length out.old }
    ensures { Whole out.old out.new (listed_of result) (cascade_listing_refusal left.now right.now bytes.now)
        (cascade_text left.now right.now bytes.now) }
{
    if bytes.len() % 2 != 0 {
        return refuse_odd(left, right, out);
    }
    let mut string = [0u16; MOST_LOADED];
    let count = listing::load_labels(bytes, &mut string);
    let mut table = [0u8; MAX_BYTES];
    let mut origins = [0u16; MAX_ORIGINS];
    let mut states = [0u32; MAX_STATES];
    let made = cascade::cascade(
        left,
        right,
        &string[..count],
        &mut table,
        &mut origins,
        &mut states,
    );
    match made {
        Ok(len) => listing::list_into(&table[..len as usize], out),
        Err(refusal) => listing::put_refusal(refusal, out),
    }
}

// The listing of the cascade of two transducers and a code: the text from the front of `out`, zeros behind, its length, and the number of the refusal that
// the text says. If `out` is too short for the longest text, 10 is answered and nothing written. Time is that of the cascade and of counting, and of a
// walk along each path listed.
pub fn list(left: &[u8], right: &[u8], bytes: &[u8], out: &mut [u8]) -> Result<Listing, Refusal>
    ensures { CascadeListingSays left.now right.now bytes.now (text_room (length out.old))
        (listed result) out.old out.new }
{
    if out.len() < LEAST_ROOM {
        return Err(Refusal::Room);
    }
    Ok(list_cascade(left, right, bytes, out))
}

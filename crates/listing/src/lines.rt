// The listing of a transducer's bytes.
ghost use Rattle.std.specs.Prelude.{◌≡◌, ◌+◌, ◌≤◌, ◌<◌, length};
ghost use Rattle.transducer.specs.Format.{refusal, decode};
ghost use Rattle.paths.specs.Count.{path_count};
ghost use Rattle.listing.specs.Text.{Wrote, Whole, line_of, lines, counted_text, listing_text, refused_text, least_room};
ghost use Rattle.listing.specs.PathsCounted.{PathsCounted};
ghost use Rattle.listing.specs.Answer.{listed_of};
ghost use Rattle.transducer.specs.Answer.{number};

use crate::{Listing, text};
use capped::Count;
use paths::Totals;
use transducer::{INDEX_LEN, MAX_STATES, Refusal, Shape};

// What the walk to each path asks for: the bytes of a transducer with finitely many accepting paths, what they are prepared by, and the counts by state.
#[derive(Drop)]
struct Walk<'a> {
    table: &'a [u8],
    shape: Shape,
    index: &'a [u16; INDEX_LEN],
    codes: &'a [u32; MAX_STATES],
    counts: &'a [Count; MAX_STATES],
}

// Writes the line of the k-th path.
fn put_path(walk: &Walk, k: u32, out: &mut [u8], at: usize) -> usize
    requires { PathsCounted walk.now × (k < path_count (decode walk.now.table.now))
        × (at + length (line_of (decode walk.now.table.now) k) ≤ length out.old) }
    ensures { Wrote out.old out.new at result (line_of (decode walk.now.table.now) k) }
{
    let mut arcs = [0u16; transducer::MAX_PATH];
    let mut labels = [0u16; transducer::MAX_PATH];
    let shape = walk.shape;
    let len = paths::nth_arcs(
        walk.table,
        shape.first,
        shape.states,
        shape.start,
        k,
        walk.index,
        walk.codes,
        *walk.counts,
        &mut arcs,
    );
    let told = report::tell(
        walk.table,
        shape.first,
        shape.start,
        walk.codes,
        &arcs,
        len,
        &mut labels,
    );
    text::put_line(out, at, k, told.cost, &labels[..told.labels as usize])
}

// Writes a line for each path.
fn put_paths(walk: &Walk, count: u32, out: &mut [u8], at: usize) -> usize
    requires { PathsCounted walk.now × (count ≡ path_count (decode walk.now.table.now))
        × (at + length (lines (decode walk.now.table.now) count) ≤ length out.old) }
    ensures { Wrote out.old out.new at result (lines (decode walk.now.table.now) count) }
{
    let mut end = at;
    for k in 0..count {
        end = put_path(walk, k, out, end);
    }
    end
}

// Writes the count and a line for each path, or that they are too many.
fn put_counted(walk: &Walk, out: &mut [u8], at: usize) -> usize
    requires { PathsCounted walk.now × (at + length (counted_text (decode walk.now.table.now)) ≤ length out.old) }
    ensures { Wrote out.old out.new at result (counted_text (decode walk.now.table.now)) }
{
    let count = walk.counts[walk.shape.start].value as u32;
    if count >= transducer::MAX_COUNT {
        return text::put_bytes(out, at, b"99+\n");
    }
    let number = text::put_decimal(out, at, count as u64);
    let lines = text::put_byte(out, number, b'\n');
    put_paths(walk, count, out, lines)
}

// Writes the listing at the front. The paths are counted once, and each line walks along the counts.
fn put_listing(table: &[u8], out: &mut [u8]) -> usize
    requires { (refusal table.now ≡ 0) × (least_room ≤ length out.old) }
    ensures { Wrote out.old out.new 0 result (listing_text (decode table.now)) }
{
    let mut index = [0u16; INDEX_LEN];
    let mut codes = [0u32; MAX_STATES];
    let shape = transducer::prepare(table, &mut index, &mut codes);
    let totals = paths::counts_by_state(
        table,
        shape.first,
        shape.states,
        shape.start,
        &index,
        &codes,
    );
    let word = text::put_bytes(out, 0, b"readings ");
    match totals {
        Totals::Endless(_) => text::put_bytes(out, word, b"endless\n"),
        Totals::Finite(counts) => {
            let walk = Walk {
                table,
                shape,
                index: &index,
                codes: &codes,
                counts: &counts,
            };
            put_counted(&walk, out, word)
        }
    }
}

// Lists an accepted transducer: the text from the front of `out`, zeros behind.
pub fn list_into(table: &[u8], out: &mut [u8]) -> Listing
    requires { (refusal table.now ≡ 0) × (least_room ≤ length out.old) }
    ensures { Whole out.old out.new (listed_of result) 0 (listing_text (decode table.now)) }
{
    let end = put_listing(table, out);
    wire::clear(out, end, 0);
    Listing {
        len: end as u32,
        said: None,
    }
}

// Says a refusal by its number, whatever number it is: its text from the front of `out`, zeros behind. Returns the length of the text.
pub fn refuse_into(number: u32, out: &mut [u8]) -> u32
    requires { least_room ≤ length out.old }
    ensures { Whole out.old out.new (record { refusal = 0; len = result; said = number }) number (refused_text number) }
{
    let word = text::put_bytes(out, 0, b"refused ");
    let shown = text::put_decimal(out, word, number as u64);
    let end = text::put_byte(out, shown, b'\n');
    wire::clear(out, end, 0);
    end as u32
}

// Says a refusal: its text from the front of `out`, zeros behind.
pub fn put_refusal(refusal: Refusal, out: &mut [u8]) -> Listing
    requires { least_room ≤ length out.old }
    ensures { Whole out.old out.new (listed_of result) (number refusal) (refused_text (number refusal)) }
{
    let len = refuse_into(refusal.number(), out);
    Listing {
        len,
        said: Some(refusal),
    }
}

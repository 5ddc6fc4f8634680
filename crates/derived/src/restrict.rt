// Restriction: the arcs that fail a test left out. The test is a bound on the cost of a path by way of the arc.
ghost use Rattle.std.specs.Prelude.{◌≡◌, ◌+◌, ◌*◌, ◌≤◌, length};
ghost use Rattle.std.proofs.lemmas.List.Edits.{sets};
ghost use Rattle.transducer.specs.Format.{decode, refusal, arc_bytes, max_arcs, max_bytes};
ghost use Rattle.transducer.specs.Accepted.{AcceptedAt};
ghost use Rattle.transducer.specs.Weight.{at_most, plus};
ghost use Rattle.trim.specs.Passing.{PassingPut};
ghost use Rattle.derived.specs.Restricted.{unchanged, restricted, origins_restricted, within_bound};
ghost use Rattle.derived.specs.Put.{Puts};

use crate::front;

// True if three costs sum to at most `most`. The sums are made in 64 bits, so none overflows.
fn sum_at_most(coming: i32, weight: i32, rest: i32, most: i64) -> bool
    ensures { result ≡ at_most (plus coming (plus weight rest)) most }
{
    i64::from(coming) + (i64::from(weight) + i64::from(rest)) <= most
}

// Writes the arcs that are within the bound from `at` on, and their numbers to the front of `numbers`. Returns how many there are.
// Trim `put_arcs` tests an arc by other arrays and writes another: a function for both would take two closures, and say of both what they answer.
fn put_within(
    table: &[u8],
    first: usize,
    arcs: usize,
    coming: &[i32],
    rest: &[i32],
    most: i64,
    at: usize,
    out: &mut [u8],
    numbers: &mut [u16],
) -> usize
    requires { AcceptedAt table.now first × (arcs ≡ length (decode table.now).arcs) × ((decode table.now).states ≤ length coming.now)
        × ((decode table.now).states ≤ length rest.now) × (at + arc_bytes * arcs ≤ length out.old) × (arcs ≤ length numbers.old) }
    ensures { PassingPut (within_bound coming.now rest.now most) unchanged (decode table.now).arcs at result
        out.old out.new numbers.old numbers.new }
{
    let mut count = 0;
    for i in 0..arcs {
        let a = transducer::arc_of(table, first, i);
        let s = a.source as usize;
        let t = a.target as usize;
        if !sum_at_most(coming[s], a.weight, rest[t], most) {
            continue;
        }
        transducer::put_arc(out, at + transducer::ARC_BYTES * count, a);
        numbers[count] = i as u16;
        count += 1;
    }
    count
}

// Writes an accepted table without the arcs whose weight, with a cost of coming to their source and a cost of what is left from their target, sums
// above `most`. Stores for each arc that is left the number that it had, and returns the length of the new table in bytes. States and finals stay,
// so a state may be left that lies on no accepting path. Linear in the length of the table.
pub fn restrict_into(
    table: &[u8],
    coming: &[i32],
    rest: &[i32],
    most: i64,
    out: &mut [u8],
    numbers: &mut [u16],
) -> usize
    requires { (refusal table.now ≡ 0) × ((decode table.now).states ≤ length coming.now) × ((decode table.now).states ≤ length rest.now)
        × (max_bytes ≤ length out.old) × (max_arcs ≤ length numbers.old) }
    ensures { Puts (restricted (within_bound coming.now rest.now most) (decode table.now)) result out.new
        × (numbers.new ≡ sets numbers.old 0
        (origins_restricted (within_bound coming.now rest.now most) (decode table.now))) }
{
    let shape = transducer::shape_of(table);
    let at = shape.first;
    front::copy_front(table, at, out);
    let count = put_within(table, at, shape.arcs, coming, rest, most, at, out, numbers);
    transducer::put_head(
        out,
        shape.states as u16,
        count as u16,
        shape.finals as u16,
        shape.start as u16,
    );
    at + transducer::ARC_BYTES * count
}

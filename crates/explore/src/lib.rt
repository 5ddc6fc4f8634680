// States numbered as first reached: the index of stored states, and the arcs of a walk.
#![tactic(auto)]

ghost use Rattle.std.specs.Prelude.{◌≡◌, false, List, [], ◌∷◌, ◌++◌, ℕ, ◌+◌, ◌*◌, ◌≤◌, ◌<◌, eqb, length, take, drop};
ghost use Rattle.std.proofs.lemmas.List.Edits.{sets};
ghost use Rattle.transducer.specs.Format.{max_states, arc_bytes};
ghost use Rattle.explore.specs.Explore.{there, place};
ghost use Rattle.explore.specs.Chain.{buckets, bucket_of, Chained};
ghost use Rattle.explore.specs.Walk.{with_key, max_arc_bytes, Records, Zeroed};

pub use transducer::MAX_ARCS;
use transducer::{Arc, MAX_STATES};

// Stored states stand in chains by bucket.
pub const BUCKETS: usize = 2048;

const BUCKET_MASK: usize = BUCKETS - 1;

// The bucket of a key.
pub fn bucket(key: u32) -> usize
    ensures { (result ≡ bucket_of key) × (result < buckets) }
{
    (((key as u64) * 2654435761) >> 21) as usize & BUCKET_MASK
}

// Stores a new key under the next number, in front of the chain of its bucket.
// There is no heap, so that the map of states is chains in arrays: a link is a number and one more, and an array of zeros has none. C lends the array of states.
pub fn insert(
    states: &mut [u32],
    heads: &mut [u16; BUCKETS],
    links: &mut [u16; MAX_STATES],
    count: usize,
    key: u32,
)
    requires { (count < max_states) × (max_states ≤ length states.old) }
    ensures by_index { (xs : List ℕ) → length xs ≡ count → there eqb key xs ≡ false →
        Chained xs states.old heads.old links.old →
        Chained (xs ++ (key ∷ [])) states.new heads.new links.new }
    ensures states_len_unchanged { length states.new ≡ length states.old }
{
    let b = bucket(key);
    states[count] = key;
    links[count] = heads[b];
    heads[b] = (count + 1) as u16;
}

// The number of a stored key, or `count` where it is not stored, which is the number that it is then stored under: an Option would have to be told apart from
// that number again. A chain is followed by links, so there is no index to count.
pub fn find(
    states: &[u32],
    heads: &[u16; BUCKETS],
    links: &[u16; MAX_STATES],
    count: usize,
    key: u32,
) -> usize
    requires { (xs : List ℕ) × Chained xs states.now heads.now links.now × (length xs ≡ count) }
    ensures { (xs : List ℕ) → Chained xs states.now heads.now links.now → length xs ≡ count →
        result ≡ place eqb key xs }
{
    let mut next = heads[bucket(key)] as usize;
    loop {
        if next == 0 {
            break count;
        }
        next -= 1;
        if states[next] == key {
            break next;
        }
        next = links[next] as usize;
    }
}

// Stores a key that was found under the number of the next one, which is to say not at all; how many are stored then.
pub fn store_new(
    states: &mut [u32],
    heads: &mut [u16; BUCKETS],
    links: &mut [u16; MAX_STATES],
    count: usize,
    key: u32,
    number: usize,
) -> usize
    requires { (number < max_states) × (max_states ≤ length states.old) }
    ensures { (xs : List ℕ) → length xs ≡ count → number ≡ place eqb key xs →
        Chained xs states.old heads.old links.old →
        Chained (with_key key xs) states.new heads.new links.new × (result ≡ length (with_key key xs)) }
{
    if number == count {
        insert(states, heads, links, count, key);
        return count + 1;
    }
    count
}

// How far a walk has come: states met, arcs (3,073 stands for more than 3,072), a weight out of range, more than 1,024 states met. Each step copies
// it, so the two flags are words, 0 or 1: bools would leave padding to copy.
// A weight out of range does not end the walk, since too many states or arcs are refused before it. One arc more than the limit stands for all that are too many.
#[derive(Clone, Copy)]
pub struct Walk {
    pub states: usize,
    pub arcs: usize,
    pub overflow: u32,
    pub full: u32,
}

// Writes an arc's record behind those before it, where there is room for it, and tells how far the walk has come with it.
pub fn record_arc(table: &mut [u8], w: Walk, arc: Arc) -> Walk
    requires { max_arc_bytes ≤ length table.old }
    ensures { Records arc w result table.old table.new }
{
    let overflow = w.overflow | (!transducer::weight_ok(arc.weight)) as u32;
    if w.arcs < MAX_ARCS {
        transducer::put_arc(table, transducer::ARC_BYTES * w.arcs, arc);
        return Walk {
            arcs: w.arcs + 1,
            overflow,
            ..w
        };
    }
    Walk {
        arcs: MAX_ARCS + 1,
        overflow,
        ..w
    }
}

// Moves the 16 bytes of a record. All are read before any is written, so that they go as one.
fn move_record(table: &mut [u8], from: usize, to: usize)
    requires { (from + arc_bytes ≤ length table.old) × (to + arc_bytes ≤ length table.old) }
    ensures { table.new ≡ sets table.old to (take arc_bytes (drop from table.old)) }
{
    let mut record = [0u8; transducer::ARC_BYTES];
    record.copy_from_slice(&table[from..from + transducer::ARC_BYTES]);
    table[to..to + transducer::ARC_BYTES].copy_from_slice(&record);
}

// Moves the arcs' records to their place behind the finals; nothing is moved where they stand there. The library's `copy_within` copies byte by byte.
pub fn move_arcs(table: &mut [u8], from: usize, first: usize, arcs: usize)
    requires { (first ≤ from) × (from + arc_bytes * arcs ≤ length table.old) }
    ensures { table.new ≡ sets table.old first (take (arc_bytes * arcs) (drop from table.old)) }
{
    if first == from {
        return;
    }
    for j in 0..arcs {
        move_record(
            table,
            from + transducer::ARC_BYTES * j,
            first + transducer::ARC_BYTES * j,
        );
    }
}

// Refuses because of what came of a walk: every buffer is all zeros, and the refusal, whatever it is, is the answer.
pub fn refuse<E: Copy>(
    table: &mut [u8],
    origins: &mut [u16],
    states: &mut [u32],
    refusal: E,
) -> Result<u32, E>
    ensures answer { result ≡ Err refusal }
    ensures zeros { Zeroed table.old table.new origins.old origins.new states.old states.new }
{
    wire::clear(table, 0, 0);
    wire::clear(origins, 0, 0);
    wire::clear(states, 0, 0);
    Err(refusal)
}

// Arcs and finals read straight from accepted bytes, and two indexes by state.
ghost use Rattle.std.specs.Prelude.{◌≡◌, ◌+◌, ◌*◌, ◌^◌, ◌<◌, ◌≤◌, max, true, length, take, replicate};
ghost use Rattle.transducer.specs.Format.{max_states, index_long, head_bytes, Transducer, refusal, decode, head_finals, weight_good};
ghost use Rattle.transducer.specs.Path.{arc};
ghost use Rattle.transducer.specs.Accepted.{head_in, AcceptedAt, EndsMarked, Indexed, FinalsByState, max_code};
ghost use Rattle.transducer.specs.Weight.{magnitude, plus, code_of, weight_of};

use crate::{Arc, Head, check};

// The head's four numbers.
#[tactic(auto, unfolding(crate::specs::Format::head_states, crate::specs::Format::head_arcs, crate::specs::Format::head_finals, crate::specs::Format::head_start))]
pub fn header(bytes: &[u8]) -> Head
    requires { head_bytes ≤ length bytes.now }
    ensures { result ≡ head_in bytes.now }
{
    Head {
        states: wire::u16_at(bytes, 4) as u32,
        arcs: wire::u16_at(bytes, 6) as u32,
        finals: wire::u16_at(bytes, 8) as u32,
        start: wire::u16_at(bytes, 10) as u32,
    }
}

// Arc `i` of accepted bytes, whose arcs begin at `first`.
pub fn arc_of(bytes: &[u8], first: usize, i: usize) -> Arc
    requires { AcceptedAt bytes.now first × (i < length (decode bytes.now).arcs) }
    ensures { result ≡ arc (decode bytes.now) i }
{
    check::load_arc(bytes, first + bounds::ARC_BYTES * i)
}

// Arcs are marked by blocks of this many, a power of two: how many blocks there are is told without a division.
const BLOCK: usize = 128;

const BLOCK_SHIFT: u32 = 7;

// Marks the arcs from `from` to below `to` one by one: one place up from its source stands the number of an arc and one more.
fn mark_each(
    bytes: &[u8],
    first: usize,
    from: usize,
    to: usize,
    index: &mut [u16; bounds::INDEX_LEN],
)
    requires { AcceptedAt bytes.now first × (from ≤ to) × (to ≤ length (decode bytes.now).arcs)
        × EndsMarked (take from (decode bytes.now).arcs) index.old }
    ensures { EndsMarked (take to (decode bytes.now).arcs) index.new }
{
    for i in from..to {
        let source = wire::u16_at(bytes, first + bounds::ARC_BYTES * i + 4) as usize;
        index[source + 1] = (i + 1) as u16;
    }
}

// Marks a block of arcs. Sources never fall: if the first and the last arc have one source, all between have it too, and the last mark stays.
fn mark_block(bytes: &[u8], first: usize, from: usize, index: &mut [u16; bounds::INDEX_LEN])
    requires { AcceptedAt bytes.now first × (from + 128 ≤ length (decode bytes.now).arcs)
        × EndsMarked (take from (decode bytes.now).arcs) index.old }
    ensures { EndsMarked (take (from + 128) (decode bytes.now).arcs) index.new }
{
    let place = first + bounds::ARC_BYTES * from + 4;
    let source = wire::u16_at(bytes, place) as usize;
    if source != wire::u16_at(bytes, place + bounds::ARC_BYTES * (BLOCK - 1)) as usize {
        mark_each(bytes, first, from, from + BLOCK, index);
        return;
    }
    index[source + 1] = (from + BLOCK) as u16;
}

// Takes the running maximum of the marks.
fn raise(states: usize, index: &mut [u16; bounds::INDEX_LEN])
    requires { (states ≤ max_states) × (length index.old ≡ index_long) }
    ensures { (t : Transducer) → t.states ≡ states → EndsMarked t.arcs index.old → Indexed t index.new }
{
    let mut most = 0;
    for s in 0..states {
        most = most.max(index[s + 1]);
        index[s + 1] = most;
    }
}

// Puts the first-arc index into an array of zeros: at each state up to and with the number of states, how many arcs leave states below it. It goes by blocks,
// which is quicker where a state has many arcs.
pub fn put_index(
    bytes: &[u8],
    first: usize,
    states: usize,
    arcs: usize,
    index: &mut [u16; bounds::INDEX_LEN],
)
    requires { AcceptedAt bytes.now first × (states ≡ (decode bytes.now).states) × (arcs ≡ length (decode bytes.now).arcs)
        × (index.old ≡ replicate index_long 0) }
    ensures { Indexed (decode bytes.now) index.new }
{
    let blocks = arcs >> BLOCK_SHIFT;
    for block in 0..blocks {
        mark_block(bytes, first, BLOCK * block, index);
    }
    mark_each(bytes, first, BLOCK * blocks, arcs, index);
    raise(states, index);
}

// A cost with a weight more. It stands as a function, since it asks that a sum of 64 bits stays exact, which `Add` could not ask.
pub fn plus(cost: i64, weight: i32) -> i64
    requires { magnitude cost ≤ 2 ^ 62 }
    ensures { result ≡ plus cost weight }
{
    cost + weight as i64
}

// The code of a weight, a number from 1 on, and the weight of a code. They ask for a weight and a code in range, as `From` could not.
fn code_of(weight: i32) -> u32
    requires { weight_good weight ≡ true }
    ensures { (result ≡ code_of weight) × (result ≤ max_code) }
{
    (weight - bounds::MIN_WEIGHT) as u32 + 1
}

pub fn weight_of(code: u32) -> i32
    requires { (1 ≤ code) × (code ≤ max_code) }
    ensures { (result ≡ weight_of code) × (weight_good result ≡ true) }
{
    (code - 1) as i32 + bounds::MIN_WEIGHT
}

// Stores the final codes in an array of zeros: the code of a state's final weight, 0 where it is not final.
// A code is a number and no Option, which would double the array: memory is fixed, and an array of zeros has no finals.
pub fn put_codes(bytes: &[u8], finals: usize, codes: &mut [u32; bounds::MAX_STATES])
    requires { (refusal bytes.now ≡ 0) × (finals ≡ head_finals bytes.now) × (codes.old ≡ replicate max_states 0) }
    ensures { FinalsByState (decode bytes.now) codes.new }
{
    for i in 0..finals {
        let f = check::load_final(bytes, bounds::HEAD_BYTES + bounds::FINAL_BYTES * i);
        codes[f.state as usize] = code_of(f.weight);
    }
}

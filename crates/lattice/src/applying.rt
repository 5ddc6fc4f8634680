// Applying an input string: states numbered as first reached, their arcs written in turn, and the whole trimmed.
ghost use Rattle.std.specs.Prelude.{◌≡◌, cond, List, map, ℕ, ◌≤◌, ◌<◌, ltb, eqb, length, get_or, take, drop};
ghost use Rattle.std.proofs.lemmas.List.Edits.{sets};
ghost use Rattle.transducer.specs.Format.{max_states, max_arcs, max_bytes, head_bytes, arcs_at, decode, Good};
ghost use Rattle.transducer.specs.Encode.{final_records};
ghost use Rattle.transducer.specs.Answer.{written};
ghost use Rattle.explore.specs.Explore.{built_refusal};
ghost use Rattle.explore.specs.Walk.{Sofar, taken, state_served, max_arc_bytes, Holds, Takes, WalkSays, WalkTold};
ghost use Rattle.lattice.specs.Apply.{string_good, applied};
ghost use Rattle.lattice.specs.ApplyEntry.{ApplySays, apply_refusal};
ghost use Rattle.lattice.specs.Pack.{unpacked};
ghost use Rattle.lattice.specs.Applying.{next, arc_keyed, found, Applicable, StateIn, key_code, key_finals, SmallCodes, closed, Closes};
ghost use Rattle.lattice.specs.Applying.{arcs_place, ApplyAsks};

use crate::{packing, trimming};
use explore::{BUCKETS, Walk};
use transducer::{
    ARC_BYTES, Arc, BARRED, Final, MAX_ARCS, MAX_BYTES, MAX_STATES, MAX_SYMBOLS, Refusal,
};

// Where the walk writes the arcs: behind room for the head and as many finals as there can be.
const ARCS_PLACE: usize = MAX_BYTES - ARC_BYTES * MAX_ARCS;

// Whether a string has at most 64 symbols, none of them empty or barred.
pub fn string_ok(string: &[u16]) -> bool
    ensures { result ≡ string_good string.now }
{
    string.len() <= MAX_SYMBOLS && string.iter().all(|c| 1 <= *c && *c < BARRED)
}

// The symbol at a position, 0 behind the last one: no arc with an input fits that.
// So one comparison tells whether an arc fits, where an Option would be asked first.
fn symbol_at(string: &[u16], position: usize) -> u16
    ensures { result ≡ cond (ltb position (length string.now)) (get_or string.now position 0) 0 }
{
    string.get(position).copied().unwrap_or(0)
}

// How far a step moves that reads a symbol, 0 standing for none.
// The empty label is 0 in the format, so that it is no Option.
fn moved(symbol: u16) -> u32
    ensures { result ≡ cond (eqb symbol 0) 0 1 }
{
    u32::from(symbol != 0)
}

// A string and the accepted transducer that it is applied to, with what is known of its arcs, which validation tells and contracts ask for by the bool.
#[derive(Clone, Copy)]
struct Operands<'a> {
    string: &'a [u16],
    bytes: &'a [u8],
    no_any_input: bool,
    first: usize,
    index: &'a [u16; MAX_STATES + 1],
}

// Takes the step of an arc to the state of a key. An origin is one number here and two in compose `take_one`; what both share is in `explore`.
// The buffers that a walk writes go one by one, as in composition: of a struct of `&mut` two fields cannot be lent to one call.
fn take_step(
    a: Arc,
    i: usize,
    key: u32,
    w: Walk,
    table: &mut [u8],
    origins: &mut [u16],
    states: &mut [u32],
    heads: &mut [u16; BUCKETS],
    links: &mut [u16; MAX_STATES],
) -> Walk
    requires i_lt_max_arcs { i < max_arcs }
    requires holds { Holds 1 w table.old origins.old states.old heads.old links.old }
    ensures { Takes 1 (taken a.source (arc_keyed a i key)) w result table.old table.new
        origins.old origins.new states.old states.new
        heads.old heads.new links.old links.new }
{
    let count = w.states;
    let number = explore::find(states, heads, links, count, key);
    let mut walk = w;
    if number == MAX_STATES {
        walk.full = 1;
        return walk;
    }
    walk.states = explore::store_new(states, heads, links, count, key, number);
    let arcs = w.arcs;
    if arcs < MAX_ARCS {
        origins[arcs] = i as u16;
    }
    let made = Arc {
        target: number as u16,
        ..a
    };
    explore::record_arc(table, walk, made)
}

// Serves the state of number `source`: takes the step of each of its arcs that reads nothing or fits the symbol at its position. What the arcs that fit it
// read is told before, so that the loop tests one label and calls nothing for it.
fn expand_state(
    operands: &Operands,
    source: usize,
    w: Walk,
    table: &mut [u8],
    origins: &mut [u16],
    states: &mut [u32],
    heads: &mut [u16; BUCKETS],
    links: &mut [u16; MAX_STATES],
) -> Walk
    requires good { Good (decode operands.now.bytes.now) }
    requires applicable { Applicable operands.now.string.now operands.now.bytes.now operands.now.no_any_input operands.now.first operands.now.index.now
        × (source < w.states)
        × StateIn operands.now.string.now (decode operands.now.bytes.now) (unpacked (get_or states.old source 0)) }
    requires holds { Holds 1 w table.old origins.old states.old heads.old links.old }
    ensures { Takes 1 (state_served (next operands.now.string.now (decode operands.now.bytes.now)) source) w result
        table.old table.new origins.old origins.new states.old states.new
        heads.old heads.new links.old links.new }
{
    let Operands {
        string,
        bytes,
        no_any_input,
        first,
        index,
    } = *operands;
    let x = packing::unpack(states[source]);
    let q = x.state as usize;
    let symbol = symbol_at(string, x.position as usize);
    let from = index[q] as usize;
    let end = index[q + 1] as usize;
    let label = transducer::label_at(bytes, first, no_any_input, from, end, symbol);
    let mut walk = w;
    for i in from..end {
        let a = transducer::arc_of(bytes, first, i);
        let input = a.input;
        let mut read = input;
        let mut output = a.output;
        if input != label {
            if input != 0 {
                continue;
            }
        } else if input != symbol {
            read = symbol;
            output = transducer::passed(symbol, a);
        }
        let step = Arc {
            source: source as u16,
            input: read,
            output,
            ..a
        };
        let to = packing::pack(x.position + moved(read), a.target as u32);
        walk = take_step(step, i, to, walk, table, origins, states, heads, links);
        if walk.full != 0 {
            return walk;
        }
    }
    walk
}

// Walks from the first state, until each state that was met is served or there are too many.
// Compose walks in this way too: a function for both would take `expand_state` as a closure that writes five buffers, and say all its contract of the closure.
fn walk_all(
    operands: &Operands,
    start: u32,
    table: &mut [u8],
    origins: &mut [u16],
    states: &mut [u32],
) -> Walk
    requires good { Good (decode operands.now.bytes.now) }
    requires applicable { Applicable operands.now.string.now operands.now.bytes.now operands.now.no_any_input operands.now.first operands.now.index.now
        × (start ≡ (decode operands.now.bytes.now).start) }
    requires max_arc_bytes_in_bounds { (max_arc_bytes ≤ length table.old) × (max_arcs ≤ length origins.old) × (max_states ≤ length states.old) }
    ensures { WalkSays 1 (found operands.now.string.now (decode operands.now.bytes.now)) result table.old table.new
        origins.old origins.new states.old states.new }
{
    let mut heads = [0u16; BUCKETS];
    let mut links = [0u16; MAX_STATES];
    let first_key = packing::pack(0, start);
    explore::insert(states, &mut heads, &mut links, 0, first_key);
    let mut walk = Walk {
        states: 1,
        arcs: 0,
        overflow: 0,
        full: 0,
    };
    let mut s = 0;
    // The number of states grows while they are served, so there is no range to count over.
    while s < walk.states {
        walk = expand_state(
            operands, s, walk, table, origins, states, &mut heads, &mut links,
        );
        if walk.full != 0 {
            return walk;
        }
        s += 1;
    }
    walk
}

// The same walk in a buffer that has room for head and finals in front of the arcs.
fn walk_behind(
    operands: &Operands,
    start: u32,
    table: &mut [u8],
    origins: &mut [u16],
    states: &mut [u32],
) -> Walk
    requires good { Good (decode operands.now.bytes.now) }
    requires applicable { Applicable operands.now.string.now operands.now.bytes.now operands.now.no_any_input operands.now.first operands.now.index.now
        × (start ≡ (decode operands.now.bytes.now).start) }
    requires max_bytes_in_bounds { (max_bytes ≤ length table.old) × (max_arcs ≤ length origins.old) × (max_states ≤ length states.old) }
    ensures { WalkSays 1 (found operands.now.string.now (decode operands.now.bytes.now)) result
        (drop arcs_place table.old) (drop arcs_place table.new)
        origins.old origins.new states.old states.new }
{
    let part = &mut table[ARCS_PLACE..];
    walk_all(operands, start, part, origins, states)
}

// The final code of the state of a key: that of its state where its position is the last, else 0.
// A code of 0 is none, as `put_codes` has it.
fn code_of(codes: &[u32; MAX_STATES], last: u32, key: u32) -> u32
    ensures { result ≡ key_code codes.now last key }
{
    let x = packing::unpack(key);
    if x.position == last {
        codes[x.state as usize]
    } else {
        0
    }
}

// How many of the first `count` states are final.
fn final_count(codes: &[u32; MAX_STATES], last: u32, states: &[u32], count: usize) -> usize
    requires { (count ≤ length states.now) × (count ≤ max_states) }
    ensures { (result ≡ length (key_finals codes.now last (take count states.now))) × (result ≤ count) }
{
    states[..count]
        .iter()
        .filter(|key| code_of(codes, last, **key) != 0)
        .count()
}

// Writes the finals of the first `count` states, in order, behind the head. Compose, trim and codec write other finals; what they share is `put_final`.
fn put_finals(codes: &[u32; MAX_STATES], last: u32, states: &[u32], count: usize, table: &mut [u8])
    requires { (count ≤ length states.now) × (count ≤ max_states)
        × (arcs_at (length (key_finals codes.now last (take count states.now))) ≤ length table.old) × SmallCodes codes.now }
    ensures { table.new ≡ sets table.old head_bytes
        (final_records (key_finals codes.now last (take count states.now))) }
{
    let mut finals = 0;
    for s in 0..count {
        let code = code_of(codes, last, states[s]);
        if code != 0 {
            let f = Final {
                state: s as u16,
                weight: transducer::weight_of(code),
            };
            transducer::put_final(table, transducer::arcs_at(finals), f);
            finals += 1;
        }
    }
}

// Writes head and finals in front of the arcs. Answers where the head begins.
fn close(codes: &[u32; MAX_STATES], last: u32, states: &[u32], w: Walk, table: &mut [u8]) -> usize
    requires { ((b : Sofar) × (origins : List ℕ) × WalkTold 1 b w (drop arcs_place table.old) origins states.now)
        × (w.arcs ≤ max_arcs) × SmallCodes codes.now }
    ensures { (b : Sofar) (origins : List ℕ) → WalkTold 1 b w (drop arcs_place table.old) origins states.now →
        Closes (closed codes.now last b) result table.old table.new }
{
    let count = w.states;
    let arcs = w.arcs;
    let finals = final_count(codes, last, states, count);
    let from = ARCS_PLACE - transducer::arcs_at(finals);
    let part = &mut table[from..];
    put_finals(codes, last, states, count, part);
    transducer::put_head(part, count as u16, arcs as u16, finals as u16, 0);
    from
}

// Each of the first `count` origins, an arc of the lattice before trimming, becomes the arc that this one came from.
fn trace(origins: &mut [u16], count: usize, arcs: &[u16; MAX_ARCS])
    requires { (count ≤ length origins.old) × ((i : ℕ) → i < count → get_or origins.old i 0 < max_arcs) }
    ensures { origins.new ≡ sets origins.old 0 (map (λ i. get_or arcs.now i 0) (take count origins.old)) }
{
    for origin in &mut origins[..count] {
        *origin = arcs[*origin as usize];
    }
}

// Applies a good string to an accepted transducer, into buffers that are long enough; `no_any_input` may be true only if no arc is for any symbol. The
// lattice is written behind room for head and finals, and trimmed from there.
pub fn apply_into(
    string: &[u16],
    bytes: &[u8],
    no_any_input: bool,
    lattice: &mut [u8],
    origins: &mut [u16],
    pairs: &mut [u32],
) -> Result<u32, Refusal>
    requires { ApplyAsks string.now bytes.now no_any_input (length lattice.old) (length origins.old) (length pairs.old) }
    ensures { ApplySays string.now bytes.now (built_refusal (applied string.now (decode bytes.now)).result)
        (written result) lattice.old lattice.new origins.old origins.new pairs.old pairs.new }
{
    let head = transducer::head_of(bytes);
    let f = head.finals as usize;
    let first = transducer::arcs_at(f);
    let mut index = [0u16; MAX_STATES + 1];
    transducer::put_index(
        bytes,
        first,
        head.states as usize,
        head.arcs as usize,
        &mut index,
    );
    let mut arcs = [0u16; MAX_ARCS];
    let operands = Operands {
        string,
        bytes,
        no_any_input,
        first,
        index: &index,
    };
    let w = walk_behind(&operands, head.start, lattice, &mut arcs, pairs);
    if w.full != 0 {
        return explore::refuse(lattice, origins, pairs, Refusal::ManyStates);
    }
    let m = w.arcs;
    if MAX_ARCS < m {
        return explore::refuse(lattice, origins, pairs, Refusal::ManyArcs);
    }
    let mut codes = [0u32; MAX_STATES];
    transducer::put_codes(bytes, f, &mut codes);
    let from = close(&codes, string.len() as u32, pairs, w, lattice);
    let end = ARCS_PLACE + ARC_BYTES * m;
    let len = trimming::trim_behind(lattice, from, end - from, origins);
    let kept = wire::u16_at(lattice, 6) as usize;
    trace(origins, kept, &arcs);
    wire::clear(pairs, 0, 0);
    Ok(len as u32)
}

// Applies a string to a transducer: the lattice's bytes, trimmed, and for each of its arcs the arc that it came from. Time grows with the arcs
// of the transducer and with those of the table states that are met, once for each position they are met at.
pub fn apply(
    string: &[u16],
    table: &[u8],
    lattice: &mut [u8],
    origins: &mut [u16],
    pairs: &mut [u32],
) -> Result<u32, Refusal>
    ensures { ApplySays string.now table.now
        (apply_refusal string.now table.now (length lattice.old) (length origins.old) (length pairs.old))
        (written result) lattice.old lattice.new origins.old origins.new pairs.old pairs.new }
{
    let facts = transducer::validate(table, false)?;
    if !string_ok(string) {
        return Err(Refusal::Symbols);
    }
    if lattice.len() < MAX_BYTES {
        return Err(Refusal::Room);
    }
    if origins.len() < MAX_ARCS {
        return Err(Refusal::Room);
    }
    if pairs.len() < MAX_STATES {
        return Err(Refusal::Room);
    }
    let no_any_input = transducer::no_any_input(table, facts.no_any_input);
    apply_into(string, table, no_any_input, lattice, origins, pairs)
}

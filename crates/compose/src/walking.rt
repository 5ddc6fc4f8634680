// The walk: each state is served in turn, its steps taken, their targets numbered as first reached.
ghost use Rattle.std.specs.Prelude.{◌≡◌, true, false, cond, ◌≤◌, ◌<◌, length, get_or};
ghost use Rattle.transducer.specs.Format.{max_states, max_origins};
ghost use Rattle.explore.specs.Walk.{all_taken, state_served, traced_by, max_arc_bytes, Records, Holds, Takes, WalkSays};
ghost use Rattle.steps.specs.Steps.{first_state, origin_pair};
ghost use Rattle.steps.specs.Packing.{pack, unpacked};
ghost use Rattle.steps.specs.Runs.{Takeable, InBoth};
ghost use Rattle.compose.specs.Walk.{left_of, right_of, key_steps, key_walk, Walkable};
ghost use Rattle.compose.specs.Taking.{run_left};

use crate::sides::{Side, Sides};
use explore::{BUCKETS, Walk};
use steps::{Begin, Origin, Run, Step};
use transducer::{Arc, MAX_ARCS, MAX_STATES};

// The buffers that a walk writes go as they are: two fields of a struct of `&mut` cannot be lent to one call, and of such a struct passed by value a contract
// could name what is left behind by position alone.

// The number that a state beyond the limit would have.
// It is compared with a number of states and with what `explore::find` gives, neither of which is an Option.
const FULL: usize = MAX_STATES;

// Writes the origins of the arc of number `arcs`, where there is room for that arc.
fn put_origins(origins: &mut [u16], arcs: usize, o: Origin)
    requires { max_origins ≤ length origins.old }
    ensures { origins.new ≡ traced_by 2 arcs (origin_pair o) origins.old }
{
    if arcs < MAX_ARCS {
        origins[2 * arcs] = steps::left_origin(o);
        origins[2 * arcs + 1] = steps::right_origin(o);
    }
}

// Writes the arc of a step and its origins where there is room, and tells how far the walk has come with it.
fn record_step(
    table: &mut [u8],
    origins: &mut [u16],
    w: Walk,
    source: u16,
    s: Step,
    number: usize,
) -> Walk
    requires { (number < max_states) × (max_arc_bytes ≤ length table.old) × (max_origins ≤ length origins.old) }
    ensures records { Records (record { source = source; input = s.input; output = s.output; target = number; weight = s.weight }) w result
        table.old table.new }
    ensures origins_after { origins.new ≡ traced_by 2 w.arcs (origin_pair s.origin) origins.old }
{
    let o = s.origin;
    put_origins(origins, w.arcs, o);
    let a = Arc {
        source: source,
        input: s.input,
        output: s.output,
        target: number as u16,
        weight: s.weight,
    };
    explore::record_arc(table, w, a)
}

// Takes the step of a run of a left arc alone, from a state of number `source`. Lattice `take_step` has origins of one number; what both share is in `explore`.
fn take_one(
    sides: &Sides<'_>,
    r: Run,
    source: u16,
    from: usize,
    to: usize,
    w: Walk,
    table: &mut [u8],
    origins: &mut [u16],
    states: &mut [u32],
    heads: &mut [u16; BUCKETS],
    links: &mut [u16; MAX_STATES],
) -> Walk
    requires walkable { Walkable sides.now }
    requires takeable { Takeable (right_of sides.now) r from to × (r.alone ≡ true) }
    requires holds { Holds 2 w table.old origins.old states.old heads.old links.old }
    ensures { Takes 2 (all_taken source (run_left (right_of sides.now) r to from)) w result table.old table.new
        origins.old origins.new states.old states.new
        heads.old heads.new links.old links.new }
{
    if to <= from {
        return w;
    }
    let s = steps::step_of(r, sides.right.bytes, sides.right.first, from);
    let key = s.target;
    let count = w.states;
    let number = explore::find(states, heads, links, count, key);
    if number == FULL {
        return Walk { full: 1, ..w };
    }
    let next = Walk {
        states: explore::store_new(states, heads, links, count, key, number),
        ..w
    };
    record_step(table, origins, next, source, s, number)
}

// Takes the steps of a run with right arcs, from a state of number `source`; the first of them with right arc `from`.
fn take_each(
    sides: &Sides<'_>,
    r: Run,
    source: u16,
    from: usize,
    to: usize,
    w: Walk,
    table: &mut [u8],
    origins: &mut [u16],
    states: &mut [u32],
    heads: &mut [u16; BUCKETS],
    links: &mut [u16; MAX_STATES],
) -> Walk
    requires walkable { Walkable sides.now }
    requires takeable { Takeable (right_of sides.now) r from to × (r.alone ≡ false) }
    requires holds { Holds 2 w table.old origins.old states.old heads.old links.old }
    ensures { Takes 2 (all_taken source (run_left (right_of sides.now) r to from)) w result table.old table.new
        origins.old origins.new states.old states.new
        heads.old heads.new links.old links.new }
{
    let right = sides.right.bytes;
    let first = sides.right.first;
    let next_same_label = sides.next_same_label;
    let mut walk = w;
    let mut j = from;
    // The right arcs that fit are followed by links, so there is no index to count.
    while j < to {
        let s = steps::step_of(r, right, first, j);
        let key = s.target;
        let count = walk.states;
        // The search of `explore::find` stands here once more: what it finds is stored without a second look.
        // A state met before keeps the number it was first given, and a new one is stored where the search ends.
        let mut next = heads[explore::bucket(key)] as usize;
        // The stored states of a bucket are followed by links, so there is no index to count.
        let number = loop {
            if next == 0 {
                if count == FULL {
                    walk.full = 1;
                    return walk;
                }
                explore::insert(states, heads, links, count, key);
                walk.states = count + 1;
                break count;
            }
            next -= 1;
            if states[next] == key {
                break next;
            }
            next = links[next] as usize;
        };
        walk = record_step(table, origins, walk, source, s, number);
        // The arcs of a state that fit a label all read the same.
        let link = next_same_label[j] as usize;
        if link == 0 {
            return walk;
        }
        j = link - 1;
    }
    walk
}

// Takes the steps of a run. One alone is told from the others once, not at each step.
fn take_run(
    sides: &Sides<'_>,
    r: Run,
    source: u16,
    from: usize,
    to: usize,
    w: Walk,
    table: &mut [u8],
    origins: &mut [u16],
    states: &mut [u32],
    heads: &mut [u16; BUCKETS],
    links: &mut [u16; MAX_STATES],
) -> Walk
    requires walkable { Walkable sides.now }
    requires takeable { Takeable (right_of sides.now) r from to }
    requires holds { Holds 2 w table.old origins.old states.old heads.old links.old }
    ensures { Takes 2 (all_taken source (run_left (right_of sides.now) r to from)) w result table.old table.new
        origins.old origins.new states.old states.new
        heads.old heads.new links.old links.new }
{
    if r.alone {
        take_one(
            sides, r, source, from, to, w, table, origins, states, heads, links,
        )
    } else {
        take_each(
            sides, r, source, from, to, w, table, origins, states, heads, links,
        )
    }
}

// The right arc behind those of a run that begins there: a left arc alone takes none, and counts as one.
fn end_of(at: Begin, to: usize) -> usize
    ensures { result ≡ cond at.alone 1 to }
{
    if at.alone { 1 } else { to }
}

// Serves the state of number `source`: takes all its steps, in order.
fn expand_state(
    sides: &Sides<'_>,
    source: usize,
    w: Walk,
    table: &mut [u8],
    origins: &mut [u16],
    states: &mut [u32],
    heads: &mut [u16; BUCKETS],
    links: &mut [u16; MAX_STATES],
) -> Walk
    requires walkable { Walkable sides.now }
    requires source_met { source < w.states }
    requires in_both { InBoth (left_of sides.now) (right_of sides.now) (unpacked (get_or states.old source 0)) }
    requires holds { Holds 2 w table.old origins.old states.old heads.old links.old }
    ensures { Takes 2 (state_served (key_steps (left_of sides.now) (right_of sides.now)) source) w result
        table.old table.new
        origins.old origins.new states.old states.new
        heads.old heads.new links.old links.new }
{
    let Side {
        bytes: left,
        first: lfirst,
        index: lindex,
    } = sides.left;
    let Side {
        bytes: right,
        first: rfirst,
        index: rindex,
    } = sides.right;
    let heads_of = sides.heads;
    let chain = sides.chain;
    let x = steps::unpack(states[source]);
    let p = x.left as usize;
    let q = x.right as usize;
    let from = rindex[q] as usize;
    let to = rindex[q + 1] as usize;
    let last = lindex[p + 1] as usize;
    let wild = steps::first_any(
        right,
        rfirst,
        heads_of,
        chain,
        sides.no_any_input,
        q as u16,
        to,
    );
    let mut walk = w;
    let mut i = lindex[p] as usize;
    let only = steps::only_label(right, rfirst, from, wild, to, i, last);
    // The runs are found by jumps over left arcs that take no step, so there is no index to count.
    while i <= last {
        let at = steps::next_run(
            left, lfirst, i, last, x.filter, right, rfirst, heads_of, chain, q as u16, only, wild,
            to,
        );
        let r = steps::run_of(left, lfirst, at, last, x);
        let end = end_of(at, to);
        walk = take_run(
            sides,
            r,
            source as u16,
            at.j,
            end,
            walk,
            table,
            origins,
            states,
            heads,
            links,
        );
        if walk.full != 0 {
            return walk;
        }
        i = at.i + 1;
    }
    walk
}

// Walks from the first state, until each state that was met is served or there are too many.
pub fn walk_all(
    sides: &Sides<'_>,
    first: u32,
    table: &mut [u8],
    origins: &mut [u16],
    states: &mut [u32],
) -> Walk
    requires walkable { Walkable sides.now }
    requires first_value { first ≡ pack (first_state (left_of sides.now) (right_of sides.now)) }
    requires max_arc_bytes_in_bounds { (max_arc_bytes ≤ length table.old) × (max_origins ≤ length origins.old) × (max_states ≤ length states.old) }
    ensures { WalkSays 2 (key_walk (left_of sides.now) (right_of sides.now)) result table.old table.new
        origins.old origins.new states.old states.new }
{
    let mut heads = [0u16; BUCKETS];
    let mut links = [0u16; MAX_STATES];
    explore::insert(states, &mut heads, &mut links, 0, first);
    let mut walk = Walk {
        states: 1,
        arcs: 0,
        overflow: 0,
        full: 0,
    };
    let mut s = 0;
    // The states to be served grow in number while they are served, so they are no range.
    while s < walk.states {
        walk = expand_state(
            sides, s, walk, table, origins, states, &mut heads, &mut links,
        );
        if walk.full != 0 {
            return walk;
        }
        s += 1;
    }
    walk
}

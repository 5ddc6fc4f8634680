// Composing two transducers into lent buffers.
ghost use Rattle.std.specs.Prelude.{◌≡◌, true, false, ◌+◌, ◌≤◌, length, drop};
ghost use Rattle.transducer.specs.Format.{max_states, max_arcs, max_origins, arcs_at, refusal, decode};
ghost use Rattle.transducer.specs.Each.{has_no_any_input};
ghost use Rattle.transducer.specs.Accepted.{AcceptedAt, FinalsByState};
ghost use Rattle.transducer.specs.Answer.{written};
ghost use Rattle.explore.specs.Explore.{built_refusal};
ghost use Rattle.explore.specs.Walk.{max_arc_bytes, WalkSays};
ghost use Rattle.steps.specs.Steps.{first_state};
ghost use Rattle.steps.specs.Packing.{pack};
ghost use Rattle.compose.specs.Compose.{composed};
ghost use Rattle.compose.specs.Entry.{ComposeSays, compose_refusal};
ghost use Rattle.compose.specs.Walk.{key_walk, BothIndexed};
ghost use Rattle.compose.specs.Finished.{Composable, WalkedThrough, Attempted};

use crate::sides::{Side, Sides};
use crate::{finish, walking};
use explore::Walk;
use steps::LABEL_BUCKETS;
use transducer::{
    ARC_BYTES, FINAL_BYTES, HEAD_BYTES, INDEX_LEN, MAX_ARCS, MAX_BYTES, MAX_ORIGINS, MAX_STATES,
    Refusal,
};

// The largest number of right arcs whose chains stand in small arrays.
const FEW_ARCS: usize = 128;

// Composes two transducers: the composed one's bytes, and the origins of its arcs, the left one and the right one in turn. Time grows with the
// arcs of the two and the arcs composed, and with the left arcs looked at in each composed state.
pub fn compose(
    left: &[u8],
    right: &[u8],
    table: &mut [u8],
    origins: &mut [u16],
    states: &mut [u32],
) -> Result<u32, Refusal>
    ensures { ComposeSays left.now right.now
        (compose_refusal left.now right.now (length table.old) (length origins.old) (length states.old))
        (written result) table.old table.new origins.old origins.new states.old states.new }
{
    let l = transducer::validate(left, false)?;
    if !transducer::no_any_input(left, l.no_any_input) {
        return Err(Refusal::AnyInput);
    }
    let r = transducer::validate(right, false)?;
    if table.len() < MAX_BYTES {
        return Err(Refusal::Room);
    }
    if origins.len() < MAX_ORIGINS {
        return Err(Refusal::Room);
    }
    if states.len() < MAX_STATES {
        return Err(Refusal::Room);
    }
    let no_any_input = transducer::no_any_input(right, r.no_any_input);
    compose_into(left, right, no_any_input, table, origins, states)
}

// Composes two accepted transducers, of which the left one has no arc for any symbol, into buffers that are long enough; `no_any_input` may be true only if no
// right arc is for any symbol.
pub fn compose_into(
    left: &[u8],
    right: &[u8],
    no_any_input: bool,
    table: &mut [u8],
    origins: &mut [u16],
    states: &mut [u32],
) -> Result<u32, Refusal>
    requires { Composable left.now right.now (length table.old) (length origins.old) (length states.old)
        × (no_any_input ≡ true → has_no_any_input (decode right.now) ≡ true) }
    ensures { ComposeSays left.now right.now
        (built_refusal (composed (decode left.now) (decode right.now)).result)
        (written result) table.old table.new origins.old origins.new states.old states.new }
{
    let room = room_for(left, right);
    let made = compose_with_room(left, right, no_any_input, room, table, origins, states);
    if let Some(written) = made {
        return written;
    }
    // There are never more finals than `room_for` says; that is not proved, so they are composed once more with room for 1,024.
    let whole = compose_with_room(
        left,
        right,
        no_any_input,
        MAX_STATES,
        table,
        origins,
        states,
    );
    whole.unwrap()
}

// Whether each arc reads a label.
fn all_read(bytes: &[u8], first: usize, arcs: usize) -> bool
    requires { AcceptedAt bytes.now first × (arcs ≤ length (decode bytes.now).arcs) }
{
    for i in 0..arcs {
        if transducer::arc_of(bytes, first, i).input == 0 {
            return false;
        }
    }
    true
}

// How many finals there is to be room for: one for each pair of finals, two where a right arc reads nothing and there are states of filter state 1, and no
// more than 1,024.
fn room_for(left: &[u8], right: &[u8]) -> usize
    requires { (refusal left.now ≡ 0) × (refusal right.now ≡ 0) }
    ensures { result ≤ max_states }
{
    let l = transducer::head_of(left);
    let r = transducer::head_of(right);
    let first = HEAD_BYTES + FINAL_BYTES * (r.finals as usize);
    let pairs = (l.finals as usize) * (r.finals as usize);
    if pairs < MAX_STATES && !all_read(right, first, r.arcs as usize) {
        return MAX_STATES.min(2 * pairs);
    }
    MAX_STATES.min(pairs)
}

// Puts the right arcs in chains, in buffers that have a cell for each of them, and walks, with the arcs written from a place of the buffer on. The heads of
// the chains stand here, in the frame of the walk, which then reaches them without a pointer.
fn walk_behind(
    left: Side<'_>,
    right: Side<'_>,
    arcs: usize,
    chain: &mut [u16],
    next_same_label: &mut [u16],
    no_any_input: bool,
    first: u32,
    from: usize,
    table: &mut [u8],
    origins: &mut [u16],
    states: &mut [u32],
) -> Walk
    requires both_indexed { BothIndexed left right no_any_input }
    requires arcs_value { (arcs ≡ length (decode right.bytes.now).arcs) × (arcs ≤ length chain.old) × (arcs ≤ length next_same_label.old) }
    requires first_value { first ≡ pack (first_state (decode left.bytes.now) (decode right.bytes.now)) }
    requires max_arc_bytes_in_bounds { (from + max_arc_bytes ≤ length table.old) × (max_origins ≤ length origins.old) × (max_states ≤ length states.old) }
    ensures { WalkSays 2 (key_walk (decode left.entry.bytes.now) (decode right.entry.bytes.now)) result
        (drop from table.old) (drop from table.new)
        origins.old origins.new states.old states.new }
{
    let mut heads = [0u16; LABEL_BUCKETS];
    steps::put_chains(
        right.bytes,
        right.first,
        arcs,
        &mut heads,
        chain,
        next_same_label,
    );
    let sides = Sides {
        left: left,
        right: right,
        heads: &heads,
        chain: chain,
        next_same_label: next_same_label,
        no_any_input: no_any_input,
    };
    walking::walk_all(&sides, first, &mut table[from..], origins, states)
}

// Walks with the chains in arrays of `N` cells.
fn walk_chained<const N: usize>(
    left: Side<'_>,
    right: Side<'_>,
    arcs: usize,
    no_any_input: bool,
    first: u32,
    from: usize,
    table: &mut [u8],
    origins: &mut [u16],
    states: &mut [u32],
) -> Walk
    requires both_indexed { BothIndexed left right no_any_input }
    requires arcs_value { (arcs ≡ length (decode right.bytes.now).arcs) × (arcs ≤ N) × (N ≤ max_arcs) }
    requires first_value { first ≡ pack (first_state (decode left.bytes.now) (decode right.bytes.now)) }
    requires max_arc_bytes_in_bounds { (from + max_arc_bytes ≤ length table.old) × (max_origins ≤ length origins.old) × (max_states ≤ length states.old) }
    ensures { WalkSays 2 (key_walk (decode left.entry.bytes.now) (decode right.entry.bytes.now)) result
        (drop from table.old) (drop from table.new)
        origins.old origins.new states.old states.new }
{
    let mut chain = [0u16; N];
    let mut next_same_label = [0u16; N];
    walk_behind(
        left,
        right,
        arcs,
        &mut chain,
        &mut next_same_label,
        no_any_input,
        first,
        from,
        table,
        origins,
        states,
    )
}

// Walks with the chains in small arrays if there are few right arcs: clearing the large ones takes longer than everything else that small tables ask for.
fn walk_indexed(
    left: Side<'_>,
    right: Side<'_>,
    arcs: usize,
    no_any_input: bool,
    first: u32,
    from: usize,
    table: &mut [u8],
    origins: &mut [u16],
    states: &mut [u32],
) -> Walk
    requires both_indexed { BothIndexed left right no_any_input }
    requires arcs_value { (arcs ≡ length (decode right.bytes.now).arcs) × (arcs ≤ max_arcs) }
    requires first_value { first ≡ pack (first_state (decode left.bytes.now) (decode right.bytes.now)) }
    requires max_arc_bytes_in_bounds { (from + max_arc_bytes ≤ length table.old) × (max_origins ≤ length origins.old) × (max_states ≤ length states.old) }
    ensures { WalkSays 2 (key_walk (decode left.entry.bytes.now) (decode right.entry.bytes.now)) result
        (drop from table.old) (drop from table.new)
        origins.old origins.new states.old states.new }
{
    if arcs <= FEW_ARCS {
        return walk_chained::<FEW_ARCS>(
            left,
            right,
            arcs,
            no_any_input,
            first,
            from,
            table,
            origins,
            states,
        );
    }
    walk_chained::<MAX_ARCS>(
        left,
        right,
        arcs,
        no_any_input,
        first,
        from,
        table,
        origins,
        states,
    )
}

// Composes two accepted transducers, with the arcs written behind room for some finals. None: there are more, and it is to be done again.
fn compose_with_room(
    left: &[u8],
    right: &[u8],
    no_any_input: bool,
    room: usize,
    table: &mut [u8],
    origins: &mut [u16],
    states: &mut [u32],
) -> Option<Result<u32, Refusal>>
    requires { Composable left.now right.now (length table.old) (length origins.old) (length states.old)
        × (no_any_input ≡ true → has_no_any_input (decode right.now) ≡ true) × (room ≤ max_states) }
    ensures { Attempted left.now right.now room result table.old table.new
        origins.old origins.new states.old states.new }
{
    let l = transducer::head_of(left);
    let r = transducer::head_of(right);
    let lfirst = HEAD_BYTES + FINAL_BYTES * (l.finals as usize);
    let rfirst = HEAD_BYTES + FINAL_BYTES * (r.finals as usize);
    // Arrays that a call hands back are copied, and to copy them takes longer than most of what small tables ask for.
    let mut lindex = [0u16; INDEX_LEN];
    let mut rindex = [0u16; INDEX_LEN];
    transducer::put_index(
        left,
        lfirst,
        l.states as usize,
        l.arcs as usize,
        &mut lindex,
    );
    transducer::put_index(
        right,
        rfirst,
        r.states as usize,
        r.arcs as usize,
        &mut rindex,
    );
    let first = steps::pack(l.start, r.start, 0);
    let from = HEAD_BYTES + FINAL_BYTES * room;
    let w = walk_indexed(
        Side {
            bytes: left,
            first: lfirst,
            index: &lindex,
        },
        Side {
            bytes: right,
            first: rfirst,
            index: &rindex,
        },
        r.arcs as usize,
        no_any_input,
        first,
        from,
        table,
        origins,
        states,
    );
    if w.full != 0 {
        return Some(explore::refuse(table, origins, states, Refusal::ManyStates));
    }
    let arcs = w.arcs;
    if MAX_ARCS < arcs {
        return Some(explore::refuse(table, origins, states, Refusal::ManyArcs));
    }
    let mut lcodes = [0u32; MAX_STATES];
    let mut rcodes = [0u32; MAX_STATES];
    transducer::put_codes(left, l.finals as usize, &mut lcodes);
    transducer::put_codes(right, r.finals as usize, &mut rcodes);
    write_out(
        left, right, &lcodes, &rcodes, w, room, table, origins, states,
    )
}

// Writes what the walk has found: the finals, the arcs behind them, moved where there are fewer finals than there is room for, the head, zeros behind; or
// refuses with 13. None: there are more finals than there is room for, and they stand where arcs did.
fn write_out(
    left: &[u8],
    right: &[u8],
    lcodes: &[u32; MAX_STATES],
    rcodes: &[u32; MAX_STATES],
    w: Walk,
    room: usize,
    table: &mut [u8],
    origins: &mut [u16],
    states: &mut [u32],
) -> Option<Result<u32, Refusal>>
    requires composable { Composable left.now right.now (length table.old) (length origins.old) (length states.old) }
    requires finals_by_state { FinalsByState (decode left.now) lcodes.now × FinalsByState (decode right.now) rcodes.now }
    requires walked_through { WalkedThrough left.now right.now w (drop (arcs_at room) table.old) origins.old states.old × (room ≤ max_states) }
    ensures { Attempted left.now right.now room result table.old table.new
        origins.old origins.new states.old states.new }
{
    let count = w.states;
    let arcs = w.arcs;
    let (finals, answer) = finish::put_finals(lcodes, rcodes, states, count, table);
    match answer {
        Ok(()) if w.overflow == 0 => {}
        _ => return Some(explore::refuse(table, origins, states, Refusal::Sums)),
    }
    if room < finals {
        return None;
    }
    let behind = HEAD_BYTES + FINAL_BYTES * finals;
    let end = behind + ARC_BYTES * arcs;
    let from = HEAD_BYTES + FINAL_BYTES * room;
    explore::move_arcs(table, from, behind, arcs);
    transducer::put_head(table, count as u16, arcs as u16, finals as u16, 0);
    wire::clear(table, end, 0);
    wire::clear(origins, 2 * arcs, 0);
    wire::clear(states, 0, 0);
    Some(Ok(end as u32))
}

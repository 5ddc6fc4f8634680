// Buffers as a case lends them: dirty, with cells behind their least length, and one of them short where the case says so.
ghost use Rattle.std.specs.Prelude.{◌≡◌, ◌≤◌, length, take};

// Cells that a buffer has behind its least length.
pub const SPARE: usize = 5;

pub const DIRTY8: u8 = 90;

pub const DIRTY16: u16 = 23130;

pub const DIRTY32: u32 = 1515870810;

pub const DIRTY_WEIGHT: i32 = 1515870810;

pub const DIRTY_COST: i64 = 6510615555426900570;

// At this room each buffer is lent at its least length; at a buffer's number that one is one short; otherwise all is lent.
const EXACT: u8 = 9;

// What is lent of a buffer: a front of it, and all of a buffer of at most `SPARE` cells. The cases of crates/limits/stdin name the short buffer by a byte,
// which may not change, so that buffers have numbers here.
pub fn lend<T>(room: u8, buffer: u8, all: &mut [T]) -> &mut [T]
    ensures within { length result.now ≤ length all.entry.now }
    ensures front { result.now ≡ take (length result.now) all.entry.now }
{
    if all.len() <= SPARE {
        return all;
    }
    let held = if room == EXACT {
        SPARE
    } else if room == buffer {
        SPARE + 1
    } else {
        0
    };
    let cells = all.len().saturating_sub(held);
    &mut all[..cells]
}

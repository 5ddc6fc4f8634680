// The calls of the limit cases, each with dirty buffers: what it gets stands in the bytes of a case, and what it answers and leaves is printed.
// Those of the shortest path and of costs to come stand in the program.
#![tactic(auto)]

mod composing;
mod latticing;
mod lent;
mod load;
mod show;
mod tables;
mod telling;

pub use composing::compose;
pub use latticing::{apply, trim};
pub use lent::{DIRTY_COST, DIRTY16, SPARE, lend};
pub use load::{byte, part, u16_or_0, u32_or_0};
pub use show::{Cell, numbered, sum};
pub use tables::{read, round_trip, write};
pub use telling::{count, nth, show_told};

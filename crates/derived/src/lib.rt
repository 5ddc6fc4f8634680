// Tables made from a table: inverted, reversed, or without some of its arcs. Each is written to a buffer and is accepted again.
#![tactic(auto)]

mod front;
mod invert;
mod restrict;
mod reverse;

pub use invert::invert_into;
pub use restrict::restrict_into;
pub use reverse::reverse_into;

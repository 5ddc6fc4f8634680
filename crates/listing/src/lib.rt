// The listing: a text of the accepting paths.
#![tactic(auto)]

mod code;
mod entry;
mod lines;
mod text;

pub use code::{MOST_LOADED, load_labels};
pub use entry::{LEAST_ROOM, listing as list};
pub use lines::{list_into, put_refusal, refuse_into};
use transducer::Refusal;

// How long the text of a listing is, and the refusal that it says, if it says one and lists nothing.
#[derive(Clone, Copy, Debug, PartialEq, Eq)]
pub struct Listing {
    pub len: u32,
    pub said: Option<Refusal>,
}

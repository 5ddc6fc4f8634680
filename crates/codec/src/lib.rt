// Reading a transducer into four runs of numbers, and writing one from them.
#![tactic(auto)]

mod reading;
mod writing;

pub use reading::read;
pub use writing::write;

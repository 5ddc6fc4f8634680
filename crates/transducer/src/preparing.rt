// What the calls on paths begin with: where the arcs stand, the head's numbers, the first-arc index and the final codes.
ghost use Rattle.std.specs.Prelude.{◌≡◌, replicate};
ghost use Rattle.transducer.specs.Format.{max_states, index_long, refusal};
ghost use Rattle.transducer.specs.Prepare.{Shaped, Prepared};

use crate::accepted;

// Where the arcs begin, the numbers of states, arcs and finals, and the start.
// They are those of `Head`, which are written in 32 bits and go to C; these count places in memory.
#[derive(Clone, Copy, Debug, PartialEq, Eq)]
pub struct Shape {
    pub first: usize,
    pub states: usize,
    pub arcs: usize,
    pub finals: usize,
    pub start: usize,
}

// The shape of accepted bytes.
pub fn shape_of(bytes: &[u8]) -> Shape
    requires { refusal bytes.now ≡ 0 }
    ensures { Shaped bytes.now result }
{
    let head = accepted::header(bytes);
    let finals = head.finals as usize;
    let first = bounds::arcs_at(finals);
    Shape {
        first,
        states: head.states as usize,
        arcs: head.arcs as usize,
        finals,
        start: head.start as usize,
    }
}

// Puts the first-arc index and the final codes of accepted bytes into arrays of zeros.
pub fn prepare(
    bytes: &[u8],
    index: &mut [u16; bounds::INDEX_LEN],
    codes: &mut [u32; bounds::MAX_STATES],
) -> Shape
    requires { (refusal bytes.now ≡ 0) × (index.old ≡ replicate index_long 0) × (codes.old ≡ replicate max_states 0) }
    ensures { Prepared bytes.now result index.new codes.new }
{
    let shape = shape_of(bytes);
    accepted::put_index(bytes, shape.first, shape.states, shape.arcs, index);
    accepted::put_codes(bytes, shape.finals, codes);
    shape
}

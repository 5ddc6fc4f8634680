// A composed state as one number, its key: the filter state is its lowest bit, above it stand ten bits of the right state, then the left state.
// Nothing else knows how they are packed.
ghost use Rattle.std.specs.Prelude.{◌≡◌};
ghost use Rattle.steps.specs.Packing.{pack, unpacked, Bounded};

use crate::State;

const STATES: u32 = transducer::MAX_STATES as u32;

const STATE_MASK: u32 = STATES - 1;

const LEFT_SHIFT: u32 = 11;

// The key of a state.
pub fn pack(left: u32, right: u32, filter: u32) -> u32
    requires { Bounded (record { left = left; right = right; filter = filter }) }
    ensures { result ≡ pack (record { left = left; right = right; filter = filter }) }
{
    (left * STATES + right) * 2 + filter
}

// The parts of a packed state.
pub fn unpack(key: u32) -> State
    ensures { result ≡ unpacked key }
{
    State {
        left: key >> LEFT_SHIFT,
        right: (key >> 1) & STATE_MASK,
        filter: key & 1,
    }
}

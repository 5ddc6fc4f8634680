// A lattice state as one number, and its parts again. Nothing else knows how they are packed.
ghost use Rattle.std.specs.Prelude.{◌≡◌, ◌<◌};
ghost use Rattle.transducer.specs.Format.{max_states};
ghost use Rattle.lattice.specs.Pack.{pack, unpacked};

use crate::State;

const STATES: u32 = transducer::MAX_STATES as u32;

const STATE_MASK: u32 = STATES - 1;

const POSITION_SHIFT: u32 = 10;

// A lattice state as one number.
#[tactic(auto, unfolding(crate::specs::Pack::pack))]
pub fn pack(position: u32, state: u32) -> u32
    requires { (position < max_states) × (state < max_states) }
    ensures { result ≡ pack (record { position = position; state = state }) }
{
    position * STATES + state
}

// The parts of a packed state.
pub fn unpack(key: u32) -> State
    ensures { result ≡ unpacked key }
{
    State {
        position: key >> POSITION_SHIFT,
        state: key & STATE_MASK,
    }
}

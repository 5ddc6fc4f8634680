// Counts of paths, added.
ghost use Rattle.std.specs.Prelude.{◌≡◌, cond, eqb};
ghost use Rattle.capped.specs.Capped.{add};

use crate::Count;
use transducer::MAX_COUNT;

pub const MOST: u8 = MAX_COUNT as u8;

impl Count {
    // The sum of two counts. It is a method and no `+`: it stops at 99, which a reader of `+` would not expect.
    #[tactic(auto, unfolding(crate::specs::Capped::add))]
    pub fn add(self, other: Count) -> Count
        ensures { result.value ≡ add self.value other.value }
    {
        Count {
            value: self.value.saturating_add(other.value).min(MOST),
        }
    }
}

// The count of the empty path, by a state's final code.
// A code is a number, 0 for a state that is not final, as `transducer::put_codes` has it.
pub fn own(code: u32) -> Count
    ensures { result.value ≡ cond (eqb code 0) 0 1 }
{
    Count {
        value: u8::from(code != 0),
    }
}

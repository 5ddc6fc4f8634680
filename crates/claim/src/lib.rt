// The single claim from bytes to paths (specs/Claim.antt, proofs/Claimed.antt), and the whole chain in one call.
#![tactic(auto)]

ghost use Rattle.paths.specs.Answer.{counted};
ghost use Rattle.claim.specs.Entry.{ReadingsSays};

use transducer::Refusal;

// Composes two transducers, applies a string and counts the accepting paths: what a picking machine acts on. Nothing is lent: the calls
// work in arrays of this one's own, which are long enough, so that 10 is never answered. Only the two tables handed in are validated: composition and
// lattice are proved to be accepted and to have no arc for any symbol. Time is that of composing, applying and counting.
pub fn readings(left: &[u8], right: &[u8], string: &[u16]) -> Result<u32, Refusal>
    ensures { ReadingsSays left.now right.now string.now (counted result) }
{
    let mut table = [0u8; transducer::MAX_BYTES];
    let mut origins = [0u16; transducer::MAX_ORIGINS];
    let mut states = [0u32; transducer::MAX_STATES];
    let size = compose::compose(left, right, &mut table, &mut origins, &mut states)? as usize;
    let mut lattice = [0u8; transducer::MAX_BYTES];
    let mut arcs = [0u16; transducer::MAX_ARCS];
    let mut pairs = [0u32; transducer::MAX_STATES];
    // It is a match and no `?`, so that a must-fail edit can turn what is answered if the string is refused.
    match lookup::count_string(
        string,
        &table[..size],
        true,
        &mut lattice,
        &mut arcs,
        &mut pairs,
    ) {
        Ok(counted) => Ok(counted.count),
        Err(refusal) => Err(refusal),
    }
}

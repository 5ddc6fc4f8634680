// What is left when the walk is done: the finals.
ghost use Rattle.std.specs.Prelude.{take};
ghost use Rattle.explore.specs.Walk.{FinalsStored};
ghost use Rattle.compose.specs.Finished.{key_finals, Finishable};

use transducer::{FINAL_BYTES, Final, HEAD_BYTES, MAX_STATES, Refusal};

// Writes the finals of `count` states, in order, behind the head, and answers how many they are, and whether a weight is out of range.
// Lattice, trim and codec write other finals of other states; what they share is `put_final`.
pub fn put_finals(
    lcodes: &[u32; MAX_STATES],
    rcodes: &[u32; MAX_STATES],
    states: &[u32],
    count: usize,
    table: &mut [u8],
) -> (usize, Result<(), Refusal>)
    requires { Finishable lcodes.now rcodes.now states.now count table.old }
    ensures { FinalsStored (key_finals lcodes.now rcodes.now (take count states.now)) result.0 result.1
        table.old table.new }
{
    let mut finals = 0;
    // `FinalsStored` has all finals written and counted in both answers, so a weight out of range is kept until the loop ends.
    let mut overflow = false;
    for s in 0..count {
        let x = steps::unpack(states[s]);
        let a = lcodes[x.left as usize];
        let b = rcodes[x.right as usize];
        if a != 0 && b != 0 {
            let weight = transducer::weight_of(a) + transducer::weight_of(b);
            let f = Final {
                state: s as u16,
                weight: weight,
            };
            transducer::put_final(table, HEAD_BYTES + FINAL_BYTES * finals, f);
            overflow |= !transducer::weight_ok(weight);
            finals += 1;
        }
    }
    if overflow {
        return (finals, Err(Refusal::Sums));
    }
    (finals, Ok(()))
}

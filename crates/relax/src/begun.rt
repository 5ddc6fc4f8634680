// What both calls begin with: the table's numbers and the cost of the empty path from each state.
ghost use Rattle.std.specs.Prelude.{◌≡◌, true, ◌≤◌};
ghost use Rattle.transducer.specs.Format.{refusal, decode, head_finals};
ghost use Rattle.transducer.specs.Weight.{no_weight};
ghost use Rattle.relax.specs.Begun.{small, Cleared, NoCosts, OwnCosts, Begun};

use crate::sizes::UNREACHED;
use transducer::Shape;

// Where there are so few states, arrays of as many cells do: to clear larger ones takes longer than all else that small tables ask for.
pub const FEW_STATES: usize = 128;

// Whether accepted bytes have so few.
pub fn is_small(table: &[u8]) -> bool
    requires { refusal table.now ≡ 0 }
    ensures { result ≡ true → (decode table.now).states ≤ small }
{
    let shape = transducer::shape_of(table);
    shape.states <= FEW_STATES
}

// Puts UNREACHED for each of the states below `states` into an array of zeros.
fn no_costs(states: usize, costs: &mut [i32])
    requires { Cleared no_weight states costs.old }
    ensures { NoCosts states states costs.new }
{
    costs[..states].fill(UNREACHED);
}

// Puts the final weights, the costs of the empty paths.
fn own_costs(table: &[u8], finals: usize, costs: &mut [i32])
    requires { (refusal table.now ≡ 0) × (finals ≡ head_finals table.now)
        × NoCosts (decode table.now).states (decode table.now).states costs.old }
    ensures { OwnCosts table.now costs.new }
{
    for i in 0..finals {
        let f = transducer::load_final(table, transducer::HEAD_BYTES + transducer::FINAL_BYTES * i);
        costs[f.state as usize] = f.weight;
    }
}

// Puts the costs of the empty paths of accepted bytes into an array of zeros. There is no array of final codes here: to clear one takes longer than most of
// what small tables ask for.
pub fn begin(table: &[u8], costs: &mut [i32]) -> Shape
    requires { (refusal table.now ≡ 0) × Cleared no_weight (decode table.now).states costs.old }
    ensures { Begun table.now result costs.new }
{
    let shape = transducer::shape_of(table);
    no_costs(shape.states, costs);
    own_costs(table, shape.finals, costs);
    shape
}

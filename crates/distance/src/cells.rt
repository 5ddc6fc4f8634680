// The lent cells, written.
ghost use Rattle.std.specs.Prelude.{◌≡◌, ◌≤◌, length};
ghost use Rattle.wire.specs.Bytes.{places, signed_filled};
ghost use Rattle.transducer.specs.Format.{max_states};
ghost use Rattle.distance.specs.Ended.{cost_told};
ghost use Rattle.distance.specs.Entry.{cost_or_none, Copied};

use transducer::MAX_STATES;

// What a cell has where there is no cost.
// C reads the cells, so that it is no Option.
const NO_PATH: i64 = 1000000000001;

// A cost in an array as a cell has it.
#[tactic(auto, unfolding(crate::specs::Ended::cost_told))]
fn told(cost: i32) -> i64
    ensures { result ≡ cost_told cost }
{
    if cost < relax::UNREACHED {
        i64::from(cost)
    } else {
        NO_PATH
    }
}

// Copies the costs of the states below `states` to the first cells.
fn copy(states: usize, costs: &[i32], cells: &mut [i64])
    requires { (states ≤ max_states) × (states ≤ length costs.now) × (max_states ≤ length cells.old) }
    ensures { Copied states costs.now cells.old cells.new }
{
    for s in 0..states {
        cells[s] = told(costs[s]);
    }
}

// Puts the costs of the states below `states` into 1,024 cells, "no path" in the cells behind these, and zeros behind the 1,024.
pub fn put(states: usize, costs: &[i32], cells: &mut [i64])
    requires { (states ≤ max_states) × (states ≤ length costs.now) × (max_states ≤ length cells.old) }
    ensures { cells.new ≡ signed_filled (length cells.old) (places max_states 0 1 (cost_or_none states costs.now)) }
{
    copy(states, costs, cells);
    cells[states..MAX_STATES].fill(NO_PATH);
    cells[MAX_STATES..].fill(0);
}

// The least cost still to come from each state.
ghost use Rattle.std.specs.Prelude.{◌≡◌, ℕ, ◌≤◌, length};
ghost use Rattle.transducer.specs.Format.{max_states, decode};
ghost use Rattle.transducer.specs.Answer.{refusal_in};
ghost use Rattle.transducer.specs.Accepted.{ValidationSays};
ghost use Rattle.transducer.specs.Answer.{validated};
ghost use Rattle.transducer.specs.Weight.{no_weight};
ghost use Rattle.relax.specs.Begun.{Cleared};
ghost use Rattle.distance.specs.Entry.{CostsSay, accepted_costs_refusal, costs_refusal};

use crate::{cells, near};
use transducer::{Facts, Refusal};

// The costs to come of accepted bytes, by lent arrays of zeros for costs and sizes with a cell for each state.
fn costs_by(
    table: &[u8],
    seen: Facts,
    costs: &mut [i32],
    lens: &mut [u32],
    cells: &mut [i64],
) -> Result<(), Refusal>
    requires { ValidationSays table.now (validated seen) × Cleared no_weight (decode table.now).states costs.old
        × Cleared {A = ℕ} 0 (decode table.now).states lens.old × (max_states ≤ length cells.old) }
    ensures { CostsSay table.now (accepted_costs_refusal (decode table.now)) (refusal_in result)
        cells.old cells.new }
{
    let shape = relax::begin(table, costs);
    near::distances(table, shape, true, seen, costs, lens)?;
    cells::put(shape.states, costs, cells);
    Ok(())
}

// The costs to come of accepted bytes, by arrays of `N` cells.
fn costs_in<const N: usize>(table: &[u8], seen: Facts, cells: &mut [i64]) -> Result<(), Refusal>
    requires { ValidationSays table.now (validated seen) × ((decode table.now).states ≤ N) × (N ≤ max_states)
        × (max_states ≤ length cells.old) }
    ensures { CostsSay table.now (accepted_costs_refusal (decode table.now)) (refusal_in result)
        cells.old cells.new }
{
    let mut costs = [0i32; N];
    let mut lens = [0u32; N];
    costs_by(table, seen, &mut costs, &mut lens, cells)
}

// Puts the least cost still to come from each state of accepted bytes, over all paths to a final state, into 1,024 lent cells or more;
// 1,000,000,000,001 where there is no such path. Refuses only with 19. `seen` has the facts that validation found; `unvalidated` stands for them if the bytes
// were not validated but made by a call. Linear in states and arcs where one sweep settles all, at worst states times arcs.
pub fn costs_accepted(table: &[u8], seen: Facts, cells: &mut [i64]) -> Result<(), Refusal>
    requires { ValidationSays table.now (validated seen) × (max_states ≤ length cells.old) }
    ensures { CostsSay table.now (accepted_costs_refusal (decode table.now)) (refusal_in result)
        cells.old cells.new }
{
    if relax::is_small(table) {
        return costs_in::<{ relax::FEW_STATES }>(table, seen, cells);
    }
    costs_in::<{ transducer::MAX_STATES }>(table, seen, cells)
}

// The least cost still to come from each state, into 1,024 lent cells.
pub fn costs_to_come(table: &[u8], cells: &mut [i64]) -> Result<(), Refusal>
    ensures { CostsSay table.now (costs_refusal table.now (length cells.old)) (refusal_in result)
        cells.old cells.new }
{
    let seen = transducer::validate(table, true)?;
    if cells.len() < transducer::MAX_STATES {
        return Err(Refusal::Room);
    }
    costs_accepted(table, seen, cells)
}

// The shortest path of a transducer.
ghost use Rattle.std.specs.Prelude.{◌≡◌, ℕ, ◌≤◌, length};
ghost use Rattle.transducer.specs.Format.{max_path, max_states, decode};
ghost use Rattle.transducer.specs.Accepted.{ValidationSays};
ghost use Rattle.transducer.specs.Answer.{validated};
ghost use Rattle.report.specs.Answer.{told};
ghost use Rattle.transducer.specs.Weight.{no_weight};
ghost use Rattle.relax.specs.Begun.{Cleared};
ghost use Rattle.shortest.specs.Entry.{ShortestSays, accepted_shortest_refusal, shortest_refusal};

use crate::walk;
use report::PathNumbers;
use transducer::{Facts, Refusal};

// The shortest path of accepted bytes, by lent arrays of zeros for costs and sizes with a cell for each state.
fn shortest_by(
    table: &[u8],
    seen: Facts,
    costs: &mut [i32],
    lens: &mut [u32],
    arcs: &mut [u16],
    labels: &mut [u16],
) -> Result<PathNumbers, Refusal>
    requires { ValidationSays table.now (validated seen) × Cleared no_weight (decode table.now).states costs.old
        × Cleared {A = ℕ} 0 (decode table.now).states lens.old × (max_path ≤ length arcs.old) × (max_path ≤ length labels.old) }
    ensures { ShortestSays table.now (accepted_shortest_refusal (decode table.now))
        (told result) arcs.old arcs.new labels.old labels.new }
{
    let shape = relax::begin(table, costs);
    distance::distances(table, shape, false, seen, costs, lens)?;
    let start = shape.start;
    let cost = costs[start];
    if relax::UNREACHED <= cost {
        return Err(Refusal::NoPath);
    }
    let len = relax::arcs_of(lens[start]);
    walk::follow(
        table,
        shape.first,
        shape.states,
        shape.arcs,
        start,
        len,
        costs,
        lens,
        arcs,
    );
    let end = report::put_labels(table, shape.first, start, arcs, len, labels);
    Ok(report::answer(cost as i64, len, end.labels))
}

// The shortest path of accepted bytes, by arrays of `N` cells.
fn shortest_in<const N: usize>(
    table: &[u8],
    seen: Facts,
    arcs: &mut [u16],
    labels: &mut [u16],
) -> Result<PathNumbers, Refusal>
    requires { ValidationSays table.now (validated seen) × ((decode table.now).states ≤ N) × (N ≤ max_states)
        × (max_path ≤ length arcs.old) × (max_path ≤ length labels.old) }
    ensures { ShortestSays table.now (accepted_shortest_refusal (decode table.now))
        (told result) arcs.old arcs.new labels.old labels.new }
{
    let mut costs = [0i32; N];
    let mut lens = [0u32; N];
    shortest_by(table, seen, &mut costs, &mut lens, arcs, labels)
}

// Puts the shortest path of accepted bytes into two lent buffers that are long enough: its arc numbers, and the labels that it writes. Refuses only with
// 16 and 19. `seen` has the facts that validation found; `distance::unvalidated` stands for them if the bytes were not validated but made by a call.
// Linear in states and arcs where one sweep settles all, at worst states times arcs.
pub fn shortest_accepted(
    table: &[u8],
    seen: Facts,
    arcs: &mut [u16],
    labels: &mut [u16],
) -> Result<PathNumbers, Refusal>
    requires { ValidationSays table.now (validated seen) × (max_path ≤ length arcs.old) × (max_path ≤ length labels.old) }
    ensures { ShortestSays table.now (accepted_shortest_refusal (decode table.now))
        (told result) arcs.old arcs.new labels.old labels.new }
{
    if relax::is_small(table) {
        return shortest_in::<{ relax::FEW_STATES }>(table, seen, arcs, labels);
    }
    shortest_in::<{ transducer::MAX_STATES }>(table, seen, arcs, labels)
}

// The shortest path: its arc numbers and the labels that it writes go into two lent buffers.
pub fn shortest_path(
    table: &[u8],
    arcs: &mut [u16],
    labels: &mut [u16],
) -> Result<PathNumbers, Refusal>
    ensures { ShortestSays table.now
        (shortest_refusal table.now (length arcs.old) (length labels.old))
        (told result) arcs.old arcs.new labels.old labels.new }
{
    let seen = transducer::validate(table, true)?;
    if arcs.len() < transducer::MAX_PATH {
        return Err(Refusal::Room);
    }
    if labels.len() < transducer::MAX_PATH {
        return Err(Refusal::Room);
    }
    shortest_accepted(table, seen, arcs, labels)
}

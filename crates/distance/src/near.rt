// By state, the least cost to come, the fewest labels at that cost and the fewest arcs with these.
ghost use Rattle.std.specs.Prelude.{◌≡◌, ℕ, is_ok, IsOkUnless};
ghost use Rattle.transducer.specs.Format.{decode};
ghost use Rattle.transducer.specs.Accepted.{ValidationSays};
ghost use Rattle.transducer.specs.Answer.{validated};
ghost use Rattle.relax.specs.Begun.{Cleared, Begun};
ghost use Rattle.distance.specs.Ended.{counted, DistancesSay, unvalidated};

use transducer::{Facts, MAX_STATES, Refusal, Shape};

// The least cost to come from each state, `everywhere` or where the start leads, with the fewest labels at that cost and the fewest arcs with these; `costs`
// begins with the empty paths' costs, `lens` with zeros.
// `everywhere` is a bool and not a closure, since the contract says by it which states count.
// Refuses where from such a state a cycle below zero lies before a final state.
// Arcs most often lead to higher numbers, so that one sweep, the last arc first, most often settles all. Else the queue goes over all states first; only where
// a path has too many arcs are those left out to which the start does not lead, if they may be.
pub fn distances(
    table: &[u8],
    shape: Shape,
    everywhere: bool,
    seen: Facts,
    costs: &mut [i32],
    lens: &mut [u32],
) -> Result<(), Refusal>
    requires { Begun table.now shape costs.old × ValidationSays table.now (validated seen) × Cleared {A = ℕ} 0 (decode table.now).states lens.old }
    ensures says { DistancesSay (decode table.now) (counted everywhere (decode table.now))
        costs.new lens.new (is_ok result) }
    ensures refusal { IsOkUnless result Refusal.NegativeCycle }
{
    let first = shape.first;
    let states = shape.states;
    let arcs = shape.arcs;
    let plain = relaxation::is_plain(states, seen.no_output_epsilon, seen.least, costs);
    let forward = relaxation::can_sweep_by_state(
        seen.no_output_epsilon,
        seen.least,
        seen.top_sorted,
    );
    if !relaxation::sweep_once(
        table, first, states, arcs, plain, forward, seen.least, costs, lens,
    ) {
        return Ok(());
    }
    let all = [true; MAX_STATES];
    let drained = relaxation::drain(table, first, states, arcs, &all, costs, lens);
    if everywhere || drained.is_ok() {
        return drained;
    }
    let reached = reach::accessible(table, first, states, arcs, shape.start);
    relaxation::drain(table, first, states, arcs, &reached, costs, lens)
}

// The facts that hold of all accepted bytes, for bytes that a call made and nobody validated. The sweep is right with them for every table; it spares
// nothing where states have many arcs.
pub fn unvalidated() -> Facts
    ensures { result ≡ unvalidated }
{
    Facts {
        least: transducer::MIN_WEIGHT,
        top_sorted: false,
        no_output_epsilon: false,
        no_any_input: false,
    }
}

// The new numbers of the states that lie on accepting paths.
ghost use Rattle.std.specs.Prelude.{◌≡◌, true, false, ◌&&◌, ℕ, ◌≤◌, ◌<◌, length, get_or};
ghost use Rattle.transducer.specs.Format.{Transducer, max_states, decode, head_finals};
ghost use Rattle.transducer.specs.Accepted.{AcceptedAt};
ghost use Rattle.reach.specs.Reach.{AllAccessible};
ghost use Rattle.trim.specs.Trim.{useful};
ghost use Rattle.trim.specs.Parts.{Renumbered};

use transducer::MAX_STATES;

// At each state up to and with `states`, how many states before it have both marks.
fn running(
    accessible: [bool; MAX_STATES],
    coaccessible: [bool; MAX_STATES],
    states: usize,
) -> [u16; MAX_STATES + 1]
    requires { (states ≤ max_states) × (length accessible ≡ max_states) × (length coaccessible ≡ max_states) }
    ensures { (t : Transducer) → t.states ≡ states
        → ((s : ℕ) → s < states → get_or accessible s false && get_or coaccessible s false ≡ useful t s) → Renumbered t result }
{
    let mut index = [0u16; MAX_STATES + 1];
    let mut next = 0;
    for s in 0..states {
        next += u16::from(accessible[s] & coaccessible[s]);
        index[s + 1] = next;
    }
    index
}

// The new numbers of the states, in order: a state is useful where the number behind its own is another. Where each state is known to be
// accessible, marks from the start are spared.
pub fn renumber(
    table: &[u8],
    first: usize,
    states: usize,
    arcs: usize,
    finals: usize,
    start: usize,
    all_accessible: bool,
) -> [u16; MAX_STATES + 1]
    requires { AcceptedAt table.now first × (states ≡ (decode table.now).states) × (arcs ≡ length (decode table.now).arcs)
        × (finals ≡ head_finals table.now) × (start ≡ (decode table.now).start) × (states ≤ max_states)
        × (all_accessible ≡ true → AllAccessible (decode table.now)) }
    ensures { Renumbered (decode table.now) result }
{
    let coaccessible = reach::coaccessible(table, first, states, arcs, finals);
    if all_accessible {
        return running(coaccessible, coaccessible, states);
    }
    let accessible = reach::accessible(table, first, states, arcs, start);
    running(accessible, coaccessible, states)
}

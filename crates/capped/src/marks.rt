// Marks of counted states beside those of live ones.
ghost use Rattle.std.specs.Prelude.{◌≡◌, true, false, ℕ, ◌≤◌, ◌<◌, length};
ghost use Rattle.transducer.specs.Format.{max_states};
ghost use Rattle.capped.specs.Marks.{marked, WithDead};

use transducer::MAX_STATES;

// Whether all states are marked.
#[tactic(auto, unfolding(crate::specs::Marks::marked))]
pub fn all_marked(states: usize, marks: &[bool; MAX_STATES]) -> bool
    requires { states ≤ max_states }
    ensures { result ≡ true → (s : ℕ) → s < states → marked marks.now s ≡ true }
{
    marks[..states].iter().all(|mark| *mark)
}

// Whether some state is neither live nor marked.
#[tactic(auto, unfolding(crate::specs::Marks::marked))]
pub fn dead_unmarked(states: usize, live: &[bool; MAX_STATES], marks: &[bool; MAX_STATES]) -> bool
    requires { states ≤ max_states }
    ensures { result ≡ false → (s : ℕ) → s < states → marked live.now s ≡ false → marked marks.now s ≡ true }
{
    live[..states]
        .iter()
        .zip(&marks[..states])
        .any(|(live, mark)| !(*live | *mark))
}

// Marks the states that are not live.
#[tactic(auto, using(crate::proofs::MarksInPlace::dead_next), unfolding(crate::specs::Marks::marked))]
pub fn mark_dead(states: usize, live: &[bool; MAX_STATES], marks: &mut [bool; MAX_STATES])
    requires { (states ≤ max_states) × (length marks.old ≡ max_states) }
    ensures { WithDead states live.now marks.old marks.new }
{
    for s in 0..states {
        marks[s] |= !live[s];
    }
}

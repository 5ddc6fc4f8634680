// A cell of a chain as one number: the state that an arc leads to, and in the bits below it the arc's link, its number and one more. Nothing else
// knows how they are packed.
ghost use Rattle.std.specs.Prelude.{◌≡◌, ◌≤◌, ◌<◌};
ghost use Rattle.transducer.specs.Format.{max_arcs, max_states};
ghost use Rattle.reach.specs.Cell.{cell_of, state_of, link_of};

const STATE_SHIFT: u32 = 12;

const LINK_MASK: u32 = 4095;

// The cell of a state and a link.
// State and link stand in one word, so that one load gives both; the cell 0 is none.
#[tactic(auto, unfolding(crate::specs::Cell::cell_of))]
pub fn cell_of(state: usize, link: usize) -> u32
    requires { (state < max_states) × (link ≤ max_arcs) }
    ensures { result ≡ cell_of state link }
{
    (4096 * state + link) as u32
}

// The state of a cell.
#[tactic(auto, unfolding(crate::specs::Cell::state_of))]
pub fn state_of(cell: u32) -> usize
    ensures { result ≡ state_of cell }
{
    (cell >> STATE_SHIFT) as usize
}

// The link of a cell.
#[tactic(auto, unfolding(crate::specs::Cell::link_of))]
pub fn link_of(cell: u32) -> usize
    ensures { result ≡ link_of cell }
{
    (cell & LINK_MASK) as usize
}

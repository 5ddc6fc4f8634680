// Costs and sizes as they stand in arrays: sums, and which comes first.
ghost use Rattle.std.specs.Prelude.{◌≡◌, ◌+◌, ◌*◌, ◌≤◌, true};
ghost use Rattle.transducer.specs.Format.{weight_good};
ghost use Rattle.transducer.specs.Weight.{AtMost};
ghost use Rattle.relax.specs.Size.{nearer};
ghost use Rattle.relax.specs.Tentative.{unpacked, labels_of, onward, least_cost};

// The cost of a state from which no path is known. A path costs at most 1,024,000,000, of either sign, so that sums with a weight are exact in 32 bits.
// It is a number and no Option, which would double the arrays of costs: memory is fixed.
pub const UNREACHED: i32 = 2000000000;

// A weight and the cost to come behind it.
#[tactic(auto, unfolding(crate::specs::Tentative::onward))]
pub fn sum(weight: i32, cost: i32) -> i32
    requires { (weight_good weight ≡ true) × AtMost least_cost cost }
    ensures { result ≡ onward weight cost }
{
    if cost < UNREACHED {
        return weight + cost;
    }
    UNREACHED
}

// Whether a cost and a size come before another. A size is 65,536 for each label and 1 for each arc, so that one comparison does for both.
// A comparison of pairs would say the same, but was slower.
#[tactic(auto, unfolding(crate::specs::Size::nearer, crate::specs::Tentative::unpacked))]
pub fn comes_first(cost: i32, size: u32, other: i32, most: u32) -> bool
    ensures { result ≡ nearer cost (unpacked size) other (unpacked most) }
{
    if cost < other {
        return true;
    }
    if other < cost {
        return false;
    }
    size < most
}

// The size of an arc: one arc, and one label unless its output is empty.
#[tactic(auto, unfolding(crate::specs::Tentative::labels_of))]
pub fn arc_size(output: u16) -> u32
    ensures { (result ≡ 1 + 65536 * labels_of output) × (result ≤ 65537) }
{
    if output == 0 {
        return 1;
    }
    65537
}

// How many arcs there are in a size.
#[tactic(auto, unfolding(crate::specs::Tentative::unpacked))]
pub fn arcs_of(size: u32) -> usize
    ensures { result ≡ (unpacked size).arcs }
{
    (size & 65535) as usize
}

// The first arc of a state, sought from an arc near it: sources never fall. There is no index here: to clear and fill one takes longer.
ghost use Rattle.std.specs.Prelude.{◌≡◌, ◌≤◌, length};
ghost use Rattle.transducer.specs.Format.{decode};
ghost use Rattle.transducer.specs.Accepted.{AcceptedAt, arcs_below};

// How many arcs are passed over at once, as long as that is not too far.
const STRIDE: usize = 32;

// Goes back by strides while that passes over arcs of state `s` or higher ones only. Where it stops is what is sought, so that a range by steps is no plainer.
fn strides_back(table: &[u8], first: usize, s: usize, near: usize) -> usize
    requires { AcceptedAt table.now first × (near ≤ length (decode table.now).arcs) × (arcs_below s (decode table.now).arcs ≤ near) }
    ensures { (arcs_below s (decode table.now).arcs ≤ result) × (result ≤ near) }
{
    let mut i = near;
    while STRIDE <= i {
        if reach::source(table, first, i - STRIDE) < s {
            return i;
        }
        i -= STRIDE;
    }
    i
}

// The first arc of state `s` or a higher one, where from `near` on all are such.
// Back and on differ in order, bound and what is known, so that one function with a flag would be no plainer.
pub fn first_back(table: &[u8], first: usize, s: usize, near: usize) -> usize
    requires { AcceptedAt table.now first × (near ≤ length (decode table.now).arcs) × (arcs_below s (decode table.now).arcs ≤ near) }
    ensures { result ≡ arcs_below s (decode table.now).arcs }
{
    for i in (0..strides_back(table, first, s, near)).rev() {
        if reach::source(table, first, i) < s {
            return i + 1;
        }
    }
    0
}

// Goes on by strides while that passes over arcs of states below `s` only. Where it stops is what is sought, so that a range by steps is no plainer.
fn strides_on(table: &[u8], first: usize, arcs: usize, s: usize, near: usize) -> usize
    requires { AcceptedAt table.now first × (arcs ≡ length (decode table.now).arcs) × (near ≤ arcs) }
    ensures { result ≤ arcs }
{
    let mut i = near;
    while i + STRIDE <= arcs {
        if s <= reach::source(table, first, i + (STRIDE - 1)) {
            return i;
        }
        i += STRIDE;
    }
    i
}

// The same arc by arc: an arc of state `s` or a higher one, and all from there on are such.
fn some_on(table: &[u8], first: usize, arcs: usize, s: usize, near: usize) -> usize
    requires { AcceptedAt table.now first × (arcs ≡ length (decode table.now).arcs) × (near ≤ arcs) }
    ensures { (arcs_below s (decode table.now).arcs ≤ result) × (result ≤ arcs) }
{
    for i in strides_on(table, first, arcs, s, near)..arcs {
        if s <= reach::source(table, first, i) {
            return i;
        }
    }
    arcs
}

// The first arc of state `s` or a higher one, on or back from `near`.
pub fn first_arc(table: &[u8], first: usize, arcs: usize, s: usize, near: usize) -> usize
    requires { AcceptedAt table.now first × (arcs ≡ length (decode table.now).arcs) × (near ≤ arcs) }
    ensures { result ≡ arcs_below s (decode table.now).arcs }
{
    first_back(table, first, s, some_on(table, first, arcs, s, near))
}

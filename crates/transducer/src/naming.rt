// Arcs for any symbol: whether there are any, what an arc must read to fit a symbol, and what it writes for it.
ghost use Rattle.std.specs.Prelude.{◌≡◌, ℕ, ◌+◌, ◌*◌, ◌≤◌, true, length, nat_lt};
ghost use Rattle.wire.specs.Bytes.{every, places};
ghost use Rattle.transducer.specs.Format.{any, arc_bytes, arc_at, refusal, decode};
ghost use Rattle.transducer.specs.Each.{passed, has_no_any_input};
ghost use Rattle.transducer.specs.Accepted.{AcceptedAt, Leaving, FittingLabel};

use crate::{Arc, accepted};

// Whether none of the `count` arcs whose records begin at `at` is for any symbol.
fn no_any_among(bytes: &[u8], at: usize, count: usize) -> bool
    requires { at + arc_bytes * count ≤ length bytes.now }
    ensures { result ≡ every (λ a. nat_lt a.input any) (places count at arc_bytes (arc_at bytes.now)) }
{
    for i in 0..count {
        if wire::u16_at(bytes, at + bounds::ARC_BYTES * i + 6) == bounds::ANY {
            return false;
        }
    }
    true
}

// Whether no arc of accepted bytes is for any symbol. If validation has told so, which is `known`, no arc is asked.
// It is a bool, since the contract says by it what is known of the arcs.
pub fn no_any_input(bytes: &[u8], known: bool) -> bool
    requires { (refusal bytes.now ≡ 0) × (known ≡ true → has_no_any_input (decode bytes.now) ≡ true) }
    ensures { result ≡ has_no_any_input (decode bytes.now) }
{
    if known {
        return true;
    }
    let head = accepted::header(bytes);
    no_any_among(
        bytes,
        bounds::arcs_at(head.finals as usize),
        head.arcs as usize,
    )
}

// What the arcs of a state, those from `from` to below `to`, read that fit a symbol, 0 standing for none: the symbol where one of them reads it, else 65,535.
// Where no arc at all is for any symbol, which `no_any_input` tells, none is asked.
// 0 and 65,535 are labels of the format, so that they are no enum.
pub fn label_at(
    bytes: &[u8],
    first: usize,
    no_any_input: bool,
    from: usize,
    to: usize,
    symbol: u16,
) -> u16
    requires accepted_at { AcceptedAt bytes.now first × (no_any_input ≡ true → has_no_any_input (decode bytes.now) ≡ true) }
    requires by_index { (q : ℕ) × Leaving (decode bytes.now) q from to }
    ensures { FittingLabel (decode bytes.now) symbol from to result }
{
    if no_any_input | (symbol == 0) {
        return symbol;
    }
    for i in from..to {
        if wire::u16_at(bytes, first + bounds::ARC_BYTES * i + 6) == symbol {
            return symbol;
        }
    }
    bounds::ANY
}

// The label that an arc writes for a symbol.
#[tactic(auto, unfolding(crate::specs::Each::passed))]
pub fn passed(symbol: u16, a: Arc) -> u16
    ensures { result ≡ passed symbol a }
{
    if a.output == bounds::ANY {
        return symbol;
    }
    a.output
}

// The arcs that a state has for a label, found by look-up. Arcs are in chains by bucket, in arc order; a link is the number of an arc and
// one more, 0 for none.
ghost use Rattle.std.specs.Prelude.{◌≡◌, true, ℕ, ◌+◌, ◌*◌, ◌-◌, ◌≤◌, ◌<◌, length, replicate};
ghost use Rattle.transducer.specs.Format.{any, decode};
ghost use Rattle.transducer.specs.Each.{has_no_any_input};
ghost use Rattle.transducer.specs.Accepted.{AcceptedAt, Leaving};
ghost use Rattle.steps.specs.Lookup.{label_buckets, label_bucket, reads, first_from, Leads, Heads, Chain, Lookup};
ghost use Rattle.steps.specs.Runs.{reading_from};

use transducer::ARC_BYTES;

// Arcs stand in chains by the bucket of their state and label.
pub const LABEL_BUCKETS: usize = 2048;

const BUCKET_MASK: usize = LABEL_BUCKETS - 1;

// The bucket of a state and a label.
fn label_bucket(state: u16, label: u16) -> usize
    ensures { (result ≡ label_bucket state label) × (result < label_buckets) }
{
    ((state as usize) * 61 + (label as usize)) & BUCKET_MASK
}

// The link to the first arc that leaves state `q` and reads `label`, along the chain that `head` leads to. An arc's source and label stand side
// by side and are compared as one number. The chain is followed by links, so there is no index to count.
// A link is answered as `next_same_label` keeps it: an Option would be turned back at once.
fn along(right: &[u8], rfirst: usize, chain: &[u16], head: u16, q: u16, label: u16) -> u16
    requires { AcceptedAt right.now rfirst × ((from : ℕ) × Leads (decode right.now) q label from chain.now head) }
    ensures { (from : ℕ) → Leads (decode right.now) q label from chain.now head →
        result ≡ first_from (decode right.now) (reads (decode right.now) q label) from }
{
    let both = (q as u32) + 65536 * (label as u32);
    let mut next = head;
    while next != 0 {
        let j = (next - 1) as usize;
        if wire::u32_at(right, rfirst + ARC_BYTES * j + 4) == both {
            return next;
        }
        next = chain[j];
    }
    0
}

// Puts the right arcs in chains, from the last to the first; `next_same_label` leads from each arc to the next one that leaves
// the same state and reads the same label. There is no heap, so that the chains are arrays of links.
pub fn put_chains(
    right: &[u8],
    rfirst: usize,
    arcs: usize,
    heads: &mut [u16; LABEL_BUCKETS],
    chain: &mut [u16],
    next_same_label: &mut [u16],
)
    requires { AcceptedAt right.now rfirst × (arcs ≡ length (decode right.now).arcs) × (heads.old ≡ replicate label_buckets 0)
        × (arcs ≤ length chain.old) × (arcs ≤ length next_same_label.old) }
    ensures { Lookup (decode right.now) heads.new chain.new next_same_label.new }
{
    for j in (0..arcs).rev() {
        let place = rfirst + ARC_BYTES * j + 4;
        let q = wire::u16_at(right, place);
        let label = wire::u16_at(right, place + 2);
        let b = label_bucket(q, label);
        let head = heads[b];
        next_same_label[j] = along(right, rfirst, chain, head, q, label);
        chain[j] = head;
        heads[b] = (j + 1) as u16;
    }
}

// The first arc of right state `q` that reads `label` by name; `to`, the arc behind those of the state, where none does, as the definition `reading_from` has
// it: whoever asks goes on to `to` then.
pub fn first_reading(
    right: &[u8],
    rfirst: usize,
    heads: &[u16; LABEL_BUCKETS],
    chain: &[u16],
    q: u16,
    label: u16,
    to: usize,
) -> usize
    requires { AcceptedAt right.now rfirst × Heads (decode right.now) 0 heads.now × Chain (decode right.now) 0 chain.now }
    ensures { (from : ℕ) → Leaving (decode right.now) q from to →
        result ≡ reading_from (decode right.now) label (to - from) from }
{
    let head = heads[label_bucket(q, label)];
    if head == 0 {
        return to;
    }
    let link = along(right, rfirst, chain, head, q, label) as usize;
    if link == 0 {
        return to;
    }
    link - 1
}

// The first arc of right state `q` for any symbol; `to` where there is none. Where no arc at all is, which `no_any_input` tells, nothing is looked up.
// As the definition `reading_from` has it, `to` stands for none.
pub fn first_any(
    right: &[u8],
    rfirst: usize,
    heads: &[u16; LABEL_BUCKETS],
    chain: &[u16],
    no_any_input: bool,
    q: u16,
    to: usize,
) -> usize
    requires { AcceptedAt right.now rfirst × Heads (decode right.now) 0 heads.now × Chain (decode right.now) 0 chain.now
        × (no_any_input ≡ true → has_no_any_input (decode right.now) ≡ true) }
    ensures { (from : ℕ) → Leaving (decode right.now) q from to →
        result ≡ reading_from (decode right.now) any (to - from) from }
{
    if no_any_input {
        return to;
    }
    first_reading(right, rfirst, heads, chain, q, transducer::ANY, to)
}

// What a walk reads: the two tables, and the chains of the right one's arcs.
use steps::LABEL_BUCKETS;
use transducer::INDEX_LEN;

// A table: its bytes, where its arcs begin, and its first-arc index.
#[derive(Clone, Copy)]
pub struct Side<'a> {
    pub bytes: &'a [u8],
    pub first: usize,
    pub index: &'a [u16; INDEX_LEN],
}

// The two tables with the look-up of the right one's arcs; `no_any_input` may be true only if none of these is for any symbol: a fact that validation tells, and
// that contracts ask for by the bool.
#[derive(Clone, Copy)]
pub struct Sides<'a> {
    pub left: Side<'a>,
    pub right: Side<'a>,
    pub heads: &'a [u16; LABEL_BUCKETS],
    pub chain: &'a [u16],
    pub next_same_label: &'a [u16],
    pub no_any_input: bool,
}

// The cases of applying a string and of trimming. Buffers are dirty before the call, and shown to their ends after it.
use crate::lent::lend;
use crate::{lent, load, show};
use std::io;
use transducer::{MAX_ARCS, MAX_BYTES, MAX_STATES};

// More labels than a string may have.
const LABELS: usize = 70;

// Applies a string to a transducer. The case has the number of its labels (2 bytes), the labels, and the transducer.
pub fn apply(rt: &impl Print, case: &[u8], room: u8) -> io::Result<()> {
    let mut lattice = [lent::DIRTY8; MAX_BYTES + lent::SPARE];
    let mut origins = [lent::DIRTY16; MAX_ARCS + lent::SPARE];
    let mut pairs = [lent::DIRTY32; MAX_STATES + lent::SPARE];
    let mut string = [0u16; LABELS];
    let n = (load::u16_or_0(case, 0) as usize).min(LABELS);
    load::run16(load::part(case, 2, 2 * n), &mut string);
    let answer = lattice::apply(
        &string[..n],
        load::part(case, 2 + 2 * n, case.len()),
        lend(room, 10, &mut lattice),
        lend(room, 11, &mut origins),
        lend(room, 12, &mut pairs),
    );
    show::built(rt, answer, &lattice, &origins)?;
    print!(rt; " {}", show::sum(&pairs))
}

// Trims a transducer.
pub fn trim(rt: &impl Print, table: &[u8], room: u8) -> io::Result<()> {
    let mut out = [lent::DIRTY8; MAX_BYTES + lent::SPARE];
    let mut origins = [lent::DIRTY16; MAX_ARCS + lent::SPARE];
    let answer = trim::trim(
        table,
        lend(room, 13, &mut out),
        lend(room, 14, &mut origins),
    );
    show::built(rt, answer, &out, &origins)
}

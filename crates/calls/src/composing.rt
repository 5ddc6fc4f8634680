// The cases of composing two transducers. Buffers are dirty before the call, and shown to their ends after it.
use crate::lent::lend;
use crate::{lent, load, show};
use std::io;
use transducer::{MAX_BYTES, MAX_ORIGINS, MAX_STATES};

// Composes two transducers. The case has the length of the left one (4 bytes), and the two.
pub fn compose(rt: &impl Print, case: &[u8], room: u8) -> io::Result<()> {
    let mut table = [lent::DIRTY8; MAX_BYTES + lent::SPARE];
    let mut origins = [lent::DIRTY16; MAX_ORIGINS + lent::SPARE];
    let mut states = [lent::DIRTY32; MAX_STATES + lent::SPARE];
    let size = load::u32_or_0(case, 0) as usize;
    let answer = compose::compose(
        load::part(case, 4, size),
        load::part(case, 4 + size, case.len()),
        lend(room, 6, &mut table),
        lend(room, 7, &mut origins),
        lend(room, 8, &mut states),
    );
    show::built(rt, answer, &table, &origins)?;
    print!(rt; " {}", show::sum(&states))
}

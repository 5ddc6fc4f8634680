// The cases of reading and writing a transducer. Buffers are dirty before the call, and shown to their ends after it.
use crate::lent::lend;
use crate::{lent, load, show};
use std::io;
use transducer::{Head, MAX_ARCS, MAX_BYTES, MAX_FIELDS, MAX_STATES, Refusal};

// What a line shows of a head where reading refused.
const NO_HEAD: Head = Head {
    states: 0,
    arcs: 0,
    finals: 0,
    start: 0,
};

// Prints what reading answered, and the four buffers.
fn show_read(
    rt: &impl Print,
    answer: Result<Head, Refusal>,
    states: &[u16],
    weights: &[i32],
    fields: &[u16],
    arc_weights: &[i32],
) -> io::Result<()> {
    let (refusal, head) = show::numbered(answer, NO_HEAD);
    print!(rt;
        " refusal {refusal} states {} arcs {}",
        head.states, head.arcs
    )?;
    print!(rt; " finals {} start {}", head.finals, head.start)?;
    print!(rt; " sums {} {}", show::sum(states), show::sum(weights))?;
    print!(rt; " {} {}", show::sum(fields), show::sum(arc_weights))
}

// Prints what writing answered, and the buffer.
fn show_written(rt: &impl Print, answer: Result<u32, Refusal>, out: &[u8]) -> io::Result<()> {
    show::written(rt, answer)?;
    print!(rt; " sum {}", show::sum(out))
}

// Reads a transducer.
pub fn read(rt: &impl Print, bytes: &[u8], room: u8) -> io::Result<()> {
    let mut states = [lent::DIRTY16; MAX_STATES + lent::SPARE];
    let mut weights = [lent::DIRTY_WEIGHT; MAX_STATES + lent::SPARE];
    let mut fields = [lent::DIRTY16; MAX_FIELDS + lent::SPARE];
    let mut arc_weights = [lent::DIRTY_WEIGHT; MAX_ARCS + lent::SPARE];
    let answer = codec::read(
        bytes,
        lend(room, 1, &mut states),
        lend(room, 2, &mut weights),
        lend(room, 3, &mut fields),
        lend(room, 4, &mut arc_weights),
    );
    show_read(rt, answer, &states, &weights, &fields, &arc_weights)
}

// Reads a transducer and writes what was read, with a head of zeros where reading refused.
pub fn round_trip(rt: &impl Print, bytes: &[u8]) -> io::Result<()> {
    let mut states = [lent::DIRTY16; MAX_STATES + lent::SPARE];
    let mut weights = [lent::DIRTY_WEIGHT; MAX_STATES + lent::SPARE];
    let mut fields = [lent::DIRTY16; MAX_FIELDS + lent::SPARE];
    let mut arc_weights = [lent::DIRTY_WEIGHT; MAX_ARCS + lent::SPARE];
    let mut out = [lent::DIRTY8; MAX_BYTES + lent::SPARE];
    let answer = codec::read(
        bytes,
        &mut states,
        &mut weights,
        &mut fields,
        &mut arc_weights,
    );
    show_read(rt, answer, &states, &weights, &fields, &arc_weights)?;
    let head = answer.unwrap_or(NO_HEAD);
    let written = codec::write(
        head.states,
        head.arcs,
        head.finals,
        head.start,
        &states,
        &weights,
        &fields,
        &arc_weights,
        &mut out,
    );
    show_written(rt, written, &out)?;
    if out.starts_with(bytes) {
        print!(rt; " same")?;
    }
    Ok(())
}

// As many cells of a run as the number in the four bytes from a place says.
fn front<'a, T>(case: &[u8], at: usize, run: &'a [T]) -> &'a [T] {
    run.get(..load::u32_or_0(case, at) as usize).unwrap_or(run)
}

// Writes a transducer. The case has its four numbers, how many cells each of the four runs has, and the runs.
pub fn write(rt: &impl Print, case: &[u8], room: u8) -> io::Result<()> {
    let mut states = [lent::DIRTY16; MAX_STATES + lent::SPARE];
    let mut weights = [lent::DIRTY_WEIGHT; MAX_STATES + lent::SPARE];
    let mut fields = [lent::DIRTY16; MAX_FIELDS + lent::SPARE];
    let mut arc_weights = [lent::DIRTY_WEIGHT; MAX_ARCS + lent::SPARE];
    let mut out = [lent::DIRTY8; MAX_BYTES + lent::SPARE];
    let first = 2 * (load::u32_or_0(case, 16) as usize);
    let second = 4 * (load::u32_or_0(case, 20) as usize);
    let third = 2 * (load::u32_or_0(case, 24) as usize);
    let fourth = 4 * (load::u32_or_0(case, 28) as usize);
    load::run16(load::part(case, 32, first), &mut states);
    load::run_weights(load::part(case, 32 + first, second), &mut weights);
    load::run16(load::part(case, 32 + first + second, third), &mut fields);
    load::run_weights(
        load::part(case, 32 + first + second + third, fourth),
        &mut arc_weights,
    );
    let written = codec::write(
        load::u32_or_0(case, 0),
        load::u32_or_0(case, 4),
        load::u32_or_0(case, 8),
        load::u32_or_0(case, 12),
        front(case, 16, &states),
        front(case, 20, &weights),
        front(case, 24, &fields),
        front(case, 28, &arc_weights),
        lend(room, 5, &mut out),
    );
    show_written(rt, written, &out)
}

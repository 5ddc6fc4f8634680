// The cases of the shortest path and costs to come. Buffers are dirty before the call, and shown to their ends after it.
use std::io;
use transducer::{MAX_PATH, MAX_STATES};

// The shortest path of a transducer.
pub fn shortest(rt: &impl Print, table: &[u8], room: u8) -> io::Result<()> {
    let mut arcs = [calls::DIRTY16; MAX_PATH + calls::SPARE];
    let mut labels = [calls::DIRTY16; MAX_PATH + calls::SPARE];
    let answer = shortest::shortest_path(
        table,
        calls::lend(room, 15, &mut arcs),
        calls::lend(room, 16, &mut labels),
    );
    calls::show_told(rt, answer, &arcs, &labels)
}

// Costs to come of a transducer.
pub fn distance(rt: &impl Print, table: &[u8], room: u8) -> io::Result<()> {
    let mut cells = [calls::DIRTY_COST; MAX_STATES + calls::SPARE];
    let answer = distance::costs_to_come(table, calls::lend(room, 17, &mut cells));
    let (refusal, ()) = calls::numbered(answer, ());
    let [a, b, c, d, e, ..] = cells;
    print!(rt;
        " refusal {refusal} cells {a} {b} {c} {d} {e} last {}",
        cells[MAX_STATES - 1]
    )?;
    print!(rt; " sum {}", calls::sum(&cells))
}

// The cases of the path count and the k-th path. Buffers are dirty before the call, and shown to their ends after it.
use crate::lent::lend;
use crate::{lent, load, show};
use report::PathNumbers;
use std::io;
use transducer::{MAX_PATH, Refusal};

// What a line shows of a path where the call refused.
const NO_PATH: PathNumbers = PathNumbers {
    cost: 0,
    arcs: 0,
    labels: 0,
};

// Counts the accepting paths of a transducer.
pub fn count(rt: &impl Print, table: &[u8]) -> io::Result<()> {
    let (refusal, count) = show::numbered(paths::path_count(table), 0);
    print!(rt; " refusal {refusal} count {count}")
}

// Prints what was told of a path, and the two buffers.
pub fn show_told(
    rt: &impl Print,
    answer: Result<PathNumbers, Refusal>,
    arcs: &[u16],
    labels: &[u16],
) -> io::Result<()> {
    let (refusal, path) = show::numbered(answer, NO_PATH);
    print!(rt;
        " refusal {refusal} cost {} arcs {} labels {}",
        path.cost, path.arcs, path.labels
    )?;
    print!(rt; " sums {} {}", show::sum(arcs), show::sum(labels))
}

// The k-th path of a transducer. The case has k (4 bytes) and the transducer.
pub fn nth(rt: &impl Print, case: &[u8], room: u8) -> io::Result<()> {
    let mut arcs = [lent::DIRTY16; MAX_PATH + lent::SPARE];
    let mut labels = [lent::DIRTY16; MAX_PATH + lent::SPARE];
    let answer = paths::nth_path(
        load::part(case, 4, case.len()),
        load::u32_or_0(case, 0),
        lend(room, 15, &mut arcs),
        lend(room, 16, &mut labels),
    );
    show_told(rt, answer, &arcs, &labels)
}

// What a path costs and writes.
ghost use Rattle.std.specs.Prelude.{◌≡◌, true, ◌≤◌, length, take};
ghost use Rattle.transducer.specs.Format.{max_path, decode};
ghost use Rattle.transducer.specs.Path.{accepts};
ghost use Rattle.transducer.specs.Accepted.{AcceptedAt, FinalsByState};
ghost use Rattle.report.specs.Answer.{told_of};
ghost use Rattle.report.specs.Tell.{LabelsPut, Tells};

use crate::{PathEnd, PathNumbers};
use transducer::MAX_STATES;

// Puts the labels that the path of the first `len` numbers of `arcs` writes into `labels`, zeros behind; where the path ends.
pub fn put_labels(
    table: &[u8],
    first: usize,
    start: usize,
    arcs: &[u16],
    len: usize,
    labels: &mut [u16],
) -> PathEnd
    requires { AcceptedAt table.now first × (start ≡ (decode table.now).start) × (len ≤ length arcs.now) × (len ≤ max_path)
        × (accepts (decode table.now) (take len arcs.now) ≡ true) × (max_path ≤ length labels.old) }
    ensures { LabelsPut (decode table.now) (take len arcs.now) result labels.old labels.new }
{
    let mut s = start;
    let mut cost: i64 = 0;
    let mut m: usize = 0;
    for &number in &arcs[..len] {
        let a = transducer::arc_of(table, first, number as usize);
        cost = transducer::plus(cost, a.weight);
        s = a.target as usize;
        if a.output == 0 {
            continue;
        }
        labels[m] = a.output;
        m += 1;
    }
    wire::clear(labels, m, 0);
    PathEnd {
        state: s,
        cost,
        labels: m,
    }
}

// What is answered of a path: its cost, and how many arcs and labels it has.
pub fn answer(cost: i64, arcs: usize, labels: usize) -> PathNumbers
    requires { (arcs ≤ max_path) × (labels ≤ max_path) }
    ensures { result ≡ record { cost = cost; arcs = arcs; labels = labels } }
{
    PathNumbers {
        cost,
        arcs: arcs as u32,
        labels: labels as u32,
    }
}

// Tells the path of the first `len` numbers of `arcs`: puts the labels that it writes into `labels`, zeros behind.
pub fn tell(
    table: &[u8],
    first: usize,
    start: usize,
    codes: &[u32; MAX_STATES],
    arcs: &[u16],
    len: usize,
    labels: &mut [u16],
) -> PathNumbers
    requires { AcceptedAt table.now first × (start ≡ (decode table.now).start) × FinalsByState (decode table.now) codes.now
        × (len ≤ length arcs.now) × (len ≤ max_path) × (accepts (decode table.now) (take len arcs.now) ≡ true) × (max_path ≤ length labels.old) }
    ensures { Tells (decode table.now) (take len arcs.now) (told_of result) labels.old labels.new }
{
    let end = put_labels(table, first, start, arcs, len, labels);
    let s = end.state;
    let code = codes[s];
    let cost = transducer::plus(end.cost, transducer::weight_of(code));
    answer(cost, len, end.labels)
}

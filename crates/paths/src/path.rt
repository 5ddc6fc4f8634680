// The k-th path, found by walking along the counts.
ghost use Rattle.std.specs.Prelude.{◌≡◌, false, ◌≤◌, ◌<◌, length};
ghost use Rattle.wire.specs.Bytes.{filled};
ghost use Rattle.transducer.specs.Format.{max_path, decode};
ghost use Rattle.transducer.specs.Accepted.{FinalsByState};
ghost use Rattle.paths.specs.Count.{endless, path_count, nth_path};
ghost use Rattle.paths.specs.Sweep.{Ready, PathCounts};

use capped::Count;
use transducer::{INDEX_LEN, MAX_STATES};

// Puts the arc numbers of the k-th path into `arcs`, zeros behind; how many there are.
pub fn nth_arcs(
    table: &[u8],
    first: usize,
    states: usize,
    start: usize,
    k: u32,
    index: &[u16; INDEX_LEN],
    codes: &[u32; MAX_STATES],
    all: [Count; MAX_STATES],
    arcs: &mut [u16],
) -> usize
    requires { Ready table.now first states index.now × FinalsByState (decode table.now) codes.now × PathCounts (decode table.now) all
        × (start ≡ (decode table.now).start) × (endless (decode table.now) ≡ false) × (k < path_count (decode table.now))
        × (max_path ≤ length arcs.old) }
    ensures { (arcs.new ≡ filled (length arcs.old) (nth_path (decode table.now) k))
        × (result ≡ length (nth_path (decode table.now) k)) }
{
    let mut s = start;
    let mut left = k;
    // A path ends where its number is used up, so there is no index to count.
    let mut n: usize = 0;
    loop {
        let mine = capped::own(codes[s]);
        let own = mine.value as u32;
        if left < own {
            break;
        }
        left -= own;
        let mut i = index[s] as usize;
        // The arc is always found, so no end is tested: a `for` over the arcs of the state was tried, and listing was a tenth slower.
        let next = loop {
            let to = reach::target(table, first, i);
            let count = all[to];
            let there = count.value as u32;
            if left < there {
                break to;
            }
            left -= there;
            i += 1;
        };
        arcs[n] = i as u16;
        n += 1;
        s = next;
    }
    wire::clear(arcs, n, 0);
    n
}

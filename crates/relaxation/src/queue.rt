// A queue of states, first in first out, none twice.
ghost use Rattle.std.specs.Prelude.{◌≡◌, true, false, ◌+◌, ◌<◌, IsNone, IfSome, get_or, set, replicate};
ghost use Rattle.transducer.specs.Format.{max_states};
ghost use Rattle.relaxation.specs.Queue.{cell, waiting, NoneWaits, Queue};

use transducer::MAX_STATES;

// A ring of 1,024 cells, in which `count` states wait, the first of them in the cell `head`; and whether each state waits.
#[derive(Drop)]
pub struct StateQueue {
    ring: [u16; MAX_STATES],
    waits: [bool; MAX_STATES],
    head: usize,
    count: usize,
    ghost lined: { Queue max_states ring waits head count },
}

impl StateQueue {
    // A queue in which no state waits.
    pub fn new() -> Self
        ensures { (result.waits ≡ replicate max_states false) × (result.count ≡ 0) }
    {
        StateQueue {
            ring: [0; MAX_STATES],
            waits: [false; MAX_STATES],
            head: 0,
            count: 0,
        }
    }

    // Whether a state waits.
    pub fn has(&self, s: usize) -> bool
        requires { s < max_states }
        ensures { result ≡ waiting self.now.waits s }
    {
        self.waits[s]
    }

    // Puts a state that does not wait behind those that wait.
    pub fn push(&mut self, s: usize)
        requires { (s < max_states) × (waiting self.old.waits s ≡ false) }
        ensures { (self.new.ring ≡ set self.old.ring (cell self.old.head self.old.count) s) × (self.new.waits ≡ set self.old.waits s true)
            × (self.new.head ≡ self.old.head) × (self.new.count ≡ self.old.count + 1) }
    {
        self.ring[(self.head + self.count) % MAX_STATES] = s as u16;
        self.waits[s] = true;
        self.count += 1;
    }

    // Takes the state at the head off, if one waits.
    pub fn pop(&mut self) -> Option<usize>
        ensures taken { IfSome result (λ s. (s ≡ get_or self.old.ring self.old.head 0) × (waiting self.old.waits s ≡ true) × (self.new.ring ≡ self.old.ring)
            × (self.new.waits ≡ set self.old.waits s false) × (self.new.head ≡ cell self.old.head 1) × (self.new.count + 1 ≡ self.old.count)) }
        ensures empty { IsNone result → NoneWaits self.old.waits }
    {
        if self.count == 0 {
            return None;
        }
        let s = self.ring[self.head] as usize;
        self.waits[s] = false;
        self.head = (self.head + 1) % MAX_STATES;
        self.count -= 1;
        Some(s)
    }
}

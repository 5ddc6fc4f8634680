// What a line says of a buffer to its end: a sum, which another content would change; and what a call that writes a transducer answered.
ghost use Rattle.std.specs.Prelude.{◌≡◌, ◌<◌, MatchResult};
ghost use Rattle.transducer.specs.Answer.{refusal_in};

use std::io;
use transducer::Refusal;

const PRIME: u64 = 65521;

// A cell of a buffer.
pub trait Cell: Copy {
    // What a cell leaves by the prime.
    fn residue(self) -> u64
        ensures { result < 65521 };
}

impl Cell for u8 {
    fn residue(self) -> u64 {
        self as u64
    }
}

impl Cell for u16 {
    fn residue(self) -> u64 {
        self as u64 % PRIME
    }
}

impl Cell for u32 {
    fn residue(self) -> u64 {
        self as u64 % PRIME
    }
}

// A weight counts by its bits.
impl Cell for i32 {
    fn residue(self) -> u64 {
        self.cast_unsigned().residue()
    }
}

// A cost below zero leaves what is missing to a multiple of the prime.
impl Cell for i64 {
    fn residue(self) -> u64 {
        self.rem_euclid(PRIME as i64) as u64
    }
}

// The sum of cells, each place weighing 31 times the next.
pub fn sum<T: Cell>(cells: &[T]) -> u64
    ensures { result < 65521 }
{
    let mut sum = 0;
    for cell in cells {
        sum = (sum * 31 + cell.residue()) % PRIME;
    }
    sum
}

// An answer as a line shows it: 0 and the value, or the refusal's number and what stands where there is none.
pub fn numbered<T: Copy>(answer: Result<T, Refusal>, none: T) -> (u32, T)
    ensures number { result.0 ≡ refusal_in answer }
    ensures value { MatchResult answer (λ v. result.1 ≡ v) (λ _. result.1 ≡ none) }
{
    match answer {
        Ok(value) => (0, value),
        Err(refusal) => (refusal.number(), none),
    }
}

// Prints what a call that writes a transducer answered.
pub fn written(rt: &impl Print, answer: Result<u32, Refusal>) -> io::Result<()> {
    let (refusal, len) = numbered(answer, 0);
    print!(rt; " refusal {refusal} length {len}")
}

// Prints the same, and the sums of a transducer's bytes and of origins.
pub fn built(
    rt: &impl Print,
    answer: Result<u32, Refusal>,
    table: &[u8],
    origins: &[u16],
) -> io::Result<()> {
    written(rt, answer)?;
    print!(rt; " sums {} {}", sum(table), sum(origins))
}

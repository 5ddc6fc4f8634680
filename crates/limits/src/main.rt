// Executes the limit cases that standard input lists, and prints a line for each. A case is the number of a call (1 byte), which lent
// buffer is short (1 byte), the lengths of its name (2 bytes) and of what the call gets (4 bytes), and these two; little-endian.
// tests/limits/cases.py writes the cases. They take more steps than the interpreter of `rt try` has, whose compiled runs do them all.
#![tactic(auto)]

ghost use Rattle.std.specs.Prelude.{◌<◌, IfOk, length};

mod telling;

use std::io;

// The bytes that all cases take at most.
const INPUT: usize = 655360;

// Makes the call that a case names by number. Nothing else knows these numbers, so that a type for them would be no plainer than the list.
fn call(rt: &impl Print, number: u8, case: &[u8], room: u8) -> io::Result<()> {
    match number {
        1 => calls::read(rt, case, room),
        2 => calls::write(rt, case, room),
        3 => calls::round_trip(rt, case),
        4 => calls::compose(rt, case, room),
        5 => calls::apply(rt, case, room),
        6 => calls::trim(rt, case, room),
        7 => calls::count(rt, case),
        8 => calls::nth(rt, case, room),
        9 => telling::shortest(rt, case, room),
        _ => telling::distance(rt, case, room),
    }
}

// Executes the case at a place, and answers where the next one stands.
// If a write fails, its `io::Error` is the answer; nothing that was lent has changed then, and no other error comes.
fn run_case(rt: &impl Print, cases: &[u8], at: usize) -> io::Result<usize>
    requires { at < length cases.now }
    ensures { IfOk result (λ next. at < next) }
{
    let number = cases[at];
    let room = calls::byte(cases, at + 1);
    let name = calls::u16_or_0(cases, at + 2) as usize;
    let size = calls::u32_or_0(cases, at + 4) as usize;
    rt.write_all(calls::part(cases, at + 8, name))?;
    call(rt, number, calls::part(cases, at + 8 + name, size), room)?;
    println!(rt)?;
    Ok(at + 8 + name + size)
}

// Executes all cases. The next one stands where the one before ends, so there is no index to count.
fn run(rt: &impl Print, cases: &[u8]) -> io::Result<()> {
    let mut at = 0;
    while at < cases.len() {
        at = run_case(rt, cases, at)?;
    }
    Ok(())
}

// Reads the cases that standard input lists into `bytes`, as many as there is room for, and executes them.
fn run_input(rt: &(impl Print + Input), bytes: &mut [u8]) -> io::Result<()> {
    let count = files::read_full(&mut rt.reader(), bytes);
    run(rt, &bytes[..count])
}

fn main(rt: HostRuntime) -> io::Result<()> {
    let mut input = [0u8; INPUT];
    run_input(&rt, &mut input)
}

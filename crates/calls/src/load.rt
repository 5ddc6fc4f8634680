// Numbers, runs and parts of the listed cases. What lies past the end reads as 0 or as nothing, so that a wrong list gives a wrong line.
ghost use Rattle.std.specs.Prelude.{◌<◌};

// The byte at a place.
pub fn byte(bytes: &[u8], at: usize) -> u8 {
    bytes.get(at).copied().unwrap_or(0)
}

// The number in the two bytes from a place.
pub fn u16_or_0(bytes: &[u8], at: usize) -> u16 {
    match part(bytes, at, 2) {
        [a, b] => u16::from_le_bytes([*a, *b]),
        _ => 0,
    }
}

// The number in the four bytes from a place.
pub fn u32_or_0(bytes: &[u8], at: usize) -> u32 {
    match part(bytes, at, 4) {
        [a, b, c, d] => u32::from_le_bytes([*a, *b, *c, *d]),
        _ => 0,
    }
}

// As many of `size` bytes as there are from a place.
pub fn part(bytes: &[u8], from: usize, size: usize) -> &[u8] {
    let rest = bytes.get(from..).unwrap_or(&[]);
    rest.get(..size).unwrap_or(rest)
}

// Puts what `load` reads in each `size` bytes at the front of a run.
fn run<T: Copy, F: Fn(&[u8]) -> T>(bytes: &[u8], size: usize, load: F, run: &mut [T])
    requires some { 0 < size }
    requires loads { F.IsAlwaysCallable load }
{
    for (cell, number) in run.iter_mut().zip(bytes.chunks(size)) {
        *cell = load(number);
    }
}

// Puts numbers of two bytes at the front of a run.
pub fn run16(bytes: &[u8], cells: &mut [u16]) {
    run(bytes, 2, |number| u16_or_0(number, 0), cells);
}

// Puts weights at the front of a run.
pub fn run_weights(bytes: &[u8], cells: &mut [i32]) {
    run(bytes, 4, |number| u32_or_0(number, 0).cast_signed(), cells);
}

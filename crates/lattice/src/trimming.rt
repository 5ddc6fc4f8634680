// Trimming a lattice that stands behind the place where it is to stand, by way of a copy: trimming would write over what it has not read.
ghost use Rattle.std.specs.Prelude.{◌≡◌, ◌+◌, ◌≤◌, length, take, drop};
ghost use Rattle.transducer.specs.Format.{max_bytes, decode};
ghost use Rattle.trim.specs.Parts.{Trims};
ghost use Rattle.lattice.specs.Applying.{Trimmable};

use transducer::MAX_BYTES;

// The largest number of bytes that are copied into a small array: clearing a large one takes longer than everything else that a small lattice asks for.
const FEW_BYTES: usize = 4096;

// Trims the lattice of `count` bytes that stands from a place on into the front of its buffer, by way of a copy in an array of `N` bytes.
fn trim_through<const N: usize>(
    lattice: &mut [u8],
    from: usize,
    count: usize,
    origins: &mut [u16],
) -> usize
    requires { Trimmable lattice.old from count (length origins.old) × (count ≤ N) × (N ≤ max_bytes) }
    ensures { Trims (decode (take count (drop from lattice.old))) result lattice.old lattice.new
        origins.old origins.new }
{
    let mut work = [0u8; N];
    let copy = &mut work[..count];
    copy.copy_from_slice(&lattice[from..from + count]);
    trim::trim_into(copy, true, lattice, origins)
}

// Trims the lattice of `count` bytes that stands from a place on into the front of its buffer. Answers its length in bytes then.
pub fn trim_behind(lattice: &mut [u8], from: usize, count: usize, origins: &mut [u16]) -> usize
    requires { Trimmable lattice.old from count (length origins.old) × (count ≤ max_bytes) }
    ensures { Trims (decode (take count (drop from lattice.old))) result lattice.old lattice.new
        origins.old origins.new }
{
    if count <= FEW_BYTES {
        return trim_through::<FEW_BYTES>(lattice, from, count, origins);
    }
    trim_through::<MAX_BYTES>(lattice, from, count, origins)
}

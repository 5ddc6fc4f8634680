// Bytes of the wire format: little-endian loads and stores, and clearing of buffers.
#![tactic(auto)]

ghost use Rattle.std.specs.Prelude.{◌≡◌, ◌+◌, ◌≤◌, ◌<◌, length};
ghost use Rattle.std.proofs.lemmas.List.Edits.{sets};
ghost use Rattle.std.specs.Int.{w32};
ghost use Rattle.std.proofs.Common.{to_z, of_z};
ghost use Rattle.wire.specs.Bytes.{two, four, low, emptied, signed_four, signed_low};

// The number in the two bytes from `at`.
#[tactic(auto, unfolding(crate::specs::Bytes::two))]
pub fn u16_at(bytes: &[u8], at: usize) -> u16
    requires { at + 1 < length bytes.now }
    ensures { result ≡ two bytes.now at }
{
    u16::from_le_bytes([bytes[at], bytes[at + 1]])
}

// The number in the four bytes from `at`.
// Each size has its own array and its own definition, so that one generic function would be no plainer.
#[tactic(auto, unfolding(crate::specs::Bytes::two, crate::specs::Bytes::four))]
pub fn u32_at(bytes: &[u8], at: usize) -> u32
    requires { at + 3 < length bytes.now }
    ensures { result ≡ four bytes.now at }
{
    u32::from_le_bytes([bytes[at], bytes[at + 1], bytes[at + 2], bytes[at + 3]])
}

// The signed number in the four bytes from `at`.
#[tactic(auto, unfolding(crate::specs::Bytes::signed_four))]
pub fn i32_at(bytes: &[u8], at: usize) -> i32
    requires { at + 3 < length bytes.now }
    ensures { result ≡ signed_four bytes.now at }
{
    u32_at(bytes, at).cast_signed()
}

// Stores a number in the two bytes from `at`, by a shift and a mask. Composing and applying store each arc by it and are to run without division; the library's
// `to_le_bytes` divides.
pub fn put_u16(out: &mut [u8], at: usize, value: u16)
    requires { at + 1 < length out.old }
    ensures { out.new ≡ sets out.old at (low 2 value) }
{
    out[at..at + 2].copy_from_slice(&[(value & 255) as u8, (value >> 8) as u8]);
}

// Stores a number in the four bytes from `at`, by shifts and masks for the reason that `put_u16` gives.
// Each size has its own shifts and its own definition, so that one generic function would be no plainer.
pub fn put_u32(out: &mut [u8], at: usize, value: u32)
    requires { at + 3 < length out.old }
    ensures { out.new ≡ sets out.old at (low 4 value) }
{
    out[at..at + 4].copy_from_slice(&[
        (value & 255) as u8,
        ((value >> 8) & 255) as u8,
        ((value >> 16) & 255) as u8,
        (value >> 24) as u8,
    ]);
}

// Stores a signed number in the four bytes from `at`.
#[tactic(auto, unfolding(crate::specs::Bytes::signed_low))]
pub fn put_i32(out: &mut [u8], at: usize, value: i32)
    requires { at + 3 < length out.old }
    ensures { out.new ≡ sets out.old at (signed_low value) }
{
    put_u32(out, at, value.cast_unsigned());
}

// Puts `zero` in each place from `from` to the end. `fill` would ask of each caller that `clone` cannot fail.
pub fn clear<T: Copy>(out: &mut [T], from: usize, zero: T)
    requires { from ≤ length out.old }
    ensures { out.new ≡ emptied zero from out.old }
{
    for cell in &mut out[from..] {
        *cell = zero;
    }
}

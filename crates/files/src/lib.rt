// What the programs share: reading an input until bytes are full, and the listing of three files of the current folder.
#![tactic(auto)]

ghost use Rattle.std.specs.Prelude.{◌≡◌, ◌≤◌, length, take};
ghost use Rattle.std.specs.Io.KnownBytes.{Consumes};
ghost use Rattle.listing.specs.Answer.{listed};

use listing::Listing;
use std::io::Read;
use std::rt::Files;
use std::{fs, io};
use transducer::Refusal;

// A file is read up to this many bytes.
const MOST: usize = 65536;

// Reads until `bytes` is full, the input ends or a read fails, and answers how many bytes there are.
pub fn read_full<R: Read>(input: &mut R, bytes: &mut [u8]) -> usize
    ensures fits { result ≤ length bytes.new }
    ensures front { result ≡ length (take result bytes.new) }
    ensures given { Consumes (R.remaining input.old) (R.remaining input.new) (take result bytes.new) }
{
    // A read gives as many bytes as it likes, so there is no index to count.
    let mut done = 0;
    while done < bytes.len() {
        match input.read(&mut bytes[done..]) {
            Ok(n) => {
                if n == 0 {
                    return done;
                }
                done += n;
            }
            Err(_) => return done,
        }
    }
    done
}

// Reads a file from its start into `bytes`, and gives what of them it filled; a missing file counts as empty.
fn load<'a>(rt: &impl Files, path: &str, bytes: &'a mut [u8]) -> &'a [u8]
    ensures { length result.now ≤ length bytes.entry.now }
{
    let count = match fs::open(rt, path) {
        Ok(mut file) => read_full(&mut file, bytes),
        Err(_) => 0,
    };
    &bytes[..count]
}

// Prints the text that `list` makes of two transducers and a code, which `out` holds meanwhile.
fn print_text<L: Fn(&[u8], &[u8], &[u8], &mut [u8]) -> Result<Listing, Refusal>>(
    rt: &impl Print,
    list: L,
    left: &[u8],
    right: &[u8],
    code: &[u8],
    out: &mut [u8],
) -> io::Result<()>
    requires lists { L.IsAlwaysCallable list }
    requires fits { (left right code out told after : _) → L.post list left right code out told after → (listed told).len ≤ length after.now }
{
    match list(left, right, code, out) {
        Ok(text) => rt.write_all(&out[..text.len as usize]),
        // Only a buffer that is too short is refused, and then there is no text.
        Err(_) => Ok(()),
    }
}

// Prints the text that `list` makes of left.tab, right.tab and code.lab of the current folder.
pub fn print_listing<L: Fn(&[u8], &[u8], &[u8], &mut [u8]) -> Result<Listing, Refusal>>(
    rt: &(impl Print + Files),
    list: L,
) -> io::Result<()>
    requires lists { L.IsAlwaysCallable list }
    requires fits { (left right code out told after : _) → L.post list left right code out told after → (listed told).len ≤ length after.now }
{
    let mut left = [0u8; MOST];
    let mut right = [0u8; MOST];
    let mut code = [0u8; MOST];
    let mut out = [0u8; listing::LEAST_ROOM];
    print_text(
        rt,
        list,
        load(rt, "left.tab", &mut left),
        load(rt, "right.tab", &mut right),
        load(rt, "code.lab", &mut code),
        &mut out,
    )
}

// A string looked up on a transducer: whether it is read, by how many paths, and at what least cost. The transducer's bytes are accepted before the call,
// so that many strings can be looked up without validating them again; the lattice is never validated.
#![tactic(auto)]

ghost use Rattle.std.specs.Prelude.{◌≡◌, length};
ghost use Rattle.transducer.specs.Format.{decode};
ghost use Rattle.lookup.specs.Answer.{lookup_of, count_of};
ghost use Rattle.lookup.specs.Lookup.{TableAsks, LatticeAsks, LookupAsks, CountStringSays, looked_up};

use transducer::{MAX_ARCS, MAX_BYTES, MAX_PATH, MAX_STATES, Refusal};

// What is found: the number of accepting paths, 99 standing for 99 or more, and the least cost.
#[derive(Clone, Copy, Debug, PartialEq, Eq)]
pub struct Found {
    pub count: u32,
    pub cost: i32,
}

// What applying and counting tell: the number of accepting paths, and the number of bytes of the lattice.
#[derive(Clone, Copy, Debug, PartialEq, Eq)]
pub struct LatticeCount {
    pub count: u32,
    pub len: u32,
}

// Applies a string to an accepted transducer and counts the accepting paths of the lattice, which stays in its buffer. Refuses with 9, 11, 12 and 14.
pub fn count_string(
    string: &[u16],
    table: &[u8],
    no_any_input: bool,
    lattice: &mut [u8],
    origins: &mut [u16],
    pairs: &mut [u32],
) -> Result<LatticeCount, Refusal>
    requires { LatticeAsks table.now no_any_input (length lattice.old) (length origins.old) (length pairs.old) }
    ensures { CountStringSays string.now (decode table.now) (count_of result) lattice.new }
{
    if !lattice::string_ok(string) {
        return Err(Refusal::Symbols);
    }
    let len = lattice::apply_into(string, table, no_any_input, lattice, origins, pairs)?;
    let count = paths::count_accepted(&lattice[..len as usize])?;
    Ok(LatticeCount { count, len })
}

// Looks a string up on an accepted transducer, in buffers lent to work in. Refuses with 9, 11, 12, 14, then 16 if no path reads it.
pub fn lookup_in(
    string: &[u16],
    table: &[u8],
    no_any_input: bool,
    lattice: &mut [u8],
    origins: &mut [u16],
    pairs: &mut [u32],
    arcs: &mut [u16],
    labels: &mut [u16],
) -> Result<Found, Refusal>
    requires { LookupAsks table.now no_any_input (length lattice.old) (length origins.old) (length pairs.old) (length arcs.old) (length
        labels.old) }
    ensures { lookup_of result ≡ looked_up string.now (decode table.now) }
{
    let read = count_string(string, table, no_any_input, lattice, origins, pairs)?;
    if read.count == 0 {
        return Err(Refusal::NoPath);
    }
    let len = read.len as usize;
    let seen = distance::unvalidated();
    let told = shortest::shortest_accepted(&lattice[..len], seen, arcs, labels)?;
    Ok(Found {
        count: read.count,
        cost: told.cost as i32,
    })
}

// Looks a string up on an accepted transducer, in arrays of its own; `no_any_input` only if no arc is for any symbol.
pub fn lookup(string: &[u16], table: &[u8], no_any_input: bool) -> Result<Found, Refusal>
    requires { TableAsks table.now no_any_input }
    ensures { lookup_of result ≡ looked_up string.now (decode table.now) }
{
    let mut lattice = [0u8; MAX_BYTES];
    let mut origins = [0u16; MAX_ARCS];
    let mut pairs = [0u32; MAX_STATES];
    let mut arcs = [0u16; MAX_PATH];
    let mut labels = [0u16; MAX_PATH];
    lookup_in(
        string,
        table,
        no_any_input,
        &mut lattice,
        &mut origins,
        &mut pairs,
        &mut arcs,
        &mut labels,
    )
}

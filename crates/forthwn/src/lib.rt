// The calls for C and Rust. A slice goes as its pointer and then its length; each call says what the one behind it says. How the time of each
// grows is argued and measured, not proved (docs/reference.md); testing the bytes handed in, which each call begins with, is linear in them.
#![tactic(auto)]

ghost use Rattle.std.specs.Prelude.{◌≡◌, length};
ghost use Rattle.transducer.specs.Format.{refusal};
ghost use Rattle.codec.specs.Entry.{ReadSays, read_refusal, WriteSays, write_refusal, given};
ghost use Rattle.compose.specs.Entry.{ComposeSays, compose_refusal};
ghost use Rattle.lattice.specs.ApplyEntry.{ApplySays, apply_refusal};
ghost use Rattle.trim.specs.TrimEntry.{TrimSays, trim_refusal};
ghost use Rattle.paths.specs.Entry.{CountSays, count_refusal, NthSays, nth_refusal};
ghost use Rattle.distance.specs.Entry.{CostsSay, costs_refusal};
ghost use Rattle.shortest.specs.Entry.{ShortestSays, shortest_refusal};
ghost use Rattle.claim.specs.Entry.{ReadingsSays};
ghost use Rattle.cascade.specs.Entry.{CascadeCountSays, CascadeSays, cascade_refusal};
ghost use Rattle.listing.specs.Entry.{ListingSays, text_room};
ghost use Rattle.cascade_listing.specs.Entry.{CascadeListingSays};
ghost use Rattle.transducer.specs.Answer.{refusal_in, value_in};
ghost use Rattle.report.specs.Answer.{told};
ghost use Rattle.listing.specs.Answer.{listed as listed_answer};
ghost use Rattle.forthwn.specs.Answer.{written, counted, listed, head_numbers, path_numbers, HeadIn, ToldIn};

use listing::Listing;
use report::PathNumbers;
use transducer::Refusal;

// The number of a refusal, 0 for none.
fn refusal_number<T: Copy>(answer: Result<T, Refusal>) -> u32
    ensures { result ≡ refusal_in answer }
{
    match answer {
        Ok(_) => 0,
        Err(refusal) => refusal.number(),
    }
}

// Hands the value of an answer to C, 0 on refusal, and answers the refusal's number, 0 for none.
fn tell(answer: Result<u32, Refusal>, value: &mut u32) -> u32
    ensures { (result ≡ refusal_in answer) × (value.new ≡ value_in answer) }
{
    *value = answer.unwrap_or(0);
    refusal_number(answer)
}

// Refusals 1 to 8 of a transducer's bytes, or 0 where they are accepted. Linear in the bytes.
#[unsafe(no_mangle)]
pub extern "C" fn forthwn_refusal(bytes: &[u8]) -> u32
    ensures { result ≡ refusal bytes.now }
{
    refusal_number(transducer::ensure_accepted(bytes))
}

// A head as C gets it: four numbers.
fn head_numbers(states: u32, arcs: u32, finals: u32, start: u32) -> [u32; 4]
    ensures { result ≡ head_numbers states arcs finals start }
{
    [states, arcs, finals, start]
}

// Reads a transducer into four lent buffers, and its states, arcs, finals and start into `head`. Linear in the bytes and in what is lent.
#[unsafe(no_mangle)]
pub extern "C" fn forthwn_read(
    bytes: &[u8],
    final_states: &mut [u16],
    final_weights: &mut [i32],
    fields: &mut [u16],
    arc_weights: &mut [i32],
    head: &mut [u32; 4],
) -> u32
    ensures { HeadIn result head.new (λ h. ReadSays bytes.now
        (read_refusal bytes.now (length final_states.old) (length final_weights.old)
        (length fields.old) (length arc_weights.old))
        h final_states.old final_states.new final_weights.old final_weights.new
        fields.old fields.new arc_weights.old arc_weights.new) }
{
    match codec::read(bytes, final_states, final_weights, fields, arc_weights) {
        Ok(read) => {
            *head = head_numbers(read.states, read.arcs, read.finals, read.start);
            0
        }
        Err(refusal) => {
            *head = head_numbers(0, 0, 0, 0);
            refusal.number()
        }
    }
}

// Writes a transducer from its four numbers and four runs into a lent buffer, and the number of bytes into `len`. Linear in the bytes
// written and in what is lent.
#[unsafe(no_mangle)]
pub extern "C" fn forthwn_write(
    n: u32,
    m: u32,
    f: u32,
    start: u32,
    final_states: &[u16],
    final_weights: &[i32],
    fields: &[u16],
    arc_weights: &[i32],
    out: &mut [u8],
    len: &mut u32,
) -> u32
    ensures { WriteSays
        (given n m f start final_states.now final_weights.now fields.now arc_weights.now)
        (write_refusal n m f start final_states.now final_weights.now fields.now arc_weights.now
        (length out.old))
        (written result len.new) out.old out.new }
{
    tell(
        codec::write(
            n,
            m,
            f,
            start,
            final_states,
            final_weights,
            fields,
            arc_weights,
            out,
        ),
        len,
    )
}

// Composes two transducers into a lent buffer, with the origins of its arcs, and puts the number of bytes into `len`; the states are
// lent to work in. Linear in the right arcs, the left arcs taken at the states reached and the arcs made, as long as buckets stay short.
#[unsafe(no_mangle)]
pub extern "C" fn forthwn_compose(
    left: &[u8],
    right: &[u8],
    table: &mut [u8],
    origins: &mut [u16],
    states: &mut [u32],
    len: &mut u32,
) -> u32
    ensures { ComposeSays left.now right.now
        (compose_refusal left.now right.now (length table.old) (length origins.old) (length states.old))
        (written result len.new) table.old table.new origins.old origins.new
        states.old states.new }
{
    tell(compose::compose(left, right, table, origins, states), len)
}

// Applies a string to a transducer: the lattice into a lent buffer, the origins of its arcs, and the number of bytes into `len`; the
// pairs are lent to work in. Linear in the arcs that leave the pairs of position and state reached, as long as buckets stay short.
#[unsafe(no_mangle)]
pub extern "C" fn forthwn_apply(
    string: &[u16],
    table: &[u8],
    lattice: &mut [u8],
    origins: &mut [u16],
    pairs: &mut [u32],
    len: &mut u32,
) -> u32
    ensures { ApplySays string.now table.now
        (apply_refusal string.now table.now (length lattice.old) (length origins.old) (length pairs.old))
        (written result len.new) lattice.old lattice.new origins.old origins.new
        pairs.old pairs.new }
{
    tell(lattice::apply(string, table, lattice, origins, pairs), len)
}

// Trims a transducer into a lent buffer, with the number that each kept arc had, and puts the number of bytes into `len`. Linear in states
// and arcs.
#[unsafe(no_mangle)]
pub extern "C" fn forthwn_trim(
    table: &[u8],
    out: &mut [u8],
    origins: &mut [u16],
    len: &mut u32,
) -> u32
    ensures { TrimSays table.now (trim_refusal table.now (length out.old) (length origins.old))
        (written result len.new) out.old out.new origins.old origins.new }
{
    tell(trim::trim(table, out, origins), len)
}

// Puts the number of accepting paths into `count`, 99 standing for 99 or more. Linear in states and arcs.
#[unsafe(no_mangle)]
pub extern "C" fn forthwn_count(table: &[u8], count: &mut u32) -> u32
    ensures { CountSays table.now (count_refusal table.now) (counted result count.new) }
{
    tell(paths::path_count(table), count)
}

// What is told of a path as C gets it: three signed numbers.
fn path_numbers(cost: i64, arcs: u32, labels: u32) -> [i64; 3]
    ensures { result ≡ path_numbers cost arcs labels }
{
    [cost, arcs as i64, labels as i64]
}

// Hands the numbers of a path to C, zeros on refusal, and answers the refusal's number, 0 for none.
fn tell_path(answer: Result<PathNumbers, Refusal>, numbers: &mut [i64; 3]) -> u32
    ensures { ToldIn result numbers.new (λ t. t ≡ told answer) }
{
    match answer {
        Ok(path) => {
            *numbers = path_numbers(path.cost, path.arcs, path.labels);
            0
        }
        Err(refusal) => {
            *numbers = path_numbers(0, 0, 0);
            refusal.number()
        }
    }
}

// The k-th path: its arcs and labels into lent buffers, and its cost, number of arcs and number of labels into `numbers`. Linear in states
// and arcs.
#[unsafe(no_mangle)]
pub extern "C" fn forthwn_nth(
    table: &[u8],
    k: u32,
    arcs: &mut [u16],
    labels: &mut [u16],
    numbers: &mut [i64; 3],
) -> u32
    ensures { ToldIn result numbers.new (λ t. NthSays table.now k
        (nth_refusal table.now k (length arcs.old) (length labels.old))
        t arcs.old arcs.new labels.old labels.new) }
{
    let answer = paths::nth_path(table, k, arcs, labels);
    tell_path(answer, numbers)
}

// The shortest path, told in the same way. One sweep over the arcs where they lead to higher states, at worst states times arcs (10 ms
// measured).
#[unsafe(no_mangle)]
pub extern "C" fn forthwn_shortest(
    table: &[u8],
    arcs: &mut [u16],
    labels: &mut [u16],
    numbers: &mut [i64; 3],
) -> u32
    ensures { ToldIn result numbers.new (λ t. ShortestSays table.now
        (shortest_refusal table.now (length arcs.old) (length labels.old))
        t arcs.old arcs.new labels.old labels.new) }
{
    let answer = shortest::shortest_path(table, arcs, labels);
    tell_path(answer, numbers)
}

// The least cost still to come from each state into 1,024 lent cells, 1,000,000,000,001 where no path leads to a final state. Time as for the shortest path.
#[unsafe(no_mangle)]
pub extern "C" fn forthwn_distance(table: &[u8], cells: &mut [i64]) -> u32
    ensures { CostsSay table.now (costs_refusal table.now (length cells.old)) result
        cells.old cells.new }
{
    refusal_number(distance::costs_to_come(table, cells))
}

// The whole chain in one call: composes two transducers, applies a string and puts the number of accepting paths into `count`. Nothing is
// lent: it works in arrays of its own on the stack (docs/reference.md says how much). Time is that of the three calls.
#[unsafe(no_mangle)]
pub extern "C" fn forthwn_readings(
    left: &[u8],
    right: &[u8],
    string: &[u16],
    count: &mut u32,
) -> u32
    ensures { ReadingsSays left.now right.now string.now (counted result count.new) }
{
    tell(claim::readings(left, right, string), count)
}

// The cascade in one call: applies a string to the left transducer first, composes the lattice with the right one and puts the number of accepting paths
// into `count`. The left transducer may have arcs for any symbol. Nothing is lent. Time is that of the three calls.
#[unsafe(no_mangle)]
pub extern "C" fn forthwn_cascade_readings(
    left: &[u8],
    right: &[u8],
    string: &[u16],
    count: &mut u32,
) -> u32
    ensures { CascadeCountSays left.now right.now string.now (counted result count.new) }
{
    tell(cascade::readings(left, right, string), count)
}

// The result of the cascade into a lent buffer, with an arc of the left transducer and one of the right for each of its arcs, and the number of bytes into
// `len`; the states are lent to work in. Time is that of applying to the left transducer and of composing the lattice.
#[unsafe(no_mangle)]
pub extern "C" fn forthwn_cascade(
    left: &[u8],
    right: &[u8],
    string: &[u16],
    table: &mut [u8],
    origins: &mut [u16],
    states: &mut [u32],
    len: &mut u32,
) -> u32
    ensures { CascadeSays left.now right.now string.now
        (cascade_refusal left.now right.now string.now
        (length table.old) (length origins.old) (length states.old))
        (written result len.new) table.old table.new origins.old origins.new
        states.old states.new }
{
    tell(
        cascade::cascade(left, right, string, table, origins, states),
        len,
    )
}

// Hands the length of a listing and the number of the refusal that its text says to C, zeros on refusal, and answers the call's own refusal.
fn tell_listing(answer: Result<Listing, Refusal>, len: &mut u32, said: &mut u32) -> u32
    ensures { listed result len.new said.new ≡ listed_answer answer }
{
    match answer {
        Ok(text) => {
            *len = text.len;
            *said = match text.said {
                Some(refusal) => refusal.number(),
                None => 0,
            };
            0
        }
        Err(refusal) => {
            *len = 0;
            *said = 0;
            refusal.number()
        }
    }
}

// The listing of two transducers and a code's bytes: the text into a lent buffer, its length into `len`, and into `said` the number of the refusal
// that the text says. The call itself is refused only by 10. Time is that of `forthwn_readings` and of a walk along each path listed.
#[unsafe(no_mangle)]
pub extern "C" fn forthwn_list(
    left: &[u8],
    right: &[u8],
    code: &[u8],
    out: &mut [u8],
    len: &mut u32,
    said: &mut u32,
) -> u32
    ensures { ListingSays left.now right.now code.now (text_room (length out.old))
        (listed result len.new said.new) out.old out.new }
{
    let answer = listing::list(left, right, code, out);
    tell_listing(answer, len, said)
}

// The listing of the cascade of two transducers and a code's bytes, told as by `forthwn_list`: 1 to 8 of both transducers come before 9 of the code. The
// call itself is refused only by 10. Time is that of `forthwn_cascade_readings` and of a walk along each path listed.
#[unsafe(no_mangle)]
pub extern "C" fn forthwn_cascade_list(
    left: &[u8],
    right: &[u8],
    code: &[u8],
    out: &mut [u8],
    len: &mut u32,
    said: &mut u32,
) -> u32
    ensures { CascadeListingSays left.now right.now code.now (text_room (length out.old))
        (listed result len.new said.new) out.old out.new }
{
    let answer = cascade_listing::list(left, right, code, out);
    tell_listing(answer, len, said)
}

// Text written at a place of a lent buffer; each function answers the place behind it.
ghost use Rattle.std.specs.Prelude.{◌≡◌, [], ◌∷◌, ◌+◌, ◌≤◌, ◌<◌, length};
ghost use Rattle.listing.specs.Text.{Wrote, decimal, cost_text, labels_text, line};

// Writes one byte.
pub fn put_byte(out: &mut [u8], at: usize, byte: u8) -> usize
    requires { at < length out.old }
    ensures { Wrote out.old out.new at result (byte ∷ []) }
{
    out[at] = byte;
    at + 1
}

// Writes bytes.
pub fn put_bytes(out: &mut [u8], at: usize, text: &[u8]) -> usize
    requires { at + length text.now ≤ length out.old }
    ensures { Wrote out.old out.new at result text.now }
{
    let end = at + text.len();
    out[at..end].copy_from_slice(text);
    end
}

// Writes a number in decimal.
// There is no heap, so that the digits go straight into the buffer.
pub fn put_decimal(out: &mut [u8], at: usize, value: u64) -> usize
    requires { at + length (decimal value) ≤ length out.old }
    ensures { Wrote out.old out.new at result (decimal value) }
{
    if value < 10 {
        return put_byte(out, at, b'0' + value as u8);
    }
    let last = put_decimal(out, at, value / 10);
    put_byte(out, last, b'0' + (value % 10) as u8)
}

// Writes a cost: a minus sign where it is below 0, and its digits. There is no heap, so that both go straight into the buffer and no String is made.
pub fn put_cost(out: &mut [u8], at: usize, cost: i64) -> usize
    requires { at + length (cost_text cost) ≤ length out.old }
    ensures { Wrote out.old out.new at result (cost_text cost) }
{
    let size = cost.unsigned_abs();
    if 0 <= cost {
        return put_decimal(out, at, size);
    }
    let digits = put_byte(out, at, b'-');
    put_decimal(out, digits, size)
}

// Writes labels, a blank before each.
pub fn put_labels(out: &mut [u8], at: usize, labels: &[u16]) -> usize
    requires { at + length (labels_text labels.now) ≤ length out.old }
    ensures { Wrote out.old out.new at result (labels_text labels.now) }
{
    let mut end = at;
    for label in labels {
        let digits = put_byte(out, end, b' ');
        end = put_decimal(out, digits, *label as u64);
    }
    end
}

// Writes the line of a path: its number, its cost and its labels.
pub fn put_line(out: &mut [u8], at: usize, k: u32, cost: i64, labels: &[u16]) -> usize
    requires { at + length (line k cost labels.now) ≤ length out.old }
    ensures { Wrote out.old out.new at result (line k cost labels.now) }
{
    let number = put_decimal(out, at, k as u64);
    let gap = put_byte(out, number, b' ');
    let paid = put_cost(out, gap, cost);
    let told = put_labels(out, paid, labels);
    put_byte(out, told, b'\n')
}

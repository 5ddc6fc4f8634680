// The head and the finals of a table, which inverting and restricting keep.
ghost use Rattle.std.specs.Prelude.{◌≡◌, ◌≤◌, length, take};

// Copies the bytes before `end`.
pub fn copy_front(table: &[u8], end: usize, out: &mut [u8])
    requires { (end ≤ length table.now) × (end ≤ length out.old) }
    ensures { take end out.new ≡ take end table.now }
{
    out[..end].copy_from_slice(&table[..end]);
}

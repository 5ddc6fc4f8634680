// The two ends of an arc, read straight from accepted bytes.
ghost use Rattle.std.specs.Prelude.{◌≡◌, ◌<◌, length};
ghost use Rattle.transducer.specs.Format.{decode};
ghost use Rattle.transducer.specs.Path.{arc};
ghost use Rattle.transducer.specs.Accepted.{AcceptedAt};
ghost use Rattle.reach.specs.Marks.{from_end, to_end};

use transducer::ARC_BYTES;

// Where arc `i` comes from.
pub fn source(table: &[u8], first: usize, i: usize) -> usize
    requires { AcceptedAt table.now first × (i < length (decode table.now).arcs) }
    ensures { (result ≡ (arc (decode table.now) i).source) × (result < (decode table.now).states) }
{
    wire::u16_at(table, first + ARC_BYTES * i + 4) as usize
}

// Where arc `i` leads.
// It differs from `source` in a place and in the field that it equals, so that one function of both would be no plainer.
pub fn target(table: &[u8], first: usize, i: usize) -> usize
    requires { AcceptedAt table.now first × (i < length (decode table.now).arcs) }
    ensures { (result ≡ (arc (decode table.now) i).target) × (result < (decode table.now).states) }
{
    wire::u16_at(table, first + ARC_BYTES * i + 10) as usize
}

// The end of arc `i` that marks spread from: its source, or its target where they spread back.
// The definitions take the direction as a value, so that it is no type here.
pub fn from_end(table: &[u8], first: usize, i: usize, back: bool) -> usize
    requires { AcceptedAt table.now first × (i < length (decode table.now).arcs) }
    ensures { (result ≡ from_end back (arc (decode table.now) i)) × (result < (decode table.now).states) }
{
    if back {
        target(table, first, i)
    } else {
        source(table, first, i)
    }
}

// The other end.
pub fn to_end(table: &[u8], first: usize, i: usize, back: bool) -> usize
    requires { AcceptedAt table.now first × (i < length (decode table.now).arcs) }
    ensures { (result ≡ to_end back (arc (decode table.now) i)) × (result < (decode table.now).states) }
{
    from_end(table, first, i, !back)
}

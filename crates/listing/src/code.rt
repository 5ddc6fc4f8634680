// The labels of a code.
ghost use Rattle.std.specs.Prelude.{◌≡◌, length};
ghost use Rattle.listing.specs.Code.{most_loaded, Loaded};

// One label more than a string may have: enough to see that a longer one is refused.
pub const MOST_LOADED: usize = transducer::MAX_SYMBOLS + 1;

// Loads the labels in bytes, two bytes each, at most `MOST_LOADED`, and answers how many they are.
pub fn load_labels(bytes: &[u8], string: &mut [u16; MOST_LOADED]) -> usize
    requires { length string.old ≡ most_loaded }
    ensures { Loaded bytes.now result string.new }
{
    let count = (bytes.len() / 2).min(MOST_LOADED);
    for i in 0..count {
        string[i] = wire::u16_at(bytes, 2 * i);
    }
    count
}

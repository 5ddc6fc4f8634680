// Why a call refuses.
ghost use Rattle.std.specs.Prelude.{◌≡◌};
ghost use Rattle.bounds.specs.Refusal.{number};

// The refusals, in the order in which most calls test for them. C gets them as their numbers.
#[derive(Clone, Copy, Debug, PartialEq, Eq)]
pub enum Refusal {
    // The records do not follow one another to the end of the bytes.
    Framing = 1,
    // The records are not a head, then finals, then arcs, each of its length.
    Kinds = 2,
    // The head's numbers are out of range.
    Head = 3,
    // There are not as many finals and arcs as the head says.
    Counts = 4,
    // A state is not below the number of states.
    States = 5,
    // The finals or the arcs are not in order.
    Order = 6,
    // A label is one that its arc may not have.
    Labels = 7,
    // A weight is out of range.
    Weights = 8,
    // The string is too long, or has a symbol that no string may have.
    Symbols = 9,
    // A lent buffer is too short.
    Room = 10,
    // The result has too many states.
    ManyStates = 11,
    // The result has too many arcs.
    ManyArcs = 12,
    // A weight of the result is out of range.
    Sums = 13,
    // There are infinitely many accepting paths.
    Endless = 14,
    // There is no path of this number.
    NoSuchPath = 15,
    // There is no accepting path.
    NoPath = 16,
    // The left transducer has an arc for any symbol.
    AnyInput = 18,
    // A cycle below zero leads to a final state.
    NegativeCycle = 19,
}

impl Refusal {
    // The number that C gets. A method and no `From`: its name says which number of a refusal this is.
    pub fn number(self) -> u32
        ensures { result ≡ number self }
    {
        self as u32
    }
}

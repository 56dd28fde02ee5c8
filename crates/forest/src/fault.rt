//! Refusals, and where they are met.
ghost use Rattle.std.specs.Prelude.{◌≡◌};
ghost use Rattle.forest.specs.Refusals.{number_of};

use std::fmt;

/// Why an entry, a record, a sheet or a call is refused. Each refusal has a number, which lines tell.
#[derive(Clone, Copy, PartialEq, Eq, Debug)]
pub enum Refusal {
    /// The input ends inside an entry.
    EntryCutShort = 1,
    /// Two bytes are no mark of an entry.
    NoMark = 2,
    /// A record is above 4,096 bytes.
    RecordTooLong = 3,
    /// A record ends inside a text or an opening.
    TreeCutShort = 4,
    /// A byte begins no tree and is no closing.
    NoTree = 5,
    /// A node's label is 0.
    LabelZero = 6,
    /// A closing with no open node, or an end with one open.
    Unbalanced = 7,
    /// A node stands inside 64 others.
    NestedTooDeep = 8,
    /// A sheet is empty, above 512 bytes, or no multiple of 4.
    SheetSize = 9,
    /// Four bytes say no row.
    NoRow = 10,
    /// A part is not lower than its row, or is a definition.
    PartNotBelow = 11,
    /// A row that is no definition is not exactly once a part.
    NotOnceAPart = 12,
    /// A row names a definition that is not there.
    NoDefinition = 13,
    /// A sheet has more than 64 places.
    TooManyPlaces = 14,
    /// A working list has no element, or more than 1,024.
    ListSize = 20,
    /// There are more sorts than elements.
    TooManySorts = 21,
    /// There is no room for one more edition.
    EditionsFull = 30,
    /// There is no edition.
    NoEdition = 31,
    /// A record does not belong to the newest edition.
    NotOfNewest = 32,
    /// There is no room for one more record.
    RecordsFull = 33,
    /// There is no record of that number.
    NoRecord = 34,
    /// A buffer is shorter than the record.
    BufferTooShort = 35,
}

impl Refusal {
    /// The refusal's number.
    pub fn number(self) -> u8
        ensures { result ≡ number_of self }
    {
        self as u8
    }
}

/// A refusal, and the place that it tells.
// Written out where it is met, at place 0 too: a conversion that sets the place would hide it.
#[derive(Clone, Copy, PartialEq, Eq, Debug)]
pub struct Fault {
    pub refusal: Refusal,
    pub place: usize,
}

/// The number, and then the place.
impl fmt::Display for Fault {
    fn fmt<W: fmt::Write>(&self, f: &mut fmt::Formatter<W>) -> fmt::Result {
        let number = self.refusal.number();
        let place = self.place;
        write!(f, "{number} {place}")
    }
}

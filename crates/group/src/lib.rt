// The format of a Basic Group: its sizes, the kinds of entry and their flags, entries as bytes. Document 01, "Sizes" and
// "The group". The leaves here have a `requires` where they index; the calls that firmware reaches are made of them above.
#![tactic(auto)]

pub mod entries;
pub mod flags;
pub mod state;

// A Basic Group: the standard's size and the limits of the format.
#[derive(Clone, Copy, Debug, PartialEq, Eq)]
pub struct Group {}

impl Group {
    pub const STANDARD_SIZE: u32 = 126632;

    pub const LEAST_SIZE: u32 = 64;

    pub const INFORMATION_LENGTH: u32 = 32;

    pub const ENTRY_LENGTH: u32 = 4;

    pub const LONGEST_RECORD: u32 = 16777215;

    pub const LAST_NUMBER: u32 = 65535;

    pub const MOST_OWING: u32 = 43;
}

// The kinds of entry, by the numbers that stand for them in a row.
#[derive(Clone, Copy, Debug, PartialEq, Eq)]
pub enum Kind {
    Total = 1,
    Separator,
    Middle,
    Start,
    Last,
    Entire,
    Skip,
}

// What a flag byte means: a kind and its bit b4, or nothing.
pub type Meaning = Option<(Kind, bool)>;

// An entry as it stands in a group.
#[derive(Clone, Copy, Debug, PartialEq, Eq)]
pub struct Entry {
    pub flag: u8,
    pub count: u32,
}

// Where a group leaves the run: between records, inside one, or with a total owed.
#[derive(Clone, Copy, Debug, PartialEq, Eq)]
pub enum Phase {
    Free,
    Inside,
    Owed,
}

// One entry of a group's table: document 01, "Which entry may follow" and refusals 8 to 13, with 19 to 22 in the place of 11, and 23. Its
// rules, what a scan carries from entry to entry, and how it ends. The leaves here have a `requires` where they add or look up; the
// scan that calls them stands above.
#![tactic(auto)]

ghost use Rattle.std.specs.Prelude.{◌≡◌};
ghost use Rattle.answer.specs.Results.{refused};

pub mod rules;

use answer::Refused;
use answer::refusals::Refusal;

// Where the scan of a group stands among the records, by the row of the table of what may follow.
#[derive(Clone, Copy, Debug, PartialEq, Eq)]
pub enum Stand {
    Free,
    AfterPart,
    Inside,
    AfterLast,
    Owed,
}

// What the scan carries from entry to entry.
#[derive(Clone, Copy, Debug, PartialEq, Eq)]
pub struct Cursor {
    pub stand: Stand,
    pub warned: bool,
    pub sum: u32,
    pub reached: u32,
}

// Where a scan stops: the first rule that is broken, the place of the entry that breaks it, and where the scan stood.
#[derive(Clone, Copy, Debug, PartialEq, Eq)]
pub struct Stop {
    pub refusal: Refusal,
    pub place: u32,
    pub here: Cursor,
}

// What a read tells of it.
impl From<Stop> for Refused<Refusal> {
    ghost from_gives = { λ s e. e ≡ refused s.refusal s.place };

    fn from(stop: Stop) -> Refused<Refusal> {
        Refused {
            refusal: stop.refusal,
            place: stop.place,
        }
    }
}

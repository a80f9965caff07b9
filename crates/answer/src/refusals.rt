// The refusals of documents 01 and 02, by the numbers that firmware sees: one enum for each room.
ghost use Rattle.std.specs.Prelude.{◌≡◌, ℕ, false, eqb};
ghost use Rattle.answer.specs.Numbers.{refusal_number, track_number, third_number, loader_number, blocks_number};
ghost use Rattle.answer.specs.NotZero.{refusal_not_zero, track_not_zero, third_not_zero, loader_not_zero, blocks_not_zero};
ghost use Rattle.answer.specs.Tried.{RefusalTried};

// A refusal has a number, which is not 0: that is told of an accepted call.
pub trait Numbered: Copy {
    ghost number: { Self → ℕ };

    fn number(self) -> u32
        ensures { result ≡ number self };

    ghost not_zero: { (refusal : Self) → eqb (number refusal) 0 ≡ false };
}

// Document 01, with the requests up to 2026-07: of groups, their entries and what is called on them. No call gives `Count` any more: 19 to 22 stand in its place.
#[derive(Clone, Copy, Debug, PartialEq, Eq)]
pub enum Refusal {
    State = 1,
    Size,
    First,
    Group,
    Number,
    Entries,
    Rows,
    Flag,
    B4,
    Follow,
    Count,
    Room,
    Skip,
    NoNumber,
    RecordLength,
    Rest,
    Open,
    Separator,
    ZeroPart,
    AboveOne,
    TooLong,
    TotalDiffers,
    OwedEarly,
    Explanation,
}

impl Numbered for Refusal {
    ghost number = { refusal_number };

    ghost not_zero = { refusal_not_zero };

    fn number(self) -> u32 {
        self as u32
    }
}

// A number that no refusal of groups has.
#[derive(Clone, Copy, Debug, PartialEq, Eq)]
pub struct NoRefusal(pub u32);

// The refusal of groups that has a number.
impl TryFrom<u32> for Refusal {
    type Error = NoRefusal;

    ghost try_from_gives = { RefusalTried };

    fn try_from(number: u32) -> Result<Refusal, NoRefusal> {
        match number {
            1 => Ok(Refusal::State),
            2 => Ok(Refusal::Size),
            3 => Ok(Refusal::First),
            4 => Ok(Refusal::Group),
            5 => Ok(Refusal::Number),
            6 => Ok(Refusal::Entries),
            7 => Ok(Refusal::Rows),
            8 => Ok(Refusal::Flag),
            9 => Ok(Refusal::B4),
            10 => Ok(Refusal::Follow),
            11 => Ok(Refusal::Count),
            12 => Ok(Refusal::Room),
            13 => Ok(Refusal::Skip),
            14 => Ok(Refusal::NoNumber),
            15 => Ok(Refusal::RecordLength),
            16 => Ok(Refusal::Rest),
            17 => Ok(Refusal::Open),
            18 => Ok(Refusal::Separator),
            19 => Ok(Refusal::ZeroPart),
            20 => Ok(Refusal::AboveOne),
            21 => Ok(Refusal::TooLong),
            22 => Ok(Refusal::TotalDiffers),
            23 => Ok(Refusal::OwedEarly),
            24 => Ok(Refusal::Explanation),
            _ => Err(NoRefusal(number)),
        }
    }
}

// Change request 2026-01: of a track.
#[derive(Clone, Copy, Debug, PartialEq, Eq)]
pub enum TrackRefusal {
    Length = 30,
    Parity,
    Sw1,
    Sw2,
    Close,
}

impl Numbered for TrackRefusal {
    ghost number = { track_number };

    ghost not_zero = { track_not_zero };

    fn number(self) -> u32 {
        self as u32
    }
}

// Change request 2026-08: of the third code.
#[derive(Clone, Copy, Debug, PartialEq, Eq)]
pub enum ThirdRefusal {
    RowLength = 40,
    Row,
    SameRow,
    Hopeless,
}

impl Numbered for ThirdRefusal {
    ghost number = { third_number };

    ghost not_zero = { third_not_zero };

    fn number(self) -> u32 {
        self as u32
    }
}

// Change request 2026-11: of an AIT loader's memory.
#[derive(Clone, Copy, Debug, PartialEq, Eq)]
pub enum LoaderRefusal {
    Length = 60,
    Reserved,
    Thickness,
    Flags,
}

impl Numbered for LoaderRefusal {
    ghost number = { loader_number };

    ghost not_zero = { loader_not_zero };

    fn number(self) -> u32 {
        self as u32
    }
}

// Change request 2026-09: of blocks of one size, beside those of the plain reader.
#[derive(Clone, Copy, Debug, PartialEq, Eq)]
pub enum BlocksRefusal {
    Reader(Refusal),
    BlockSize,
    BlockLength,
}

impl From<Refusal> for BlocksRefusal {
    ghost use Rattle.answer.specs.declared.refusals.BlocksRefusal.TheVariants.{Reader};

    ghost from_gives = { λ r b. b ≡ Reader r };

    fn from(refusal: Refusal) -> BlocksRefusal {
        BlocksRefusal::Reader(refusal)
    }
}

impl Numbered for BlocksRefusal {
    ghost number = { blocks_number };

    ghost not_zero = { blocks_not_zero };

    fn number(self) -> u32 {
        match self {
            BlocksRefusal::Reader(refusal) => refusal.number(),
            BlocksRefusal::BlockSize => 50,
            BlocksRefusal::BlockLength => 51,
        }
    }
}

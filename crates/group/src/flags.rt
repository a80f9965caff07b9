// Flag bytes: from a kind and b4 to its flag, and from a flag's bits to what it means.
ghost use Rattle.std.specs.Prelude.{◌≡◌, false};
ghost use Rattle.group.specs.declared.Kind.{Kind};
ghost use Rattle.group.specs.Flags.{kind_number, flag_of, meaning_of, b4_of, with_b4};
ghost use Rattle.group.specs.ForContracts.{Meant, Numbered};

use crate::{Kind, Meaning};

// The number that stands for a kind in a row.
impl From<Kind> for u32 {
    ghost from_gives = { λ k n. n ≡ kind_number k };

    fn from(kind: Kind) -> u32 {
        kind as u32
    }
}

// A number that stands for no kind.
#[derive(Clone, Copy, Debug, PartialEq, Eq)]
pub struct NoKind(pub u8);

// The kind that a number stands for.
impl TryFrom<u8> for Kind {
    type Error = NoKind;

    ghost try_from_gives = { Numbered };

    fn try_from(number: u8) -> Result<Kind, NoKind> {
        match number {
            1 => Ok(Kind::Total),
            2 => Ok(Kind::Separator),
            3 => Ok(Kind::Middle),
            4 => Ok(Kind::Start),
            5 => Ok(Kind::Last),
            6 => Ok(Kind::Entire),
            7 => Ok(Kind::Skip),
            _ => Err(NoKind(number)),
        }
    }
}

// A flag with b4 set.
#[tactic(auto, using(crate::proofs::FlagLaws::b4_raised))]
pub fn with_b4(flag: u8) -> u8
    ensures { result ≡ with_b4 flag }
{
    flag | 0x08
}

// Whether b4 is set in a flag.
#[tactic(auto, using(crate::proofs::FlagLaws::b4_mask))]
pub fn b4(flag: u8) -> bool
    ensures { result ≡ b4_of flag }
{
    flag & 0x08 != 0
}

// A kind's flag with b4 clear.
fn plain_flag(kind: Kind) -> u8
    ensures { result ≡ flag_of kind false }
{
    match kind {
        Kind::Total => 0x01,
        Kind::Separator => 0x07,
        Kind::Middle => 0x40,
        Kind::Start => 0x42,
        Kind::Last => 0x60,
        Kind::Entire => 0x63,
        Kind::Skip => 0x80,
    }
}

// A kind's flag, with b4 as said.
pub fn flag_of(kind: Kind, warned: bool) -> u8
    ensures { result ≡ flag_of kind warned }
{
    let flag = plain_flag(kind);
    if warned { with_b4(flag) } else { flag }
}

// The number of the kind that has a flag, if one has it. b8 to b5 leave two: 0 total and separator, 4 middle and start, 6 last and
// entire, and 8 the skip alone. b2 is set in the second of the two.
pub fn number_by_bits(flag: u8) -> u8
    ensures { (m : Meant flag) → result ≡ kind_number m.kind }
{
    let second = flag / 2 % 2;
    if flag < 16 {
        return 1 + second;
    }
    flag / 16 - 1 + second
}

// What a flag means. Its bits leave one kind, and no other can have it: that kind has it where its flag, with this b4, is this one.
pub fn meaning_of(flag: u8) -> Meaning
    ensures { result ≡ meaning_of flag }
{
    let Ok(kind) = Kind::try_from(number_by_bits(flag)) else {
        return None;
    };
    let warned = b4(flag);
    (flag_of(kind, warned) == flag).then_some((kind, warned))
}

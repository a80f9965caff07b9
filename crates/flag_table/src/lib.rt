// What a flag means, by a table: document 01, "A constant table of tables maps the fourteen flag bytes to kind and warning bit". No
// call of the library is lent it: change request 2026-04 has reading go by a flag's bits. Both say the same of every flag.
#![tactic(auto)]

ghost use Rattle.std.specs.Prelude.{◌≡◌};
ghost use Rattle.group.specs.Flags.{meaning_of};
ghost use Rattle.flag_table.specs.Table.{code_of, flag_table, Below};

use group::{Kind, Meaning};

// By a flag's high half and its low half: the code of what it means, which is twice the kind's number, one more where b4 is
// set, and 0 where no kind has the flag.
const FLAGS: [[u8; 16]; 16] = [
    [0, 2, 0, 0, 0, 0, 0, 4, 0, 3, 0, 0, 0, 0, 0, 5],
    [0, 0, 0, 0, 0, 0, 0, 0, 0, 0, 0, 0, 0, 0, 0, 0],
    [0, 0, 0, 0, 0, 0, 0, 0, 0, 0, 0, 0, 0, 0, 0, 0],
    [0, 0, 0, 0, 0, 0, 0, 0, 0, 0, 0, 0, 0, 0, 0, 0],
    [6, 0, 8, 0, 0, 0, 0, 0, 7, 0, 9, 0, 0, 0, 0, 0],
    [0, 0, 0, 0, 0, 0, 0, 0, 0, 0, 0, 0, 0, 0, 0, 0],
    [10, 0, 0, 12, 0, 0, 0, 0, 11, 0, 0, 13, 0, 0, 0, 0],
    [0, 0, 0, 0, 0, 0, 0, 0, 0, 0, 0, 0, 0, 0, 0, 0],
    [14, 0, 0, 0, 0, 0, 0, 0, 15, 0, 0, 0, 0, 0, 0, 0],
    [0, 0, 0, 0, 0, 0, 0, 0, 0, 0, 0, 0, 0, 0, 0, 0],
    [0, 0, 0, 0, 0, 0, 0, 0, 0, 0, 0, 0, 0, 0, 0, 0],
    [0, 0, 0, 0, 0, 0, 0, 0, 0, 0, 0, 0, 0, 0, 0, 0],
    [0, 0, 0, 0, 0, 0, 0, 0, 0, 0, 0, 0, 0, 0, 0, 0],
    [0, 0, 0, 0, 0, 0, 0, 0, 0, 0, 0, 0, 0, 0, 0, 0],
    [0, 0, 0, 0, 0, 0, 0, 0, 0, 0, 0, 0, 0, 0, 0, 0],
    [0, 0, 0, 0, 0, 0, 0, 0, 0, 0, 0, 0, 0, 0, 0, 0],
];

// The table, to be bound once for a group and lent to `meaning_in`: a constant is built anew at each use.
pub fn table() -> [[u8; 16]; 16]
    ensures { result ≡ flag_table }
{
    FLAGS
}

// What a flag means, as its code in the lent table.
fn code_in(flags: &[[u8; 16]; 16], flag: u8) -> u8
    requires { flags.now ≡ flag_table }
    ensures { Below 16 (code_of (meaning_of flag)) result }
{
    let high = (flag / 16) as usize;
    let low = (flag % 16) as usize;
    flags[high][low]
}

// What a flag means, by the lent table.
pub fn meaning_in(flags: &[[u8; 16]; 16], flag: u8) -> Meaning
    requires { flags.now ≡ flag_table }
    ensures { result ≡ meaning_of flag }
{
    let code = code_in(flags, flag);
    let kind = Kind::try_from(code / 2).ok()?;
    Some((kind, group::flags::b4(flag)))
}

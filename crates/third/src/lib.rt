// The optional third code over 46 rows of equal length in one lent buffer: source document 003, 14.5.3, and change request
// 2026-08. No call requires anything: what may not be is refused with a number and a place, and the buffer then stays. The place
// is the column of refusal 43, and 0 otherwise. 44 rows are of data, and the last two of check bytes; in every call n is the row
// length.
#![tactic(auto)]

mod refusals;

ghost use Rattle.third.specs.Answer.{Makes, Checks, RestoresOne, RestoresTwo, Mends, done_answer, checked_answer};

use answer::Refused;
use answer::refusals::ThirdRefusal;
use column::LAST_ROW;
use field::tables::Logarithms;

// The first row of check bytes; the other is the last row.
pub const FIRST_CHECK_ROW: usize = 44;

// The two check rows made from the rows of data, whatever they held.
pub fn make(n: u32, rows: &mut [u8]) -> Result<(), Refused<ThirdRefusal>>
    ensures { Makes n rows.old (done_answer result) rows.new }
{
    refusals::length_refusal(rows.len(), n)?;
    restoring::restore_both(rows, n as usize, FIRST_CHECK_ROW, LAST_ROW);
    Ok(())
}

// Whether every column keeps both rules.
pub fn check(n: u32, rows: &[u8]) -> Result<bool, Refused<ThirdRefusal>>
    ensures { Checks n rows.now (checked_answer result) }
{
    refusals::length_refusal(rows.len(), n)?;
    Ok(restoring::first_broken(rows, n as usize).is_none())
}

// One row restored from the others, whatever it held.
pub fn restore_one(n: u32, row: u32, rows: &mut [u8]) -> Result<(), Refused<ThirdRefusal>>
    ensures { RestoresOne n row rows.old (done_answer result) rows.new }
{
    refusals::one_refusal(rows.len(), n, row)?;
    restoring::restore_row(rows, n as usize, row as usize);
    Ok(())
}

// Two rows restored from the others, whatever they held.
pub fn restore_two(
    n: u32,
    first: u32,
    second: u32,
    rows: &mut [u8],
) -> Result<(), Refused<ThirdRefusal>>
    ensures { RestoresTwo n first second rows.old (done_answer result) rows.new }
{
    refusals::two_refusal(rows.len(), n, first, second)?;
    restoring::restore_both(rows, n as usize, first as usize, second as usize);
    Ok(())
}

// With no row named, one wrong byte of each column mended. Every column is judged before a byte is written.
pub fn mend(n: u32, rows: &mut [u8]) -> Result<(), Refused<ThirdRefusal>>
    ensures { Mends n rows.old (done_answer result) rows.new }
{
    refusals::length_refusal(rows.len(), n)?;
    let logarithms = Logarithms::new();
    if let Some(c) = restoring::first_hopeless(rows, &logarithms, n as usize) {
        return Err(Refused {
            refusal: ThirdRefusal::Hopeless,
            place: c as u32,
        });
    }
    restoring::mend_columns(rows, &logarithms, n as usize);
    Ok(())
}

// The refusals that need no column, in their order.
ghost use Rattle.std.specs.Prelude.{◌≡◌};
ghost use Rattle.answer.specs.Numbers.{third_number};
ghost use Rattle.answer.specs.Results.{number_of};
ghost use Rattle.third.specs.Answer.{length_kept, length_refusal, one_refusal, two_refusal};

use answer::refusals::ThirdRefusal;
use column::{LAST_ROW, ROW_COUNT};

// Whether the buffer is 46 rows of a row length that is not 0. Compared by division: 46 rows may be more than a number holds.
#[tactic(auto, unfolding(crate::specs::Answer::length_kept), using(numbers::proofs::Tests::tests))]
fn length_kept(total: usize, n: usize) -> bool
    ensures { result ≡ length_kept total n }
{
    n > 0 && total % ROW_COUNT == 0 && total / ROW_COUNT == n
}

#[tactic(auto, unfolding(crate::specs::Answer::length_refusal), using(numbers::proofs::Tests::tests))]
pub(crate) fn length_refusal(total: usize, n: u32) -> Result<(), ThirdRefusal>
    ensures { number_of third_number result ≡ length_refusal total n }
{
    if !length_kept(total, n as usize) {
        return Err(ThirdRefusal::RowLength);
    }
    Ok(())
}

#[tactic(auto, using(crate::proofs::Answers::one_stays, crate::proofs::Answers::one_goes, crate::proofs::Answers::is_refusal, numbers::proofs::Tests::tests))]
pub(crate) fn one_refusal(total: usize, n: u32, row: u32) -> Result<(), ThirdRefusal>
    ensures { number_of third_number result ≡ one_refusal total n row }
{
    length_refusal(total, n)?;
    if row as usize > LAST_ROW {
        return Err(ThirdRefusal::Row);
    }
    Ok(())
}

#[tactic(auto, using(numbers::proofs::Tests::tests, crate::proofs::Answers::two_stays, crate::proofs::Answers::two_goes, crate::proofs::Answers::is_refusal))]
pub(crate) fn two_refusal(total: usize, n: u32, first: u32, second: u32) -> Result<(), ThirdRefusal>
    ensures { number_of third_number result ≡ two_refusal total n first second }
{
    one_refusal(total, n, first)?;
    if second as usize > LAST_ROW {
        return Err(ThirdRefusal::Row);
    }
    if first == second {
        return Err(ThirdRefusal::SameRow);
    }
    Ok(())
}

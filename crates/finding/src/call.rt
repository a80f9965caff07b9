// The reason of a refusal before the scan.
ghost use Rattle.std.specs.Prelude.{◌≡◌};
ghost use Rattle.answer.specs.Numbers.{refusal_number};
ghost use Rattle.reasons.specs.Reasons.{next_reason, call_reason};

use answer::refusals::Refusal;
use group::Group;
use reasons::Reason;

// 5: the next number alone is allowed, none at 65,536.
fn next_reason(next: u32, number: u32) -> Reason
    ensures { result ≡ next_reason next number }
{
    if next <= Group::LAST_NUMBER {
        return Reason::of(number as u64, next as u64, next as u64);
    }
    Reason::of(number as u64, 1, 0)
}

// In a state of this size and next number.
#[tactic(auto, unfolding(reasons::specs::Reasons::call_reason))]
pub fn reason_of_call(
    refusal: Refusal,
    size: u32,
    next: u32,
    length: usize,
    number: u32,
    entries: u32,
    rows: usize,
) -> Reason
    ensures { result ≡ call_reason (refusal_number refusal) size next length number entries rows }
{
    match refusal {
        Refusal::Group => Reason::of(length as u64, size as u64, size as u64),
        Refusal::Number => next_reason(next, number),
        Refusal::Entries => Reason::of(
            entries as u64,
            1,
            (size.saturating_sub(Group::INFORMATION_LENGTH) / Group::ENTRY_LENGTH) as u64,
        ),
        Refusal::Rows => Reason::of(rows as u64, 12 * (entries as u64), u64::MAX),
        _ => Reason::none(),
    }
}

// The same by a number, any at all: zeros where no refusal of groups has it.
#[tactic(auto, using(crate::proofs::NoRule::no_call))]
pub fn call_reason(
    refusal: u32,
    size: u32,
    next: u32,
    length: usize,
    number: u32,
    entries: u32,
    rows: usize,
) -> Reason
    ensures { result ≡ call_reason refusal size next length number entries rows }
{
    match Refusal::try_from(refusal) {
        Ok(refusal) => reason_of_call(refusal, size, next, length, number, entries, rows),
        Err(_) => Reason::none(),
    }
}

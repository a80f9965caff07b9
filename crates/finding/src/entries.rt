// The reason of a refusal at an entry.
ghost use Rattle.std.specs.Prelude.{◌≡◌};
ghost use Rattle.answer.specs.Numbers.{refusal_number};
ghost use Rattle.group.specs.Sizes.{entry_offset};
ghost use Rattle.reasons.specs.Reasons.{stop, entry_reason};

use crate::kinds;
use answer::refusals::Refusal;
use entry::Cursor;
use group::{Entry, Group};
use reasons::Reason;

// Where entry k of a group stands; 0 where the group is too small for it.
pub fn entry_offset(size: u32, place: u32) -> u32
    ensures { result ≡ entry_offset size place }
{
    let table = size.saturating_sub(Group::INFORMATION_LENGTH);
    if table / Group::ENTRY_LENGTH < place {
        return 0;
    }
    table - Group::ENTRY_LENGTH * place
}

// By the rule that entry k of n breaks, where the scan has come to `here`.
#[tactic(auto, unfolding(reasons::specs::Reasons::entry_reason))]
pub fn reason_at_entry(
    refusal: Refusal,
    size: u32,
    entries: u32,
    place: u32,
    here: Cursor,
    entry: Entry,
) -> Reason
    ensures { result ≡ entry_reason (refusal_number refusal) (stop size entries place here) entry }
{
    let count = entry.count as u64;
    let sum = here.sum as u64;
    match refusal {
        Refusal::Flag => Reason::of(entry.flag as u64, 0, 0),
        Refusal::B4 => Reason::of(u64::from(group::flags::b4(entry.flag)), 1, 1),
        Refusal::Follow => Reason {
            found: kinds::kind_found(entry.flag) as u64,
            least: 0,
            greatest: 0,
            kinds: kinds::permitted(here.stand, place == entries),
        },
        Refusal::Room => Reason::of(
            (here.reached as u64) + count,
            0,
            entry_offset(size, entries) as u64,
        ),
        Refusal::Skip => {
            let rest = size.saturating_sub(here.reached) as u64;
            Reason::of(count, rest, rest)
        }
        Refusal::ZeroPart => Reason::of(count, 1, Group::LONGEST_RECORD as u64),
        Refusal::AboveOne => Reason::of(count, 0, 1),
        Refusal::TooLong => Reason::of(count, 1, kinds::leaves_it(entry.flag, here.sum) as u64),
        Refusal::TotalDiffers => Reason::of(count, sum, sum),
        Refusal::OwedEarly => Reason::of(count, 0, Group::MOST_OWING as u64),
        _ => Reason::none(),
    }
}

// The same by a number, any at all: zeros where no refusal of groups has it.
#[tactic(auto, using(crate::proofs::NoRule::no_entry))]
pub fn entry_reason(
    refusal: u32,
    size: u32,
    entries: u32,
    place: u32,
    here: Cursor,
    entry: Entry,
) -> Reason
    ensures { result ≡ entry_reason refusal (stop size entries place here) entry }
{
    match Refusal::try_from(refusal) {
        Ok(refusal) => reason_at_entry(refusal, size, entries, place, here, entry),
        Err(_) => Reason::none(),
    }
}

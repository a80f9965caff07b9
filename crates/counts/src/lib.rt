// The rules of an entry's count: change request 2026-02, refusals 19 to 22 in the place of 11. The leaf that the rules of an entry
// call has a `requires`, since it adds.
#![tactic(auto)]

ghost use Rattle.std.specs.Prelude.{◌≡◌, ◌≤◌};
ghost use Rattle.answer.specs.Numbers.{refusal_number};
ghost use Rattle.answer.specs.Results.{number_of};
ghost use Rattle.group.specs.Sizes.{longest_record};
ghost use Rattle.counts.specs.Counts.{count_fault};
ghost use Rattle.counts.specs.Parts.{part_fault};

use answer::refusals::Refusal;
use group::{Group, Kind};

// 19 and 21 of a part, up to which the parts add to so much.
fn part_fault(count: u32, parts: u32, most: u32) -> Result<(), Refusal>
    ensures { number_of refusal_number result ≡ part_fault count parts most }
{
    if count < 1 {
        return Err(Refusal::ZeroPart);
    }
    if most < parts {
        return Err(Refusal::TooLong);
    }
    Ok(())
}

// 19 to 22, at each kind.
pub fn count_fault_by_kind(kind: Kind, sum: u32, count: u32) -> Result<(), Refusal>
    requires { (sum ≤ longest_record) × (count ≤ longest_record) }
    ensures { number_of refusal_number result ≡ count_fault kind sum count }
{
    match kind {
        Kind::Total if count != sum => Err(Refusal::TotalDiffers),
        Kind::Separator if count > 1 => Err(Refusal::AboveOne),
        Kind::Total | Kind::Separator | Kind::Skip => Ok(()),
        Kind::Middle => part_fault(count, sum + count, Group::LONGEST_RECORD - 1),
        Kind::Start => part_fault(count, count, Group::LONGEST_RECORD - 1),
        Kind::Last => part_fault(count, sum + count, Group::LONGEST_RECORD),
        Kind::Entire => part_fault(count, count, Group::LONGEST_RECORD),
    }
}

// The same, each asked by itself, for the read: by a match over the kinds it takes 71 bytes of code more, and it may take 1,905. A scan
// of many entries takes a half longer by it.
pub fn count_fault(kind: Kind, sum: u32, count: u32) -> Result<(), Refusal>
    requires { (sum ≤ longest_record) × (count ≤ longest_record) }
    ensures { number_of refusal_number result ≡ count_fault kind sum count }
{
    if kind == Kind::Total && count != sum {
        return Err(Refusal::TotalDiffers);
    }
    if kind == Kind::Separator && count > 1 {
        return Err(Refusal::AboveOne);
    }
    if matches!(kind, Kind::Total | Kind::Separator | Kind::Skip) {
        return Ok(());
    }
    let parts = if matches!(kind, Kind::Middle | Kind::Last) {
        sum + count
    } else {
        count
    };
    let most = if matches!(kind, Kind::Middle | Kind::Start) {
        Group::LONGEST_RECORD - 1
    } else {
        Group::LONGEST_RECORD
    };
    part_fault(count, parts, most)
}

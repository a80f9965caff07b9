// What is told of kinds: which are permitted at a stand, the kind found, and what the sum leaves it.
ghost use Rattle.std.specs.Prelude.{◌≡◌, true};
ghost use Rattle.group.specs.Flags.{meaning_of};
ghost use Rattle.reasons.specs.Reasons.{permitted, leaves, kind_found, leaves_it};

use entry::Stand;
use group::{Group, Kind};

// The permitted kinds, as the sum of their values. At the last place a skip alone, 64, or none.
#[tactic(auto, unfolding(reasons::specs::Reasons::permitted, entry::specs::Rules::may_follow))]
fn permitted_last(stand: Stand) -> u64
    ensures { result ≡ permitted stand true }
{
    match stand {
        Stand::Free | Stand::AfterPart | Stand::AfterLast => 64,
        Stand::Inside | Stand::Owed => 0,
    }
}

// Elsewhere separator, start and entire, middle and last, total, or none.
#[tactic(auto, unfolding(reasons::specs::Reasons::permitted, entry::specs::Rules::may_follow))]
pub(crate) fn permitted(stand: Stand, last: bool) -> u64
    ensures { result ≡ permitted stand last }
{
    if last {
        return permitted_last(stand);
    }
    match stand {
        Stand::Free => 42,
        Stand::AfterPart => 0,
        Stand::Inside => 20,
        Stand::AfterLast | Stand::Owed => 1,
    }
}

// What the sum of the parts so far leaves an entry of this kind.
fn leaves(kind: Kind, sum: u32) -> u32
    ensures { result ≡ leaves kind sum }
{
    match kind {
        Kind::Total | Kind::Separator | Kind::Skip => 0,
        Kind::Middle => (Group::LONGEST_RECORD - 1).saturating_sub(sum),
        Kind::Start => Group::LONGEST_RECORD - 1,
        Kind::Last => Group::LONGEST_RECORD.saturating_sub(sum),
        Kind::Entire => Group::LONGEST_RECORD,
    }
}

// The number of the kind that has a flag; of no kind, 0.
pub(crate) fn kind_found(flag: u8) -> u32
    ensures { result ≡ kind_found (meaning_of flag) }
{
    group::flags::meaning_of(flag).map_or(0, |(kind, _)| u32::from(kind))
}

// What the sum leaves the kind that has a flag; of no kind, 0.
pub(crate) fn leaves_it(flag: u8, sum: u32) -> u32
    ensures { result ≡ leaves_it (meaning_of flag) sum }
{
    group::flags::meaning_of(flag).map_or(0, |(kind, _)| leaves(kind, sum))
}

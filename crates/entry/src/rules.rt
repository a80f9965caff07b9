// The rules of one entry, each as a test or a result.
ghost use Rattle.std.specs.Prelude.{◌≡◌, ◌≤◌};
ghost use Rattle.answer.specs.Numbers.{refusal_number};
ghost use Rattle.answer.specs.Results.{number_of};
ghost use Rattle.group.specs.Sizes.{standard_size, longest_record};
ghost use Rattle.group.specs.Flags.{meaning_of};
ghost use Rattle.group.specs.ForContracts.{Meant};
ghost use Rattle.counts.specs.Counts.{holds_data};
ghost use Rattle.entry.specs.Rules.{may_follow, stand_after, sum_after, reached_after, b4_kept, follow_kept, may_owe, data_fault, entry_fault};
ghost use Rattle.entry.specs.Scan.{after, reached_by};
ghost use Rattle.entry.specs.Bounds.{stand_number, Bounded};

use crate::{Cursor, Stand};
use answer::refusals::Refusal;
use group::{Group, Kind, Meaning};

// By the stand's number and the kind's: whether an entry of that kind may follow. No kind has the number 0.
const FOLLOWS: [[bool; 8]; 5] = [
    [false, false, true, false, true, false, true, true],
    [false, false, false, false, false, false, false, true],
    [false, false, false, true, false, true, false, false],
    [false, true, false, false, false, false, false, true],
    [false, true, false, false, false, false, false, false],
];

// The row of a stand in the table of what may follow.
pub fn stand_number(stand: Stand) -> usize
    ensures { result ≡ stand_number stand }
{
    stand as usize
}

// A constant is built anew at each use, so the table is bound only where an entry needs it.
fn may_follow(stand: Stand, kind: Kind) -> bool
    ensures { result ≡ may_follow stand kind }
{
    let follows = FOLLOWS;
    follows[stand_number(stand)][u32::from(kind) as usize]
}

// 10: the kind may follow, and a skip stands at entry n and nowhere else.
fn follow_kept(stand: Stand, kind: Kind, last: bool) -> bool
    ensures { result ≡ follow_kept stand kind last }
{
    may_follow(stand, kind) && (kind == Kind::Skip) == last
}

fn holds_data(kind: Kind) -> bool
    ensures { result ≡ holds_data kind }
{
    matches!(kind, Kind::Middle | Kind::Start | Kind::Last | Kind::Entire)
}

fn reached_after(kind: Kind, reached: u32, count: u32) -> u32
    requires { (reached ≤ longest_record) × (count ≤ longest_record) }
    ensures { result ≡ reached_after kind reached count }
{
    if holds_data(kind) {
        reached + count
    } else {
        reached
    }
}

fn stand_after(stand: Stand, kind: Kind) -> Stand
    ensures { result ≡ stand_after stand kind }
{
    match kind {
        Kind::Total | Kind::Separator | Kind::Entire => Stand::Free,
        Kind::Middle | Kind::Start => Stand::AfterPart,
        Kind::Last => Stand::AfterLast,
        Kind::Skip => stand,
    }
}

fn sum_after(kind: Kind, sum: u32, count: u32) -> u32
    requires { (sum ≤ longest_record) × (count ≤ longest_record) }
    ensures { result ≡ sum_after kind sum count }
{
    match kind {
        Kind::Total | Kind::Separator | Kind::Entire => 0,
        Kind::Middle | Kind::Last => sum + count,
        Kind::Start => count,
        Kind::Skip => sum,
    }
}

// Whether a skip of this count owes no total, or owes it for want of room.
pub fn may_owe(stand: Stand, count: u32) -> bool
    ensures { result ≡ may_owe stand count }
{
    match stand {
        Stand::AfterLast => count <= Group::MOST_OWING,
        _ => true,
    }
}

// 12, then 13, then 23.
fn data_fault(
    size: u32,
    limit: u32,
    stand: Stand,
    reached: u32,
    kind: Kind,
    count: u32,
) -> Result<(), Refusal>
    requires { (reached ≤ limit) × ((limit ≤ size) × ((size ≤ standard_size) × (count ≤ longest_record))) }
    ensures { number_of refusal_number result ≡ data_fault size limit stand reached kind count }
{
    if limit < reached_after(kind, reached, count) {
        return Err(Refusal::Room);
    }
    if kind != Kind::Skip {
        return Ok(());
    }
    if count != size - reached {
        return Err(Refusal::Skip);
    }
    if !may_owe(stand, count) {
        return Err(Refusal::OwedEarly);
    }
    Ok(())
}

// 9: b4 that was set stays set.
fn b4_kept(before: bool, warned: bool) -> bool
    ensures { result ≡ b4_kept before warned }
{
    !before || warned
}

// All rules of one entry, in this order: 8 where its flag has no meaning, 9, 10, 19 to 22, 12, 13 and 23. `limit` is L − 32 − 4n. Built
// into each scan, so that the read, the one that the boot loader links, takes less code. 19 to 22 are asked by kind or one by one.
#[inline(always)]
#[tactic(auto, unfolding(crate::specs::Rules::entry_fault))]
fn fault<const BY_KIND: bool>(
    size: u32,
    limit: u32,
    last: bool,
    here: Cursor,
    meaning: Meaning,
    count: u32,
) -> Result<(), Refusal>
    requires { (Bounded limit here) × ((limit ≤ size) × ((size ≤ standard_size) × (count ≤ longest_record))) }
    ensures { number_of refusal_number result ≡ entry_fault size limit last here meaning count }
{
    let Some((kind, warned)) = meaning else {
        return Err(Refusal::Flag);
    };
    if !b4_kept(here.warned, warned) {
        return Err(Refusal::B4);
    }
    if !follow_kept(here.stand, kind, last) {
        return Err(Refusal::Follow);
    }
    if BY_KIND {
        counts::count_fault_by_kind(kind, here.sum, count)?;
    } else {
        counts::count_fault(kind, here.sum, count)?;
    }
    data_fault(size, limit, here.stand, here.reached, kind, count)
}

// For the read, in less code.
#[inline(always)]
pub fn entry_fault(
    size: u32,
    limit: u32,
    last: bool,
    here: Cursor,
    meaning: Meaning,
    count: u32,
) -> Result<(), Refusal>
    requires { (Bounded limit here) × ((limit ≤ size) × ((size ≤ standard_size) × (count ≤ longest_record))) }
    ensures { number_of refusal_number result ≡ entry_fault size limit last here meaning count }
{
    fault::<false>(size, limit, last, here, meaning, count)
}

// For a scan with nothing but the rules, in less time.
#[inline(always)]
pub fn entry_fault_by_kind(
    size: u32,
    limit: u32,
    last: bool,
    here: Cursor,
    meaning: Meaning,
    count: u32,
) -> Result<(), Refusal>
    requires { (Bounded limit here) × ((limit ≤ size) × ((size ≤ standard_size) × (count ≤ longest_record))) }
    ensures { number_of refusal_number result ≡ entry_fault size limit last here meaning count }
{
    fault::<true>(size, limit, last, here, meaning, count)
}

// Where the scan stands after an entry.
pub fn advance(here: Cursor, meaning: Meaning, count: u32) -> Cursor
    requires { (here.sum ≤ longest_record) × ((here.reached ≤ longest_record) × (count ≤ longest_record)) }
    ensures { result ≡ after here meaning count }
{
    let Some((kind, warned)) = meaning else {
        return here;
    };
    Cursor {
        stand: stand_after(here.stand, kind),
        warned,
        sum: sum_after(kind, here.sum, count),
        reached: reached_after(kind, here.reached, count),
    }
}

// The data offset reached after an entry whose flag has a meaning. Kinds 3 to 6, whose count is bytes of user data of this group, are
// those with b7: a choice by the kind would be a jump that the processor guesses wrong where kinds come mixed.
pub fn reached_by(flag: u8, reached: u32, count: u32) -> u32
    requires meant { Meant flag }
    requires reached_le_longest_record { (reached ≤ longest_record) × (count ≤ longest_record) }
    ensures { result ≡ reached_by (meaning_of flag) reached count }
{
    if flag / 64 % 2 == 1 {
        reached + count
    } else {
        reached
    }
}

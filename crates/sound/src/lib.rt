// When a writer's state is sound, and what each call refuses: the tests of document 01, in its order. Any state may come in.
#![tactic(auto)]

ghost use Rattle.std.specs.Prelude.{◌≡◌};
ghost use Rattle.answer.specs.Numbers.{refusal_number};
ghost use Rattle.answer.specs.Results.{number_of};
ghost use Rattle.sound.specs.State.{is_empty, ends_empty};
ghost use Rattle.sound.specs.State.{room_kept, empty_kept, rest_kept, data_kept, spent_kept, writer_sound};
ghost use Rattle.sound.specs.State.{record_refusal, separator_refusal, end_refusal};

use answer::refusals::Refusal;
use group::{Group, Phase};
use laying::Writer;

fn is_empty(w: Writer) -> bool
    ensures { result ≡ is_empty w }
{
    w.filled == 0 && w.entries == 0
}

// The sum is taken in 64 bits: any number may come in.
#[tactic(auto, unfolding(crate::specs::State::room_kept), using(numbers::proofs::Tests::tests))]
fn room_kept(w: Writer) -> bool
    ensures { result ≡ room_kept w }
{
    let table = (Group::ENTRY_LENGTH as u64) * ((w.entries as u64) + 1);
    w.phase != Phase::Free
        || (w.filled as u64) + (Group::INFORMATION_LENGTH as u64) + table <= w.size as u64
}

#[tactic(auto, unfolding(crate::specs::State::empty_kept), using(numbers::proofs::Tests::tests))]
fn empty_kept(w: Writer) -> bool
    ensures { result ≡ empty_kept w }
{
    w.phase == Phase::Free || is_empty(w)
}

#[tactic(auto, unfolding(crate::specs::State::rest_kept), using(numbers::proofs::Tests::tests))]
fn rest_kept(w: Writer) -> bool
    ensures { result ≡ rest_kept w }
{
    if w.phase != Phase::Inside {
        return w.rest == 0;
    }
    1 <= w.rest && (w.sum as u64) + (w.rest as u64) <= Group::LONGEST_RECORD as u64
}

#[tactic(auto, unfolding(crate::specs::State::data_kept), using(numbers::proofs::Tests::tests))]
fn data_kept(w: Writer) -> bool
    ensures { result ≡ data_kept w }
{
    w.filled == 0 || 0 < w.entries
}

#[tactic(auto, unfolding(crate::specs::State::spent_kept), using(numbers::proofs::Tests::tests))]
fn spent_kept(w: Writer) -> bool
    ensures { result ≡ spent_kept w }
{
    w.next != Group::LAST_NUMBER + 1 || is_empty(w)
}

#[tactic(auto, unfolding(crate::specs::State::writer_sound), using(numbers::proofs::Tests::tests))]
fn is_sound(w: Writer) -> bool
    ensures { result ≡ writer_sound w }
{
    group::state::run_sound(w.size, w.next, w.phase, w.sum)
        && room_kept(w)
        && empty_kept(w)
        && rest_kept(w)
        && data_kept(w)
        && spent_kept(w)
}

// What a record's call refuses.
#[tactic(auto, unfolding(crate::specs::State::record_refusal), using(numbers::proofs::Tests::tests))]
pub fn record_refusal(w: Writer, len: usize, n: usize) -> Result<(), Refusal>
    ensures { number_of refusal_number result ≡ record_refusal w len n }
{
    if !is_sound(w) {
        return Err(Refusal::State);
    }
    if len != w.size as usize {
        return Err(Refusal::Group);
    }
    if w.next > Group::LAST_NUMBER {
        return Err(Refusal::NoNumber);
    }
    if n < 1 || n > Group::LONGEST_RECORD as usize {
        return Err(Refusal::RecordLength);
    }
    if w.phase == Phase::Inside && n != w.rest as usize {
        return Err(Refusal::Rest);
    }
    Ok(())
}

#[tactic(auto, unfolding(crate::specs::State::separator_refusal), using(numbers::proofs::Tests::tests))]
pub fn separator_refusal(w: Writer, len: usize, value: u32) -> Result<(), Refusal>
    ensures { number_of refusal_number result ≡ separator_refusal w len value }
{
    if !is_sound(w) {
        return Err(Refusal::State);
    }
    if len != w.size as usize {
        return Err(Refusal::Group);
    }
    if w.next > Group::LAST_NUMBER {
        return Err(Refusal::NoNumber);
    }
    if w.phase == Phase::Inside {
        return Err(Refusal::Open);
    }
    if value > 1 {
        return Err(Refusal::Separator);
    }
    Ok(())
}

#[tactic(auto, unfolding(crate::specs::State::end_refusal), using(numbers::proofs::Tests::tests))]
pub fn end_refusal(w: Writer, len: usize) -> Result<(), Refusal>
    ensures { number_of refusal_number result ≡ end_refusal w len }
{
    if !is_sound(w) {
        return Err(Refusal::State);
    }
    if len != w.size as usize {
        return Err(Refusal::Group);
    }
    if w.phase == Phase::Inside {
        return Err(Refusal::Open);
    }
    if w.phase == Phase::Owed && w.next > Group::LAST_NUMBER {
        return Err(Refusal::NoNumber);
    }
    Ok(())
}

// Whether an end closes nothing.
pub fn ends_empty(w: Writer) -> bool
    ensures { result ≡ ends_empty w }
{
    w.phase != Phase::Owed && w.entries == 0
}

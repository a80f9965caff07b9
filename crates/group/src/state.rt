// The rules that a reader's and a writer's state share, and what a start refuses.
ghost use Rattle.std.specs.Prelude.{◌≡◌};
ghost use Rattle.answer.specs.Numbers.{refusal_number};
ghost use Rattle.answer.specs.Results.{number_of};
ghost use Rattle.group.specs.Sizes.{entries_kept};
ghost use Rattle.group.specs.State.{sum_kept, run_sound, start_refusal};

use crate::{Group, Phase};
use answer::refusals::Refusal;

fn sum_kept(phase: Phase, sum: u32) -> bool
    ensures { result ≡ sum_kept phase sum }
{
    match phase {
        Phase::Free => sum == 0,
        Phase::Inside => numbers::is_between(1, sum, Group::LONGEST_RECORD - 1),
        Phase::Owed => numbers::is_between(2, sum, Group::LONGEST_RECORD),
    }
}

// Whether size, next number, phase and sum of a state are sound.
#[tactic(auto, unfolding(crate::specs::State::run_sound))]
pub fn run_sound(size: u32, next: u32, phase: Phase, sum: u32) -> bool
    ensures { result ≡ run_sound size next phase sum }
{
    numbers::is_between(Group::LEAST_SIZE, size, Group::STANDARD_SIZE)
        && numbers::is_between(1, next, Group::LAST_NUMBER + 1)
        && sum_kept(phase, sum)
}

// What a start refuses.
#[tactic(auto, unfolding(crate::specs::State::start_refusal))]
pub fn start_refusal(size: u32, first: u32) -> Result<(), Refusal>
    ensures { number_of refusal_number result ≡ start_refusal size first }
{
    if !numbers::is_between(Group::LEAST_SIZE, size, Group::STANDARD_SIZE) {
        return Err(Refusal::Size);
    }
    if !numbers::is_between(1, first, Group::LAST_NUMBER) {
        return Err(Refusal::First);
    }
    Ok(())
}

// Whether a group of this size has room for so many entries. The sum is taken in 64 bits: any count may come in.
pub fn entries_kept(size: u32, n: u32) -> bool
    ensures { result ≡ entries_kept size n }
{
    1 <= n
        && (Group::INFORMATION_LENGTH as u64) + (Group::ENTRY_LENGTH as u64) * (n as u64)
            <= size as u64
}

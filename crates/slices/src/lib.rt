// What every call from C does with its slices: the lengths that it tests before all else, and what it tells in its answer slice,
// each number four bytes, most significant first.
#![tactic(auto)]

ghost use Rattle.std.specs.Prelude.{◌≡◌, [], ◌∷◌, length};
ghost use Rattle.numbers.specs.Numbers.{in_bytes};
ghost use Rattle.answer.specs.Answer.{RefusedAt};
ghost use Rattle.answer.specs.Results.{told_of};
ghost use Rattle.slices.specs.Call.{answer_length, lengths_kept, Tells};

use answer::refusals::Numbered;
use answer::{Outcome, Told};

// The length of an answer slice, in bytes.
pub const ANSWER_LENGTH: usize = 24;

// Whether a state and an answer slice are of their lengths.
#[tactic(auto, unfolding(crate::specs::Call::lengths_kept))]
pub fn lengths_kept(state: usize, own: usize, answer: usize) -> bool
    ensures { result ≡ lengths_kept state own answer }
{
    state == own && answer == ANSWER_LENGTH
}

// An answer's six numbers, over all that stood in the slice.
fn put_answer(
    answer: &mut [u8],
    refusal: u32,
    place: u32,
    outcome: u32,
    number: u32,
    entries: u32,
    taken: u32,
)
    requires { length answer.old ≡ answer_length }
    ensures { answer.new ≡ in_bytes (refusal ∷ place ∷ outcome ∷ number ∷ entries ∷ taken ∷ []) }
{
    numbers::put_number(answer, 0, refusal);
    numbers::put_number(answer, 4, place);
    numbers::put_number(answer, 8, outcome);
    numbers::put_number(answer, 12, number);
    numbers::put_number(answer, 16, entries);
    numbers::put_number(answer, 20, taken);
}

// A refusal by any number, and a place, into a call's answer slice. Answers what the call returns.
pub fn tell_refused(answer: &mut [u8], refusal: u32, place: u32) -> u32
    requires { length answer.old ≡ answer_length }
    ensures { Tells (RefusedAt refusal place) result answer.new }
{
    put_answer(answer, refusal, place, 0, 0, 0, 0);
    refusal
}

// What a call tells, into its answer slice. Answers what the call returns.
pub fn tell<R: Numbered>(answer: &mut [u8], told: Told<R>) -> u32
    requires { length answer.old ≡ answer_length }
    ensures { Tells (told_of R.number told) result answer.new }
{
    match told {
        Ok(told) => {
            put_answer(
                answer,
                0,
                0,
                told.outcome,
                told.number,
                told.entries,
                told.taken,
            );
            0
        }
        Err(refused) => tell_refused(answer, refused.refusal.number(), refused.place),
    }
}

// Why a read refuses, from C: seven numbers of eight bytes.
#![tactic(auto)]

ghost use Rattle.std.specs.Prelude.{◌≡◌, length};
ghost use Rattle.explain.specs.Explanation.{explanation_of};
ghost use Rattle.c_explain.specs.Calls.{explanation_length, explains, tells, state_explained, dds_explain};

use answer::refusals::{Numbered, Refusal};
use explain::Explanation;
use reasons::Reason;

// The length of an explanation, in bytes.
const EXPLANATION_LENGTH: usize = 56;

// An explanation's seven numbers, zeros where there is none, over all that stood in the slice. Answers the first, which is what the call
// returns.
fn put_explanation(slice: &mut [u8], x: Option<Explanation>) -> u32
    requires { length slice.old ≡ explanation_length }
    ensures { explains result slice.new ≡ tells (explanation_of x) }
{
    let Some(x) = x else {
        numbers::bytes::put_zeros(slice, 0, EXPLANATION_LENGTH);
        return 0;
    };
    let refusal = x.refusal.number();
    numbers::put_eight(slice, 0, refusal as u64);
    numbers::put_eight(slice, 8, x.place as u64);
    numbers::put_eight(slice, 16, x.offset as u64);
    numbers::put_eight(slice, 24, x.why.found);
    numbers::put_eight(slice, 32, x.why.least);
    numbers::put_eight(slice, 40, x.why.greatest);
    numbers::put_eight(slice, 48, x.why.kinds);
    refusal
}

// 1 where the state's slice has another length or a number without a meaning.
const NO_STATE: Explanation = Explanation {
    refusal: Refusal::State,
    place: 0,
    offset: 0,
    why: Reason {
        found: 0,
        least: 0,
        greatest: 0,
        kinds: 0,
    },
};

// The explanation of a read in the state that a slice holds.
#[tactic(auto, unfolding(crate::specs::Calls::state_explained), using(numbers::proofs::Tests::tests))]
fn explain_state(
    state: &[u8],
    group: &[u8],
    number: u32,
    entries: u32,
    rows: &[u8],
) -> Option<Explanation>
    ensures { explanation_of result ≡ state_explained state.now group.now number entries rows.now }
{
    if state.len() != states::READER_LENGTH || !states::reader_meant(state) {
        return Some(NO_STATE);
    }
    let reader = states::reader_of(state);
    Explanation::of(reader, group, number, entries, rows.len())
}

// Why a read with these arguments refuses. Of the rows only the length is asked; nothing but the explanation is written.
#[tactic(auto, unfolding(crate::specs::Calls::dds_explain), using(numbers::proofs::Tests::tests))]
pub fn explain(
    state: &[u8],
    group: &[u8],
    number: u32,
    entries: u32,
    rows: &[u8],
    explanation: &mut [u8],
) -> u32
    ensures { explains result explanation.new ≡ dds_explain state.now group.now number entries rows.now explanation.old }
{
    if explanation.len() != EXPLANATION_LENGTH {
        return 24;
    }
    let x = explain_state(state, group, number, entries, rows);
    put_explanation(explanation, x)
}

// A reader from C: its start and its read.
#![tactic(auto)]

ghost use Rattle.std.specs.Prelude.{◌≡◌, [], ◌∷◌, length};
ghost use Rattle.std.specs.Prelude.{Ok};
ghost use Rattle.reader.specs.declared.Read.TheVariants.{Accepted};
ghost use Rattle.reader.specs.ReadAnswer.{answer_of};
ghost use Rattle.reader.specs.Answer.{told};
ghost use Rattle.slices.specs.Call.{left, answer_length, Tells};
ghost use Rattle.states.specs.States.{reader_length};
ghost use Rattle.c_reader.specs.Calls.{dds_reader_start, state_left, dds_read};
ghost use Rattle.storing.specs.ForContracts.{Follows};

use answer::refusals::Refusal;
use answer::{Outcome, Refused};
use reader::{Read, Reader};

// A fresh reader, into the state slice.
#[tactic(auto, unfolding(crate::specs::Calls::dds_reader_start, slices::specs::Call::called), using(slices::proofs::Calls::lengths))]
pub fn start(size: u32, first: u32, state: &mut [u8], answer: &mut [u8]) -> u32
    ensures { left result (state.new ∷ []) answer.new ≡ dds_reader_start size first state.old answer.old }
{
    if !slices::lengths_kept(state.len(), states::READER_LENGTH, answer.len()) {
        return 1;
    }
    let started = Reader::start(size, first);
    if let Ok(reader) = started {
        storing::begin(state, reader.size, reader.next);
    }
    slices::tell(answer, answer::plainly_told(started))
}

// What a read leaves in the state and the answer, and what it returns. A new state's size stands in the slice already, and the
// number before its next.
fn finish(state: &mut [u8], answer: &mut [u8], done: Result<Read, Refused<Refusal>>) -> u32
    requires state_len { (length state.old ≡ reader_length) × (length answer.old ≡ answer_length) }
    requires follows { (reader : Reader) → done ≡ Ok (Accepted reader) → Follows state.old reader }
    ensures state_after { (given : Reader) → state.new ≡ state_left (answer_of given done) state.old }
    ensures tells { (given : Reader) → Tells (told (answer_of given done)) result answer.new }
{
    match done {
        Ok(Read::Accepted(reader)) => {
            storing::put_next(state, reader);
            slices::tell::<Refusal>(answer, Ok(Outcome::default()))
        }
        Ok(Read::Repeated) => {
            let repeated = Outcome {
                outcome: 2,
                ..Outcome::default()
            };
            slices::tell::<Refusal>(answer, Ok(repeated))
        }
        Err(refused) => slices::tell(answer, Err(refused)),
    }
}

// Reads one group: its rows, and the state for the next.
pub fn read(
    state: &mut [u8],
    group: &[u8],
    number: u32,
    entries: u32,
    rows: &mut [u8],
    answer: &mut [u8],
) -> u32
    ensures { left result (state.new ∷ rows.new ∷ []) answer.new ≡ dds_read state.old group.now number entries rows.old answer.old }
{
    if !slices::lengths_kept(state.len(), states::READER_LENGTH, answer.len()) {
        return 1;
    }
    if !states::reader_meant(state) {
        return slices::tell(answer, Err(Refusal::State.into()));
    }
    let reader = states::reader_of(state);
    let done = reader.read_bytes(group, number, entries, rows);
    finish(state, answer, done)
}

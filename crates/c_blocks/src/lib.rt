// Blocks of one size from C: a start, a read, and a search.
#![tactic(auto)]

ghost use Rattle.std.specs.Prelude.{◌≡◌, [], ◌∷◌};
ghost use Rattle.answer.specs.Numbers.{blocks_number};
ghost use Rattle.answer.specs.Results.{told_of};
ghost use Rattle.slices.specs.Call.{left};
ghost use Rattle.c_blocks.specs.Calls.{dds_blocks_start, dds_blocks_read, find_told, dds_blocks_find};
ghost use Rattle.c_blocks.specs.ForContracts.{Judges};

use answer::refusals::{BlocksRefusal, Refusal};
use answer::{Outcome, Refused, Told};

// The length of the state slice, in bytes: a plain reader's and the block size.
const BLOCKS_LENGTH: usize = 28;

// A fresh reader of blocks, into the state slice.
#[tactic(auto, unfolding(crate::specs::Calls::dds_blocks_start, slices::specs::Call::called), using(slices::proofs::Calls::lengths))]
pub fn start(size: u32, first: u32, block: u32, state: &mut [u8], answer: &mut [u8]) -> u32
    ensures { left result (state.new ∷ []) answer.new ≡ dds_blocks_start size first block state.old answer.old }
{
    if !slices::lengths_kept(state.len(), BLOCKS_LENGTH, answer.len()) {
        return 1;
    }
    let started = blocks::start(size, first, block);
    if let Ok(reader) = started {
        storing::begin(state, reader.size, reader.next);
        numbers::put_number(state, states::READER_LENGTH, block);
    }
    slices::tell(answer, answer::plainly_told(started))
}

// Whether a read is refused before the plain reader comes to it, or in its stead: the refusal, which is told in the answer
// slice too. 0 where the plain call on the first bytes of the state is the whole of it; then nothing is written.
#[tactic(auto, using(slices::proofs::Calls::lengths))]
fn judge(
    state: &[u8],
    group: &[u8],
    number: u32,
    entries: u32,
    rows: &[u8],
    answer: &mut [u8],
) -> u32
    ensures { Judges state.now group.now number entries rows.now answer.old result answer.new }
{
    if !slices::lengths_kept(state.len(), BLOCKS_LENGTH, answer.len()) {
        return 1;
    }
    let first = 0;
    let behind = states::READER_LENGTH;
    let part = &state[first..behind];
    if !states::reader_meant(part) {
        return slices::tell(answer, Err(Refusal::State.into()));
    }
    let block = numbers::number_at(state, behind);
    if !blocks::is_block_size(block) {
        return slices::tell(answer, Err(Refusal::State.into()));
    }
    let reader = states::reader_of(part);
    let Some(place) = blocks::other_place(reader, block, group, number, entries, rows.len() / 4)
    else {
        return 0;
    };
    let other = Refused {
        refusal: BlocksRefusal::BlockLength,
        place,
    };
    slices::tell(answer, Err(other))
}

// Reads one group: its rows, and the state for the next. Where nothing of the profile refuses it, it is the plain call on the
// first bytes of the state.
#[tactic(auto, using(slices::proofs::Calls::lengths))]
pub fn read(
    state: &mut [u8],
    group: &[u8],
    number: u32,
    entries: u32,
    rows: &mut [u8],
    answer: &mut [u8],
) -> u32
    ensures { left result (state.new ∷ rows.new ∷ []) answer.new ≡ dds_blocks_read state.old group.now number entries rows.old answer.old }
{
    let refusal = judge(state, group, number, entries, rows, answer);
    if refusal != 0 {
        return refusal;
    }
    let first = 0;
    let behind = states::READER_LENGTH;
    c_reader::read(
        &mut state[first..behind],
        group,
        number,
        entries,
        rows,
        answer,
    )
}

// What a search tells of its answer.
fn find_told(found: Option<u32>) -> Told<BlocksRefusal>
    ensures { told_of blocks_number result ≡ find_told found }
{
    Ok(match found {
        Some(offset) => Outcome {
            outcome: 1,
            number: offset,
            ..Outcome::default()
        },
        None => Outcome::default(),
    })
}

// Where block b begins, from a group's rows and the number of blocks begun before it.
#[tactic(auto, unfolding(crate::specs::Calls::dds_blocks_find), using(slices::proofs::Calls::stopped))]
pub fn find(rows: &[u8], before: u32, b: u32, answer: &mut [u8]) -> u32
    ensures { left result [] answer.new ≡ dds_blocks_find rows.now before b answer.old }
{
    if answer.len() != slices::ANSWER_LENGTH {
        return 1;
    }
    let found = seek::find(rows, before, b);
    slices::tell(answer, find_told(found))
}

// The Sub Data Blocks of a track from C: making and reading.
#![tactic(auto)]

ghost use Rattle.std.specs.Prelude.{◌≡◌, [], ◌∷◌, length};
ghost use Rattle.track.specs.Answer.{answer_of, told};
ghost use Rattle.slices.specs.Call.{left, answer_length, Tells};
ghost use Rattle.c_track.specs.Calls.{dds_subdata_make, dds_subdata_read};

use answer::refusals::{Numbered, Refusal, TrackRefusal};
use answer::{Outcome, Refused};
use track::Track;

// What a call tells of its answer: the refusal, then the block.
fn tell(answer: &mut [u8], done: Result<(), Refused<TrackRefusal>>) -> u32
    requires { length answer.old ≡ answer_length }
    ensures { Tells (told (answer_of done)) result answer.new }
{
    match done {
        Ok(()) => slices::tell::<TrackRefusal>(answer, Ok(Outcome::default())),
        Err(refused) => slices::tell_refused(answer, refused.refusal.number(), refused.place),
    }
}

// A track from its Area ID, Pack IDs and items, and the Item number of each place.
pub fn make(
    area: u32,
    frame: u32,
    packs: &[u8],
    items: &[u8],
    track: &mut [u8],
    numbers: &mut [u8],
    answer: &mut [u8],
) -> u32
    ensures { left result (track.new ∷ numbers.new ∷ []) answer.new ≡ dds_subdata_make area frame packs.now items.now track.old numbers.old answer.old }
{
    if answer.len() != slices::ANSWER_LENGTH {
        return Refusal::State.number();
    }
    let done = Track::make(area, frame, packs, items, track, numbers);
    tell(answer, done)
}

// A track's Pack IDs and what stands at its places, and the Item number of each place.
pub fn read(
    area: u32,
    frame: u32,
    track: &[u8],
    packs: &mut [u8],
    items: &mut [u8],
    numbers: &mut [u8],
    answer: &mut [u8],
) -> u32
    ensures { left result (packs.new ∷ items.new ∷ numbers.new ∷ []) answer.new ≡ dds_subdata_read area frame track.now packs.old items.old numbers.old answer.old }
{
    if answer.len() != slices::ANSWER_LENGTH {
        return Refusal::State.number();
    }
    let done = Track::read(area, frame, track, packs, items, numbers);
    tell(answer, done)
}

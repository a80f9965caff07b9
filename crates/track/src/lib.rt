// Makes and reads the 16 Sub Data Blocks of a track: source document 003, 9.4.9, and change request 2026-01. Both calls work
// on lent byte slices. Neither requires anything: what may not be is refused, with the block where it stands.
#![tactic(auto)]

mod blocks;
mod filling;

ghost use Rattle.track.specs.Answer.{Makes, Reads, answer_of};

use answer::Refused;
use answer::refusals::TrackRefusal;

// A track: its blocks, and the lengths of what is lent for it.
#[derive(Clone, Copy, Debug, PartialEq, Eq)]
pub struct Track {}

impl Track {
    pub const BLOCKS: u8 = 16;

    pub const DATA_PART_LENGTH: usize = block::DATA_PART_LENGTH;

    pub const BLOCK_LENGTH: usize = block::LENGTH;

    pub const LENGTH: usize = 560;

    pub const PACKS_LENGTH: usize = 8;

    pub const ITEMS_LENGTH: usize = 512;

    pub const NUMBERS_LENGTH: usize = items::NUMBERS_LENGTH;

    // A track from its Area ID, Pack IDs and items, and the Item number of each place.
    pub fn make(
        area: u32,
        frame: u32,
        packs: &[u8],
        items: &[u8],
        track: &mut [u8],
        numbers: &mut [u8],
    ) -> Result<(), Refused<TrackRefusal>>
        ensures { Makes area frame packs.now items.now track.old numbers.old (answer_of result) track.new numbers.new }
    {
        let packs = packs
            .as_array::<{ Self::PACKS_LENGTH }>()
            .ok_or(TrackRefusal::Length)?;
        let items = items
            .as_array::<{ Self::ITEMS_LENGTH }>()
            .ok_or(TrackRefusal::Length)?;
        let track = track
            .as_mut_array::<{ Self::LENGTH }>()
            .ok_or(TrackRefusal::Length)?;
        let numbers = numbers
            .as_mut_array::<{ Self::NUMBERS_LENGTH }>()
            .ok_or(TrackRefusal::Length)?;
        blocks::judge_making(area, packs)?;
        filling::put_track(track, area, packs, items);
        items::put_numbers(numbers, area, frame);
        Ok(())
    }

    // A track's Pack IDs and what stands at its places, and the Item number of each place.
    pub fn read(
        area: u32,
        frame: u32,
        track: &[u8],
        packs: &mut [u8],
        items: &mut [u8],
        numbers: &mut [u8],
    ) -> Result<(), Refused<TrackRefusal>>
        ensures { Reads area frame track.now packs.old items.old numbers.old (answer_of result) packs.new items.new numbers.new }
    {
        let track = track
            .as_array::<{ Self::LENGTH }>()
            .ok_or(TrackRefusal::Length)?;
        let packs = packs
            .as_mut_array::<{ Self::PACKS_LENGTH }>()
            .ok_or(TrackRefusal::Length)?;
        let items = items
            .as_mut_array::<{ Self::ITEMS_LENGTH }>()
            .ok_or(TrackRefusal::Length)?;
        let numbers = numbers
            .as_mut_array::<{ Self::NUMBERS_LENGTH }>()
            .ok_or(TrackRefusal::Length)?;
        blocks::judge_reading(area, track)?;
        filling::put_packs(packs, track);
        filling::put_items(items, track);
        items::put_numbers(numbers, area, frame);
        Ok(())
    }
}

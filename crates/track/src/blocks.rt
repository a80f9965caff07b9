// The judgement of a track, block by block from 0, and of what is lent to make one.
ghost use Rattle.std.specs.Prelude.{◌≡◌, ◌<◌};
ghost use Rattle.items.specs.Items.{numbers_length};
ghost use Rattle.track.specs.Sizes.{track_length, packs_length, items_length};
ghost use Rattle.track.specs.Blocks.{pack_in};
ghost use Rattle.track.specs.Answer.{make_call, read_call, answer_of};

use crate::Track;
use answer::Refused;
use answer::refusals::TrackRefusal;

// A block's Pack ID among those lent.
pub(crate) fn pack_in(packs: &[u8; Track::PACKS_LENGTH], block: u8) -> u8
    requires { block < 16 }
    ensures { result ≡ pack_in packs.now block }
{
    if header::is_even(block) {
        packs[usize::from(block / 2)]
    } else {
        0
    }
}

// What making answers where the slices are of their lengths.
pub(crate) fn judge_making(
    area: u32,
    packs: &[u8; Track::PACKS_LENGTH],
) -> Result<(), Refused<TrackRefusal>>
    ensures { answer_of result ≡ make_call area packs.now items_length track_length numbers_length }
{
    if !header::area_kept(area) {
        return Err(TrackRefusal::Sw1.into());
    }
    for block in 0..Track::BLOCKS {
        if !header::pack_kept(block, pack_in(packs, block)) {
            return Err(Refused {
                refusal: TrackRefusal::Sw2,
                place: u32::from(block),
            });
        }
    }
    Ok(())
}

// What reading answers where the slices are of their lengths.
pub(crate) fn judge_reading(
    area: u32,
    track: &[u8; Track::LENGTH],
) -> Result<(), Refused<TrackRefusal>>
    ensures { answer_of result ≡ read_call area track.now packs_length items_length numbers_length }
{
    let (blocks, _) = track.as_chunks();
    for number in 0..Track::BLOCKS {
        let block = &blocks[usize::from(number)];
        block::judge_block(area, number, block).map_err(|refusal| Refused {
            refusal,
            place: u32::from(number),
        })?;
    }
    Ok(())
}

// The slices that an accepted call fills: the track block by block, and from a track its Pack IDs and its items.
ghost use Rattle.std.specs.Prelude.{◌≡◌, ◌<◌};
ghost use Rattle.track.specs.Blocks.{track_of, packs_of, items_of};
ghost use Rattle.track.specs.Bounds.{PacksKept};

use crate::{Track, blocks};
use header::Header;

// All blocks of a track.
pub(crate) fn put_track(
    track: &mut [u8; Track::LENGTH],
    area: u32,
    packs: &[u8; Track::PACKS_LENGTH],
    items: &[u8; Track::ITEMS_LENGTH],
)
    requires area_bound { area < 16 }
    requires pack_bounds { PacksKept packs.now }
    ensures { track.new ≡ track_of area packs.now items.now }
{
    let (items, _) = items.as_chunks();
    for block in 0..Track::BLOCKS {
        let k = usize::from(block);
        let pack = blocks::pack_in(packs, block);
        let from = Track::BLOCK_LENGTH * k;
        block::put_block(
            &mut track[from..from + Track::BLOCK_LENGTH],
            Header { area, pack, block },
            &items[k],
        );
    }
}

// The Pack IDs of a track's even blocks. Written by index: proofs do not know what is written through `iter_mut().enumerate()`.
pub(crate) fn put_packs(packs: &mut [u8; Track::PACKS_LENGTH], track: &[u8; Track::LENGTH])
    ensures { packs.new ≡ packs_of track.now }
{
    for k in 0..Track::PACKS_LENGTH {
        packs[k] = header::pack_of(track[Track::BLOCK_LENGTH * (2 * k) + 1]);
    }
}

// What stands at the places of a track's blocks.
pub(crate) fn put_items(items: &mut [u8; Track::ITEMS_LENGTH], track: &[u8; Track::LENGTH])
    ensures { items.new ≡ items_of track.now }
{
    let (blocks, _) = track.as_chunks::<{ Track::BLOCK_LENGTH }>();
    for (block, bytes) in blocks.iter().enumerate() {
        let from = Track::DATA_PART_LENGTH * block;
        items[from..from + Track::DATA_PART_LENGTH].copy_from_slice(&bytes[3..]);
    }
}

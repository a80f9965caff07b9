// A Sub Data Block: its three Pack Items and its close behind the header, stored and judged. Source document 003, 9.4.9.2, and
// change request 2026-01.
#![tactic(auto)]

ghost use Rattle.std.specs.Prelude.{◌≡◌, ◌+◌, ◌<◌, ◌≤◌, length};
ghost use Rattle.numbers.specs.Store.{put};
ghost use Rattle.answer.specs.Numbers.{track_number};
ghost use Rattle.answer.specs.Results.{number_of};
ghost use Rattle.block.specs.Block.{block_length, data_part_length, block_of};
ghost use Rattle.block.specs.Faults.{close_kept, block_fault};

use answer::refusals::TrackRefusal;
use header::Header;

// The length of a block, and of its four places.
pub const LENGTH: usize = 35;

pub const DATA_PART_LENGTH: usize = 32;

// The length of a Pack Item, and of a close.
pub const ITEM_LENGTH: usize = 8;

// The length of the three Pack Items, and where the close begins behind them and the header.
const ITEMS_LENGTH: usize = 3 * ITEM_LENGTH;

const CLOSE: usize = 3 + ITEMS_LENGTH;

// One block: 3 bytes of header, 24 of items and 8 of close, from the four places that are lent. With Pack ID 6 it closes in
// zeros, whatever was lent. `block` is a slice and no array, since proofs do not know what is written through `as_chunks_mut`.
pub fn put_block(block: &mut [u8], header: Header, places: &[u8; DATA_PART_LENGTH])
    requires { length block.old ≡ block_length }
    ensures { block.new ≡ block_of header.area header.pack header.block places.now }
{
    block[..3].copy_from_slice(&header.bytes());
    block[3..CLOSE].copy_from_slice(&places[..ITEMS_LENGTH]);
    if header.pack == 6 {
        block[CLOSE..].fill(0);
    } else {
        block[CLOSE..].copy_from_slice(&places[ITEMS_LENGTH..]);
    }
}

// One block from index `at` on, from the four places that are lent.
#[tactic(auto, using(crate::proofs::BlockLaws::block_put))]
pub fn put_block_at(track: &mut [u8], at: usize, area: u32, pack: u8, block: u8, places: &[u8])
    requires block_length_in_bounds { (at + block_length ≤ length track.old) × (length places.now ≡ data_part_length) }
    requires area_bound { (area < 16) × ((pack < 8) × (block < 16)) }
    ensures { track.new ≡ put track.old at (block_of area pack block places.now) }
{
    if let Some(places) = places.as_array() {
        put_block(
            &mut track[at..at + LENGTH],
            Header { area, pack, block },
            places,
        );
    }
}

// Whether a block closes in zeros where its Pack ID is 6.
#[tactic(auto, using(crate::proofs::BlockLaws::close_at))]
fn close_kept(block: &[u8; LENGTH]) -> bool
    ensures { result ≡ close_kept block.now }
{
    header::pack_of(block[1]) != 6 || numbers::bytes::are_zeros(&block[CLOSE..])
}

// The first rule that a block breaks, as its refusal.
#[tactic(auto, unfolding(crate::specs::Faults::block_fault))]
pub fn judge_block(area: u32, number: u8, block: &[u8; LENGTH]) -> Result<(), TrackRefusal>
    ensures { number_of track_number result ≡ block_fault area number block.now }
{
    let [sw1, sw2, parity, ..] = *block;
    if parity != sw1 ^ sw2 {
        return Err(TrackRefusal::Parity);
    }
    if !header::sw1_kept(area, number, sw1) {
        return Err(TrackRefusal::Sw1);
    }
    if !header::sw2_kept(number, sw2) {
        return Err(TrackRefusal::Sw2);
    }
    if !close_kept(block) {
        return Err(TrackRefusal::Close);
    }
    Ok(())
}

// The header of a Sub Data Block: SW1, SW2 and their parity, made and taken apart by shifts and masks. Source document 003,
// 9.4.9.1.
#![tactic(auto)]

ghost use Rattle.std.specs.Prelude.{◌≡◌, ◌+◌, ◌<◌, ◌≤◌, length};
ghost use Rattle.numbers.specs.Store.{put};
ghost use Rattle.header.specs.Header.{header_length, even, tape_area, area_kept, sw1_of, sw2_of, header_of, pack_of, pack_kept, sw1_kept, sw2_kept};

// The tape areas: an Area ID without its first bit, X. Numbers and no enum: two tests alone look at them, and an enum would first
// have to be made by those same tests.
pub const REFERENCE_AREA: u32 = 1;

pub const SYSTEM_AREA: u32 = 2;

pub const DATA_AREA: u32 = 4;

pub const EOD_AREA: u32 = 5;

// What a block's header says: the Area ID of its track, its own Pack ID, and its number.
#[derive(Clone, Copy, Debug, PartialEq, Eq)]
pub struct Header {
    pub area: u32,
    pub pack: u8,
    pub block: u8,
    ghost area_of_four_bits: { area < 16 },
    ghost pack_of_three_bits: { pack < 8 },
    ghost block_of_four_bits: { block < 16 },
}

impl Header {
    // SW1 of its block.
    pub fn sw1(self) -> u8
        ensures { result ≡ sw1_of self.area self.block }
    {
        sw1(self.area, self.block)
    }

    // SW2 of its block.
    pub fn sw2(self) -> u8
        ensures { result ≡ sw2_of self.pack self.block }
    {
        sw2(self.pack, self.block)
    }

    // The three bytes.
    #[tactic(auto, unfolding(crate::specs::Header::header_of))]
    pub fn bytes(self) -> [u8; 3]
        ensures { result ≡ header_of self.area self.pack self.block }
    {
        let sw1 = self.sw1();
        let sw2 = self.sw2();
        [sw1, sw2, sw1 ^ sw2]
    }
}

// SW1 of a block: the Area ID over 1000 in an even block, zero in an odd one.
pub fn sw1(area: u32, block: u8) -> u8
    requires { area < 16 }
    ensures { result ≡ sw1_of area block }
{
    if is_even(block) {
        ((area as u8) << 4) | 0x08
    } else {
        0
    }
}

// SW2 of a block: b8 set, the Pack ID, the block number.
#[tactic(auto, using(crate::proofs::HeaderLaws::sw2_made))]
pub fn sw2(pack: u8, block: u8) -> u8
    requires { (pack < 8) × (block < 16) }
    ensures { result ≡ sw2_of pack block }
{
    (pack << 4) | 0x80 | block
}

// A block's three header bytes from index `at` on.
pub fn put_header(track: &mut [u8], at: usize, area: u32, pack: u8, block: u8)
    requires header_length_in_bounds { at + header_length ≤ length track.old }
    requires area_bound { (area < 16) × ((pack < 8) × (block < 16)) }
    ensures { track.new ≡ put track.old at (header_of area pack block) }
{
    numbers::bytes::put_bytes(track, at, &Header { area, pack, block }.bytes());
}

// Whether a block's number is even.
pub fn is_even(block: u8) -> bool
    ensures { result ≡ even block }
{
    block & 1 == 0
}

// The Area ID without its first bit, X.
pub fn tape_area(area: u32) -> u32
    ensures { result ≡ tape_area area }
{
    area & 7
}

// Whether an Area ID is allowed: X001, X010, X100 and X101.
#[tactic(auto, unfolding(crate::specs::Header::area_kept))]
pub fn area_kept(area: u32) -> bool
    ensures { result ≡ area_kept area }
{
    area <= 15
        && matches!(
            tape_area(area),
            REFERENCE_AREA | SYSTEM_AREA | DATA_AREA | EOD_AREA
        )
}

// The Pack ID that SW2 holds.
pub fn pack_of(sw2: u8) -> u8
    ensures { result ≡ pack_of sw2 }
{
    (sw2 >> 4) & 7
}

// Whether a block may have this Pack ID.
pub fn pack_kept(block: u8, pack: u8) -> bool
    ensures { result ≡ pack_kept block pack }
{
    if is_even(block) {
        matches!(pack, 6 | 7)
    } else {
        pack == 0
    }
}

// Whether SW1 is what a block of this track has.
#[tactic(auto, unfolding(crate::specs::Header::sw1_kept))]
pub fn sw1_kept(area: u32, block: u8, sw1: u8) -> bool
    ensures { result ≡ sw1_kept area block sw1 }
{
    if is_even(block) {
        sw1 & 0x0F == 0x08 && u32::from(sw1 >> 4) == area && area_kept(area)
    } else {
        sw1 == 0
    }
}

// Whether SW2 is what a block has.
#[tactic(auto, unfolding(crate::specs::Header::sw2_kept))]
pub fn sw2_kept(block: u8, sw2: u8) -> bool
    ensures { result ≡ sw2_kept block sw2 }
{
    sw2 >> 7 == 1 && pack_kept(block, pack_of(sw2)) && sw2 & 0x0F == block
}

// The Item number of each place of a track, by Table 3: source document 003, 9.4.9.4.
#![tactic(auto)]

ghost use Rattle.std.specs.Prelude.{◌≡◌, ◌≤◌};
ghost use Rattle.items.specs.Items.{row_of, numbers_of};

// The frames of the System Log, and the places of a track.
pub const LOG_FIRST: u32 = 71;

pub const LOG_LAST: u32 = 95;

pub const PLACES: usize = 64;

// The length of their numbers, four bytes each.
pub const NUMBERS_LENGTH: usize = 256;

// Table 3's contents, 0 for a close: an even and an odd block of the Data Area, of the System Log, of all other rows.
static CONTENTS: [[u32; 4]; 6] = [
    [1, 2, 3, 0],
    [1, 2, 4, 0],
    [5, 7, 3, 0],
    [6, 8, 4, 0],
    [3, 3, 3, 0],
    [4, 4, 4, 0],
];

// The row of a track's even blocks. Its odd blocks' row is the next.
#[tactic(auto, unfolding(crate::specs::Items::row_of))]
fn row_of(area: u32, frame: u32) -> usize
    ensures row { result ≡ row_of area frame }
    ensures has_a_next { result ≤ 4 }
{
    match header::tape_area(area) {
        header::DATA_AREA => 0,
        header::SYSTEM_AREA if (LOG_FIRST..=LOG_LAST).contains(&frame) => 2,
        _ => 4,
    }
}

// The number of each place as four bytes.
pub fn put_numbers(numbers: &mut [u8; NUMBERS_LENGTH], area: u32, frame: u32)
    ensures { numbers.new ≡ numbers_of area frame }
{
    let row = row_of(area, frame);
    for place in 0..PLACES {
        let item = CONTENTS[row + place / 4 % 2][place % 4];
        numbers::put_number(numbers, 4 * place, item);
    }
}

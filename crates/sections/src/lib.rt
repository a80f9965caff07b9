// The sections of a run before its images: what the bytes read so far are, and the pairs among them. A section is judged as
// soon as its bytes are there, so that the program reads no further than a run file that is bad.
#![tactic(auto)]

ghost use Rattle.std.specs.Prelude.{◌≡◌, ◌+◌, ◌*◌, ◌≤◌, length, true};
ghost use Rattle.numbers.specs.Numbers.{between};
ghost use Rattle.group.specs.Sizes.{least_size};
ghost use Rattle.sections.specs.Sections.{largest_size, images_section, groups_section, size_section, sections_of, pair_at, InRange, Ahead};

use group::Group;
use numbers::{is_between, number_at};

// The largest group that the bench program takes, and the most groups.
const LARGEST_SIZE: u32 = 4096;

const MOST_GROUPS: u32 = 1024;

// What the bytes read so far are.
#[derive(Clone, Copy, Debug, PartialEq, Eq)]
pub enum Sections {
    // In range, and short of the section that ends at this byte.
    Next(usize),
    // Out of range.
    Bad,
    // All there and in range: L and G.
    Whole { size: u32, groups: u32 },
}

// One pair of the second section.
#[derive(Clone, Copy, Debug, PartialEq, Eq)]
pub struct Pair {
    pub number: u32,
    pub entries: u32,
}

// From the third count on, which stands after the pairs: "4-byte count G × L".
#[tactic(auto, using(numbers::proofs::Tests::tests, crate::proofs::SectionLaws::images_fit), unfolding(crate::specs::Sections::section, crate::specs::Sections::images_section))]
fn images_section(bytes: &[u8], size: u32, groups: u32) -> Sections
    requires { InRange size groups }
    ensures { (result ≡ images_section bytes.now size groups) × Ahead (length bytes.now) result }
{
    let third = 12 + 4 * (groups as usize);
    if bytes.len() < third + 4 {
        return Sections::Next(third + 4);
    }
    if number_at(bytes, third) != groups * size {
        return Sections::Bad;
    }
    Sections::Whole { size, groups }
}

// From the second count on: "4-byte count G (1 to 1,024)".
#[tactic(auto, using(numbers::proofs::Tests::tests, crate::proofs::SectionLaws::images_fit), unfolding(crate::specs::Sections::section, crate::specs::Sections::groups_section))]
fn groups_section(bytes: &[u8], size: u32) -> Sections
    requires { between least_size size largest_size ≡ true }
    ensures { (result ≡ groups_section bytes.now size) × Ahead (length bytes.now) result }
{
    if bytes.len() < 12 {
        return Sections::Next(12);
    }
    let groups = number_at(bytes, 8);
    if !is_between(1, groups, MOST_GROUPS) {
        return Sections::Bad;
    }
    images_section(bytes, size, groups)
}

// From L on: "4-byte L (64 to 4,096)".
#[tactic(auto, using(numbers::proofs::Tests::tests, crate::proofs::SectionLaws::images_fit), unfolding(crate::specs::Sections::section, crate::specs::Sections::size_section))]
fn size_section(bytes: &[u8]) -> Sections
    ensures { (result ≡ size_section bytes.now) × Ahead (length bytes.now) result }
{
    if bytes.len() < 8 {
        return Sections::Next(8);
    }
    let size = number_at(bytes, 4);
    if !is_between(Group::LEAST_SIZE, size, LARGEST_SIZE) {
        return Sections::Bad;
    }
    groups_section(bytes, size)
}

// From the first count on: "4-byte count 1".
#[tactic(auto, using(numbers::proofs::Tests::tests), unfolding(crate::specs::Sections::section, crate::specs::Sections::sections_of))]
pub fn sections_of(bytes: &[u8]) -> Sections
    ensures { (result ≡ sections_of bytes.now) × Ahead (length bytes.now) result }
{
    if bytes.len() < 4 {
        return Sections::Next(4);
    }
    if number_at(bytes, 0) != 1 {
        return Sections::Bad;
    }
    size_section(bytes)
}

// The pair of group i, counted from 0: its four bytes are loaded as one number.
#[tactic(auto, using(crate::proofs::SectionLaws::pair_halved))]
pub fn pair_at(bytes: &[u8], i: usize) -> Pair
    requires { 12 + 4 * (i + 1) ≤ length bytes.now }
    ensures { result ≡ pair_at bytes.now i }
{
    let both = number_at(bytes, 12 + 4 * i);
    Pair {
        number: both / 65536,
        entries: both % 65536,
    }
}

// Entries as bytes, most significant byte first.
ghost use Rattle.std.specs.Prelude.{◌≡◌, ◌+◌, ◌*◌, ◌≤◌, ◌<◌, length};
ghost use Rattle.numbers.specs.Store.{put};
ghost use Rattle.numbers.specs.Numbers.{bytes_of};
ghost use Rattle.group.specs.Entries.{entry, entry_at, entry_bytes};
ghost use Rattle.group.specs.ForContracts.{Word};

use crate::Entry;

// The entry that stands at `at`, as one number: its flag above the three bytes of its count.
pub fn entry_word(group: &[u8], at: usize) -> u32
    requires { at + 4 ≤ length group.now }
    ensures { Word (entry_at group.now at) result }
{
    numbers::joined(group[at], group[at + 1], group[at + 2], group[at + 3])
}

// The entry that stands at `at`.
pub fn entry_at(group: &[u8], at: usize) -> Entry
    requires { at + 4 ≤ length group.now }
    ensures { (result ≡ entry_at group.now at) × (result.count < 16777216) }
{
    let word = entry_word(group, at);
    Entry {
        flag: (word / 16777216) as u8,
        count: word % 16777216,
    }
}

// The count of the entry at `from`, whose flag is `flag`, as four bytes from index `at` on. All four bytes of the entry are
// moved as one word; then 0 stands where the flag did. Answers the count.
pub fn move_count(bytes: &mut [u8], at: usize, group: &[u8], from: usize, flag: u8) -> u32
    requires at_in_bounds { (at + 4 ≤ length bytes.old) × (from + 4 ≤ length group.now) }
    requires flag_value { flag ≡ (entry_at group.now from).flag }
    ensures value { (result ≡ (entry_at group.now from).count) × (result < 16777216) }
    ensures bytes_after { bytes.new ≡ put bytes.old at (bytes_of 4 result) }
{
    numbers::put_four(
        bytes,
        at,
        group[from],
        group[from + 1],
        group[from + 2],
        group[from + 3],
    );
    let count = entry_word(group, from) - (flag as u32) * 16777216;
    bytes[at] = 0;
    count
}

// An entry from index `at` on: its flag, then its count in three bytes.
pub fn put_entry(group: &mut [u8], at: usize, flag: u8, count: u32)
    requires { at + 4 ≤ length group.old }
    ensures { group.new ≡ put group.old at (entry_bytes (entry flag count)) }
{
    numbers::put_four(
        group,
        at,
        flag,
        (count / 65536 % 256) as u8,
        (count / 256 % 256) as u8,
        (count % 256) as u8,
    );
}

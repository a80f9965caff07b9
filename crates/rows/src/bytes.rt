// The rows of a group whose scan has passed, as bytes: each number four, most significant first.
ghost use Rattle.std.specs.Prelude.{◌≡◌, [], ◌∷◌, ◌+◌, ◌*◌, ◌-◌, ◌≤◌, length};
ghost use Rattle.numbers.specs.Numbers.{in_bytes};
ghost use Rattle.group.specs.Sizes.{information_length, longest_record, entry_offset};
ghost use Rattle.numbers.specs.Store.{put};
ghost use Rattle.group.specs.Entries.{entry_at, entries_below};
ghost use Rattle.group.specs.Flags.{meaning_of};
ghost use Rattle.group.specs.ForContracts.{Meant};
ghost use Rattle.entry.specs.Scan.{reached_by};
ghost use Rattle.entry.specs.Bounds.{Cut, Within};
ghost use Rattle.rows.specs.Rows.{row_kind, rows_from};

use entry::rules;
use group::Group;

// The row of the entry at `at`, as bytes from index `i` on. Answers the data offset reached after it. Between two numbers'
// stores stands a load: a number's four byte stores become one where no other store is next to them.
fn put_row(group: &[u8], at: usize, reached: u32, rows: &mut [u8], i: usize) -> u32
    requires at_in_bounds { (at + 4 ≤ length group.now) × (i + 12 ≤ length rows.old) }
    requires reached_le_longest_record { (reached ≤ longest_record) × Meant (entry_at group.now at).flag }
    ensures value { result ≡ reached_by (meaning_of (entry_at group.now at).flag) reached (entry_at group.now at).count }
    ensures rows_after { rows.new ≡ put rows.old i (in_bytes (row_kind (meaning_of (entry_at group.now at).flag) ∷ reached ∷ (entry_at group.now at).count ∷ [])) }
{
    let flag = group[at];
    numbers::put_number(rows, i + 4, reached);
    let count = group::entries::move_count(rows, i + 8, group, at, flag);
    numbers::put_number(rows, i, group::flags::number_by_bits(flag) as u32);
    rules::reached_by(flag, reached, count)
}

// The same numbers as bytes, twelve an entry. Where an entry stands is counted in a machine word, which is an instruction less for
// each; by a `for` over the entries dds_read takes 25 bytes of code more, and it has none to spare.
pub fn fill_bytes(group: &[u8], size: u32, entries: u32, rows: &mut [u8])
    requires cut { Cut group.now size entries }
    requires within { Within (entry_offset size entries) 0 (entries_below group.now (size - information_length) entries) }
    requires entries_in_bounds { 12 * entries ≤ length rows.old }
    ensures { rows.new ≡ put rows.old 0 (in_bytes (rows_from 0 (entries_below group.now (size - information_length) entries))) }
{
    let mut top = (size - Group::INFORMATION_LENGTH) as usize;
    let mut left = entries;
    let mut reached: u32 = 0;
    let mut i: usize = 0;
    while 0 < left {
        top = top - (Group::ENTRY_LENGTH as usize);
        left = left - 1;
        reached = put_row(group, top, reached, rows, i);
        i = i + 12;
    }
}

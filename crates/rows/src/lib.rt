// The rows of a group whose scan has passed: document 01, "Reading". As numbers here, as bytes in `bytes`. The leaves here have a
// `requires`, on a group that the scan above has passed and on the rows' length.
#![tactic(auto)]

pub mod bytes;

ghost use Rattle.std.specs.Prelude.{◌≡◌, ◌*◌, ◌-◌, ◌≤◌, length};
ghost use Rattle.group.specs.Sizes.{information_length, entry_offset};
ghost use Rattle.numbers.specs.Store.{put};
ghost use Rattle.group.specs.Entries.{entries_below};
ghost use Rattle.entry.specs.Bounds.{Cut, Within};
ghost use Rattle.rows.specs.Rows.{rows_from};

use entry::rules;
use group::Group;

// Three numbers an entry, from the table's top downward.
pub fn fill(group: &[u8], size: u32, entries: u32, rows: &mut [u32])
    requires cut { Cut group.now size entries }
    requires within { Within (entry_offset size entries) 0 (entries_below group.now (size - information_length) entries) }
    requires entries_in_bounds { 3 * entries ≤ length rows.old }
    ensures { rows.new ≡ put rows.old 0 (rows_from 0 (entries_below group.now (size - information_length) entries)) }
{
    let top = (size - Group::INFORMATION_LENGTH) as usize;
    let mut reached: u32 = 0;
    for k in 0..entries as usize {
        let entry = group::entries::entry_at(group, top - (Group::ENTRY_LENGTH as usize) * (k + 1));
        rows[3 * k] = group::flags::number_by_bits(entry.flag) as u32;
        rows[3 * k + 1] = reached;
        rows[3 * k + 2] = entry.count;
        reached = rules::reached_by(entry.flag, reached, entry.count);
    }
}

// The scan of a group's table, entry by entry from 1: the loop over its entries, and a quick path for those that all but a few
// are (singles). What a scan gives is said in the crate entry.
#![tactic(auto)]

mod singles;

ghost use Rattle.std.specs.Prelude.{◌≡◌, ◌-◌};
ghost use Rattle.group.specs.Sizes.{information_length, entry_offset};
ghost use Rattle.group.specs.Entries.{entries_below};
ghost use Rattle.entry.specs.Scan.{scan};
ghost use Rattle.entry.specs.ScanEnd.{end_of};
ghost use Rattle.entry.specs.Bounds.{Cut, Bounded};

use entry::{Cursor, Stop, rules};
use group::Group;

// Entry by entry downward from the table's top, stopping at the first that breaks a rule. Separators and entire records
// between records are passed in stretches.
pub fn scan_entries(group: &[u8], size: u32, entries: u32, opening: Cursor) -> Result<Cursor, Stop>
    requires { (Cut group.now size entries) × Bounded (entry_offset size entries) opening }
    ensures { end_of result ≡ scan size (entry_offset size entries) (entries_below group.now (size - information_length) entries) 1 opening }
{
    let limit = size - Group::INFORMATION_LENGTH - Group::ENTRY_LENGTH * entries;
    let mut left = entries;
    let mut here = opening;
    loop {
        let stretch = singles::pass(group, size, entries, left, here);
        left = stretch.left;
        here = Cursor {
            stand: here.stand,
            warned: here.warned,
            sum: stretch.sum,
            reached: stretch.reached,
        };
        if singles::ends(group, size, entries, left, here) {
            break Ok(here);
        }
        left -= 1;
        let at = limit + Group::ENTRY_LENGTH * left;
        let entry = group::entries::entry_at(group, at as usize);
        let meaning = group::flags::meaning_of(entry.flag);
        if let Err(refusal) = rules::entry_fault(
            size,
            limit,
            left == 0,
            here,
            meaning,
            entry.count,
        ) {
            break Err(Stop {
                refusal,
                place: entries - left,
                here,
            });
        }
        here = rules::advance(here, meaning, entry.count);
        if left == 0 {
            break Ok(here);
        }
    }
}

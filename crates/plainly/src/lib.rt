// The scan of a group's table with nothing but the rules, for what is in no haste: an explanation, and a group with a block of
// another length. The quick scan has one caller, the read, so that the compiler builds it into that one. The leaf has a
// `requires`, on a group that was refused nothing before its scan.
#![tactic(auto)]

ghost use Rattle.std.specs.Prelude.{◌≡◌, ◌-◌};
ghost use Rattle.group.specs.Sizes.{information_length, entry_offset};
ghost use Rattle.group.specs.Entries.{entries_below};
ghost use Rattle.entry.specs.Scan.{scan};
ghost use Rattle.entry.specs.ScanEnd.{end_of};
ghost use Rattle.entry.specs.Bounds.{Cut, Bounded};

use entry::{Cursor, Stop, rules};
use group::Group;

// Entry by entry downward from the table's top, stopping at the first that breaks a rule.
pub fn scan_plainly(group: &[u8], size: u32, entries: u32, opening: Cursor) -> Result<Cursor, Stop>
    requires { (Cut group.now size entries) × Bounded (entry_offset size entries) opening }
    ensures { end_of result ≡ scan size (entry_offset size entries) (entries_below group.now (size - information_length) entries) 1 opening }
{
    let limit = size - Group::INFORMATION_LENGTH - Group::ENTRY_LENGTH * entries;
    let mut here = opening;
    for left in (0..entries).rev() {
        let at = limit + Group::ENTRY_LENGTH * left;
        let entry = group::entries::entry_at(group, at as usize);
        let meaning = group::flags::meaning_of(entry.flag);
        if let Err(refusal) = rules::entry_fault_by_kind(
            size,
            limit,
            left == 0,
            here,
            meaning,
            entry.count,
        ) {
            return Err(Stop {
                refusal,
                place: entries - left,
                here,
            });
        }
        here = rules::advance(here, meaning, entry.count);
    }
    Ok(here)
}

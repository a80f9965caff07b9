// Change request 2026-09: the rule of a block over a group's entries. The leaf has a `requires`, on a group whose table fits.
#![tactic(auto)]

ghost use Rattle.std.specs.Prelude.{◌≡◌, ◌+◌, ◌*◌, ◌-◌, ◌≤◌, length};
ghost use Rattle.group.specs.Sizes.{information_length, entry_length};
ghost use Rattle.group.specs.Flags.{meaning_of};
ghost use Rattle.group.specs.Entries.{entries_below};
ghost use Rattle.blockrule.specs.Rule.{is_length, block_kept};
ghost use Rattle.blockrule.specs.Bounds.{other_at};

use group::Group;

// Whether a flag is a total's or an entire record's, whose count is the length of a whole record.
#[tactic(auto, using(crate::proofs::Lengths::length_flags))]
fn is_length(flag: u8) -> bool
    ensures { result ≡ is_length (meaning_of flag) }
{
    matches!(flag, 0x01 | 0x09 | 0x63 | 0x6B)
}

// Whether an entry with this flag and count keeps the rule.
fn block_kept(flag: u8, count: u32, block: u32) -> bool
    ensures { result ≡ block_kept block (meaning_of flag) count }
{
    !is_length(flag) || count == block
}

// The place of the first entry of a group that breaks the rule.
pub fn other_at(group: &[u8], size: u32, entries: u32, block: u32) -> Option<u32>
    requires { (information_length + entry_length * entries ≤ size) × (size ≤ length group.now) }
    ensures { result ≡ other_at block (entries_below group.now (size - information_length) entries) 1 }
{
    let limit = size - Group::INFORMATION_LENGTH - Group::ENTRY_LENGTH * entries;
    for left in (0..entries).rev() {
        let at = limit + Group::ENTRY_LENGTH * left;
        let entry = group::entries::entry_at(group, at as usize);
        if !block_kept(entry.flag, entry.count, block) {
            return Some(entries - left);
        }
    }
    None
}

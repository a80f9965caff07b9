// What is laid in a group: entries, data, an owed total, the skip and the gap. Each step takes the state by value, and the group
// that it is lent.
ghost use Rattle.std.specs.Prelude.{◌≡◌, ◌+◌, ◌≤◌, length};
ghost use Rattle.group.specs.declared.Phase.TheVariants as phase;
ghost use Rattle.group.specs.Sizes.{last_number};
ghost use Rattle.laying.specs.Laying.{desk, lay_entry, lay_part, moved_state, shut, ready};
ghost use Rattle.laying.specs.Bounds.{Roomy, Grown, Ready, span};

use crate::{Writer, room};
use group::{Kind, Phase, entries, flags};
use numbers::bytes;

// One entry more, below those that stand.
#[tactic(auto, unfolding(crate::specs::Laying::lay_entry))]
pub fn lay_entry(w: Writer, group: &mut [u8], kind: Kind, count: u32) -> Writer
    requires { Roomy w group.old }
    ensures group_after { desk result group.new ≡ lay_entry kind count (desk w group.old) }
    ensures grown { Grown result w 0 1 }
{
    let entries = w.entries + 1;
    let at = room::entry_offset(w.size, entries) as usize;
    let flag = flags::flag_of(kind, w.warned);
    entries::put_entry(group, at, flag, count);
    Writer { entries, ..w }
}

// Data after the data that stands, and its entry.
#[tactic(auto, unfolding(crate::specs::Laying::lay_part, crate::specs::Laying::lay_data))]
pub fn lay_part(w: Writer, group: &mut [u8], kind: Kind, data: &[u8]) -> Writer
    requires roomy { Roomy w group.old }
    requires entries_bound { span (w.filled + length «data».now) (w.entries + 1) ≤ w.size }
    ensures group_after { desk result group.new ≡ lay_part kind «data».now (desk w group.old) }
    ensures grown { Grown result w (length «data».now) 1 }
{
    let n = data.len() as u32;
    bytes::put_bytes(group, w.filled as usize, data);
    let filled = w.filled + n;
    lay_entry(Writer { filled, ..w }, group, kind, n)
}

// The same state in another phase.
pub fn moved(w: Writer, phase: Phase, sum: u32, rest: u32) -> Writer
    ensures value { result ≡ moved_state phase sum rest w }
    ensures grown { Grown result w 0 0 }
{
    Writer {
        phase,
        sum,
        rest,
        ..w
    }
}

// The skip, zeros in the gap, and the state at the next group.
#[tactic(auto, unfolding(crate::specs::Laying::shut, crate::specs::Laying::zero_gap, crate::specs::Laying::lay_skip))]
pub fn shut(w: Writer, group: &mut [u8]) -> Writer
    requires roomy { Roomy w group.old }
    requires next_le_last_number { w.next ≤ last_number }
    ensures { desk result group.new ≡ shut (desk w group.old) }
{
    let v = lay_entry(w, group, Kind::Skip, w.size - w.filled);
    let from = v.filled as usize;
    let to = room::entry_offset(v.size, v.entries) as usize;
    bytes::put_zeros(group, from, to);
    Writer {
        next: v.next + 1,
        filled: 0,
        entries: 0,
        ..v
    }
}

// b4 is set, and an owed total is laid.
#[tactic(auto, unfolding(crate::specs::Laying::ready, crate::specs::Laying::warn_state, crate::specs::Laying::pay_owed, crate::specs::Laying::moved, crate::specs::Laying::lay_entry))]
pub fn ready(w: Writer, group: &mut [u8], warn: bool) -> Writer
    requires { Ready w group.old }
    ensures group_after { desk result group.new ≡ ready warn (desk w group.old) }
    ensures roomy { (Roomy result group.new) × (result.next ≡ w.next) }
    ensures grown { w.phase ≡ phase.Inside → (Grown result w 0 0) × (result.sum ≡ w.sum) }
{
    let v = Writer {
        warned: warn || w.warned,
        ..w
    };
    if w.phase != Phase::Owed {
        return v;
    }
    let paid = lay_entry(v, group, Kind::Total, v.sum);
    moved(paid, Phase::Free, 0, 0)
}

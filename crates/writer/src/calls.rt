// What an accepted call does: it lays data and entries, and closes the group where the room asks it.
ghost use Rattle.std.specs.Prelude.{◌≡◌, ◌≤◌, ◌<◌, length};
ghost use Rattle.group.specs.Sizes.{longest_record, last_number};
ghost use Rattle.laying.specs.Room.{middle_length};
ghost use Rattle.laying.specs.Bounds.{Opened};
ghost use Rattle.laying.specs.Desks.{desk_of};
ghost use Rattle.writer.specs.WriteAnswer.{written};
ghost use Rattle.writer.specs.Calls.{closed, record_free, record_inside, middle, last, separator_accepted};
ghost use Rattle.writer.specs.Leaves.{Leaves};

use crate::Written;
use group::{Kind, Phase};
use laying::Fit;
use laying::desk::{self, Desk};

// The group is closed: its number, the entries that it holds with the skip, and the bytes that the call took.
#[tactic(auto, unfolding(crate::specs::Calls::closed))]
pub(crate) fn close(desk: &mut Desk<'_>, taken: u32) -> Written
    requires { desk.old.state.next ≤ last_number }
    ensures { Leaves desk.new desk.old (written result) (closed taken (desk_of desk.old)) }
{
    let number = desk.state.next;
    let entries = desk.state.entries + 1;
    desk.shut();
    Written::Closed {
        state: desk.state,
        number,
        entries,
        taken,
    }
}

// A record of a free writer: whole, as a start that fills the group, or none of it.
#[tactic(auto, unfolding(crate::specs::Calls::record_free, crate::specs::Calls::by_fit, crate::specs::Calls::finished, laying::specs::Laying::moved, laying::specs::Laying::lay_part, laying::specs::Laying::lay_data, laying::specs::Laying::lay_entry), using(laying::proofs::RoomLaws::fitted_entire, laying::proofs::RoomLaws::fitted_start, laying::proofs::RoomLaws::start_long))]
pub(crate) fn record_free(desk: &mut Desk<'_>, data: &[u8]) -> Written
    requires { (desk.old.state.next ≤ last_number) × (length «data».now ≤ longest_record) }
    ensures { Leaves desk.new desk.old (written result) (record_free «data».now (desk_of desk.old)) }
{
    let n = data.len() as u32;
    match desk.fit(n) {
        Fit::Entire => {
            desk.lay_part(Kind::Entire, data);
            Written::Finished(desk.state)
        }
        Fit::Start(r) => {
            let taken = r as usize;
            desk.lay_part(Kind::Start, &data[..taken]);
            desk.moved(Phase::Inside, r, n - r);
            close(desk, r)
        }
        Fit::Close => close(desk, 0),
    }
}

// As much of an open record as a group has room for.
#[tactic(auto, unfolding(crate::specs::Calls::middle, laying::specs::Laying::moved, laying::specs::Laying::lay_part, laying::specs::Laying::lay_data, laying::specs::Laying::lay_entry))]
fn record_middle(desk: &mut Desk<'_>, data: &[u8], most: u32) -> Written
    requires opened { Opened desk.old.state (length «data».now) }
    requires most_value { (most ≡ middle_length desk.old.state) × (most < length «data».now) }
    ensures { Leaves desk.new desk.old (written result) (middle most «data».now (desk_of desk.old)) }
{
    let n = data.len() as u32;
    let taken = most as usize;
    let sum = desk.state.sum + most;
    desk.lay_part(Kind::Middle, &data[..taken]);
    desk.moved(Phase::Inside, sum, n - most);
    close(desk, most)
}

// The last part of an open record, with its total where both have room.
#[tactic(auto, unfolding(crate::specs::Calls::last, crate::specs::Calls::finished, laying::specs::Laying::moved, laying::specs::Laying::lay_part, laying::specs::Laying::lay_data, laying::specs::Laying::lay_entry))]
fn record_last(desk: &mut Desk<'_>, data: &[u8]) -> Written
    requires opened { Opened desk.old.state (length «data».now) }
    requires data_len_bound { length «data».now ≤ middle_length desk.old.state }
    ensures { Leaves desk.new desk.old (written result) (last «data».now (desk_of desk.old)) }
{
    let n = data.len() as u32;
    let sum = desk.state.sum + n;
    desk.lay_part(Kind::Last, data);
    if n <= desk::entry_offset(desk.state.size, 3) {
        desk.lay_entry(Kind::Total, sum);
        desk.moved(Phase::Free, 0, 0);
        return Written::Finished(desk.state);
    }
    desk.moved(Phase::Owed, sum, 0);
    close(desk, n)
}

// More of an open record: a middle part, or the last.
#[tactic(auto, unfolding(crate::specs::Calls::record_inside))]
pub(crate) fn record_inside(desk: &mut Desk<'_>, data: &[u8]) -> Written
    requires { Opened desk.old.state (length «data».now) }
    ensures { Leaves desk.new desk.old (written result) (record_inside «data».now (desk_of desk.old)) }
{
    let n = data.len() as u32;
    let most = desk::entry_offset(desk.state.size, 2);
    if most < n {
        return record_middle(desk, data, most);
    }
    record_last(desk, data)
}

// A separator: laid where it and the skip have room.
#[tactic(auto, unfolding(crate::specs::Calls::separator_accepted, crate::specs::Calls::finished), using(laying::proofs::SignedLaws::le_read, laying::proofs::RoomLaws::separator_fits_lem))]
pub(crate) fn separator(desk: &mut Desk<'_>, value: u32) -> Written
    requires { desk.old.state.next ≤ last_number }
    ensures { Leaves desk.new desk.old (written result) (separator_accepted value (desk_of desk.old)) }
{
    if 0 <= desk.room() {
        desk.lay_entry(Kind::Separator, value);
        return Written::Finished(desk.state);
    }
    close(desk, 0)
}

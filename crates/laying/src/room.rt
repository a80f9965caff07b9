// The room that an open group has left, and how a record goes into it: of any state, with no group at hand.
ghost use Rattle.std.specs.Prelude.{◌≡◌, ◌+◌, ◌*◌, ◌≤◌};
ghost use Rattle.group.specs.Sizes.{information_length, entry_length, entry_offset};
ghost use Rattle.laying.specs.Room.{room, fit_of};
ghost use Rattle.laying.specs.Bounds.{span};

use crate::{Fit, Writer};
use group::Group;

// Where entry k stands in a group.
pub fn entry_offset(size: u32, k: u32) -> u32
    requires { information_length + entry_length * k ≤ size }
    ensures { result ≡ entry_offset size k }
{
    size - Group::INFORMATION_LENGTH - Group::ENTRY_LENGTH * k
}

// The room: a signed number from -4 on.
#[tactic(auto, unfolding(crate::specs::Room::room), using(crate::proofs::SignedLaws::minus_four_fits, crate::proofs::SignedLaws::minus_four, crate::proofs::SignedLaws::sub_eq))]
pub fn room(w: Writer) -> i64
    requires { span w.filled (w.entries + 1) ≤ w.size }
    ensures { result ≡ room w }
{
    let open = entry_offset(w.size, w.entries + 1) - w.filled;
    (open as i64) - (Group::ENTRY_LENGTH as i64)
}

// How a record of n bytes goes into the room.
#[tactic(auto, unfolding(crate::specs::Room::fit_of), using(crate::proofs::SignedLaws::le_read, crate::proofs::SignedLaws::read, crate::proofs::RoomLaws::room_natural))]
pub fn fit(w: Writer, n: u32) -> Fit
    requires { span w.filled (w.entries + 1) ≤ w.size }
    ensures { result ≡ fit_of n (room w) }
{
    let r = room(w);
    if (n as i64) <= r {
        Fit::Entire
    } else if r >= 1 {
        Fit::Start(r as u32)
    } else {
        Fit::Close
    }
}

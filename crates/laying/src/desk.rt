// A writer's state on the group that it is lent, where an accepted call lays: each step of `room` and `lay`, with what it asks kept
// by the type.
ghost use Rattle.std.specs.Prelude.{◌≡◌, ◌+◌, ◌≤◌, length};
ghost use Rattle.group.specs.declared.Phase.TheVariants as phase;
ghost use Rattle.group.specs.Sizes.{least_size, standard_size, last_number};
ghost use Rattle.laying.specs.Room.{room, fit_of};
ghost use Rattle.laying.specs.Laying.{desk, lay_entry, lay_part, moved, shut, ready};
ghost use Rattle.laying.specs.Bounds.{Grown, Ready, span};

pub use crate::room::entry_offset;
use crate::{Fit, Writer, lay, room};
use group::{Kind, Phase};

// A state and its group, where one entry more has its place.
#[derive(Drop)]
pub struct Desk<'a> {
    pub state: Writer,
    pub group: &'a mut [u8],
    ghost low: { least_size ≤ state.size },
    ghost high: { state.size ≤ standard_size },
    ghost long: { length group.now ≡ state.size },
    ghost fits: { span state.filled (state.entries + 1) ≤ state.size },
}

impl<'a> Desk<'a> {
    ghost use Rattle.laying.specs.Desks.{desk_of, Becomes};

    // b4 is set, and an owed total is laid.
    pub fn ready(given: Writer, group: &'a mut [u8], warn: bool) -> Self
        requires { Ready given group.old }
        ensures same_group { result.group.ghost_name ≡ group.entry.ghost_name }
        ensures laid { desk_of result ≡ ready warn (desk given group.old) }
        ensures next { result.state.next ≡ given.next }
        ensures grown { given.phase ≡ phase.Inside → (Grown result.state given 0 0) × (result.state.sum ≡ given.sum) }
    {
        let state = lay::ready(given, group, warn);
        Self { state, group }
    }

    // The room: a signed number from -4 on.
    pub fn room(&self) -> i64
        ensures { result ≡ room self.now.state }
    {
        room::room(self.state)
    }

    // How a record of n bytes goes into the room.
    pub fn fit(&self, n: u32) -> Fit
        ensures { result ≡ fit_of n (room self.now.state) }
    {
        room::fit(self.state, n)
    }

    // An entry, where another has its place below it. The skip is laid in the last place that is left, so it is `shut` that lays it.
    pub fn lay_entry(&mut self, kind: Kind, count: u32)
        requires { span self.old.state.filled (self.old.state.entries + 2) ≤ self.old.state.size }
        ensures { Becomes self.new self.old (lay_entry kind count (desk_of self.old)) }
    {
        self.state = lay::lay_entry(self.state, self.group, kind, count);
    }

    // Data after the data that stands, and its entry.
    pub fn lay_part(&mut self, kind: Kind, data: &[u8])
        requires { span (self.old.state.filled + length «data».now) (self.old.state.entries + 2) ≤ self.old.state.size }
        ensures { Becomes self.new self.old (lay_part kind «data».now (desk_of self.old)) }
    {
        self.state = lay::lay_part(self.state, self.group, kind, data);
    }

    // The same state in another phase.
    #[tactic(auto, unfolding(crate::specs::Laying::moved))]
    pub fn moved(&mut self, phase: Phase, sum: u32, rest: u32)
        ensures { Becomes self.new self.old (moved phase sum rest (desk_of self.old)) }
    {
        self.state = lay::moved(self.state, phase, sum, rest);
    }

    // The skip, zeros in the gap, and the state at the next group.
    #[tactic(auto, unfolding(crate::specs::Laying::shut, crate::specs::Laying::zero_gap, crate::specs::Laying::lay_skip, crate::specs::Laying::lay_entry))]
    pub fn shut(&mut self)
        requires { self.old.state.next ≤ last_number }
        ensures { Becomes self.new self.old (shut (desk_of self.old)) }
    {
        self.state = lay::shut(self.state, self.group);
    }
}

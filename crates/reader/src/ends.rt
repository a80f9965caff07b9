// Both ends of a group's scan: where it begins, by the state that the group before it left, and the state that it leaves once
// it has reached its own end.
ghost use Rattle.std.specs.Prelude.{◌≡◌, ◌≤◌};
ghost use Rattle.group.specs.Sizes.{last_number};
ghost use Rattle.entry.specs.Rules.{stand_at, phase_after};
ghost use Rattle.reader.specs.Answer.{opening, closing};

use crate::Reader;
use entry::{Cursor, Stand};
use group::Phase;

fn stand_at(phase: Phase) -> Stand
    ensures { result ≡ stand_at phase }
{
    match phase {
        Phase::Free => Stand::Free,
        Phase::Inside => Stand::Inside,
        Phase::Owed => Stand::Owed,
    }
}

fn phase_after(stand: Stand) -> Phase
    ensures { result ≡ phase_after stand }
{
    match stand {
        Stand::Free => Phase::Free,
        Stand::AfterPart | Stand::Inside => Phase::Inside,
        Stand::AfterLast | Stand::Owed => Phase::Owed,
    }
}

// Where a group's scan begins.
pub fn opening(reader: Reader) -> Cursor
    ensures { result ≡ opening reader }
{
    Cursor {
        stand: stand_at(reader.phase),
        warned: reader.warned,
        sum: reader.sum,
        reached: 0,
    }
}

// The state after a group whose scan reached its end.
pub(crate) fn closing(reader: Reader, cursor: Cursor) -> Reader
    requires { reader.next ≤ last_number }
    ensures { result ≡ closing reader cursor }
{
    Reader {
        next: reader.next + 1,
        phase: phase_after(cursor.stand),
        warned: cursor.warned,
        accepted: true,
        sum: cursor.sum,
        ..reader
    }
}

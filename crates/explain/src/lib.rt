// Change request 2026-07: why a read refuses: the rule that is broken first, where, what was found there and what is allowed. What is
// public requires nothing.
#![tactic(auto)]

ghost use Rattle.std.specs.Prelude.{◌≡◌};
ghost use Rattle.reader.specs.Answer.{is_repeat};
ghost use Rattle.explain.specs.Explanation.{explanation_of, explained};

use answer::refusals::Refusal;
use finding::{call, entries};
use reader::Reader;
use reasons::Reason;

// An explanation: the refusal, its place, the byte offset of that entry, and why.
#[derive(Clone, Copy, Debug, PartialEq, Eq)]
pub struct Explanation {
    pub refusal: Refusal,
    pub place: u32,
    pub offset: u32,
    pub why: Reason,
}

// Whether a group of this length with this number is a repeat. A read looks for it only where it would else be refused with 5.
#[tactic(auto, unfolding(reader::specs::Answer::is_repeat))]
fn is_repeat(reader: Reader, length: usize, number: u32) -> bool
    ensures { result ≡ is_repeat reader length number }
{
    reader.is_sound() && length == reader.size as usize && reader.repeats(number)
}

impl Explanation {
    // Of a read that is lent `rows` bytes of rows; none where it is accepted, or sees a repeat. Nothing is written.
    pub fn of(
        reader: Reader,
        group: &[u8],
        number: u32,
        entries: u32,
        rows: usize,
    ) -> Option<Explanation>
        ensures { explanation_of result ≡ explained reader group.now number entries rows }
    {
        if is_repeat(reader, group.len(), number) {
            return None;
        }
        if let Err(refusal) = reader.refusal(group.len(), number, entries, rows / 4) {
            return Some(Explanation {
                refusal,
                place: 0,
                offset: 0,
                why: call::reason_of_call(
                    refusal,
                    reader.size,
                    reader.next,
                    group.len(),
                    number,
                    entries,
                    rows,
                ),
            });
        }
        let opening = reader::ends::opening(reader);
        let stop = plainly::scan_plainly(group, reader.size, entries, opening).err()?;
        let offset = entries::entry_offset(reader.size, stop.place);
        let entry = group::entries::entry_at(group, offset as usize);
        Some(Explanation {
            refusal: stop.refusal,
            place: stop.place,
            offset,
            why: entries::reason_at_entry(
                stop.refusal,
                reader.size,
                entries,
                stop.place,
                stop.here,
                entry,
            ),
        })
    }
}

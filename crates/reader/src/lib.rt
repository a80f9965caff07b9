// Reads Basic Groups: document 01, "Reading". A start, a read with its rows, and a read's judgement without them. None of them
// requires anything: what may not be is refused with a number and a place.
#![tactic(auto)]

pub mod ends;

ghost use Rattle.answer.specs.Numbers.{refusal_number};
ghost use Rattle.answer.specs.Results.{number_of};
ghost use Rattle.reader.specs.ReaderStart.{start_of};
ghost use Rattle.reader.specs.ReadAnswer.{answer_of};
ghost use Rattle.std.specs.Prelude.{◌≡◌, ◌/◌, length};
ghost use Rattle.numbers.specs.Numbers.{in_bytes};
ghost use Rattle.reader.specs.Answer.{reader_start_call, sound, repeats, read_refusal, read_call, as_numbers, Reads};

use answer::Refused;
use answer::refusals::Refusal;
use group::{Group, Phase};

// A reader's state between groups. The three fields that are one byte wide stand together.
#[derive(Clone, Copy, Debug, PartialEq, Eq)]
pub struct Reader {
    pub size: u32,
    pub next: u32,
    pub phase: Phase,
    pub warned: bool,
    pub accepted: bool,
    pub sum: u32,
}

// What a read that is not refused is: of the next group, with the state after it, or of the group that was accepted last, once more.
#[derive(Clone, Copy, Debug, PartialEq, Eq)]
pub enum Read {
    Accepted(Reader),
    Repeated,
}

impl Reader {
    #[tactic(auto, unfolding(crate::specs::Answer::reader_start_call))]
    pub fn start(size: u32, first: u32) -> Result<Reader, Refusal>
        ensures { start_of refusal_number result ≡ reader_start_call size first }
    {
        group::state::start_refusal(size, first)?;
        Ok(Reader {
            size,
            next: first,
            phase: Phase::Free,
            warned: false,
            accepted: false,
            sum: 0,
        })
    }

    pub fn is_sound(self) -> bool
        ensures { result ≡ sound self }
    {
        group::state::run_sound(self.size, self.next, self.phase, self.sum)
            && (self.next >= 2 || !self.accepted)
    }

    // Whether a number is that of the last accepted group. The sum is taken in 64 bits: any number may come in.
    pub fn repeats(self, number: u32) -> bool
        ensures { result ≡ repeats self number }
    {
        (number as u64) + 1 == self.next as u64 && self.accepted
    }

    // What a read refuses before the scan.
    #[tactic(auto, unfolding(crate::specs::Answer::read_refusal), using(numbers::proofs::Tests::tests))]
    pub fn refusal(
        self,
        length: usize,
        number: u32,
        entries: u32,
        room: usize,
    ) -> Result<(), Refusal>
        ensures { number_of refusal_number result ≡ read_refusal self length number entries room }
    {
        if !self.is_sound() {
            return Err(Refusal::State);
        }
        if length != self.size as usize {
            return Err(Refusal::Group);
        }
        if number != self.next || number > Group::LAST_NUMBER {
            return Err(Refusal::Number);
        }
        if !group::state::entries_kept(self.size, entries) {
            return Err(Refusal::Entries);
        }
        if room < 3 * (entries as usize) {
            return Err(Refusal::Rows);
        }
        Ok(())
    }

    // What a read answers that is lent rows for `room` numbers. Nothing is written. A repeat is looked for only where a read would
    // else be refused with 5, so that an accepted read pays nothing for it. From the scan on the size is the group's length, which is
    // at hand.
    pub fn judge(
        self,
        group: &[u8],
        number: u32,
        entries: u32,
        room: usize,
    ) -> Result<Read, Refused<Refusal>>
        ensures { answer_of self result ≡ read_call self group.now number entries room }
    {
        if let Err(refusal) = self.refusal(group.len(), number, entries, room) {
            if refusal == Refusal::Number && self.repeats(number) {
                return Ok(Read::Repeated);
            }
            return Err(Refused::from(refusal));
        }
        let opening = ends::opening(self);
        let cursor = scan::scan_entries(group, group.len() as u32, entries, opening)?;
        Ok(Read::Accepted(ends::closing(self, cursor)))
    }

    // Reads one group: the rows are filled once its last entry has passed.
    pub fn read(
        self,
        group: &[u8],
        number: u32,
        entries: u32,
        rows: &mut [u32],
    ) -> Result<Read, Refused<Refusal>>
        ensures { Reads as_numbers self group.now number entries (length rows.old) rows.old (answer_of self result) rows.new }
    {
        let read = self.judge(group, number, entries, rows.len())?;
        if let Read::Accepted(_) = read {
            rows::fill(group, self.size, entries, rows);
        }
        Ok(read)
    }

    // The same, with rows lent as bytes, twelve an entry, as C lends them.
    pub fn read_bytes(
        self,
        group: &[u8],
        number: u32,
        entries: u32,
        rows: &mut [u8],
    ) -> Result<Read, Refused<Refusal>>
        ensures { Reads in_bytes self group.now number entries (length rows.old / 4) rows.old (answer_of self result) rows.new }
    {
        let read = self.judge(group, number, entries, rows.len() / 4)?;
        if let Read::Accepted(_) = read {
            rows::bytes::fill_bytes(group, group.len() as u32, entries, rows);
        }
        Ok(read)
    }
}

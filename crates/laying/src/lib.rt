// The state of a writer with its start, the room that its group has left, and what is laid in it: document 01, "Writing". When
// a state is sound, and what a call answers, the crates above say.
#![tactic(auto)]

pub mod desk;
pub mod lay;
pub mod room;

ghost use Rattle.answer.specs.Numbers.{refusal_number};
ghost use Rattle.laying.specs.WriterStart.{start_of};
ghost use Rattle.std.specs.Prelude.{◌≡◌};
ghost use Rattle.laying.specs.Start.{writer_start_call};

use answer::refusals::Refusal;
use group::Phase;

// A writer's state. The two fields that are one byte wide stand together: a struct is copied in words, and a word that is part
// byte, part padding makes the processor wait.
#[derive(Clone, Copy, Debug, PartialEq, Eq)]
pub struct Writer {
    pub size: u32,
    pub next: u32,
    pub phase: Phase,
    pub warned: bool,
    pub sum: u32,
    pub rest: u32,
    pub filled: u32,
    pub entries: u32,
}

impl Writer {
    // A fresh writer: free, with nothing laid.
    #[tactic(auto, unfolding(crate::specs::Start::writer_start_call), using(answer::specs::NotZero::refusal_not_zero))]
    pub fn start(size: u32, first: u32) -> Result<Self, Refusal>
        ensures { start_of refusal_number result ≡ writer_start_call size first }
    {
        group::state::start_refusal(size, first)?;
        Ok(Self {
            size,
            next: first,
            phase: Phase::Free,
            warned: false,
            sum: 0,
            rest: 0,
            filled: 0,
            entries: 0,
        })
    }
}

// How a record goes into the room of a free writer: whole, as a start of so many bytes, or not at all.
#[derive(Clone, Copy, Debug, PartialEq, Eq)]
pub enum Fit {
    Entire,
    Start(u32),
    Close,
}

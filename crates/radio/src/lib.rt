// Where a message begins in the bytes that an AIT loader receives: source document 001, 18.7 and 18.8, and change request 2026-11.
// The call requires nothing: what has too many places for a number is refused.
#![tactic(auto)]

mod search;

ghost use Rattle.std.specs.Prelude.{◌≡◌};
ghost use Rattle.radio.specs.Search.{answered, find_call};

use answer::refusals::LoaderRefusal;

// Bytes received by radio.
#[derive(Clone, Copy, Debug, PartialEq, Eq)]
pub struct Radio {}

// Where a message begins: the place of the pattern's first byte and of the length byte behind it.
#[derive(Clone, Copy, Debug, PartialEq, Eq)]
pub struct Found {
    pub place: u32,
    pub length_at: u32,
}

impl Radio {
    pub const LONGEST: usize = 4294967295;

    // The first place where a message begins: the pattern 00 B2 4D behind two zero bytes, and a length byte behind it.
    pub fn find(received: &[u8]) -> Result<Option<Found>, LoaderRefusal>
        ensures { answered result ≡ find_call received.now }
    {
        if received.len() > Self::LONGEST {
            return Err(LoaderRefusal::Length);
        }
        for place in 2..received.len().saturating_sub(3) {
            if search::is_start(&received[place - 2..place + 3]) {
                return Ok(Some(Found {
                    place: place as u32,
                    length_at: place as u32 + 3,
                }));
            }
        }
        Ok(None)
    }
}

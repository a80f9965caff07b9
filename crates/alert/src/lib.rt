// The Tape Alert flags of the AIT loader's memory: source document 001, 18.3.10, and change request 2026-11. Neither call requires
// anything: bytes of another length are refused with a number.
#![tactic(auto)]

mod flags;

ghost use Rattle.std.specs.Prelude.{◌≡◌};
ghost use Rattle.alert.specs.Flags.{Makes, answered, read_call};

use answer::refusals::LoaderRefusal;

// The Tape Alert flags: the length of their bytes.
#[derive(Clone, Copy, Debug, PartialEq, Eq)]
pub struct Alert {}

// What making and reading the flags answer: how many are raised, the lowest raised (0 for none), flags 1 to 32 and 33 to 64.
#[derive(Clone, Copy, Debug, PartialEq, Eq)]
pub struct Counted {
    pub raised: u32,
    pub lowest: u32,
    pub high: u32,
    pub low: u32,
}

impl Alert {
    pub const LENGTH: usize = 8;

    // The eight bytes from flags 1 to 32 and flags 33 to 64.
    pub fn make(high: u32, low: u32, alert: &mut [u8]) -> Result<Counted, LoaderRefusal>
        ensures { Makes high low alert.old (answered result) alert.new }
    {
        if alert.len() != Self::LENGTH {
            return Err(LoaderRefusal::Length);
        }
        numbers::put_number(alert, 0, high);
        numbers::put_number(alert, 4, low);
        Ok(flags::counted(high, low))
    }

    // The flags of eight bytes.
    pub fn read(alert: &[u8]) -> Result<Counted, LoaderRefusal>
        ensures { answered result ≡ read_call alert.now }
    {
        if alert.len() != Self::LENGTH {
            return Err(LoaderRefusal::Length);
        }
        let high = numbers::number_at(alert, 0);
        let low = numbers::number_at(alert, 4);
        Ok(flags::counted(high, low))
    }
}

// The Tape Alert flags, counted: all 64 as one word, flag 1 in its top bit.
ghost use Rattle.std.specs.Prelude.{◌≡◌, ◌+◌, ◌*◌, Ok};
ghost use Rattle.alert.specs.Flags.{alert_of, answered, counted_in, raised_count, lowest_raised};

use crate::Counted;

// Flags 1 to 32 above flags 33 to 64.
fn word_of(high: u32, low: u32) -> u64
    ensures { result ≡ high * 4294967296 + low }
{
    u64::from(high) * 4294967296 + u64::from(low)
}

// How many flags are raised.
fn raised_in(high: u32, low: u32) -> u32
    ensures { result ≡ raised_count (alert_of high low) }
{
    word_of(high, low).count_ones()
}

// The lowest raised flag, 0 for none: one more than the flags that are not raised before it.
fn lowest_in(high: u32, low: u32) -> u32
    ensures { result ≡ lowest_raised (alert_of high low) }
{
    let word = word_of(high, low);
    if word == 0 {
        0
    } else {
        word.leading_zeros() + 1
    }
}

// What both calls answer of these flags.
pub(crate) fn counted(high: u32, low: u32) -> Counted
    ensures { answered (Ok result) ≡ counted_in (alert_of high low) high low }
{
    Counted {
        raised: raised_in(high, low),
        lowest: lowest_in(high, low),
        high,
        low,
    }
}

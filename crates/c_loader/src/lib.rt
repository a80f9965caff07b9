// An AIT loader's memory from C: Volume Information, the Tape Alert flags, and the search in received bytes. Each call tests its answer
// slice itself: a function over all five would take a closure that writes the lent slice, and its contract would be no plainer.
#![tactic(auto)]

ghost use Rattle.std.specs.Prelude.{◌≡◌, [], ◌∷◌};
ghost use Rattle.answer.specs.Numbers.{loader_number};
ghost use Rattle.answer.specs.Results.{told_of};
ghost use Rattle.volume.specs.Information.{answered, told};
ghost use Rattle.alert.specs.Flags as flags;
ghost use Rattle.radio.specs.Search as radio;
ghost use Rattle.slices.specs.Call.{left};
ghost use Rattle.c_loader.specs.Calls.{dds_volume_make, dds_volume_read, dds_alert_make, dds_alert_read, dds_radio_find};

use alert::{Alert, Counted};
use answer::refusals::LoaderRefusal;
use answer::{Outcome, Told};
use radio::{Found, Radio};
use volume::{TapeType, Volume};

// What a call on Volume Information tells of its answer.
fn volume_told(done: Result<TapeType, LoaderRefusal>) -> Told<LoaderRefusal>
    ensures { told_of loader_number result ≡ told (answered done) }
{
    let outcome = match done? {
        TapeType::A => 0,
        TapeType::B => 1,
    };
    Ok(Outcome {
        outcome,
        ..Outcome::default()
    })
}

// What a call on the flags tells of its answer.
fn alert_told(done: Result<Counted, LoaderRefusal>) -> Told<LoaderRefusal>
    ensures { told_of loader_number result ≡ flags.told (flags.answered done) }
{
    let Counted {
        raised,
        lowest,
        high,
        low,
    } = done?;
    Ok(Outcome {
        outcome: raised,
        number: lowest,
        entries: high,
        taken: low,
    })
}

// What a search tells of its answer.
fn radio_told(done: Result<Option<Found>, LoaderRefusal>) -> Told<LoaderRefusal>
    ensures { told_of loader_number result ≡ radio.told (radio.answered done) }
{
    Ok(match done? {
        Some(Found { place, length_at }) => Outcome {
            outcome: 1,
            number: place,
            entries: length_at,
            ..Outcome::default()
        },
        None => Outcome::default(),
    })
}

// Volume Information from its fields.
pub fn volume_make(fields: &[u8], volume: &mut [u8], answer: &mut [u8]) -> u32
    ensures { left result (volume.new ∷ []) answer.new ≡ dds_volume_make fields.now volume.old answer.old }
{
    if answer.len() != slices::ANSWER_LENGTH {
        return 1;
    }
    let done = Volume::make(fields, volume);
    slices::tell(answer, volume_told(done))
}

// The fields of Volume Information.
pub fn volume_read(volume: &[u8], fields: &mut [u8], answer: &mut [u8]) -> u32
    ensures { left result (fields.new ∷ []) answer.new ≡ dds_volume_read volume.now fields.old answer.old }
{
    if answer.len() != slices::ANSWER_LENGTH {
        return 1;
    }
    let done = Volume::read(volume, fields);
    slices::tell(answer, volume_told(done))
}

// The eight bytes of the flags from two numbers.
pub fn alert_make(high: u32, low: u32, alert: &mut [u8], answer: &mut [u8]) -> u32
    ensures { left result (alert.new ∷ []) answer.new ≡ dds_alert_make high low alert.old answer.old }
{
    if answer.len() != slices::ANSWER_LENGTH {
        return 1;
    }
    let done = Alert::make(high, low, alert);
    slices::tell(answer, alert_told(done))
}

// The flags of eight bytes.
pub fn alert_read(alert: &[u8], answer: &mut [u8]) -> u32
    ensures { left result [] answer.new ≡ dds_alert_read alert.now answer.old }
{
    if answer.len() != slices::ANSWER_LENGTH {
        return 1;
    }
    let done = Alert::read(alert);
    slices::tell(answer, alert_told(done))
}

// The first place in received bytes where a message begins.
pub fn radio_find(received: &[u8], answer: &mut [u8]) -> u32
    ensures { left result [] answer.new ≡ dds_radio_find received.now answer.old }
{
    if answer.len() != slices::ANSWER_LENGTH {
        return 1;
    }
    let done = Radio::find(received);
    slices::tell(answer, radio_told(done))
}

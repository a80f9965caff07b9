// Volume Information of the AIT loader's memory: source document 001, 16.4.2.2, and change request 2026-11. Neither call requires
// anything: what may not be is refused with a number.
#![tactic(auto)]

mod information;

ghost use Rattle.volume.specs.Information.{Makes, Reads, answered};

use answer::refusals::LoaderRefusal;

// Volume Information: its length, the length of its fields, and where they begin and end in it.
#[derive(Clone, Copy, Debug, PartialEq, Eq)]
pub struct Volume {}

// The tape's type, which making and reading Volume Information answer, by its thickness.
#[derive(Clone, Copy, Debug, PartialEq, Eq)]
pub enum TapeType {
    A,
    B,
}

impl Volume {
    pub const LENGTH: usize = 72;

    pub const FIELDS_LENGTH: usize = 37;

    pub const FIELDS_BEGIN: usize = 3;

    pub const FIELDS_END: usize = 40;

    // Volume Information from its fields.
    pub fn make(fields: &[u8], volume: &mut [u8]) -> Result<TapeType, LoaderRefusal>
        ensures { Makes fields.now volume.old (answered result) volume.new }
    {
        information::make_refusal(fields, volume.len())?;
        information::put_volume(volume, fields);
        Ok(information::type_of(fields[2]))
    }

    // The fields of Volume Information.
    pub fn read(volume: &[u8], fields: &mut [u8]) -> Result<TapeType, LoaderRefusal>
        ensures { Reads volume.now fields.old (answered result) fields.new }
    {
        information::read_refusal(volume, fields.len())?;
        information::put_fields(fields, volume);
        Ok(information::type_of(volume[5]))
    }
}

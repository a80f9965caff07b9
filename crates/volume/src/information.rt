// Volume Information: what making and reading it refuse, its bytes from its fields and its fields from its bytes.
ghost use Rattle.std.specs.Prelude.{◌≡◌, length};
ghost use Rattle.std.specs.Prelude.{Ok};
ghost use Rattle.answer.specs.Numbers.{loader_number};
ghost use Rattle.answer.specs.Results.{number_of};
ghost use Rattle.volume.specs.Information.{answered, volume_length, fields_length, volume_of, fields_of, type_of, thickness, flags_kept, byte_refusal, make_refusal, read_refusal};

use crate::{TapeType, Volume};
use answer::refusals::LoaderRefusal;
use numbers::bytes;

// The thickness number: the two top bits of the byte, whose others are the length number.
fn thickness_of(byte: u8) -> u8
    ensures { result ≡ thickness byte }
{
    byte >> 6
}

// Whether bits 6 to 8 of the Flags are zero and bit 5 is one. The others are not looked at.
fn flags_kept(flags: u8) -> bool
    ensures { result ≡ flags_kept flags }
{
    flags & 0xF0 == 0x10
}

// What the two bytes that have a rule refuse.
#[tactic(auto, unfolding(crate::specs::Information::byte_refusal), using(numbers::proofs::Tests::tests))]
fn byte_refusal(byte: u8, flags: u8) -> Result<(), LoaderRefusal>
    ensures { number_of loader_number result ≡ byte_refusal byte flags }
{
    if thickness_of(byte) > 1 {
        return Err(LoaderRefusal::Thickness);
    }
    if !flags_kept(flags) {
        return Err(LoaderRefusal::Flags);
    }
    Ok(())
}

// What making refuses.
#[tactic(auto, unfolding(crate::specs::Information::make_refusal), using(numbers::proofs::Tests::tests))]
pub(crate) fn make_refusal(fields: &[u8], volume: usize) -> Result<(), LoaderRefusal>
    ensures { number_of loader_number result ≡ make_refusal fields.now volume }
{
    if fields.len() != Volume::FIELDS_LENGTH || volume != Volume::LENGTH {
        return Err(LoaderRefusal::Length);
    }
    byte_refusal(fields[2], fields[3])
}

// What reading refuses.
#[tactic(auto, unfolding(crate::specs::Information::read_refusal), using(numbers::proofs::Tests::tests))]
pub(crate) fn read_refusal(volume: &[u8], fields: usize) -> Result<(), LoaderRefusal>
    ensures { number_of loader_number result ≡ read_refusal volume.now fields }
{
    if fields != Volume::FIELDS_LENGTH || volume.len() != Volume::LENGTH {
        return Err(LoaderRefusal::Length);
    }
    let before = &volume[..Volume::FIELDS_BEGIN];
    let behind = &volume[Volume::FIELDS_END..];
    if !bytes::are_zeros(before) || !bytes::are_zeros(behind) {
        return Err(LoaderRefusal::Reserved);
    }
    byte_refusal(volume[5], volume[6])
}

// The type that an allowed thickness indicates.
pub(crate) fn type_of(byte: u8) -> TapeType
    ensures { answered (Ok result) ≡ type_of byte }
{
    if thickness_of(byte) == 0 {
        TapeType::A
    } else {
        TapeType::B
    }
}

// The fields between the reserved bytes, over all that stood in the slice.
pub(crate) fn put_volume(volume: &mut [u8], fields: &[u8])
    requires { (length volume.old ≡ volume_length) × (length fields.now ≡ fields_length) }
    ensures { volume.new ≡ volume_of fields.now }
{
    bytes::put_zeros(volume, 0, Volume::FIELDS_BEGIN);
    bytes::put_bytes(volume, Volume::FIELDS_BEGIN, fields);
    bytes::put_zeros(volume, Volume::FIELDS_END, Volume::LENGTH);
}

// What stands between the reserved bytes, over all that stood in the slice.
pub(crate) fn put_fields(fields: &mut [u8], volume: &[u8])
    requires { (length fields.old ≡ fields_length) × (length volume.now ≡ volume_length) }
    ensures { fields.new ≡ fields_of volume.now }
{
    bytes::put_bytes(fields, 0, &volume[Volume::FIELDS_BEGIN..Volume::FIELDS_END]);
}

//! Fields read at given places of a message's data.

ghost use Rattle.std.specs.Prelude.{◌≡◌, ◌≤◌};
ghost use Rattle.pldm_update.specs.FieldReading.{byte_at, end_at, number_at, part_at, rest_at, state_at, text_at};

use crate::{
    MAX_PIECE_BYTES, MAX_UPDATE_DATA, Piece, TablePart, UpdateFault, UpdateState, VersionString,
};
use byteorder::{ByteOrder, LittleEndian};

/// The byte at this place.
#[tactic(auto, unfolding(crate::specs::FieldReading::byte_at))]
pub(crate) fn u8_at(bytes: &[u8], place: usize) -> Result<u8, UpdateFault>
    requires { place ≤ MAX_UPDATE_DATA }
    ensures { result ≡ byte_at place bytes.now }
{
    if bytes.len() < place + 1 {
        return Err(UpdateFault::Length);
    }
    Ok(bytes[place])
}

/// The number of two bytes at this place.
#[tactic(auto, using(pldm_wire::proofs::Placed::little_from_drop), unfolding(crate::specs::FieldReading::number_at))]
pub(crate) fn u16_at(bytes: &[u8], place: usize) -> Result<u16, UpdateFault>
    requires { place ≤ MAX_UPDATE_DATA }
    ensures { result ≡ number_at 2 place bytes.now }
{
    if bytes.len() < place + 2 {
        return Err(UpdateFault::Length);
    }
    Ok(LittleEndian::read_u16(&bytes[place..]))
}

/// The number of four bytes at this place.
#[tactic(auto, using(pldm_wire::proofs::Placed::little_from_drop), unfolding(crate::specs::FieldReading::number_at))]
pub(crate) fn u32_at(bytes: &[u8], place: usize) -> Result<u32, UpdateFault>
    requires { place ≤ MAX_UPDATE_DATA }
    ensures { result ≡ number_at 4 place bytes.now }
{
    if bytes.len() < place + 4 {
        return Err(UpdateFault::Length);
    }
    Ok(LittleEndian::read_u32(&bytes[place..]))
}

/// The number of eight bytes at this place.
#[tactic(auto, using(pldm_wire::proofs::Placed::little_from_drop), unfolding(crate::specs::FieldReading::number_at))]
pub(crate) fn u64_at(bytes: &[u8], place: usize) -> Result<u64, UpdateFault>
    requires { place ≤ MAX_UPDATE_DATA }
    ensures { result ≡ number_at 8 place bytes.now }
{
    if bytes.len() < place + 8 {
        return Err(UpdateFault::Length);
    }
    Ok(LittleEndian::read_u64(&bytes[place..]))
}

/// The part of the component table whose number the byte at this place is.
#[tactic(auto, unfolding(crate::specs::FieldReading::part_at))]
pub(crate) fn part_at(bytes: &[u8], place: usize) -> Result<TablePart, UpdateFault>
    requires { place ≤ MAX_UPDATE_DATA }
    ensures { result ≡ part_at place bytes.now }
{
    if bytes.len() < place + 1 {
        return Err(UpdateFault::Length);
    }
    match TablePart::new(bytes[place]) {
        Some(part) => Ok(part),
        None => Err(UpdateFault::Value),
    }
}

/// The state whose number the byte at this place is.
#[tactic(auto, unfolding(crate::specs::FieldReading::state_at))]
pub(crate) fn state_at(bytes: &[u8], place: usize) -> Result<UpdateState, UpdateFault>
    requires { place ≤ MAX_UPDATE_DATA }
    ensures { result ≡ state_at place bytes.now }
{
    if bytes.len() < place + 1 {
        return Err(UpdateFault::Length);
    }
    match UpdateState::new(bytes[place]) {
        Some(state) => Ok(state),
        None => Err(UpdateFault::Value),
    }
}

/// The version string at this place: its type, its length, and as many bytes.
#[tactic(auto, unfolding(crate::specs::FieldReading::text_at))]
pub(crate) fn text_at(bytes: &[u8], place: usize) -> Result<VersionString, UpdateFault>
    requires { place ≤ MAX_UPDATE_DATA }
    ensures { result ≡ text_at place bytes.now }
{
    if bytes.len() < place + 2 {
        return Err(UpdateFault::Length);
    }
    let count = usize::from(bytes[place + 1]);
    if bytes.len() < place + 2 + count {
        return Err(UpdateFault::Length);
    }
    Ok(VersionString::of(bytes[place], &bytes[place + 2..place + 2 + count]))
}

/// The bytes from this place on as a piece of an image.
#[tactic(auto, unfolding(crate::specs::FieldReading::rest_at))]
pub(crate) fn piece_at(bytes: &[u8]) -> Result<Piece, UpdateFault>
    ensures { result ≡ rest_at MAX_PIECE_BYTES 0 bytes.now }
{
    match Piece::new(bytes) {
        Some(piece) => Ok(piece),
        None => Err(UpdateFault::Length),
    }
}

/// Nothing is left from this place on.
#[tactic(auto, unfolding(crate::specs::FieldReading::end_at))]
pub(crate) fn end_at(bytes: &[u8], place: usize) -> Result<(), UpdateFault>
    ensures { result ≡ end_at place bytes.now }
{
    if bytes.len() != place {
        return Err(UpdateFault::Length);
    }
    Ok(())
}

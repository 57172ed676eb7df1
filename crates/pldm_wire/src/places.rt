//! Numbers and arrays read at given places of a message's data.

ghost use Rattle.std.specs.Prelude.{◌≡◌, ◌+◌, ◌≤◌, length};
ghost use Rattle.pldm_wire.specs.Places.{u16_at, u32_at, bytes_at};

use byteorder::{ByteOrder, LittleEndian};

/// The number of two bytes at this place.
#[tactic(auto, using(crate::proofs::Placed::little_from_drop))]
pub(crate) fn u16_in(bytes: &[u8], place: usize) -> u16
    requires { place + 2 ≤ length bytes.now }
    ensures { result ≡ u16_at place bytes.now }
{
    LittleEndian::read_u16(&bytes[place..])
}

/// The number of four bytes at this place.
#[tactic(auto, using(crate::proofs::Placed::little_from_drop))]
pub(crate) fn u32_in(bytes: &[u8], place: usize) -> u32
    requires { place + 4 ≤ length bytes.now }
    ensures { result ≡ u32_at place bytes.now }
{
    LittleEndian::read_u32(&bytes[place..])
}

/// The bytes from this place on, as many as the array has.
#[tactic(auto, using(crate::proofs::Placed::take_bytes))]
pub(crate) fn array_in<const N: usize>(bytes: &[u8], place: usize) -> [u8; N]
    requires { place + N ≤ length bytes.now }
    ensures { result ≡ bytes_at place N bytes.now }
{
    let mut array = [0; N];
    array.copy_from_slice(&bytes[place..place + N]);
    array
}

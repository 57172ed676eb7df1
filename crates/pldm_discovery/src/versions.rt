//! The last version of a PLDM type, found in the version data of an answer (DSP0240, "GetPLDMVersion command").

ghost use Rattle.std.specs.Prelude.{◌≡◌, ◌≤◌, length};
ghost use Rattle.pldm_discovery.specs.Versions.{is_checksum_of, last_four, last_version};

use byteorder::{ByteOrder, LittleEndian};
use pldm_wire::{VERSION_BYTES, VersionData, crc32};

/// The last version in version data. Where the last four bytes are the checksum of versions before them, they are none
/// (DSP0240, "GetPLDMVersion command").
#[tactic(auto, unfolding(crate::specs::Versions::last_version))]
pub(crate) fn last_version(versions: &VersionData) -> [u8; VERSION_BYTES]
    ensures { result ≡ last_version versions.now }
{
    let bytes = versions.as_slice();
    let (front, last) = bytes.split_at(bytes.len() - VERSION_BYTES);
    if is_checksum_of(last, front) {
        last_four(front)
    } else {
        last_four(bytes)
    }
}

/// Whether four bytes are the checksum of some before them.
#[tactic(auto, unfolding(crate::specs::Versions::is_checksum_of))]
fn is_checksum_of(last: &[u8], front: &[u8]) -> bool
    requires { VERSION_BYTES ≤ length last.now }
    ensures { result ≡ is_checksum_of last.now front.now }
{
    !front.is_empty() && LittleEndian::read_u32(last) == crc32(front)
}

/// The last four of these bytes.
fn last_four(bytes: &[u8]) -> [u8; VERSION_BYTES]
    requires { VERSION_BYTES ≤ length bytes.now }
    ensures { result ≡ last_four bytes.now }
{
    let mut four = [0; VERSION_BYTES];
    four.copy_from_slice(&bytes[bytes.len() - VERSION_BYTES..]);
    four
}

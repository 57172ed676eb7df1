//! The packet error code (PEC), where the address byte is not among the bytes.

ghost use Rattle.std.specs.Prelude.{◌≡◌, ◌∷◌};
ghost use Rattle.pldm_wire.specs.Crc.{crc};

use pldm_wire::crc8;

/// The PEC of an address byte and the bytes after it.
pub(crate) fn pec(address: u8, bytes: &[u8]) -> u8
    ensures { result ≡ crc (address ∷ bytes.now) }
{
    let mut checksum = crc8(&[address]);
    for byte in bytes {
        checksum = crc8(&[checksum ^ *byte]);
    }
    checksum
}

//! The packet in a block write on SMBus or I2C.

ghost use Rattle.std.specs.Prelude.{◌≡◌, Ok, Err, MatchResult};
ghost use Rattle.mctpctl_input.specs.SmbusPackets.{destination_in, smbus_packet};

use mctp_i2c::SmbusAddress;
use mctp_i2c::smbus::{self, MIN_FRAME_BYTES, SmbusFault};

/// The packet in a block write to the device whose address it begins with.
pub(crate) fn smbus_packet(bytes: &[u8]) -> Result<&[u8], SmbusFault>
    ensures { MatchResult result
        (λ packet. smbus_packet bytes.now ≡ Ok packet.now)
        (λ fault. smbus_packet bytes.now ≡ Err fault) }
{
    if bytes.len() < MIN_FRAME_BYTES {
        return Err(SmbusFault::Short);
    }
    let Some(destination) = destination_in(bytes[0]) else {
        return Err(SmbusFault::NotOurs);
    };
    match smbus::read(destination, bytes) {
        Ok(received) => Ok(received.packet()),
        Err(fault) => Err(fault),
    }
}

/// The device that a block write goes to, by its first byte: its address, before a bit that is clear.
fn destination_in(byte: u8) -> Option<SmbusAddress>
    ensures { result ≡ destination_in byte }
{
    if byte & 1 == 0 {
        SmbusAddress::new(byte >> 1)
    } else {
        None
    }
}

//! The packet in a frame on a serial line.

ghost use Rattle.std.specs.Prelude.{◌≡◌, Ok, Err, MatchResult};
ghost use Rattle.mctp_serial.specs.Readings.{idle};
ghost use Rattle.mctpctl_input.specs.SerialPackets.{serial_packet};

use mctp_serial::{FrameEvent, FrameReader, PacketBytes, SerialFault};

/// The packet of the frame that these bytes are, where nothing follows it.
pub(crate) fn serial_packet(bytes: &[u8]) -> Result<PacketBytes, SerialFault>
    ensures { MatchResult result
        (λ packet. serial_packet idle bytes.now ≡ Ok packet.items)
        (λ fault. serial_packet idle bytes.now ≡ Err fault) }
{
    let mut reader = FrameReader::new();
    let mut rest = bytes;
    while let [byte, after @ ..] = rest {
        rest = after;
        match reader.take(*byte) {
            FrameEvent::Nothing => {}
            FrameEvent::Packet(packet) if rest.is_empty() => return Ok(packet),
            FrameEvent::Packet(_) => return Err(SerialFault::NoEnd),
            FrameEvent::Dropped(fault) => return Err(fault),
        }
    }
    Err(SerialFault::CutShort)
}

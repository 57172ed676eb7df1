//! The frames on a serial line that carry the packets of an answer (DSP0253).

ghost use Rattle.std.specs.Prelude.{◌≡◌, ◌≤◌, length};
ghost use Rattle.std.specs.List.{flat_map};
ghost use Rattle.mctp_packet.specs.Packets.{written};
ghost use Rattle.mctp_packet.specs.Pieces.{written_packets};
ghost use Rattle.mctp_serial.specs.Frames.{frame};

use crate::AnswerBytes;
use mctp_packet::{
    BASELINE_UNIT, MAX_MESSAGE_BYTES, MAX_PACKET_BYTES, PacketRef, Route, packet_at, write,
};
use mctp_serial::{FrameBytes, frame};

/// The frames of the packets of a message on this route, one after the other.
pub(crate) fn frames_of(route: &Route, message: &[u8]) -> AnswerBytes
    requires { length message.now ≤ MAX_MESSAGE_BYTES }
    ensures { result.items ≡ flat_map frame (written_packets route.now message.now) }
{
    let mut frames = AnswerBytes::new();
    for i in 0..message.len().div_ceil(BASELINE_UNIT) {
        let Some(packet) = packet_at(route, message, i) else {
            unreachable!();
        };
        let Ok(()) = frames.try_extend_from_slice(&frame_of(&packet)) else {
            unreachable!();
        };
    }
    frames
}

/// The frame of a packet.
fn frame_of(packet: &PacketRef<'_>) -> FrameBytes
    ensures { result.items ≡ frame (written packet.now) }
{
    let _size = packet.payload(); // its contract bounds the payload, and so what `write` puts
    let mut bytes = [0; MAX_PACKET_BYTES];
    let count = write(packet, &mut bytes);
    let Some(frame) = frame(&bytes[..count]) else {
        unreachable!();
    };
    frame
}

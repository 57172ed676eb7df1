//! The frame of a packet on a serial line, with the bytes escaped that would be a flag or an escape (DSP0253).

ghost use Rattle.std.specs.Prelude.{◌≡◌, ◌↔◌, ◌++◌, ◌+◌, ◌<◌, IsSome, IfSome};
ghost use Rattle.arrayvec.specs.ArrayVec.{array_vec_len};
ghost use Rattle.mctp_serial.specs.Frames.{HasFrame, spelled, frame};

use crate::checking::check_sequence;
use crate::{ESCAPE, ESCAPED_ESCAPE, ESCAPED_FLAG, FLAG, FrameBytes, MAX_FRAME_BYTES, REVISION};
use arrayvec::ArrayVec;
use mctp_packet::MAX_PACKET_BYTES;

/// The frame of a packet's bytes, where they are 1 to `MAX_PACKET_BYTES` (DSP0253).
pub fn frame(packet: &[u8]) -> Option<FrameBytes>
    ensures some { IsSome result ↔ HasFrame packet.now }
    ensures value { IfSome result (λ bytes. bytes.items ≡ frame packet.now) }
{
    if packet.is_empty() || packet.len() > MAX_PACKET_BYTES {
        return None;
    }
    let mut bytes = ArrayVec::new();
    bytes.push(FLAG);
    bytes.push(REVISION);
    bytes.push(packet.len() as u8);
    for byte in packet {
        spell(*byte, &mut bytes);
    }
    let [high, low] = check_sequence(packet).to_be_bytes();
    bytes.push(high);
    bytes.push(low);
    bytes.push(FLAG);
    Some(bytes)
}

/// Adds a byte of the packet, escaped where it is a flag or an escape.
fn spell(byte: u8, bytes: &mut FrameBytes)
    requires { array_vec_len bytes.old + 1 < MAX_FRAME_BYTES }
    ensures { bytes.new.items ≡ bytes.old.items ++ spelled byte }
{
    match byte {
        FLAG => {
            bytes.push(ESCAPE);
            bytes.push(ESCAPED_FLAG);
        }
        ESCAPE => {
            bytes.push(ESCAPE);
            bytes.push(ESCAPED_ESCAPE);
        }
        _ => bytes.push(byte),
    }
}

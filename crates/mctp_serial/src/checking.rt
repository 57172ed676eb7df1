//! The frame check sequence (DSP0253), which is FCS-16 of RFC 1662 without its final complement.

ghost use Rattle.std.specs.Prelude.{◌≡◌, ◌≤◌, length};
ghost use Rattle.mctp_serial.specs.CheckSequences.{bit_further, byte_further, check_sequence};

use crate::{POLYNOMIAL, REVISION, START_REGISTER};
use mctp_packet::MAX_PACKET_BYTES;

/// The check sequence of a packet's frame: over the revision, the count and the packet.
pub(crate) fn check_sequence(packet: &[u8]) -> u16
    requires { length packet.now ≤ MAX_PACKET_BYTES }
    ensures { result ≡ check_sequence packet.now }
{
    let mut register = byte_further(START_REGISTER, REVISION);
    register = byte_further(register, packet.len() as u8);
    for byte in packet {
        register = byte_further(register, *byte);
    }
    register
}

/// The register after one more byte.
fn byte_further(register: u16, byte: u8) -> u16
    ensures { result ≡ byte_further register byte }
{
    let mut shifted = register ^ u16::from(byte);
    for _ in 0..u8::BITS {
        shifted = bit_further(shifted);
    }
    shifted
}

/// The register after one more bit.
#[tactic(auto, unfolding(crate::specs::CheckSequences::bit_further))]
fn bit_further(register: u16) -> u16
    ensures { result ≡ bit_further register }
{
    if register & 1 == 1 {
        register >> 1 ^ POLYNOMIAL
    } else {
        register >> 1
    }
}

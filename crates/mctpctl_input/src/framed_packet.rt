//! The packet in a frame of any binding.

ghost use Rattle.std.specs.Prelude.{◌≡◌, Ok, Err, MatchResult};
ghost use Rattle.mctpctl_input.specs.Bindings.{bytes_of, direction_in, i3c_packet, packet_of};

use crate::binding::Binding;
use crate::block_write::smbus_packet;
use crate::frame_fault::FrameFault;
use crate::serial_frame::serial_packet;
use mctp_i2c::DynamicAddress;
use mctp_i2c::i3c::{self, Direction};

/// The bytes of a packet, which a serial line has escaped and the others have as they are.
#[derive(Debug, Drop)]
pub enum PacketBytes<'a> {
    /// A slice of the frame.
    Slice(&'a [u8]),
    /// The bytes by themselves.
    Unescaped(mctp_serial::PacketBytes),
}

impl<'a> PacketBytes<'a> {
    /// The bytes.
    pub fn as_slice(&self) -> &[u8]
        ensures { result.now ≡ bytes_of self.now }
    {
        match self {
            PacketBytes::Slice(bytes) => bytes,
            PacketBytes::Unescaped(bytes) => bytes,
        }
    }
}

/// The packet whose frame these bytes are, or why they are none. A frame may go to any address: it is the one that
/// it begins with.
pub fn packet_of(binding: Binding, bytes: &[u8]) -> Result<PacketBytes<'_>, FrameFault>
    ensures { MatchResult result
        (λ packet. packet_of binding bytes.now ≡ Ok (bytes_of packet))
        (λ fault. packet_of binding bytes.now ≡ Err fault) }
{
    match binding {
        Binding::I2c => match smbus_packet(bytes) {
            Ok(packet) => Ok(PacketBytes::Slice(packet)),
            Err(fault) => Err(FrameFault::I2c(fault)),
        },
        Binding::I3c => match i3c_packet(bytes) {
            Ok(packet) => Ok(PacketBytes::Slice(packet)),
            Err(fault) => Err(FrameFault::I3c(fault)),
        },
        Binding::Serial => match serial_packet(bytes) {
            Ok(packet) => Ok(PacketBytes::Unescaped(packet)),
            Err(fault) => Err(FrameFault::Serial(fault)),
        },
    }
}

/// The packet in a transfer on I3C, whose target and direction are in its first byte.
fn i3c_packet(bytes: &[u8]) -> Result<&[u8], i3c::I3cFault>
    ensures { MatchResult result
        (λ packet. i3c_packet bytes.now ≡ Ok packet.now)
        (λ fault. i3c_packet bytes.now ≡ Err fault) }
{
    let [first, frame @ ..] = bytes else {
        return Err(i3c::I3cFault::Short);
    };
    let Some(address) = DynamicAddress::new(*first >> 1) else {
        unreachable!();
    };
    i3c::read(address, direction_in(*first), frame)
}

/// The direction that an address byte of I3C begins.
fn direction_in(first: u8) -> Direction
    ensures { result ≡ direction_in first }
{
    if first & 1 == 1 {
        Direction::Read
    } else {
        Direction::Write
    }
}

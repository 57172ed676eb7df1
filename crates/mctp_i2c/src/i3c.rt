//! Packets on I3C (DSP0233): each is a private write to a target, or a private read from it.
//!
//! A frame is the packet and its PEC: the bytes that a controller hands over on either side. The address byte
//! is not among them, though the PEC covers it.

ghost use Rattle.std.specs.Prelude.{◌≡◌, ◌↔◌, ℕ, List, Some, Ok, Err, IsOk, IfOk, IfErr, IsOkAnd, MatchResult};
ghost use Rattle.mctp_i2c.specs.Packets.{HasFrame, IsLengthFault};
ghost use Rattle.mctp_i2c.specs.I3cFrames.{address_byte, frame};
ghost use Rattle.mctp_i2c.specs.I3cReadings.{IsFrameOf, refusal, reading};
ghost use Rattle.mctp_i2c.specs.I3cFaults.{number_of, name_of};

use crate::packet_length::check_length;
use crate::pec::pec;
use crate::{DynamicAddress, LengthFault, MAX_PACKET_BYTES, MIN_PACKET_BYTES};
use arrayvec::ArrayVec;

/// The fewest bytes that are read: a packet's header and the PEC.
pub const MIN_FRAME_BYTES: usize = MIN_PACKET_BYTES + 1;

/// The most bytes of a frame that is written.
pub const MAX_FRAME_BYTES: usize = MAX_PACKET_BYTES + 1;

/// The bytes of one frame, at most [`MAX_FRAME_BYTES`].
pub type FrameBytes = ArrayVec<u8, MAX_FRAME_BYTES>;

/// The way of a transfer between a controller and a target.
#[derive(Clone, Copy, Debug, PartialEq, Eq)]
pub enum Direction {
    /// A private write: to the target.
    Write,
    /// A private read: from the target.
    Read,
}

/// Why bytes are no frame of a packet.
#[derive(Clone, Copy, Debug, PartialEq, Eq)]
pub enum I3cFault {
    /// 1: fewer than [`MIN_FRAME_BYTES`].
    Short,
    /// 2: a PEC other than that of the address byte and the bytes before it.
    WrongPec,
}

impl I3cFault {
    /// Its number in this crate's list, 1 or 2, which is the order in which they are looked for.
    pub fn number(self) -> u8
        ensures { result ≡ number_of self }
    {
        match self {
            I3cFault::Short => 1,
            I3cFault::WrongPec => 2,
        }
    }

    /// Its name, as logs print it.
    pub fn name(self) -> &'static str
        ensures { result.now ≡ name_of self }
    {
        match self {
            I3cFault::Short => "Short",
            I3cFault::WrongPec => "WrongPec",
        }
    }
}

/// The frame of a packet's bytes in a transfer to or from the target of this address, where they are
/// `MIN_PACKET_BYTES` to `MAX_PACKET_BYTES` (DSP0233); else `TooShort` for fewer bytes, and `TooLong` for more.
pub fn frame(
    address: DynamicAddress,
    direction: Direction,
    packet: &[u8],
) -> Result<FrameBytes, LengthFault>
    ensures framed { IsOk result ↔ HasFrame packet.now }
    ensures bytes { IfOk result (λ bytes. bytes.items ≡ frame address direction packet.now) }
    ensures refused { IfErr result (λ fault. IsLengthFault fault packet.now) }
{
    check_length(packet)?;
    let mut bytes = FrameBytes::new();
    bytes.try_extend_from_slice(packet).unwrap();
    bytes.push(pec(address_byte(address, direction), packet));
    Ok(bytes)
}

/// The packet whose frame these bytes are, in a transfer to or from the target of this address; or the first
/// reason for which they are none: `Short`, `WrongPec` (DSP0233). The packet is the slice of the bytes that were
/// read, and has no upper limit here.
pub fn read(address: DynamicAddress, direction: Direction, bytes: &[u8]) -> Result<&[u8], I3cFault>
    ensures found { IfOk result (λ packet. IsFrameOf address direction packet.now bytes.now) }
    ensures every { (packet : List ℕ)
        → IsFrameOf address direction packet bytes.now → IsOkAnd result (λ p. p.now ≡ packet) }
    ensures refused { IfErr result (λ fault. refusal address direction bytes.now ≡ Some fault) }
    ensures answer { MatchResult result
        (λ packet. reading address direction bytes.now ≡ Ok packet.now)
        (λ fault. reading address direction bytes.now ≡ Err fault) }
{
    let [packet @ .., sent] = bytes else {
        return Err(I3cFault::Short);
    };
    if packet.len() < MIN_PACKET_BYTES {
        return Err(I3cFault::Short);
    }
    if *sent != pec(address_byte(address, direction), packet) {
        return Err(I3cFault::WrongPec);
    }
    Ok(packet)
}

/// The address byte of a transfer: the address, and a bit that is set in a read.
fn address_byte(address: DynamicAddress, direction: Direction) -> u8
    ensures { result ≡ address_byte address direction }
{
    match direction {
        Direction::Write => address.get() << 1,
        Direction::Read => address.get() << 1 | 1,
    }
}

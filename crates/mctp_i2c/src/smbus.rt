//! Packets on SMBus and I2C (DSP0237): each is a block write of the device that sends it.
//!
//! A frame is all bytes of the block write, from the destination's address byte to the PEC. Some controllers
//! do not hand the address byte to the program, whether they send or receive. When they send, leave out the
//! first byte of [`frame`]; when they receive, put the own address's `write_byte` before the bytes for [`read`].

ghost use Rattle.std.specs.Prelude.{◌≡◌, ◌↔◌, Ok, Some, IsOk, IfOk, IfErr};
ghost use Rattle.mctp_i2c.specs.Packets.{HasFrame, IsLengthFault};
ghost use Rattle.mctp_i2c.specs.SmbusFrames.{frame};
ghost use Rattle.mctp_i2c.specs.SmbusReadings.{Received as Reading, IsFrameTo, refusal, reading, source_in};
ghost use Rattle.mctp_i2c.specs.SmbusFaults.{number_of, name_of};

use crate::packet_length::check_length;
use crate::{LengthFault, MAX_PACKET_BYTES, SmbusAddress};
use arrayvec::ArrayVec;
use pldm_wire::crc8;
use std::marker::Model;

/// The command code of MCTP (DSP0237).
pub const COMMAND_CODE: u8 = 0x0F;

/// The bytes before a packet: the destination's address byte, the command code, the byte count and the
/// source's address byte.
pub const FRAME_HEADER: usize = 4;

/// The fewest bytes that are read: those before a packet, one of the packet, and the PEC.
pub const MIN_FRAME_BYTES: usize = FRAME_HEADER + 2;

/// The most bytes of a frame.
pub const MAX_FRAME_BYTES: usize = FRAME_HEADER + MAX_PACKET_BYTES + 1;

/// The bytes of one frame, at most [`MAX_FRAME_BYTES`].
pub type FrameBytes = ArrayVec<u8, MAX_FRAME_BYTES>;

/// Why bytes are no frame of a packet to an address.
#[derive(Clone, Copy, Debug, PartialEq, Eq)]
pub enum SmbusFault {
    /// 1: fewer than [`MIN_FRAME_BYTES`].
    Short,
    /// 2: a first byte that is not the own address for a write.
    NotOurs,
    /// 3: a command code other than MCTP's.
    OtherCommand,
    /// 4: a byte count other than that of the bytes after it and before the PEC.
    WrongCount,
    /// 5: a source byte with bit 0 clear, or with no address of a device before it.
    NotSource,
    /// 6: a PEC other than that of the bytes before it.
    WrongPec,
}

impl SmbusFault {
    /// Its number in this crate's list, 1 to 6, which is the order in which they are looked for.
    pub fn number(self) -> u8
        ensures { result ≡ number_of self }
    {
        match self {
            SmbusFault::Short => 1,
            SmbusFault::NotOurs => 2,
            SmbusFault::OtherCommand => 3,
            SmbusFault::WrongCount => 4,
            SmbusFault::NotSource => 5,
            SmbusFault::WrongPec => 6,
        }
    }

    /// Its name, as logs print it.
    pub fn name(self) -> &'static str
        ensures { result.now ≡ name_of self }
    {
        match self {
            SmbusFault::Short => "Short",
            SmbusFault::NotOurs => "NotOurs",
            SmbusFault::OtherCommand => "OtherCommand",
            SmbusFault::WrongCount => "WrongCount",
            SmbusFault::NotSource => "NotSource",
            SmbusFault::WrongPec => "WrongPec",
        }
    }
}

/// What a frame carries: the address that it comes from, and the bytes of its packet, borrowed.
#[derive(Debug, Drop)]
pub struct Received<'a> {
    source: SmbusAddress,
    packet: &'a [u8],
}

impl<'a> Model for Received<'a> {
    ghost use Rattle.mctp_i2c.specs.SmbusReadings.{Received};

    ghost Value = { Received };

    ghost view = { λ r. record { source = r.source; packet = r.packet.now } };
}

impl<'a> Received<'a> {
    ghost use Rattle.std.specs.Prelude.{◌≡◌};

    /// The address that the frame comes from.
    pub fn source(&self) -> SmbusAddress
        ensures { result ≡ self.now.source }
    {
        self.source
    }

    /// The bytes of the packet: the slice of the bytes that were read.
    pub fn packet(&self) -> &'a [u8]
        ensures { result.now ≡ self.now.packet }
    {
        self.packet
    }
}

/// The frame of a packet's bytes, where they are `MIN_PACKET_BYTES` to `MAX_PACKET_BYTES` (DSP0237); else
/// `TooShort` for fewer bytes, and `TooLong` for more.
pub fn frame(
    source: SmbusAddress,
    destination: SmbusAddress,
    packet: &[u8],
) -> Result<FrameBytes, LengthFault>
    ensures framed { IsOk result ↔ HasFrame packet.now }
    ensures bytes { IfOk result (λ bytes. bytes.items ≡ frame source destination packet.now) }
    ensures refused { IfErr result (λ fault. IsLengthFault fault packet.now) }
{
    check_length(packet)?;
    let mut bytes = FrameBytes::new();
    bytes.push(destination.write_byte());
    bytes.push(COMMAND_CODE);
    bytes.push(packet.len() as u8 + 1);
    bytes.push(source.get() << 1 | 1);
    bytes.try_extend_from_slice(packet).unwrap();
    bytes.push(crc8(&bytes));
    Ok(bytes)
}

/// The packet whose frame to the own address these bytes are, and the address that it comes from; or the
/// first reason for which they are none: `Short`, `NotOurs`, `OtherCommand`, `WrongCount`, `NotSource`,
/// `WrongPec` (DSP0237; the order is this crate's own).
pub fn read(own: SmbusAddress, bytes: &[u8]) -> Result<Received<'_>, SmbusFault>
    ensures found { IfOk result (λ received. IsFrameTo own received bytes.now) }
    ensures every { (received : Reading) → IsFrameTo own received bytes.now → result ≡ Ok received }
    ensures refused { IfErr result (λ fault. refusal own bytes.now ≡ Some fault) }
    ensures answer { result ≡ reading own bytes.now }
{
    read_in_turn(own, bytes)
}

/// As `read`, check by check.
fn read_in_turn(own: SmbusAddress, bytes: &[u8]) -> Result<Received<'_>, SmbusFault>
    ensures refused { IfErr result (λ fault. refusal own bytes.now ≡ Some fault) }
    ensures answer { result ≡ reading own bytes.now }
{
    let [destination, command, count, source, packet @ .., pec] = bytes else {
        return Err(SmbusFault::Short);
    };
    if packet.is_empty() {
        return Err(SmbusFault::Short);
    }
    if *destination != own.write_byte() {
        return Err(SmbusFault::NotOurs);
    }
    if *command != COMMAND_CODE {
        return Err(SmbusFault::OtherCommand);
    }
    if usize::from(*count) != 1 + packet.len() {
        return Err(SmbusFault::WrongCount);
    }
    let Some(source) = source_in(*source) else {
        return Err(SmbusFault::NotSource);
    };
    if *pec != crc8(&bytes[..bytes.len() - 1]) {
        return Err(SmbusFault::WrongPec);
    }
    Ok(Received { source, packet })
}

/// The source that this byte names: its address, before a bit that is set.
fn source_in(byte: u8) -> Option<SmbusAddress>
    ensures { result ≡ source_in byte }
{
    if byte & 1 == 1 {
        SmbusAddress::new(byte >> 1)
    } else {
        None
    }
}

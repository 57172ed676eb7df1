//! What is read of a frame on SMBus and I2C (DSP0237) and on I3C (DSP0233), as it crosses to C.

ghost use Rattle.std.specs.Prelude.{◌≡◌};
ghost use Rattle.mctp_i2c.specs.SmbusReadings.{reading};
ghost use Rattle.mctp_i2c.specs.I3cReadings.{reading as i3c_reading};
ghost use Rattle.needleoat_wire_c.specs.BusFrames.{ReportsI2cFrame, ReportsI3cFrame, direction_of};
ghost use Rattle.needleoat_forms.specs.Messages.{reported_length};

use mctp_i2c::i3c::Direction;
use mctp_i2c::smbus::FRAME_HEADER;
use mctp_i2c::{DynamicAddress, SmbusAddress, i3c, smbus};

/// The `fault` of a frame that is read at an address that is none.
pub const NOT_AN_ADDRESS: u8 = 255;

/// Where a packet is in its frame on SMBus or I2C, and the address that it comes from; or why the bytes are no
/// frame (DSP0237).
#[repr(C)]
#[derive(Drop)]
pub struct I2cFrameFields {
    /// 0, or the number of the first fault, 1 to 6, or [`NOT_AN_ADDRESS`]. Where it is not 0, the other fields
    /// have no meaning.
    pub fault: u8,
    /// The 7-bit address that the frame comes from, 0x08 to 0x77.
    pub source_address: u8,
    /// The place of the packet's first byte in the frame: 4.
    pub packet_start: u32,
    /// The length of the packet in bytes, 1 to 254.
    pub packet_length: u32,
}

// As in `include/needleoat.h`.
const _: () = prove!(size_of::<I2cFrameFields>() == 12);

/// The length of the packet in front of the bytes of a transfer on I3C, or why they are no frame (DSP0233).
#[repr(C)]
#[derive(Drop)]
pub struct I3cFrameFields {
    /// 0, or the number of the first fault, 1 or 2, or [`NOT_AN_ADDRESS`]. Where it is not 0, the other field
    /// has no meaning.
    pub fault: u8,
    /// The length of the packet in bytes, 4 or more; of 2^32 bytes or more, 2^32 - 1.
    pub packet_length: u32,
}

// As in `include/needleoat.h`.
const _: () = prove!(size_of::<I3cFrameFields>() == 8);

impl I2cFrameFields {
    /// The report of bytes that are no frame.
    pub(crate) fn refused(fault: u8) -> I2cFrameFields
        ensures { result.fault ≡ fault }
    {
        I2cFrameFields {
            fault,
            source_address: 0,
            packet_start: 0,
            packet_length: 0,
        }
    }

    /// The report of bytes that are read by the device of an address.
    pub(crate) fn of(own: SmbusAddress, bytes: &[u8]) -> I2cFrameFields
        ensures { ReportsI2cFrame bytes.now (reading own bytes.now) result }
    {
        match smbus::read(own, bytes) {
            Ok(received) => I2cFrameFields {
                fault: 0,
                source_address: received.source().get(),
                packet_start: FRAME_HEADER as u32,
                packet_length: received.packet().len() as u32,
            },
            Err(fault) => I2cFrameFields::refused(fault.number()),
        }
    }
}

impl I3cFrameFields {
    /// The report of bytes that are no frame.
    pub(crate) fn refused(fault: u8) -> I3cFrameFields
        ensures { result.fault ≡ fault }
    {
        I3cFrameFields {
            fault,
            packet_length: 0,
        }
    }

    /// The report of the bytes of a transfer to or from the target of an address.
    pub(crate) fn of(address: DynamicAddress, is_read: bool, bytes: &[u8]) -> I3cFrameFields
        ensures { ReportsI3cFrame bytes.now (i3c_reading address (direction_of is_read) bytes.now) result }
    {
        match i3c::read(address, direction_of(is_read), bytes) {
            Ok(packet) => I3cFrameFields {
                fault: 0,
                packet_length: reported_length(packet),
            },
            Err(fault) => I3cFrameFields::refused(fault.number()),
        }
    }
}

/// The way of a transfer, as C passes it.
pub(crate) fn direction_of(is_read: bool) -> Direction
    ensures { result ≡ direction_of is_read }
{
    if is_read {
        Direction::Read
    } else {
        Direction::Write
    }
}

/// The length of a packet, as it is reported.
fn reported_length(packet: &[u8]) -> u32
    ensures { result ≡ reported_length packet.now }
{
    u32::try_from(packet.len()).unwrap_or(u32::MAX)
}

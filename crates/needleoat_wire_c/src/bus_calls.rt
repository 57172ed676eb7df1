//! Packets on SMBus and I2C (DSP0237) and on I3C (DSP0233): the calls that write and read their frames.

ghost use Rattle.std.specs.Prelude.{◌≡◌, ◌≤◌, length};
ghost use Rattle.mctp_i2c.specs.Addresses.{IsSmbusAddress, IsDynamicAddress};
ghost use Rattle.mctp_i2c.specs.SmbusFrames.{frame};
ghost use Rattle.mctp_i2c.specs.SmbusReadings.{reading};
ghost use Rattle.mctp_i2c.specs.I3cFrames.{frame as i3c_frame};
ghost use Rattle.mctp_i2c.specs.I3cReadings.{reading as i3c_reading};
ghost use Rattle.mctp_i2c.specs.declared.smbus.TheConstants.{MAX_FRAME_BYTES};
ghost use Rattle.needleoat_forms.specs.Written.{HasFront, IsUntouched};
ghost use Rattle.needleoat_wire_c.specs.BusFrames.{HasI2cFrame, HasI3cFrame, ReportsI2cFrame, ReportsI3cFrame};
ghost use Rattle.needleoat_wire_c.specs.BusFrames.{direction_of};

use crate::bus_forms::{I2cFrameFields, I3cFrameFields, NOT_AN_ADDRESS, direction_of};
use mctp_i2c::{DynamicAddress, SmbusAddress, i3c, smbus};

/// Writes the frame of a packet on SMBus or I2C to the front of `out`, and returns its length in bytes
/// (DSP0237). Returns 0 and leaves `out` as it was where an address is not 0x08 to 0x77, and where the packet
/// has fewer than 4 bytes or more than 254.
#[unsafe(no_mangle)]
pub extern "C" fn needleoat_i2c_write(
    source_address: u8,
    destination_address: u8,
    packet: &[u8],
    out: &mut [u8; smbus::MAX_FRAME_BYTES],
) -> u32
    ensures written { HasI2cFrame source_address destination_address packet.now
        → HasFront (frame source_address destination_address packet.now) result out.old out.new }
    ensures refused { (HasI2cFrame source_address destination_address packet.now → ⊥)
        → IsUntouched result out.old out.new }
{
    let (Some(source), Some(destination)) = (
        SmbusAddress::new(source_address),
        SmbusAddress::new(destination_address),
    ) else {
        return 0;
    };
    match smbus::frame(source, destination, packet) {
        Ok(bytes) => put_front(out, &bytes),
        Err(_) => 0,
    }
}

/// Reads the bytes of a block write at the device of the address `own_address`. The first check that fails
/// names the fault (DSP0237).
#[unsafe(no_mangle)]
pub extern "C" fn needleoat_i2c_read(own_address: u8, bytes: &[u8]) -> I2cFrameFields
    ensures frame { IsSmbusAddress own_address
        → ReportsI2cFrame bytes.now (reading own_address bytes.now) result }
    ensures no_address { (IsSmbusAddress own_address → ⊥) → result.fault ≡ NOT_AN_ADDRESS }
{
    match SmbusAddress::new(own_address) {
        Some(own) => I2cFrameFields::of(own, bytes),
        None => I2cFrameFields::refused(NOT_AN_ADDRESS),
    }
}

/// Writes the frame of a packet in a transfer on I3C to the front of `out`, and returns its length in bytes
/// (DSP0233). Returns 0 and leaves `out` as it was where the target's dynamic address is above 0x7F, and where
/// the packet has fewer than 4 bytes or more than 254.
#[unsafe(no_mangle)]
pub extern "C" fn needleoat_i3c_write(
    address: u8,
    is_read: bool,
    packet: &[u8],
    out: &mut [u8; i3c::MAX_FRAME_BYTES],
) -> u32
    ensures written { HasI3cFrame address packet.now
        → HasFront (i3c_frame address (direction_of is_read) packet.now) result out.old out.new }
    ensures refused { (HasI3cFrame address packet.now → ⊥) → IsUntouched result out.old out.new }
{
    let Some(address) = DynamicAddress::new(address) else {
        return 0;
    };
    match i3c::frame(address, direction_of(is_read), packet) {
        Ok(bytes) => put_front(out, &bytes),
        Err(_) => 0,
    }
}

/// Reads the bytes of a transfer to or from the target of this dynamic address on I3C. The first check that
/// fails names the fault (DSP0233).
#[unsafe(no_mangle)]
pub extern "C" fn needleoat_i3c_read(address: u8, is_read: bool, bytes: &[u8]) -> I3cFrameFields
    ensures frame { IsDynamicAddress address
        → ReportsI3cFrame bytes.now (i3c_reading address (direction_of is_read) bytes.now) result }
    ensures no_address { (IsDynamicAddress address → ⊥) → result.fault ≡ NOT_AN_ADDRESS }
{
    match DynamicAddress::new(address) {
        Some(address) => I3cFrameFields::of(address, is_read, bytes),
        None => I3cFrameFields::refused(NOT_AN_ADDRESS),
    }
}

/// Writes the bytes of a frame to the front of a room that has place for them, and returns their count.
fn put_front(room: &mut [u8], bytes: &[u8]) -> u32
    requires fits { length bytes.now ≤ length room.old }
    requires frame { length bytes.now ≤ MAX_FRAME_BYTES }
    ensures { HasFront bytes.now result room.old room.new }
{
    room[..bytes.len()].copy_from_slice(bytes);
    bytes.len() as u32
}

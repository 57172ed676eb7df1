//! MCTP packets on SMBus and I2C (DSP0237), and on I3C (DSP0233): the frame of a packet, and the packet that
//! bytes are the frame of.
#![tactic(auto)]

mod address;
pub mod i3c;
pub mod laws;
mod packet_length;
mod pec;
pub mod smbus;

pub use address::{DynamicAddress, SmbusAddress};
use mctp_packet::HEADER;
pub use packet_length::LengthFault;

/// The first 7-bit address of SMBus that a device may have: those before it are reserved.
pub const MIN_SMBUS_ADDRESS: u8 = 0x08;

/// The last 7-bit address of SMBus that a device may have: those after it are reserved.
pub const MAX_SMBUS_ADDRESS: u8 = 0x77;

/// The last dynamic address of I3C: it has seven bits.
pub const MAX_DYNAMIC_ADDRESS: u8 = 0x7F;

/// The fewest bytes of a packet that is framed: those of its header (DSP0236, "MCTP packet fields").
pub const MIN_PACKET_BYTES: usize = HEADER;

/// The most bytes of a packet that is framed. SMBus counts them in one byte, and the source address with
/// them.
pub const MAX_PACKET_BYTES: usize = 254;

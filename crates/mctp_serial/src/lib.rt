//! MCTP packets on a serial line (DSP0253): the frame of a packet, and a reader that finds packets in
//! whatever bytes come.
#![tactic(auto)]

mod checking;
mod fault;
mod frames;
pub mod laws;
mod reader;

use arrayvec::ArrayVec;
pub use fault::SerialFault;
pub use frames::frame;
use mctp_packet::MAX_PACKET_BYTES;
pub use reader::{FrameEvent, FrameReader};

/// The framing flag, which stands before and after a frame.
pub const FLAG: u8 = 0x7E;

/// The escape, which stands before the second byte of an escaped one.
pub const ESCAPE: u8 = 0x7D;

/// What stands after the escape for a flag in the packet.
pub const ESCAPED_FLAG: u8 = 0x5E;

/// What stands after the escape for an escape in the packet.
pub const ESCAPED_ESCAPE: u8 = 0x5D;

/// The revision of the frame's format.
pub const REVISION: u8 = 0x01;

/// The bytes of a frame beside those of its packet: two flags, the revision, the count and the two of
/// the check sequence.
pub const FRAMING: usize = 6;

/// The most bytes of a frame: each byte of its packet may be escaped.
pub const MAX_FRAME_BYTES: usize = FRAMING + 2 * MAX_PACKET_BYTES;

/// The register of the check sequence before the first byte.
pub const START_REGISTER: u16 = 0xFFFF;

/// The polynomial x^16 + x^12 + x^5 + 1 of the check sequence without its first term, the highest
/// power in the lowest bit.
pub const POLYNOMIAL: u16 = 0x8408;

/// The bytes of one packet, at most `MAX_PACKET_BYTES`.
pub type PacketBytes = ArrayVec<u8, MAX_PACKET_BYTES>;

/// The bytes of one frame, at most [`MAX_FRAME_BYTES`].
pub type FrameBytes = ArrayVec<u8, MAX_FRAME_BYTES>;

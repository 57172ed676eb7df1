//! MCTP packets (DSP0236): endpoint IDs, tags, moments, the packet's bytes both ways, and a
//! message cut into packets.
#![tactic(auto)]

mod codec;
mod flags;
mod ids;
pub mod laws;
mod memory;
mod packet;
mod pieces;
mod reason;
mod times;

use arrayvec::ArrayVec;
pub use codec::{header_of, read, read_for, reason_without_eid, write};
pub use ids::{Eid, Seq, Tag};
pub use memory::Memory;
pub use packet::{PacketRef, Route};
pub use pieces::{Packets, SplitFault, packet_at, split, split_into};
pub use reason::Reason;
pub use times::{Keep, Moment};

/// The null endpoint ID: that of an endpoint which has none yet (DSP0236, "Special endpoint IDs").
pub const NULL_EID: u8 = 0;

/// The first endpoint ID that is neither null nor reserved (DSP0236, "Special endpoint IDs").
pub const MIN_EID: u8 = 8;

/// The last endpoint ID before the broadcast one (DSP0236, "Special endpoint IDs").
pub const MAX_EID: u8 = 254;

/// How many message tags there are (DSP0236, "MCTP packet fields").
pub const TAGS: u8 = 8;

/// The last moment, in milliseconds.
pub const MAX_MOMENT: u64 = 4_000_000_000_000_000;

/// The longest time for which an answer is kept, in milliseconds.
pub const MAX_KEEP: u32 = 60_000;

/// The most packets that one message may have in this profile.
pub const MAX_PACKETS: usize = 5;

/// The most payload bytes of one packet, the header not counted: DSP0236's baseline transmission
/// unit.
pub const BASELINE_UNIT: usize = 64;

/// How many packet sequence numbers there are: they are counted modulo this (DSP0236, "MCTP packet
/// fields").
pub const SEQUENCE_NUMBERS: u8 = 4;

/// The header version of a packet (DSP0236, "MCTP packet fields").
pub const VERSION: u8 = 1;

/// The bytes of a packet's header (DSP0236, "MCTP packet fields").
pub const HEADER: usize = 4;

/// The most bytes of a packet, header and payload.
pub const MAX_PACKET_BYTES: usize = HEADER + BASELINE_UNIT;

/// The most bytes of one message: as many as its packets carry.
pub const MAX_MESSAGE_BYTES: usize = MAX_PACKETS * BASELINE_UNIT;

/// The bytes of a message, at most [`MAX_MESSAGE_BYTES`].
pub type Body = ArrayVec<u8, MAX_MESSAGE_BYTES>;

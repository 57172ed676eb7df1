//! How long a packet that is framed may be.

ghost use Rattle.std.specs.Prelude.{◌≡◌, ◌↔◌, IsOk, IfErr};
ghost use Rattle.mctp_i2c.specs.Packets.{HasFrame, IsLengthFault, number_of_length_fault, name_of_length_fault};

use crate::{MAX_PACKET_BYTES, MIN_PACKET_BYTES};

/// Why a packet has no frame.
#[derive(Clone, Copy, Debug, PartialEq, Eq)]
pub enum LengthFault {
    /// 1: fewer bytes than a packet's header.
    TooShort,
    /// 2: more bytes than a frame carries.
    TooLong,
}

impl LengthFault {
    /// Its number in this crate's list, 1 or 2.
    pub fn number(self) -> u8
        ensures { result ≡ number_of_length_fault self }
    {
        match self {
            LengthFault::TooShort => 1,
            LengthFault::TooLong => 2,
        }
    }

    /// Its name, as logs print it.
    pub fn name(self) -> &'static str
        ensures { result.now ≡ name_of_length_fault self }
    {
        match self {
            LengthFault::TooShort => "TooShort",
            LengthFault::TooLong => "TooLong",
        }
    }
}

/// Whether a packet of these bytes has a frame, or why it has none.
pub(crate) fn check_length(packet: &[u8]) -> Result<(), LengthFault>
    ensures framed { IsOk result ↔ HasFrame packet.now }
    ensures refused { IfErr result (λ fault. IsLengthFault fault packet.now) }
{
    if packet.len() < MIN_PACKET_BYTES {
        return Err(LengthFault::TooShort);
    }
    if packet.len() > MAX_PACKET_BYTES {
        return Err(LengthFault::TooLong);
    }
    Ok(())
}

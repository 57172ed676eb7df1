//! The fourth byte of a packet's header, part by part (DSP0236, "MCTP packet fields").

ghost use Rattle.std.specs.Prelude.{◌≡◌, ◌/◌, ◌%◌};
ghost use Rattle.mctp_packet.specs.Flags.{flags_byte};
ghost use Rattle.mctp_packet.specs.Bits.{is_set};

use crate::{Seq, Tag};

/// The fourth byte of a packet's header, part by part (DSP0236, "MCTP packet fields").
#[derive(Clone, Copy)]
pub(crate) struct Flags {
    /// SOM, bit 7.
    pub start: bool,
    /// EOM, bit 6.
    pub end: bool,
    /// The sequence number, bits 5:4.
    pub seq: Seq,
    /// TO, bit 3.
    pub owner: bool,
    /// The message tag, bits 2:0.
    pub tag: Tag,
}

/// The parts of this byte.
pub(crate) fn flags_in(byte: u8) -> Flags
    ensures start { result.start ≡ is_set byte 7 }
    ensures end { result.end ≡ is_set byte 6 }
    ensures seq { result.seq ≡ byte / 16 % 4 }
    ensures owner { result.owner ≡ is_set byte 3 }
    ensures tag { result.tag ≡ byte % 8 }
    ensures byte { flags_byte result ≡ byte }
{
    let (Some(seq), Some(tag)) = (Seq::new(byte >> 4 & 3), Tag::new(byte & 7)) else {
        unreachable!()
    };
    Flags {
        start: byte >> 7 & 1 == 1,
        end: byte >> 6 & 1 == 1,
        seq,
        owner: byte >> 3 & 1 == 1,
        tag,
    }
}

/// The byte of these parts.
pub(crate) fn byte_of(flags: Flags) -> u8
    ensures { result ≡ flags_byte flags }
{
    let low = u8::from(flags.owner) << 3 | flags.tag.get();
    let number = flags.seq.get() << 4 | low;
    let end = u8::from(flags.end) << 6 | number;
    u8::from(flags.start) << 7 | end
}

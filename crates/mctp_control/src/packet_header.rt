//! The first and the fourth byte of the header of a packet that has a whole control message (DSP0236, "MCTP packet
//! fields").

// `mctp_packet` reads and writes flags with a `Route` alone, which has no null endpoint ID, so they are done here.

ghost use Rattle.std.specs.Prelude.{◌≡◌, ◌%◌, ◌==◌};
ghost use Rattle.mctp_packet.specs.declared.TheConstants.{VERSION};
ghost use Rattle.mctp_control.specs.LinkQueries.{is_whole_answer, request_flags};
ghost use Rattle.mctp_control.specs.Packets.{is_whole_request, reply_flags};

use mctp_packet::{TAGS, Tag, VERSION};

/// The header version, the four lowest bits of the first byte. The others are reserved.
const VERSION_BITS: u8 = 0x0f;

/// The lower one of the bits SOM and EOM, the two highest of the fourth byte.
const ENDS_SHIFT: u8 = 6;

/// SOM and EOM both set: the packet starts a message and ends it.
const WHOLE_MESSAGE: u8 = 0b11;

/// The bit TO of the fourth byte, above the message tag: the source of the packet chose the tag.
const TAG_OWNER_SHIFT: u8 = 3;

/// Whether a packet with this first byte has the header version of this work.
pub(crate) fn has_version(first: u8) -> bool
    ensures { result ≡ (first % 16 == VERSION) }
{
    first & VERSION_BITS == VERSION
}

/// Whether these are the flags of a whole message on a tag of its source.
pub(crate) fn is_whole_request(flags: u8) -> bool
    ensures { result ≡ is_whole_request flags }
{
    flags >> ENDS_SHIFT == WHOLE_MESSAGE && flags >> TAG_OWNER_SHIFT & 1 == 1
}

/// The flags of the packet that answers one with these: a whole message on the same tag, which its source did not
/// choose.
pub(crate) fn reply_flags(flags: u8) -> u8
    ensures { result ≡ reply_flags flags }
{
    (WHOLE_MESSAGE << ENDS_SHIFT) + flags % TAGS
}

/// The flags of the packet that asks on a tag: a whole message, whose source chose the tag.
pub(crate) fn request_flags(tag: Tag) -> u8
    ensures { result ≡ request_flags tag }
{
    (WHOLE_MESSAGE << ENDS_SHIFT) + (1 << TAG_OWNER_SHIFT) + tag.get()
}

/// Whether these are the flags of a whole message on this tag, which its source did not choose.
pub(crate) fn is_whole_answer(tag: Tag, flags: u8) -> bool
    ensures { result ≡ is_whole_answer tag flags }
{
    flags >> ENDS_SHIFT == WHOLE_MESSAGE && flags % (2 * TAGS) == tag.get()
}

//! The key that the packets of one message share: source, tag and tag owner bit (DSP0236, "Message assembly").

ghost use Rattle.std.specs.Prelude.{◌≡◌};
ghost use Rattle.mctp_assembly.specs.Keys.{IsKey, key_of};
ghost use Rattle.mctp_assembly.specs.Numbered.{IsNumber, number_of};

use mctp_packet::{Eid, PacketRef, TAGS, Tag};

/// Packets of one key belong to one message at a time: the key is their source, tag and tag owner bit (DSP0236,
/// "Message assembly").
#[derive(Clone, Copy, Debug, PartialEq, Eq, PartialOrd, Ord)]
pub struct Key {
    /// The endpoint that the packets come from.
    pub source: Eid,
    /// The message tag.
    pub tag: Tag,
    /// The tag owner bit, TO.
    pub owner: bool,
}

impl Key {
    /// The key of a packet: its source, its tag and its tag owner bit.
    pub fn of(packet: &PacketRef<'_>) -> Key
        ensures value { result ≡ key_of packet.now }
        ensures range { IsKey result }
    {
        let route = packet.route();
        let _ranges = (route.source.get(), route.tag.get()); // for the proof: an endpoint ID and a tag
        Key {
            source: route.source,
            tag: route.tag,
            owner: route.owner,
        }
    }

    /// Its number: keys are numbered by source, then by tag, then by the tag owner bit.
    pub(crate) fn number(self) -> u16
        ensures value { result ≡ number_of self }
        ensures number { IsNumber result }
        ensures range { IsKey self }
    {
        let (source, tag) = (self.source.get(), self.tag.get());
        (u16::from(source) * u16::from(TAGS) + u16::from(tag)) * 2 + u16::from(self.owner)
    }
}

//! A control request to a device by its endpoint ID, or to whatever endpoint is at the other end of the link.

use crate::{ControlPacket, LinkQuery, Query};

/// A control request (DSP0236, "MCTP control protocol").
#[derive(Debug, Drop)]
pub enum AnyQuery {
    /// To the device with an endpoint ID.
    ToDevice(Query),
    /// To the endpoint at the other end of the link.
    ToLink(LinkQuery),
}

impl AnyQuery {
    ghost use Rattle.std.specs.Prelude.{◌≡◌, IfSome, option_map};
    ghost use Rattle.mctp_packet.specs.Packets.{HasPayloadSize};
    ghost use Rattle.mctp_control.specs.AnyQueries.{any_answer_in, any_packet};

    /// The packet that asks.
    pub fn packet(&self) -> ControlPacket
        ensures { result.items ≡ any_packet self.now }
    {
        match self {
            AnyQuery::ToDevice(query) => query.packet(),
            AnyQuery::ToLink(query) => query.packet(),
        }
    }

    /// The message with which these bytes of a packet answer, as [`Query::answer`] and [`LinkQuery::answer`] say.
    pub fn answer<'a>(&self, packet: &'a [u8]) -> Option<&'a [u8]>
        ensures exact { option_map (λ message. message.now) result ≡ any_answer_in self.now packet.now }
        ensures size { IfSome result (λ message. HasPayloadSize message.now) }
    {
        match self {
            AnyQuery::ToDevice(query) => query.answer(packet),
            AnyQuery::ToLink(query) => query.answer(packet),
        }
    }
}

//! A control request to an endpoint: the packet that asks, and the message of the packet that answers.

use crate::{Command, ControlPacket, read_response, write_command};
use mctp_packet::laws::reading_is_spelling;
use mctp_packet::{Eid, PacketRef, Route, Seq, Tag, header_of, read};
use std::marker::Model;

/// A control request of one endpoint to another (DSP0236, "MCTP control protocol").
#[derive(Debug, Drop)]
pub struct Query {
    own: Eid,
    device: Eid,
    tag: Tag,
    id: u8,
    command: Command,
}

impl Model for Query {
    ghost use Rattle.std.specs.Prelude.{◌<◌};
    ghost use Rattle.mctp_control.specs.Queries.{ControlQuery};
    ghost use Rattle.mctp_control.specs.declared.assigned.TheConstants.{INSTANCE_IDS};

    ghost Value = { ControlQuery };

    ghost view = { λ q. record { own = q.own; device = q.device; tag = q.tag; id = q.id; command = q.command } };

    ghost invariant = { λ q. q.id < INSTANCE_IDS };
}

impl Query {
    ghost use Rattle.std.specs.Prelude.{◌≡◌, ◌<◌, List, Some, ℕ, IfSome, option_map};
    ghost use Rattle.mctp_packet.specs.Packets.{HasPayloadSize};
    ghost use Rattle.mctp_control.specs.Messages.{response_of};
    ghost use Rattle.mctp_control.specs.Queries.{IsAnswer, answer_in, comes_back, is_response_to, query_packet};
    ghost use Rattle.mctp_control.specs.declared.assigned.TheConstants.{INSTANCE_IDS};

    /// The request of the endpoint `own` to the endpoint `device` for this command, on a tag of `own`, with an instance
    /// ID, 0 to 31.
    pub fn new(own: Eid, device: Eid, tag: Tag, id: u8, command: Command) -> Query
        requires { id < INSTANCE_IDS }
        ensures { result ≡ record { own = own; device = device; tag = tag; id = id; command = command } }
    {
        Query {
            own,
            device,
            tag,
            id,
            command,
        }
    }

    /// The packet that asks: it has the whole message, so SOM and EOM are 1 and the sequence number is 0, and TO is 1
    /// (DSP0236, "MCTP packet fields"). Reserved bits are 0.
    pub fn packet(&self) -> ControlPacket
        ensures { result.items ≡ query_packet self.now }
    {
        let message = write_command(self.id, &self.command);
        let route = Route {
            destination: self.device,
            source: self.own,
            owner: true,
            tag: self.tag,
        };
        let Some(packet) = PacketRef::new(route, true, true, Seq::new(0).unwrap(), &message) else {
            unreachable!();
        };
        let mut bytes = ControlPacket::new();
        let _ = bytes.try_extend_from_slice(&header_of(&packet)); // both fit
        let _ = bytes.try_extend_from_slice(packet.payload());
        bytes
    }

    /// The message with which these bytes of a packet answer: the packet comes whole from the device to `own` on the
    /// same tag, with TO 0, and its message is a response with the same instance ID and command, whatever its
    /// completion code. `None` where it does not answer. The message has 1 to 64 bytes.
    pub fn answer<'a>(&self, packet: &'a [u8]) -> Option<&'a [u8]>
        ensures exact { option_map (λ message. message.now) result ≡ answer_in self.now packet.now }
        ensures found { IfSome result (λ message. IsAnswer self.now packet.now message.now) }
        ensures only { (message : List ℕ) → IsAnswer self.now packet.now message
            → option_map (λ message. message.now) result ≡ Some message }
        ensures size { IfSome result (λ message. HasPayloadSize message.now) }
    {
        reading_is_spelling();
        self.answer_in(packet)
    }

    /// As `answer`, byte by byte.
    fn answer_in<'a>(&self, packet: &'a [u8]) -> Option<&'a [u8]>
        ensures exact { option_map (λ message. message.now) result ≡ answer_in self.now packet.now }
        ensures size { IfSome result (λ message. HasPayloadSize message.now) }
    {
        let Ok(packet) = read(packet) else {
            return None;
        };
        let message = packet.payload();
        if self.comes_back(&packet) && self.is_response(message) {
            Some(message)
        } else {
            None
        }
    }

    /// Whether a packet brings a whole message back.
    fn comes_back(&self, packet: &PacketRef<'_>) -> bool
        ensures { result ≡ comes_back self.now packet.now }
    {
        let route = packet.route();
        route.source == self.device
            && route.destination == self.own
            && !route.owner
            && route.tag == self.tag
            && packet.start()
            && packet.end()
    }

    /// Whether a message is a response to the request.
    fn is_response(&self, message: &[u8]) -> bool
        ensures { result ≡ is_response_to self.now (response_of message.now) }
    {
        match read_response(message) {
            Some(response) => response.id() == self.id
                && response.command() == self.command.number(),
            None => false,
        }
    }
}

//! A control request to whatever endpoint is at the other end of a link, and the message of the packet that answers.

use crate::packet_header::{has_version, is_whole_answer, request_flags};
use crate::{Command, ControlPacket, read_response, write_command};
use mctp_packet::{Eid, MAX_PACKET_BYTES, NULL_EID, Tag, VERSION};
use std::marker::Model;

/// A control request of an endpoint to the null endpoint ID: it reaches the endpoint at the other end of the link,
/// whatever endpoint ID that has (DSP0236, "Special endpoint IDs"). So a bus owner assigns the first one.
#[derive(Debug, Drop)]
pub struct LinkQuery {
    own: Eid,
    tag: Tag,
    id: u8,
    command: Command,
}

impl Model for LinkQuery {
    ghost use Rattle.std.specs.Prelude.{◌<◌};
    ghost use Rattle.mctp_control.specs.LinkQueries.{LinkRequest};
    ghost use Rattle.mctp_control.specs.declared.assigned.TheConstants.{INSTANCE_IDS};

    ghost Value = { LinkRequest };

    ghost view = { λ q. record { own = q.own; tag = q.tag; id = q.id; command = q.command } };

    ghost invariant = { λ q. q.id < INSTANCE_IDS };
}

impl LinkQuery {
    ghost use Rattle.std.specs.Prelude.{◌≡◌, ◌<◌, IfSome, option_map};
    ghost use Rattle.mctp_packet.specs.Packets.{HasPayloadSize};
    ghost use Rattle.mctp_control.specs.LinkQueries.{brings_back, is_link_response, is_other, link_answer_in, link_packet};
    ghost use Rattle.mctp_control.specs.Messages.{response_of};
    ghost use Rattle.mctp_control.specs.declared.assigned.TheConstants.{INSTANCE_IDS};

    /// The request of the endpoint `own` for this command, on a tag of `own`, with an instance ID, 0 to 31.
    pub fn new(own: Eid, tag: Tag, id: u8, command: Command) -> LinkQuery
        requires { id < INSTANCE_IDS }
        ensures { result ≡ record { own = own; tag = tag; id = id; command = command } }
    {
        LinkQuery {
            own,
            tag,
            id,
            command,
        }
    }

    /// The packet that asks: it goes to the null endpoint ID. It has the whole message, so SOM and EOM are 1 and the
    /// sequence number is 0, and TO is 1 (DSP0236, "MCTP packet fields"). Reserved bits are 0.
    pub fn packet(&self) -> ControlPacket
        ensures { result.items ≡ link_packet self.now }
    {
        let message = write_command(self.id, &self.command);
        let mut bytes = ControlPacket::new();
        bytes.push(VERSION);
        bytes.push(NULL_EID);
        bytes.push(self.own.get());
        bytes.push(request_flags(self.tag));
        let _ = bytes.try_extend_from_slice(&message); // it fits
        bytes
    }

    /// The message with which these bytes of a packet answer: the packet comes whole to `own` on the same tag, with TO
    /// 0, from the null endpoint ID or any other than `own`, and its message is a response with the same instance ID
    /// and command, whatever its completion code. `None` where it does not answer. The message has 1 to 64 bytes.
    pub fn answer<'a>(&self, packet: &'a [u8]) -> Option<&'a [u8]>
        ensures exact { option_map (λ message. message.now) result ≡ link_answer_in self.now packet.now }
        ensures size { IfSome result (λ message. HasPayloadSize message.now) }
    {
        let [version, destination, source, flags, message @ ..] = packet else {
            return None;
        };
        if message.is_empty() || packet.len() > MAX_PACKET_BYTES || !has_version(*version) {
            return None;
        }
        if *destination != self.own.get() || !self.is_other(*source) {
            return None;
        }
        if is_whole_answer(self.tag, *flags) && self.is_response(message) {
            Some(message)
        } else {
            None
        }
    }

    /// Whether a packet of this source comes from another endpoint.
    fn is_other(&self, source: u8) -> bool
        ensures { result ≡ is_other self.now.own source }
    {
        match Eid::new(source) {
            Some(eid) => eid != self.own,
            None => source == NULL_EID,
        }
    }

    /// Whether a message is a response to the request.
    fn is_response(&self, message: &[u8]) -> bool
        ensures { result ≡ is_link_response self.now (response_of message.now) }
    {
        match read_response(message) {
            Some(response) => response.id() == self.id
                && response.command() == self.command.number(),
            None => false,
        }
    }
}

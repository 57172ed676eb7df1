//! A packet: its route, its flags and its payload (DSP0236, "MCTP packet fields").

ghost use Rattle.std.specs.Prelude.{◌≡◌, ◌↔◌, IsSome, IfSome};

use crate::{BASELINE_UNIT, Eid, Seq, Tag};
use std::marker::Model;

/// Where a packet goes and whose message it carries (DSP0236, "MCTP packet fields").
#[derive(Clone, Copy, Debug, PartialEq, Eq)]
pub struct Route {
    /// The endpoint that it goes to.
    pub destination: Eid,
    /// The endpoint that it comes from.
    pub source: Eid,
    /// The tag owner bit, TO: true where the source chose the tag.
    pub owner: bool,
    /// The message tag.
    pub tag: Tag,
}

/// One packet: its route, its place in a message, and its payload of 1 to 64 bytes, borrowed.
#[derive(Debug, Drop)]
pub struct PacketRef<'a> {
    route: Route,
    start: bool,
    end: bool,
    seq: Seq,
    payload: &'a [u8],
}

impl<'a> Model for PacketRef<'a> {
    ghost use Rattle.mctp_packet.specs.Packets.{Packet, HasPayloadSize};

    ghost Value = { Packet };

    ghost view = { λ p. record {
      route = p.route;
      start = p.start;
      end = p.end;
      seq = p.seq;
      payload =
          p.payload.now;
    } };

    ghost invariant = { λ p. HasPayloadSize p.payload.now };
}

impl<'a> PacketRef<'a> {
    ghost use Rattle.std.specs.Prelude.{◌≡◌, ◌↔◌, IsSome, IfSome};
    ghost use Rattle.mctp_packet.specs.Packets.{packet, HasPayloadSize};

    /// The packet of these parts, where the payload has 1 to 64 bytes.
    pub fn new(route: Route, start: bool, end: bool, seq: Seq, payload: &'a [u8]) -> Option<Self>
        ensures some { IsSome result ↔ HasPayloadSize payload.entry.now }
        ensures value { IfSome result (λ p. p ≡ packet route start end seq payload.entry.now) }
    {
        if payload.is_empty() || payload.len() > BASELINE_UNIT {
            return None;
        }
        Some(PacketRef {
            route,
            start,
            end,
            seq,
            payload,
        })
    }

    /// Where it goes, where it comes from, and its tag.
    pub fn route(&self) -> Route
        ensures { result ≡ self.now.route }
    {
        self.route
    }

    /// SOM: it begins a message.
    pub fn start(&self) -> bool
        ensures { result ≡ self.now.start }
    {
        self.start
    }

    /// EOM: it ends a message.
    pub fn end(&self) -> bool
        ensures { result ≡ self.now.end }
    {
        self.end
    }

    /// Its sequence number.
    pub fn seq(&self) -> Seq
        ensures { result ≡ self.now.seq }
    {
        self.seq
    }

    /// Its payload, 1 to 64 bytes: of a packet that was read, the slice of the bytes from place 4 on.
    pub fn payload(&self) -> &'a [u8]
        ensures value { result.now ≡ self.now.payload }
        ensures size { HasPayloadSize self.now.payload }
    {
        self.payload
    }
}

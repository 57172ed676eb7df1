//! A packet that comes to a responding end, and the whole request that it completes.

ghost use Rattle.std.specs.Prelude.{◌≡◌, ◌<◌, ◌≤◌, ◌≢◌, false, Ok, length};
ghost use Rattle.mctp_packet.specs.Ids.{IsEid};
ghost use Rattle.mctp_packet.specs.declared.TheConstants.{MAX_MESSAGE_BYTES as most};
ghost use Rattle.pldm_wire.specs.Headers.{id_at};
ghost use Rattle.pldm_wire.specs.Requests.{request_of};
ghost use Rattle.pldm_wire.specs.declared.assigned.TheConstants.{INSTANCE_IDS as ids};

use mctp_packet::{Eid, Memory, PacketRef, Reason, Route, Tag};
use pldm_wire::RequestRef;
use std::marker::Model;
use thiserror::Error;

/// A whole request from another endpoint: a message with a good header, borrowed from where its bytes are.
#[derive(Debug, Drop)]
pub struct Request<'a> {
    source: Eid,
    destination: Eid,
    tag: Tag,
    bytes: &'a [u8],
    read: RequestRef<'a>,
}

impl<'a> Model for Request<'a> {
    ghost use Rattle.std.specs.Prelude.{◌≡◌, ◌≤◌, Ok, length};
    ghost use Rattle.mctp_packet.specs.declared.TheConstants.{MAX_MESSAGE_BYTES};
    ghost use Rattle.pldm_wire.specs.Requests.{request_of};
    ghost use Rattle.pldm_responder.specs.Requested.{Requested};

    ghost Value = { Requested };

    ghost view = { λ r. record {
      source = r.source;
      destination = r.destination;
      tag = r.tag;
      bytes = r.bytes.now;
    } };

    ghost invariant = { λ r. (request_of r.bytes.now ≡ Ok r.read) × (length r.bytes.now ≤ MAX_MESSAGE_BYTES) };
}

impl<'a> Request<'a> {
    /// The request of these bytes, whose packets had this route, as it was read.
    #[inline(always)]
    pub(crate) fn new(route: &Route, bytes: &'a [u8], read: RequestRef<'a>) -> Request<'a>
        requires read { request_of bytes.now ≡ Ok read }
        requires few { length bytes.now ≤ most }
        ensures { result ≡ record {
          source = route.now.source;
          destination = route.now.destination;
          tag = route.now.tag;
          bytes = bytes.now;
        } }
    {
        Request {
            source: route.source,
            destination: route.destination,
            tag: route.tag,
            bytes,
            read,
        }
    }

    /// The endpoint that it came from.
    #[inline(always)]
    pub fn source(&self) -> Eid
        ensures { result ≡ self.now.source }
    {
        self.source
    }

    /// The endpoint that it was sent to.
    #[inline(always)]
    pub fn destination(&self) -> Eid
        ensures value { result ≡ self.now.destination }
        ensures range { IsEid self.now.destination }
    {
        let _range = self.destination.get(); // for the proof: an endpoint ID
        self.destination
    }

    /// The tag of its packets.
    #[inline(always)]
    pub fn tag(&self) -> Tag
        ensures { result ≡ self.now.tag }
    {
        self.tag
    }

    /// Its instance ID.
    #[inline(always)]
    pub fn id(&self) -> u8
        ensures value { result ≡ id_at self.now.bytes }
        ensures range { id_at self.now.bytes < ids }
    {
        self.read.id()
    }

    /// Its bytes.
    #[inline(always)]
    pub fn bytes(&self) -> &'a [u8]
        ensures value { result.now ≡ self.now.bytes }
        ensures few { length self.now.bytes ≤ most }
    {
        self.bytes
    }

    /// The way of the packets that answer it: back to its source from where it was sent to, with TO 0 and its tag.
    #[inline(always)]
    pub fn way_back(&self) -> Route
        ensures { result ≡ record {
          destination = self.now.source;
          source = self.now.destination;
          owner = false;
          tag = self.now.tag;
        } }
    {
        Route {
            destination: self.source,
            source: self.destination,
            owner: false,
            tag: self.tag,
        }
    }

    /// The request that its bytes were read as.
    #[inline(always)]
    pub fn read(&self) -> &RequestRef<'a>
        ensures { request_of self.now.bytes ≡ Ok result.now }
    {
        &self.read
    }
}

/// What becomes of the bytes of a packet as they are read.
#[derive(Debug, Drop)]
pub enum Intake<'a> {
    /// They give this, and nothing more is to be done with them.
    Decided(Disposition<'a>),
    /// They are the last packet of a message of several packets, with which nothing is done yet:
    /// [`crate::AnsweringEnd::take_last`] does.
    Last(PacketRef<'a>),
}

/// What becomes of the bytes of a packet, where they were only looked at.
#[derive(Debug, Drop)]
pub enum Disposition<'a> {
    /// They are dropped, for one of the reasons 1 to 17.
    Dropped(Reason),
    /// They begin a message of several packets, or go on with one.
    Partial,
    /// They complete a request, with which nothing is done yet.
    Request(Request<'a>),
}

/// What a request is to the endpoint that it came to.
#[derive(Clone, Copy, Debug, PartialEq, Eq)]
pub enum RequestClass {
    /// It came in the busy time.
    Busy,
    /// It is a copy of one whose answer is kept.
    Copy,
    /// It is to be performed or refused now.
    Fresh,
}

/// Why there is no room for what a packet brings. All is then as before, and the packet counts as lost on the bus.
#[derive(Clone, Copy, Debug, PartialEq, Eq, Error)]
pub enum RoomRefusal {
    /// As many sources have room for their answers as the bounds allow, and this is another one.
    #[error("as many sources as may be have kept answers")]
    Sources,
    /// As many messages of several packets are open as the bounds allow, and this would be one more.
    #[error("as many messages as may be are open")]
    OpenMessages,
    /// A growth of memory was refused.
    #[error("out of memory")]
    Memory(Memory),
}

impl From<Memory> for RoomRefusal {
    ghost use Rattle.pldm_responder.specs.declared.arriving.RoomRefusal.TheVariants as refusals;

    ghost from_gives = { λ memory refusal. refusal ≡ refusals.Memory memory };

    fn from(memory: Memory) -> RoomRefusal {
        RoomRefusal::Memory(memory)
    }
}

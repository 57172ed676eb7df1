//! The headers of control messages: requests and responses read from bytes (DSP0236).

ghost use Rattle.std.specs.Prelude.{◌≡◌, ◌<◌, Some, IfSome};
ghost use Rattle.mctp_control.specs.Messages.{IsRequest, IsResponse, Request, Response, request_of, response_of};
ghost use Rattle.mctp_control.specs.declared.assigned.TheConstants.{INSTANCE_IDS};

use crate::{CONTROL, DATAGRAM, INSTANCE_IDS, RQ};
use std::marker::Model;

/// A request: its instance ID, the number of its command, and the bytes after its header, borrowed (DSP0236, "MCTP
/// control message format").
#[derive(Debug, Drop)]
pub struct RequestRef<'a> {
    id: u8,
    command: u8,
    rest: &'a [u8],
}

impl<'a> Model for RequestRef<'a> {
    ghost use Rattle.std.specs.Prelude.{◌<◌};
    ghost use Rattle.mctp_control.specs.Messages.{Request};
    ghost use Rattle.mctp_control.specs.declared.assigned.TheConstants.{INSTANCE_IDS};

    ghost Value = { Request };

    ghost view = { λ r. record { id = r.id; command = r.command; rest = r.rest.now } };

    ghost invariant = { λ r. r.id < INSTANCE_IDS };
}

impl<'a> RequestRef<'a> {
    ghost use Rattle.std.specs.Prelude.{◌≡◌, ◌<◌};
    ghost use Rattle.mctp_control.specs.declared.assigned.TheConstants.{INSTANCE_IDS};

    /// The instance ID, 0 to 31.
    pub fn id(&self) -> u8
        ensures value { result ≡ self.now.id }
        ensures range { self.now.id < INSTANCE_IDS }
    {
        self.id
    }

    /// The number of its command.
    pub fn command(&self) -> u8
        ensures { result ≡ self.now.command }
    {
        self.command
    }

    /// The bytes after its header.
    pub fn data(&self) -> &'a [u8]
        ensures { result.now ≡ self.now.rest }
    {
        self.rest
    }
}

/// A response: its instance ID, the number of its command, its completion code, and the bytes after that, borrowed
/// (DSP0236, "MCTP control message format").
#[derive(Debug, Drop)]
pub struct ResponseRef<'a> {
    id: u8,
    command: u8,
    code: u8,
    rest: &'a [u8],
}

impl<'a> Model for ResponseRef<'a> {
    ghost use Rattle.std.specs.Prelude.{◌<◌};
    ghost use Rattle.mctp_control.specs.Messages.{Response};
    ghost use Rattle.mctp_control.specs.declared.assigned.TheConstants.{INSTANCE_IDS};

    ghost Value = { Response };

    ghost view = { λ r. record { id = r.id; command = r.command; code = r.code; rest = r.rest.now } };

    ghost invariant = { λ r. r.id < INSTANCE_IDS };
}

impl<'a> ResponseRef<'a> {
    ghost use Rattle.std.specs.Prelude.{◌≡◌, ◌<◌};
    ghost use Rattle.mctp_control.specs.declared.assigned.TheConstants.{INSTANCE_IDS};

    /// The instance ID, 0 to 31.
    pub fn id(&self) -> u8
        ensures value { result ≡ self.now.id }
        ensures range { self.now.id < INSTANCE_IDS }
    {
        self.id
    }

    /// The number of its command.
    pub fn command(&self) -> u8
        ensures { result ≡ self.now.command }
    {
        self.command
    }

    /// The completion code, 0 where the command was carried out.
    pub fn code(&self) -> u8
        ensures { result ≡ self.now.code }
    {
        self.code
    }

    /// The bytes after the completion code.
    pub fn data(&self) -> &'a [u8]
        ensures { result.now ≡ self.now.rest }
    {
        self.rest
    }
}

/// The request that these bytes are, if they are one: message type 0 and no integrity check, Rq 1, D 0. The reserved
/// bit may be 0 or 1.
pub fn read_request(message: &[u8]) -> Option<RequestRef<'_>>
    ensures exact { result ≡ request_of message.now }
    ensures found { IfSome result (λ r. IsRequest message.now r) }
    ensures only { (r : Request) → IsRequest message.now r → result ≡ Some r }
{
    request_in(message)
}

/// As `read_request`, byte by byte.
#[tactic(auto, unfolding(crate::specs::Messages::request_of))]
fn request_in(message: &[u8]) -> Option<RequestRef<'_>>
    ensures { result ≡ request_of message.now }
{
    let [message_type, flags, command, rest @ ..] = message else {
        return None;
    };
    if *message_type != CONTROL || *flags & (RQ | DATAGRAM) != RQ {
        return None;
    }
    Some(RequestRef {
        id: *flags % INSTANCE_IDS,
        command: *command,
        rest,
    })
}

/// The response that these bytes are, if they are one: message type 0 and no integrity check, Rq 0, D 0. The reserved
/// bit may be 0 or 1.
pub fn read_response(message: &[u8]) -> Option<ResponseRef<'_>>
    ensures exact { result ≡ response_of message.now }
    ensures found { IfSome result (λ r. IsResponse message.now r) }
    ensures only { (r : Response) → IsResponse message.now r → result ≡ Some r }
{
    response_in(message)
}

/// As `read_response`, byte by byte.
#[tactic(auto, unfolding(crate::specs::Messages::response_of))]
fn response_in(message: &[u8]) -> Option<ResponseRef<'_>>
    ensures { result ≡ response_of message.now }
{
    let [message_type, flags, command, code, rest @ ..] = message else {
        return None;
    };
    if *message_type != CONTROL || *flags & (RQ | DATAGRAM) != 0 {
        return None;
    }
    Some(ResponseRef {
        id: *flags % INSTANCE_IDS,
        command: *command,
        code: *code,
        rest,
    })
}

//! A request read from bytes: its header, and its data borrowed (DSP0240, "PLDM message fields").

ghost use Rattle.pldm_wire.specs.declared.assigned.TheConstants.{INSTANCE_IDS};
ghost use Rattle.std.specs.Prelude.{◌≡◌, ℕ, List, Ok, Some, IfOk, IfErr};
ghost use Rattle.pldm_wire.specs.Kinds.{TypeAndCommand};
ghost use Rattle.pldm_wire.specs.Messages.{IsRequest};
ghost use Rattle.pldm_wire.specs.Requests.{request_of, request_refusal, request};

use crate::header::header_in;
use crate::{Kind, REQUEST_HEADER};
use mctp_packet::Reason;
use std::marker::Model;

/// A request: its instance ID, which command it is of, and the bytes after its header, borrowed
/// (DSP0240, "PLDM message fields").
#[derive(Debug, Drop)]
pub struct RequestRef<'a> {
    id: u8,
    kind: Kind,
    rest: &'a [u8],
}

impl<'a> Model for RequestRef<'a> {
    ghost use Rattle.pldm_wire.specs.declared.assigned.TheConstants.{INSTANCE_IDS};
    ghost use Rattle.std.specs.Prelude.{◌<◌};
    ghost use Rattle.pldm_wire.specs.Requests.{Request};

    ghost Value = { Request };

    ghost view = { λ r. record { id = r.id; kind = r.kind; rest = r.rest.now } };

    ghost invariant = { λ r. (r.id < INSTANCE_IDS) × (r.kind.pldm_type < 64) };
}

impl<'a> RequestRef<'a> {
    ghost use Rattle.std.specs.Prelude.{◌≡◌, ◌<◌};

    /// The instance ID, 0 to 31.
    pub fn id(&self) -> u8
        ensures value { result ≡ self.now.id }
        ensures range { self.now.id < INSTANCE_IDS }
    {
        self.id
    }

    /// The command that it is of.
    pub fn kind(&self) -> Kind
        ensures value { result ≡ self.now.kind }
        ensures range { self.now.kind.pldm_type < 64 }
    {
        self.kind
    }

    /// The bytes after the header: the slice of the bytes that were read, from place 4 on.
    pub fn data(&self) -> &'a [u8]
        ensures { result.now ≡ self.now.rest }
    {
        self.rest
    }
}

/// The request that these bytes are, or the first reason for which they are none: ShortHeader for
/// no byte, NotPldm, Integrity, ShortHeader for fewer than 4 bytes, BadPldmHeader, NotRequest,
/// Datagram (DSP0240, "PLDM message fields"). The reserved bit may be 0 or 1.
// Inlined, as what it calls: what was read is then written once, where the caller keeps it.
#[inline(always)]
pub fn read_request(bytes: &[u8]) -> Result<RequestRef<'_>, Reason>
    ensures exact { result ≡ request_of bytes.now }
    ensures found { IfOk result (λ r. IsRequest bytes.now r.id r.kind r.rest) }
    ensures only { (id : ℕ) (kind : TypeAndCommand) (rest : List ℕ)
        → IsRequest bytes.now id kind rest → result ≡ Ok (request id kind rest) }
    ensures refused { IfErr result (λ reason. request_refusal bytes.now ≡ Some reason) }
{
    request_in(bytes)
}

/// As `read_request`, check by check.
#[tactic(auto, unfolding(crate::specs::Requests::request_of))]
#[inline(always)]
fn request_in(bytes: &[u8]) -> Result<RequestRef<'_>, Reason>
    ensures exact { result ≡ request_of bytes.now }
    ensures refused { IfErr result (λ reason. request_refusal bytes.now ≡ Some reason) }
{
    let header = header_in(bytes, REQUEST_HEADER, 1, Reason::NotRequest)?;
    Ok(RequestRef {
        id: header.id,
        kind: header.kind,
        rest: &bytes[REQUEST_HEADER..],
    })
}

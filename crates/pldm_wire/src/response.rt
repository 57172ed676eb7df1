//! A response read from bytes: its header, its completion code, and its data borrowed (DSP0240).

ghost use Rattle.pldm_wire.specs.declared.assigned.TheConstants.{INSTANCE_IDS};
ghost use Rattle.std.specs.Prelude.{◌≡◌, ℕ, List, Ok, Some, IfOk, IfErr};
ghost use Rattle.pldm_wire.specs.Kinds.{TypeAndCommand};
ghost use Rattle.pldm_wire.specs.Messages.{IsResponse};
ghost use Rattle.pldm_wire.specs.Responses.{response_of, response_refusal, response};

use crate::header::header_in;
use crate::{Kind, REQUEST_HEADER, RESPONSE_HEADER};
use mctp_packet::Reason;
use std::marker::Model;

/// A response: its instance ID, which command it answers, its completion code, and the bytes after
/// that, borrowed (DSP0240, "PLDM message fields").
#[derive(Debug, Drop)]
pub struct ResponseRef<'a> {
    id: u8,
    kind: Kind,
    code: u8,
    rest: &'a [u8],
}

impl<'a> Model for ResponseRef<'a> {
    ghost use Rattle.pldm_wire.specs.declared.assigned.TheConstants.{INSTANCE_IDS};
    ghost use Rattle.std.specs.Prelude.{◌<◌};
    ghost use Rattle.pldm_wire.specs.Responses.{Response};

    ghost Value = { Response };

    ghost view = { λ r. record { id = r.id; kind = r.kind; code = r.code; rest = r.rest.now } };

    ghost invariant = { λ r. (r.id < INSTANCE_IDS) × (r.kind.pldm_type < 64) × (r.code < 256) };
}

impl<'a> ResponseRef<'a> {
    ghost use Rattle.std.specs.Prelude.{◌≡◌, ◌<◌};

    /// The instance ID, 0 to 31.
    pub fn id(&self) -> u8
        ensures value { result ≡ self.now.id }
        ensures range { self.now.id < INSTANCE_IDS }
    {
        self.id
    }

    /// The command that it answers.
    pub fn kind(&self) -> Kind
        ensures value { result ≡ self.now.kind }
        ensures range { self.now.kind.pldm_type < 64 }
    {
        self.kind
    }

    /// The completion code, 0 for success (DSP0240, "Generic PLDM completion codes").
    pub fn code(&self) -> u8
        ensures value { result ≡ self.now.code }
        ensures range { self.now.code < 256 }
    {
        self.code
    }

    /// The bytes after the completion code: the slice of the bytes that were read, from place 5 on.
    pub fn data(&self) -> &'a [u8]
        ensures { result.now ≡ self.now.rest }
    {
        self.rest
    }
}

/// The response that these bytes are, or the first reason for which they are none: ShortHeader for
/// no byte, NotPldm, Integrity, ShortHeader for fewer than 5 bytes, BadPldmHeader, NotResponse,
/// Datagram (DSP0240, "PLDM message fields"). The reserved bit may be 0 or 1.
pub fn read_response(bytes: &[u8]) -> Result<ResponseRef<'_>, Reason>
    ensures exact { result ≡ response_of bytes.now }
    ensures found { IfOk result (λ r. IsResponse bytes.now r.id r.kind r.code r.rest) }
    ensures only { (id : ℕ) (kind : TypeAndCommand) (code : ℕ) (rest : List ℕ)
        → IsResponse bytes.now id kind code rest → result ≡ Ok (response id kind code rest) }
    ensures refused { IfErr result (λ reason. response_refusal bytes.now ≡ Some reason) }
{
    response_in(bytes)
}

/// As `read_response`, check by check.
#[tactic(auto, unfolding(crate::specs::Responses::response_of))]
fn response_in(bytes: &[u8]) -> Result<ResponseRef<'_>, Reason>
    ensures exact { result ≡ response_of bytes.now }
    ensures refused { IfErr result (λ reason. response_refusal bytes.now ≡ Some reason) }
{
    let header = header_in(bytes, RESPONSE_HEADER, 0, Reason::NotResponse)?;
    Ok(ResponseRef {
        id: header.id,
        kind: header.kind,
        code: bytes[REQUEST_HEADER],
        rest: &bytes[RESPONSE_HEADER..],
    })
}

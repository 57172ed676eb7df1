//! The first bytes of a message, the same in requests and responses (DSP0240, "PLDM message fields").

ghost use Rattle.std.specs.Prelude.{◌≡◌, ◌<◌, ◌≤◌, [], ◌∷◌, length, None, Some, IfOk, IfErr, OnOk};
ghost use Rattle.pldm_wire.specs.Headers.{refusal, id_at, kind_at};

use crate::{Kind, MESSAGE_TYPE, REQUEST_HEADER};
use mctp_packet::{Body, Reason};

/// What the first four bytes of a request or a response say.
#[derive(Clone, Copy)]
pub(crate) struct Header {
    /// The instance ID, 0 to 31.
    pub id: u8,
    /// The command that the message is of.
    pub kind: Kind,
}

/// The header of these bytes, which has `size` bytes and the Rq bit `rq`; else the first reason
/// for which it is none, `wrong` where the Rq bit is the other (DSP0240, "PLDM message fields").
pub(crate) fn header_in(bytes: &[u8], size: usize, rq: u8, wrong: Reason) -> Result<Header, Reason>
    requires { REQUEST_HEADER ≤ size }
    ensures passed { OnOk result (refusal size rq wrong bytes.now ≡ None) }
    ensures refused { IfErr result (λ reason. refusal size rq wrong bytes.now ≡ Some reason) }
    ensures whole { OnOk result (size ≤ length bytes.now) }
    ensures id { IfOk result (λ header. header.id ≡ id_at bytes.now) }
    ensures kind { IfOk result (λ header. header.kind ≡ kind_at bytes.now) }
{
    let [first, ..] = bytes else {
        return Err(Reason::ShortHeader);
    };
    if *first & 0x7f != MESSAGE_TYPE {
        return Err(Reason::NotPldm);
    }
    if *first >> 7 & 1 == 1 {
        return Err(Reason::Integrity);
    }
    if bytes.len() < size {
        return Err(Reason::ShortHeader);
    }
    let flags = bytes[1];
    let version_and_type = bytes[2];
    if version_and_type >> 6 != 0 {
        return Err(Reason::BadPldmHeader);
    }
    if flags >> 7 != rq {
        return Err(wrong);
    }
    if flags >> 6 & 1 == 1 {
        return Err(Reason::Datagram);
    }
    let kind = Kind {
        pldm_type: version_and_type & 0x3f,
        command: bytes[3],
    };
    Ok(Header {
        id: flags & 0x1f,
        kind,
    })
}

/// Puts a message's first four bytes in the place of what `body` holds: message type, flags with the
/// instance ID, PLDM type, command (DSP0240, "PLDM message fields").
pub(crate) fn put_head(body: &mut Body, flags: u8, kind: Kind)
    ensures items { body.new.items ≡ MESSAGE_TYPE ∷ flags ∷ kind.pldm_type ∷ kind.command ∷ [] }
    ensures type_range { kind.pldm_type < 64 }
{
    body.clear();
    body.push(MESSAGE_TYPE);
    body.push(flags);
    body.push(kind.pldm_type);
    body.push(kind.command);
}

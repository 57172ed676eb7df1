//! The fields of commands and answers of control messages by name.

ghost use Rattle.std.specs.Prelude.{◌≡◌, ◌++◌, OnOk};
ghost use Rattle.std.specs.List.{flat_map};
ghost use Rattle.mctpctl_decode.specs.ControlTexts.{answer_text, command_text, endpoint_text, refused_text, set_text, type_text};

use crate::control_names::{
    assignment_name, code_name, eid_kind_name, endpoint_name, operation_name,
};
use crate::field_text::{push_code, push_field, push_hex_field, push_word};
use mctp_control::{Answer, Assignment, Command, EidKind, EndpointKind};
use mctp_packet::Memory;
use mctpctl_texts::{write_number, write_text};

/// Adds the fields of a command, as DSP0236 names them.
pub fn push_control_command(out: &mut Vec<u8>, command: &Command) -> Result<(), Memory>
    ensures { OnOk result (out.new.items ≡ out.old.items ++ command_text command.now) }
{
    match command {
        Command::SetEndpointId { operation, eid } => {
            push_word(out, "operation")?;
            push_word(out, operation_name(*operation))?;
            push_field(out, "eid", (*eid).into())
        }
        Command::GetVersionSupport { message_type } => {
            push_field(out, "type", (*message_type).into())
        }
        Command::GetEndpointId | Command::GetEndpointUuid | Command::GetMessageTypeSupport => {
            Ok(())
        }
    }
}

/// Adds the fields of an answer to the command of a number, as DSP0236 names them.
pub fn push_control_answer(out: &mut Vec<u8>, number: u8, answer: &Answer) -> Result<(), Memory>
    ensures { OnOk result (out.new.items ≡ out.old.items ++ answer_text number answer.now) }
{
    match answer {
        Answer::Refused(code) => push_control_refused(out, number, code.get()),
        Answer::EndpointIdSet { assignment, eid } => push_set(out, *assignment, *eid),
        Answer::EndpointId {
            eid,
            endpoint,
            kind,
            medium,
        } => push_endpoint(out, *eid, *endpoint, *kind, *medium),
        Answer::EndpointUuid(uuid) => push_hex_field(out, "uuid", uuid),
        Answer::VersionSupport(versions) => push_hex_field(out, "versions", versions.as_slice()),
        Answer::MessageTypeSupport(types) => {
            push_word(out, "types")?;
            push_types(out, types.as_slice())
        }
    }
}

/// Adds a refusal of the command of a number by its completion code.
pub fn push_control_refused(out: &mut Vec<u8>, number: u8, code: u8) -> Result<(), Memory>
    ensures { OnOk result (out.new.items ≡ out.old.items ++ refused_text number code) }
{
    push_word(out, "refused")?;
    push_code(out, code_name(number, code), code)
}

/// Adds what has become of an endpoint ID, the one that the endpoint has now, and that it has no pool of others.
fn push_set(out: &mut Vec<u8>, assignment: Assignment, eid: u8) -> Result<(), Memory>
    ensures { OnOk result (out.new.items ≡ out.old.items ++ set_text assignment eid) }
{
    push_word(out, "assignment")?;
    push_word(out, assignment_name(assignment))?;
    push_field(out, "eid", eid.into())?;
    push_field(out, "pool", 0)
}

/// Adds an endpoint ID, what the endpoint is, where it has its endpoint ID from, and what its medium says.
fn push_endpoint(
    out: &mut Vec<u8>,
    eid: u8,
    endpoint: EndpointKind,
    kind: EidKind,
    medium: u8,
) -> Result<(), Memory>
    ensures { OnOk result (out.new.items ≡ out.old.items ++ endpoint_text eid endpoint kind medium) }
{
    push_field(out, "eid", eid.into())?;
    push_word(out, endpoint_name(endpoint))?;
    push_word(out, eid_kind_name(kind))?;
    push_field(out, "medium", medium.into())
}

/// Adds the numbers of message types.
fn push_types(out: &mut Vec<u8>, types: &[u8]) -> Result<(), Memory>
    ensures { OnOk result (out.new.items ≡ out.old.items ++ flat_map type_text types.now) }
{
    for message_type in types {
        write_text(out, " ")?;
        write_number(out, (*message_type).into())?;
    }
    Ok(())
}

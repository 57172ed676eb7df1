//! The decoded line of a whole message: of PLDM, or a control message.

ghost use Rattle.std.specs.Prelude.{◌≡◌, ◌++◌, OnOk};
ghost use Rattle.mctpctl_decode.specs.DecodedLines.{answer_line, asked_text, decoded_line, pldm_line, request_line, response_line, subject_text};
ghost use Rattle.mctpctl_texts.specs.ShownLines.{is_shown_as_response};
ghost use Rattle.pldm_wire.specs.CommandReading.{command_of};
ghost use Rattle.pldm_wire.specs.Requests.{request_of};
ghost use Rattle.pldm_wire.specs.Responses.{response_of};

use crate::answer_text::push_answer;
use crate::code_names::code_name;
use crate::command_text::push_command;
use crate::control_line::{push_control_request, push_control_response};
use crate::field_text::{push_code, push_word};
use crate::record_text::push_carried_record;
use mctp_packet::Memory;
use mctpctl_texts as texts;
use mctpctl_texts::{
    is_shown_as_response, write_data, write_message_line, write_number, write_text,
};
use pldm_wire::{
    Answer, Kind, RequestRef, ResponseRef, read_answer_of, read_command, read_request,
    read_response,
};

/// Adds the line of a whole message, two spaces in. A control message (DSP0236) has the fields of its command or its
/// answer by name; any other one, and a control message that cannot be read, has the line of a PLDM message.
pub fn push_decoded_line(out: &mut Vec<u8>, message: &[u8]) -> Result<(), Memory>
    ensures { OnOk result (out.new.items ≡ out.old.items ++ decoded_line message.now) }
{
    if let Some(request) = mctp_control::read_request(message) {
        return push_control_request(out, &request);
    }
    let Some(response) = mctp_control::read_response(message) else {
        return push_pldm_line(out, message);
    };
    let Some(answer) = mctp_control::read_answer(&response) else {
        return push_pldm_line(out, message);
    };
    push_control_response(out, &response, &answer)
}

/// Adds the line of a PLDM message: the fields of the command that a request carries or of the answer that a response
/// is, by name. A request whose command cannot be read has its data in hex and the name of the completion code that
/// refuses it. A response that cannot be read, and a message whose header is refused, have the line that `show` writes
/// without `--decode`.
fn push_pldm_line(out: &mut Vec<u8>, message: &[u8]) -> Result<(), Memory>
    ensures { OnOk result (out.new.items ≡ out.old.items ++ pldm_line message.now) }
{
    if is_shown_as_response(message) {
        push_response(out, message)
    } else {
        push_request(out, message)
    }
}

fn push_request(out: &mut Vec<u8>, message: &[u8]) -> Result<(), Memory>
    ensures { OnOk result (out.new.items ≡ out.old.items ++ request_line message.now (request_of message.now)) }
{
    let Ok(request) = read_request(message) else {
        return write_message_line(out, message);
    };
    push_subject(out, "  request ", request.id(), request.kind())?;
    push_asked(out, &request)?;
    write_text(out, "\n")
}

/// Adds the fields of the command that a request carries, or its data and why it is refused.
fn push_asked(out: &mut Vec<u8>, request: &RequestRef<'_>) -> Result<(), Memory>
    ensures { OnOk result (out.new.items ≡ out.old.items
        ++ asked_text request.now (command_of request.now.kind request.now.rest)) }
{
    let code = match read_command(request) {
        Ok(command) => return push_command(out, &command),
        Err(code) => code.get(),
    };
    write_text(out, " ")?;
    write_data(out, request.data())?;
    push_word(out, "refused")?;
    push_code(out, code_name(request.kind(), code), code)
}

fn push_response(out: &mut Vec<u8>, message: &[u8]) -> Result<(), Memory>
    ensures { OnOk result (out.new.items ≡ out.old.items ++ response_line message.now (response_of message.now)) }
{
    let Ok(response) = read_response(message) else {
        return write_message_line(out, message);
    };
    let Ok(answer) = read_answer_of(response.kind(), &response) else {
        return write_message_line(out, message);
    };
    push_answer_line(out, &response, &answer)?;
    push_carried_record(out, &answer)
}

/// Adds the line of an answer: what the response is, and its fields by name.
#[tactic(auto, unfolding(crate::specs::DecodedLines::answer_line))]
fn push_answer_line(
    out: &mut Vec<u8>,
    response: &ResponseRef<'_>,
    answer: &Answer,
) -> Result<(), Memory>
    ensures { OnOk result (out.new.items ≡ out.old.items ++ answer_line response.now answer.now) }
{
    push_subject(out, "  response ", response.id(), response.kind())?;
    push_answer(out, response.kind(), answer)?;
    write_text(out, "\n")
}

/// Adds what a message is, its instance ID, and its command.
pub(crate) fn push_subject(out: &mut Vec<u8>, what: &str, id: u8, kind: Kind) -> Result<(), Memory>
    ensures { OnOk result (out.new.items ≡ out.old.items ++ subject_text what.now id kind) }
{
    write_text(out, what)?;
    write_number(out, id.into())?;
    write_text(out, " ")?;
    texts::write_command(out, kind)
}

//! The line of a control message, decoded.

ghost use Rattle.std.specs.Prelude.{◌≡◌, ◌++◌, OnOk, option_map};
ghost use Rattle.mctp_control.specs.CommandReading.{command_of};
ghost use Rattle.mctpctl_decode.specs.ControlNames.{command_word};
ghost use Rattle.mctpctl_decode.specs.ControlTexts.{asked_text, request_line, response_line, subject_text};

use crate::control_names::command_name;
use crate::control_text::{push_control_answer, push_control_command, push_control_refused};
use mctp_control::{Answer, RequestRef, ResponseRef, read_command};
use mctp_packet::Memory;
use mctpctl_texts::{TextWriter, write_data, write_number, write_text};

/// Adds the line of a control request, two spaces in: the fields of its command by name. Where the command cannot be
/// read, it has the data in hex and the name of the completion code that refuses it.
pub fn push_control_request(out: &mut Vec<u8>, request: &RequestRef<'_>) -> Result<(), Memory>
    ensures { OnOk result (out.new.items ≡ out.old.items ++ request_line request.now) }
{
    push_subject(out, "  request ", request.id(), request.command())?;
    push_asked(out, request)?;
    write_text(out, "\n")
}

/// Adds the line of a control response, two spaces in: the fields of the answer that it is.
pub fn push_control_response(
    out: &mut Vec<u8>,
    response: &ResponseRef<'_>,
    answer: &Answer,
) -> Result<(), Memory>
    ensures { OnOk result (out.new.items ≡ out.old.items ++ response_line response.now answer.now) }
{
    push_subject(out, "  response ", response.id(), response.command())?;
    push_control_answer(out, response.command(), answer)?;
    write_text(out, "\n")
}

/// Adds the fields of the command that a request carries, or its data and why it is refused.
fn push_asked(out: &mut Vec<u8>, request: &RequestRef<'_>) -> Result<(), Memory>
    ensures { OnOk result (out.new.items ≡ out.old.items
        ++ asked_text request.now (command_of request.now.command request.now.rest)) }
{
    let code = match read_command(request) {
        Ok(command) => return push_control_command(out, &command),
        Err(code) => code.get(),
    };
    write_text(out, " ")?;
    write_data(out, request.data())?;
    push_control_refused(out, request.command(), code)
}

/// Adds what a message is, its instance ID, and its command.
fn push_subject(out: &mut Vec<u8>, what: &str, id: u8, number: u8) -> Result<(), Memory>
    ensures { OnOk result (out.new.items ≡ out.old.items ++ subject_text what.now id number) }
{
    write_text(out, what)?;
    write_number(out, id.into())?;
    write_text(out, " ")?;
    push_name(out, command_name(number), number)
}

/// Adds a command by its name, or by its number in hex where it has none.
fn push_name(out: &mut Vec<u8>, name: Option<&str>, number: u8) -> Result<(), Memory>
    ensures { OnOk result (out.new.items
        ≡ out.old.items ++ command_word (option_map (λ text. text.now) name.entry) number) }
{
    match name {
        Some(text) => write_text(out, text),
        None => {
            write_text(out, "control/")?;
            out.write_hex(&[number])
        }
    }
}

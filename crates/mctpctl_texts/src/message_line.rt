//! The line that shows a whole message.

ghost use Rattle.std.specs.Prelude.{◌≡◌, ◌++◌, ◌∷◌, [], codes};
ghost use Rattle.std.specs.Fmt.{decimal};
ghost use Rattle.mctpctl_texts.specs.ShownLines.{byte_text, command_text, data_text, drop_text, is_shown_as_response, message_line, request_words, response_words, spaced_line, verdict_text};
ghost use Rattle.mctpctl_texts.specs.Writers.{Wrote};
ghost use Rattle.pldm_wire.specs.CommandReading.{command_of};
ghost use Rattle.pldm_wire.specs.Requests.{request_of};
ghost use Rattle.pldm_wire.specs.Responses.{response_of};

use crate::parts::{write_drop, write_number, write_text};
use crate::text_writer::TextWriter;
use mctp_packet::Reason;
use pldm_wire::{Kind, RequestRef, read_command, read_request, read_response};

/// Writes the line of a whole message, two spaces in: a request with whether it carries a command, a
/// response with its completion code, or why the header is refused. It is read as a response where it
/// has two bytes at least and the request bit is 0.
pub fn write_message_line<O: TextWriter>(out: &mut O, message: &[u8]) -> Result<(), O::Refusal>
    ensures { Wrote O.contents O.failed O.refused out.old out.new (message_line message.now) result }
{
    if is_shown_as_response(message) {
        write_response_line(out, message)
    } else {
        write_request_line(out, message)
    }
}

/// Whether a message is shown as a response: it has two bytes at least, and the request bit of the second is 0.
pub fn is_shown_as_response(message: &[u8]) -> bool
    ensures { result ≡ is_shown_as_response message.now }
{
    message.len() >= 2 && message[1] >> 7 & 1 != 1
}

fn write_request_line<O: TextWriter>(out: &mut O, message: &[u8]) -> Result<(), O::Refusal>
    ensures { Wrote O.contents O.failed O.refused out.old out.new
        (codes "  " ++ spaced_line (request_words (request_of message.now))) result }
{
    let request = match read_request(message) {
        Ok(request) => request,
        Err(reason) => return write_refused_line(out, reason),
    };
    write_subject(out, "  request ", request.id(), request.kind())?;
    write_data(out, request.data())?;
    write_text(out, " ")?;
    write_verdict(out, &request)?;
    write_text(out, "\n")
}

fn write_response_line<O: TextWriter>(out: &mut O, message: &[u8]) -> Result<(), O::Refusal>
    ensures { Wrote O.contents O.failed O.refused out.old out.new
        (codes "  " ++ spaced_line (response_words (response_of message.now))) result }
{
    let response = match read_response(message) {
        Ok(response) => response,
        Err(reason) => return write_refused_line(out, reason),
    };
    write_subject(out, "  response ", response.id(), response.kind())?;
    write_given(out, response.code(), response.data())
}

/// Writes a completion code, the data after it, and the end of the line.
fn write_given<O: TextWriter>(out: &mut O, code: u8, bytes: &[u8]) -> Result<(), O::Refusal>
    ensures { Wrote O.contents O.failed O.refused out.old out.new
        (byte_text code ++ 32 ∷ (data_text bytes.now ++ 10 ∷ [])) result }
{
    write_byte(out, code)?;
    write_text(out, " ")?;
    write_data(out, bytes)?;
    write_text(out, "\n")
}

/// Writes what a message is, its instance ID, its command, and a space.
fn write_subject<O: TextWriter>(
    out: &mut O,
    what: &str,
    id: u8,
    kind: Kind,
) -> Result<(), O::Refusal>
    ensures { Wrote O.contents O.failed O.refused out.old out.new
        (what.now ++ (decimal id ++ 32 ∷ (command_text kind ++ 32 ∷ []))) result }
{
    write_text(out, what)?;
    write_number(out, id.into())?;
    write_text(out, " ")?;
    write_command(out, kind)?;
    write_text(out, " ")
}

/// Writes the line of a message whose header is refused.
fn write_refused_line<O: TextWriter>(out: &mut O, reason: Reason) -> Result<(), O::Refusal>
    ensures { Wrote O.contents O.failed O.refused out.old out.new
        (codes "  " ++ spaced_line (drop_text reason ∷ [])) result }
{
    write_text(out, "  ")?;
    write_drop(out, reason)?;
    write_text(out, "\n")
}

/// Writes the command's name, or its PLDM type and its number.
pub fn write_command<O: TextWriter>(out: &mut O, kind: Kind) -> Result<(), O::Refusal>
    ensures { Wrote O.contents O.failed O.refused out.old out.new (command_text kind) result }
{
    if let Some(name) = kind.name() {
        return write_text(out, name);
    }
    write_number(out, kind.pldm_type.into())?;
    write_text(out, "/")?;
    write_byte(out, kind.command)
}

/// Writes whether the request carries a command, or the completion code of its refusal.
fn write_verdict<O: TextWriter>(out: &mut O, request: &RequestRef<'_>) -> Result<(), O::Refusal>
    ensures { Wrote O.contents O.failed O.refused out.old out.new
        (verdict_text (command_of request.now.kind request.now.rest)) result }
{
    match read_command(request) {
        Ok(_) => write_text(out, "ok"),
        Err(code) => {
            write_text(out, "refused ")?;
            write_byte(out, code.get())
        }
    }
}

/// Writes bytes in lower-case hex, or `-` where there are none.
pub fn write_data<O: TextWriter>(out: &mut O, bytes: &[u8]) -> Result<(), O::Refusal>
    ensures { Wrote O.contents O.failed O.refused out.old out.new (data_text bytes.now) result }
{
    if bytes.is_empty() {
        return write_text(out, "-");
    }
    out.write_hex(bytes)
}

/// Writes a byte as two lower-case hex digits.
fn write_byte<O: TextWriter>(out: &mut O, byte: u8) -> Result<(), O::Refusal>
    ensures { Wrote O.contents O.failed O.refused out.old out.new (byte_text byte) result }
{
    out.write_hex(&[byte])
}

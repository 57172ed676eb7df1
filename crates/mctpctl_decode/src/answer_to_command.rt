//! The decoded line of an answer, which also says what was asked.

ghost use Rattle.std.specs.Prelude.{◌≡◌, ◌≤◌, ◌<◌, ◌+◌, ◌++◌, OnOk, length, option_map};
ghost use Rattle.mctpctl_decode.specs.AnswersToCommands.{about_text, answer_line_to, answered_fields, byte_commands, commands_from, line_to, listed_command, told_text};
ghost use Rattle.pldm_wire.specs.CommandNames.{name_of_kind};
ghost use Rattle.pldm_wire.specs.Kinds.{of_type};

use crate::answer_text::push_answer;
use crate::field_text::{push_field, push_word};
use crate::message_line::push_subject;
use crate::record_text::push_carried_record;
use mctp_packet::Memory;
use mctpctl_texts::{TextWriter, write_message_line, write_text};
use pldm_wire::{
    Answer, BASE, COMMANDS_BYTES, Command, Kind, PLATFORM, ResponseRef, read_answer_of,
    read_response,
};

/// How many commands a PLDM type may have.
const MAX_COMMANDS: u16 = 256;

/// Adds the line of a message that answers a command, two spaces in: what was asked about, as `sensor 1` or `type 2`, and
/// the fields of the answer by name; commands of a type have their numbers in hex and their names. A message that is no
/// such answer has the line that `show` writes without `--decode`.
pub fn push_answer_to(out: &mut Vec<u8>, command: &Command, message: &[u8]) -> Result<(), Memory>
    ensures { OnOk result (out.new.items ≡ out.old.items ++ line_to command.now message.now) }
{
    let Ok(response) = read_response(message) else {
        return write_message_line(out, message);
    };
    let Ok(answer) = read_answer_of(response.kind(), &response) else {
        return write_message_line(out, message);
    };
    push_line(out, command, &response, &answer)?;
    push_carried_record(out, &answer)
}

/// Adds the line of an answer.
#[tactic(auto, unfolding(crate::specs::AnswersToCommands::answer_line_to))]
fn push_line(
    out: &mut Vec<u8>,
    command: &Command,
    response: &ResponseRef<'_>,
    answer: &Answer,
) -> Result<(), Memory>
    ensures { OnOk result (out.new.items ≡ out.old.items ++ answer_line_to command.now response.now answer.now) }
{
    push_subject(out, "  response ", response.id(), response.kind())?;
    push_told(out, command, response.kind(), answer)
}

/// Adds what a command asks about, the fields of its answer, and the end of the line.
fn push_told(
    out: &mut Vec<u8>,
    command: &Command,
    kind: Kind,
    answer: &Answer,
) -> Result<(), Memory>
    ensures { OnOk result (out.new.items ≡ out.old.items ++ told_text command.now kind answer.now) }
{
    push_about(out, command)?;
    push_fields(out, command, kind, answer)?;
    write_text(out, "\n")
}

/// Adds what a command asks about.
fn push_about(out: &mut Vec<u8>, command: &Command) -> Result<(), Memory>
    ensures { OnOk result (out.new.items ≡ out.old.items ++ about_text command.now) }
{
    match command {
        Command::GetPldmVersion { pldm_type, .. } | Command::GetPldmCommands { pldm_type, .. } => {
            push_field(out, "type", (*pldm_type).into())
        }
        Command::GetSensorReading { sensor, .. } | Command::GetStateSensorReadings { sensor, .. } =>
            { push_field(out, "sensor", (*sensor).into()) }
        Command::SetNumericEffecterValue { effecter, .. }
        | Command::GetNumericEffecterValue { effecter }
        | Command::SetStateEffecterStates { effecter, .. }
        | Command::GetStateEffecterStates { effecter } => {
            push_field(out, "effecter", (*effecter).into())
        }
        Command::GetPdr { record_handle, .. } => {
            push_field(out, "record", (*record_handle).into())
        }
        Command::SetTid { .. }
        | Command::GetTid
        | Command::GetPldmTypes
        | Command::GetPdrRepositoryInfo => Ok(()),
    }
}

/// Adds the fields of an answer to a command.
fn push_fields(
    out: &mut Vec<u8>,
    command: &Command,
    kind: Kind,
    answer: &Answer,
) -> Result<(), Memory>
    ensures { OnOk result (out.new.items ≡ out.old.items ++ answered_fields command.now kind answer.now) }
{
    match (command, answer) {
        (Command::GetPldmCommands { pldm_type, .. }, Answer::GetPldmCommands { commands }) => {
            push_word(out, "commands")?;
            push_commands(out, *pldm_type, commands)
        }
        _ => push_answer(out, kind, answer),
    }
}

/// Adds the commands of a type whose bits are set, the lowest bit of the first byte being command 0.
fn push_commands(out: &mut Vec<u8>, pldm_type: u8, bytes: &[u8]) -> Result<(), Memory>
    requires { length bytes.now ≤ COMMANDS_BYTES }
    ensures { OnOk result (out.new.items ≡ out.old.items ++ commands_from pldm_type 0 bytes.now) }
{
    let mut first = 0;
    let mut rest = bytes;
    while let [byte, more @ ..] = rest {
        push_byte_commands(out, pldm_type, first, *byte)?;
        first += 8;
        rest = more;
    }
    Ok(())
}

/// Adds the commands of the bits of a byte that are set, the lowest bit being command `first`.
fn push_byte_commands(out: &mut Vec<u8>, pldm_type: u8, first: u16, byte: u8) -> Result<(), Memory>
    requires { first + 7 < MAX_COMMANDS }
    ensures { OnOk result (out.new.items ≡ out.old.items ++ byte_commands pldm_type first byte) }
{
    push_listed(out, pldm_type, first, byte & 1 == 1)?;
    push_listed(out, pldm_type, first + 1, byte >> 1 & 1 == 1)?;
    push_listed(out, pldm_type, first + 2, byte >> 2 & 1 == 1)?;
    push_listed(out, pldm_type, first + 3, byte >> 3 & 1 == 1)?;
    push_listed(out, pldm_type, first + 4, byte >> 4 & 1 == 1)?;
    push_listed(out, pldm_type, first + 5, byte >> 5 & 1 == 1)?;
    push_listed(out, pldm_type, first + 6, byte >> 6 & 1 == 1)?;
    push_listed(out, pldm_type, first + 7, byte >> 7 & 1 == 1)
}

/// Adds a command of a type, where its bit is set.
fn push_listed(out: &mut Vec<u8>, pldm_type: u8, number: u16, set: bool) -> Result<(), Memory>
    requires { number < MAX_COMMANDS }
    ensures { OnOk result (out.new.items ≡ out.old.items ++ listed_command pldm_type number set) }
{
    if !set {
        return Ok(());
    }
    let command = number as u8;
    write_text(out, " ")?;
    out.write_hex(&[command])?;
    match name_of(pldm_type, command) {
        Some(name) => push_word(out, name),
        None => Ok(()),
    }
}

/// The name of a command of a type, where it has one here.
#[tactic(auto, unfolding(pldm_wire::specs::CommandNames::name_of_kind))]
fn name_of(pldm_type: u8, command: u8) -> Option<&'static str>
    ensures { option_map (λ name. name.now) result ≡ name_of_kind (of_type pldm_type command) }
{
    match pldm_type {
        BASE | PLATFORM => {
            let kind = Kind { pldm_type, command };
            kind.name()
        }
        _ => None,
    }
}

//! `ask`: commands go out to a device on a serial line, and their answers are printed.

ghost use Rattle.std.specs.Io.KnownBytes.{Appends};
ghost use Rattle.std.specs.Prelude.{◌≡◌, ◌≢◌, ◌≤◌, ◌⊎◌, ◌++◌, [], IfOk, IfErr, OnOk, option_map, unwrap_or};
ghost use Rattle.mctpctl.specs.AskedTexts.{AsksCommand, AsksEach, IsOfPrinting, Reports, StopsEach, asked_so, message_text, status_of_answer, status_of_message, text_in};
ghost use Rattle.mctpctl.specs.Conversations.{IsGoingOn, printed_in, shown_in};
ghost use Rattle.pldm_line.specs.Asked.{AskStops};
ghost use Rattle.pldm_wire.specs.CommandNames.{name_of_kind};
ghost use Rattle.pldm_wire.specs.Commands.{kind_of};
ghost use Rattle.mctpctl_input.specs.Ports.{inner_of};

use crate::commands::AskedCommand;
use crate::conversation::Conversation;
use crate::statuses::{DONE, FAILED, REFUSED};
use mctp_packet::Memory;
use mctpctl_command_line::AskOptions;
use mctpctl_decode::{push_answer_to, push_decoded_line};
use mctpctl_input::Port;
use mctpctl_texts::{write_data, write_text};
use pldm_line::{AskFault, Ticks, ask};
use pldm_wire::{Command, SUCCESS, read_response};
use std::alloc::Global;
use std::io::{self, ErrorKind, Read, Write};

/// How the answer to a command is printed.
#[derive(Clone, Copy)]
pub enum AnswerForm {
    /// Its message alone: its bytes in hex, or as `show --decode` shows it.
    Message(bool),
    /// As `show --decode` shows it, with what was asked.
    WithCommand,
}

/// Asks each command over a line, prints its answer, and returns the exit status.
pub fn ask_each<C: Ticks, R: Read, W: Write, O: Write>(
    rt: &HostRuntime,
    question: &AskOptions<'_>,
    commands: &[AskedCommand],
    conversation: &mut Conversation<C, R, W, O>,
) -> Result<u8, AskFault>
    requires going { IsGoingOn conversation.old }
    ensures asked { IfOk result (λ status. AsksEach question.now.hex commands.now
        (asked_so (shown_in C.to_come R.remaining W.contents conversation.old)
        (printed_in O.contents conversation.old) DONE)
        (asked_so (shown_in C.to_come R.remaining W.contents conversation.new)
        (printed_in O.contents conversation.new) status)) }
    ensures stopped { IfErr result (λ fault. IsOfPrinting fault ⊎ StopsEach question.now.hex commands.now fault
        (asked_so (shown_in C.to_come R.remaining W.contents conversation.old)
        (printed_in O.contents conversation.old) DONE)
        (shown_in C.to_come R.remaining W.contents conversation.new)) }
    ensures range { IfOk result (λ status. status ≤ FAILED) }
    ensures going { OnOk result (IsGoingOn conversation.new) }
{
    let mut status = DONE;
    for command in commands {
        match ask_one(rt, question, command, conversation) {
            Ok(one) => status = status.max(one),
            Err(fault) => return Err(fault),
        }
    }
    Ok(status)
}

/// Asks a command, and returns the exit status. Where no answer came, that is said on standard error.
fn ask_one<C: Ticks, R: Read, W: Write, O: Write>(
    rt: &HostRuntime,
    question: &AskOptions<'_>,
    asked: &AskedCommand,
    conversation: &mut Conversation<C, R, W, O>,
) -> Result<u8, AskFault>
    requires going { IsGoingOn conversation.old }
    ensures asked { IfOk result (λ status. AsksCommand question.now.hex asked.now.command status
        (shown_in C.to_come R.remaining W.contents conversation.old)
        (shown_in C.to_come R.remaining W.contents conversation.new)
        (printed_in O.contents conversation.old) (printed_in O.contents conversation.new)) }
    ensures stopped { IfErr result (λ fault. IsOfPrinting fault ⊎ AskStops asked.now.command fault
        (shown_in C.to_come R.remaining W.contents conversation.old)
        (shown_in C.to_come R.remaining W.contents conversation.new)) }
    ensures range { IfOk result (λ status. status ≤ FAILED) }
    ensures going { OnOk result (IsGoingOn conversation.new) }
{
    let hex = question.hex;
    let number = match ask_command(rt, AnswerForm::Message(hex), &asked.command, conversation) {
        Ok(number) => number,
        Err(fault) => return Err(fault),
    };
    let status = status_of_answer(conversation.line.answer(number));
    if status == FAILED {
        say_no_answer(rt, question, asked);
    }
    Ok(status)
}

/// Says that a command got no answer; of one that sets something, that it may have been performed: what was lost may be
/// the answer alone.
fn say_no_answer(rt: &HostRuntime, question: &AskOptions<'_>, asked: &AskedCommand) {
    if question.file.is_some() {
        let _ = eprint!(rt; "mctpctl: line {}: ", asked.line);
    } else {
        let _ = eprint!(rt; "mctpctl: ");
    }
    let name = name_of(&asked.command);
    if asked.command.sets() {
        let _ = eprintln!(rt; "{name}: no answer; it may have been performed");
    } else {
        let _ = eprintln!(rt; "{name}: no answer");
    }
}

/// A command's name, as DSP0240 and DSP0248 spell it.
pub(crate) fn name_of(command: &Command) -> &'static str
    ensures { result.now ≡ unwrap_or (name_of_kind (kind_of command.now)) [] }
{
    match command.kind().name() {
        Some(name) => name,
        None => "",
    }
}

/// Asks a command and prints its own answer, where one came, and returns the number of the request, whose answer the
/// line has.
pub fn ask_command<C: Ticks, R: Read, W: Write, O: Write>(
    rt: &HostRuntime,
    form: AnswerForm,
    command: &Command,
    conversation: &mut Conversation<C, R, W, O>,
) -> Result<u64, AskFault>
    requires going { IsGoingOn conversation.old }
    ensures reported { IfOk result (λ number. Reports (text_in form command.now) command.now number
        (shown_in C.to_come R.remaining W.contents conversation.old)
        (shown_in C.to_come R.remaining W.contents conversation.new)
        (printed_in O.contents conversation.old) (printed_in O.contents conversation.new)) }
    ensures stopped { IfErr result (λ fault. IsOfPrinting fault ⊎ AskStops command.now fault
        (shown_in C.to_come R.remaining W.contents conversation.old)
        (shown_in C.to_come R.remaining W.contents conversation.new)) }
    ensures going { OnOk result (IsGoingOn conversation.new) }
{
    conversation.keeper.keep_next(rt, &conversation.line)?;
    let asked = match ask(
        &mut conversation.line,
        command,
        &mut conversation.reader,
        &mut conversation.writer,
    ) {
        Ok(asked) => asked,
        Err(fault) => return Err(fault),
    };
    let Some(message) = conversation.line.answer(asked.number) else {
        return Ok(asked.number);
    };
    let out = &mut conversation.out;
    print_answer(rt.alloc(), form, command, message, out)?;
    Ok(asked.number)
}

/// Prints the answer to a command.
fn print_answer<O: Write>(
    alloc: Global,
    form: AnswerForm,
    command: &Command,
    message: &[u8],
    out: &mut Port<O>,
) -> Result<(), AskFault>
    ensures text { OnOk result (Appends (O.contents (inner_of out.old)) (O.contents (inner_of out.new))
        (text_in form command.now message.now)) }
    ensures fault { IfErr result IsOfPrinting }
{
    let mut text = Vec::new(alloc);
    if push_answer(form, command, message, &mut text).is_err() {
        return Err(AskFault::Memory);
    }
    print_text(&text, out)
}

/// Prints an answer.
pub fn print_message<O: Write>(
    alloc: Global,
    hex: bool,
    message: &[u8],
    out: &mut Port<O>,
) -> Result<(), AskFault>
    ensures text { OnOk result (Appends (O.contents (inner_of out.old)) (O.contents (inner_of out.new))
        (message_text hex message.now)) }
    ensures fault { IfErr result IsOfPrinting }
{
    let mut text = Vec::new(alloc);
    if push_message(hex, message, &mut text).is_err() {
        return Err(AskFault::Memory);
    }
    print_text(&text, out)
}

/// Prints a text.
pub fn print_text<O: Write>(text: &[u8], out: &mut Port<O>) -> Result<(), AskFault>
    ensures text { OnOk result (Appends (O.contents (inner_of out.old)) (O.contents (inner_of out.new)) text.now) }
    ensures fault { IfErr result IsOfPrinting }
{
    if let Err(error) = out.write_all(text) {
        return Err(printing_fault(&error));
    }
    match out.flush() {
        Ok(()) => Ok(()),
        Err(error) => Err(printing_fault(&error)),
    }
}

/// The fault of a text that was not printed.
fn printing_fault(error: &io::Error) -> AskFault
    ensures { IsOfPrinting result }
{
    match error.kind() {
        ErrorKind::BrokenPipe => AskFault::Unread,
        _ => AskFault::Write,
    }
}

/// The exit status of an answer, where one came.
pub fn status_of_answer(answer: Option<&[u8]>) -> u8
    ensures value { result ≡ status_of_answer (option_map (λ message. message.now) answer.entry) }
    ensures range { result ≤ FAILED }
{
    match answer {
        Some(message) => status_of_message(message),
        None => FAILED,
    }
}

/// Adds the text of the answer to a command.
fn push_answer(
    form: AnswerForm,
    command: &Command,
    message: &[u8],
    out: &mut Vec<u8>,
) -> Result<(), Memory>
    ensures { OnOk result (out.new.items ≡ out.old.items ++ text_in form command.now message.now) }
{
    match form {
        AnswerForm::Message(hex) => push_message(hex, message, out),
        AnswerForm::WithCommand => push_answer_to(out, command, message),
    }
}

/// Adds the text of an answer: as `show --decode` writes it, or its bytes in hex.
fn push_message(hex: bool, message: &[u8], out: &mut Vec<u8>) -> Result<(), Memory>
    ensures { OnOk result (out.new.items ≡ out.old.items ++ message_text hex message.now) }
{
    if hex {
        write_data(out, message)?;
        write_text(out, "\n")
    } else {
        push_decoded_line(out, message)
    }
}

/// The exit status of an answer, by its completion code.
fn status_of_message(message: &[u8]) -> u8
    ensures value { result ≡ status_of_message message.now }
    ensures range { result ≤ FAILED }
{
    match read_response(message) {
        Ok(response) if response.code() == SUCCESS => DONE,
        _ => REFUSED,
    }
}

//! The commands of `ask`, in the words of a schedule.

ghost use Rattle.std.specs.Prelude.{◌≡◌, IfErr, IfOk, None, Ok, OnOk, map, option_map};
ghost use Rattle.mctpctl.specs.AskedCommands.{IsOfLines, commands_of, last_words, spaced_words, with_line};

use crate::device_file::device_text;
use line_words::split_line;
use mctp_packet::Memory;
use mctpctl_command_line::AskOptions;
use mctpctl_explain::{misplaced_option_text, refused_text};
use mctpctl_input::MAX_DESCRIPTION;
use pldm_wire::Command;
use schedule_text::{LineFaultKind, command_in};
use std::alloc::{AllocError, AllocFailed, Global};
use std::io;

/// A command that is asked for.
#[derive(Drop)]
pub struct AskedCommand {
    /// The number of the line that says it; the first line has 1.
    pub line: u64,
    /// The command.
    pub command: Command,
}

/// Why there are no commands.
#[derive(Drop)]
pub enum CommandsFault {
    /// Neither a command nor a file is given, or both are, or the command is a comment.
    None,
    /// The words are no command: which word is wrong, and what may stand there.
    Words(String),
    /// The line of the file with this number is no command, for this reason.
    Line(u64, LineFaultKind),
    /// The file was not opened or read.
    File(io::Error),
    /// The file has more than [`MAX_DESCRIPTION`] bytes.
    TooLarge,
    /// No memory was left.
    Memory,
}

impl<T: Drop> From<AllocFailed<T>> for CommandsFault {
    fn from(_refused: AllocFailed<T>) -> CommandsFault {
        CommandsFault::Memory
    }
}

impl From<AllocError> for CommandsFault {
    fn from(_refused: AllocError) -> CommandsFault {
        CommandsFault::Memory
    }
}

/// The commands that a command line asks for: those of its file, or the one in its last words.
pub fn read_commands(
    rt: &HostRuntime,
    question: &AskOptions<'_>,
    words: &[&str],
) -> Result<Vec<AskedCommand>, CommandsFault>
    ensures words { option_map (λ name. name.now) question.now.file ≡ None → IfOk result (λ commands.
        commands_of (spaced_words (map (λ word. word.now) (last_words question.now.count words.now)))
        ≡ Ok commands.items) }
{
    let alloc = rt.alloc();
    let count = question.count.min(words.len());
    match question.file {
        Some(name) if count == 0 => {
            let text = match device_text(rt, name) {
                Ok(text) => text,
                Err(error) => return Err(CommandsFault::File(error)),
            };
            if text.len() > MAX_DESCRIPTION {
                return Err(CommandsFault::TooLarge);
            }
            commands_in(alloc, &text)
        }
        None if count > 0 => command_in_words(alloc, &words[words.len() - count..]),
        _ => Err(CommandsFault::None),
    }
}

/// The command that these words say.
fn command_in_words(alloc: Global, words: &[&str]) -> Result<Vec<AskedCommand>, CommandsFault>
    ensures { IfOk result (λ commands. commands_of (spaced_words (map (λ word. word.now) words.now))
        ≡ Ok commands.items) }
{
    let Ok(line) = spaced_words(alloc, words) else {
        return Err(CommandsFault::Memory);
    };
    let commands = match commands_in(alloc, &line) {
        Ok(commands) => commands,
        Err(CommandsFault::Line(..)) => return Err(words_fault(alloc, words, &line)),
        Err(fault) => return Err(fault),
    };
    if commands.is_empty() {
        return Err(CommandsFault::None); // a comment
    }
    Ok(commands)
}

/// Whether a word is an option: a minus and no digit after it.
fn is_option(word: &str) -> bool {
    match word.as_bytes() {
        [b'-', second, ..] => !second.is_ascii_digit(),
        _ => false,
    }
}

/// Why these words, in a line, say no command: the first option among them, else the first word that is wrong.
fn words_fault(alloc: Global, words: &[&str], line: &[u8]) -> CommandsFault {
    for word in words {
        if is_option(word) {
            return match misplaced_option_text(alloc, word.as_bytes()) {
                Ok(text) => CommandsFault::Words(text),
                Err(_) => CommandsFault::Memory,
            };
        }
    }
    let Err(refusal) = command_in(line) else {
        return CommandsFault::None; // a comment
    };
    match refused_text(alloc, refusal.found, refusal.expected) {
        Ok(text) => CommandsFault::Words(text),
        Err(_) => CommandsFault::Memory,
    }
}

/// These words as a line: a space follows each.
fn spaced_words(alloc: Global, words: &[&str]) -> Result<Vec<u8>, Memory>
    ensures { IfOk result (λ line. line.items ≡ spaced_words (map (λ word. word.now) words.now)) }
{
    let mut line = Vec::new(alloc);
    for word in words {
        line.extend_from_slice(word.as_bytes())?;
        line.push(b' ')?;
    }
    Ok(line)
}

/// The commands on the lines of a text. Blank lines and comments are skipped but counted.
fn commands_in(alloc: Global, text: &[u8]) -> Result<Vec<AskedCommand>, CommandsFault>
    ensures commands { IfOk result (λ commands. commands_of text.now ≡ Ok commands.items) }
    ensures fault { IfErr result (λ fault. IsOfLines (commands_of text.now) fault) }
{
    let mut commands = Vec::new(alloc);
    let mut number = 1;
    let mut rest = text;
    while let Some((line, after)) = split_line(rest) {
        add_command(&mut commands, number, line)?;
        number += 1;
        rest = after;
    }
    add_command(&mut commands, number, rest)?;
    Ok(commands)
}

/// Adds the command that the line of this number says, where it says one.
fn add_command(
    commands: &mut Vec<AskedCommand>,
    number: u64,
    line: &[u8],
) -> Result<(), CommandsFault>
    ensures added { OnOk result (with_line number commands.old.items line.now ≡ Ok commands.new.items) }
    ensures fault { IfErr result (λ fault. IsOfLines (with_line number commands.old.items line.now) fault) }
{
    match command_in(line) {
        Ok(Some(command)) => {
            let asked = AskedCommand {
                line: number,
                command,
            };
            if commands.push(asked).is_err() {
                return Err(CommandsFault::Memory);
            }
        }
        Ok(None) => {}
        Err(refusal) => return Err(CommandsFault::Line(number, refusal.kind)),
    }
    Ok(())
}

//! What may stand at a place of a line, in words.

ghost use Rattle.std.specs.Prelude.{IfOk, string_bytes};
ghost use Rattle.mctpctl_explain.specs.AllowedWords.{SaysExpected, SaysMisplaced};

use crate::quote::quoted;
use crate::suggest::{choice, suggestion};
use line_words::MAX_DIGITS;
use mctp_packet::{MAX_EID, MAX_MOMENT, MIN_EID, Memory};
use pldm_wire::Size;
use schedule_text::{Expected, MAX_BYTE, MAX_HANDLE, MAX_ID, MAX_TIMEOUT};
use std::alloc::Global;

/// The words that a line of a schedule begins with.
const KEYWORDS: [&str; 2] = ["requester", "at"];

/// The names of the actions.
const ACTIONS: [&str; 7] = ["open", "tick", "req", "rep", "sense", "restart", "busy"];

/// The names of the commands.
const COMMANDS: [&str; 13] = [
    "gettid",
    "settid",
    "getversion",
    "gettypes",
    "getcommands",
    "sensor",
    "statesensors",
    "setnum",
    "getnum",
    "setstate",
    "getstate",
    "pdrinfo",
    "getpdr",
];

/// The names of the data sizes.
pub(crate) const SIZES: [&str; 6] = ["uint8", "sint8", "uint16", "sint16", "uint32", "sint32"];

/// The parts of a record that may be asked for.
const PARTS: [&str; 2] = ["first", "next"];

/// What is wrong with a word that may not stand where this is expected; with an empty one, that the line ended there.
/// In which words it is said what is expected is tested.
///
/// # Errors
///
/// `Memory` where a growth was refused.
pub fn refused_text(alloc: Global, found: &[u8], expected: Expected) -> Result<String, Memory>
    ensures { IfOk result (λ text. SaysExpected found.now (string_bytes text)) }
{
    let what = expected_text(alloc, expected)?;
    if found.is_empty() {
        return Ok(format!(in alloc; "expected {what} at the end of the line")?);
    }
    let hint = suggestion(alloc, found, known_words(expected))?;
    let found = quoted(alloc, found)?;
    Ok(format!(in alloc; "{found}: expected {what}{hint}")?)
}

/// What is wrong with an option that stands among the words of a command. What stands between the quotes is tested.
///
/// # Errors
///
/// `Memory` where a growth was refused.
pub fn misplaced_option_text(alloc: Global, option: &[u8]) -> Result<String, Memory>
    ensures { IfOk result (λ text. SaysMisplaced (string_bytes text)) }
{
    let option = quoted(alloc, option)?;
    Ok(format!(in alloc; "{option} is an option, and options stand before the command")?)
}

/// What may stand there, in words.
fn expected_text(alloc: Global, expected: Expected) -> Result<String, Memory> {
    match expected {
        Expected::TimeoutWord => choice(alloc, &["timeout"]),
        Expected::TriesWord => choice(alloc, &["tries"]),
        Expected::Number => Ok(format!(in alloc; "a number of at most {MAX_DIGITS} digits")?),
        Expected::Value => Ok(format!(in alloc; "a value of at most {MAX_DIGITS} digits")?),
        Expected::SizedValue(size) => {
            let name = size.name();
            let range = range_of_size(size);
            Ok(format!(in alloc; "a value of the size '{name}', {range}")?)
        }
        Expected::End => Ok(String::from_str(alloc, "the end of the line")?),
        _ => match range_of(expected) {
            Some((what, least, greatest)) => {
                Ok(format!(in alloc; "{what} from {least} to {greatest}")?)
            }
            None => choice(alloc, known_words(expected)),
        },
    }
}

/// The words of which one may stand there, where there are several.
fn known_words(expected: Expected) -> &'static [&'static str] {
    match expected {
        Expected::Keyword => &KEYWORDS,
        Expected::Action => &ACTIONS,
        Expected::Command => &COMMANDS,
        Expected::Size => &SIZES,
        Expected::Part => &PARTS,
        _ => &[],
    }
}

/// The numbers of a data size (DSP0248, "sensorDataSize").
fn range_of_size(size: Size) -> &'static str {
    match size {
        Size::Uint8 => "0 to 255",
        Size::Sint8 => "-128 to 127",
        Size::Uint16 => "0 to 65535",
        Size::Sint16 => "-32768 to 32767",
        Size::Uint32 => "0 to 4294967295",
        Size::Sint32 => "-2147483648 to 2147483647",
    }
}

/// What is counted where a number may stand there, and the least and the greatest one.
fn range_of(expected: Expected) -> Option<(&'static str, u64, u64)> {
    match expected {
        Expected::Eid => Some(("an endpoint ID", MIN_EID.into(), MAX_EID.into())),
        Expected::Moment => Some(("a moment in milliseconds", 0, MAX_MOMENT)),
        Expected::Timeout => Some(("a timeout in milliseconds", 0, MAX_TIMEOUT)),
        Expected::Byte => Some(("a number", 0, MAX_BYTE)),
        Expected::State => Some(("'-' or a state", 0, MAX_BYTE)),
        Expected::Id => Some(("an ID or a count", 0, MAX_ID)),
        Expected::Handle => Some(("a handle", 0, MAX_HANDLE)),
        _ => None,
    }
}

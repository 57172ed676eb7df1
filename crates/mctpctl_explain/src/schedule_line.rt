//! What is wrong with a line of a schedule.

use crate::expected::refused_text;
use crate::quote::quoted;
use crate::words::words_of;
use mctp_packet::Memory;
use mctpctl_input::LineKind;
use schedule_text::{LineFaultKind, refusal_of};
use std::alloc::Global;

/// What is wrong with a line of a schedule that was refused for this, but for a moment that goes back; nothing where it
/// is not refused for this.
pub(crate) fn reason_of(alloc: Global, line: &[u8], kind: LineKind) -> Result<String, Memory> {
    match kind {
        LineKind::Words => refused_word(alloc, line, LineFaultKind::Words),
        LineKind::Number => refused_word(alloc, line, LineFaultKind::Number),
        LineKind::NoSuchRequester => no_requester(alloc, line),
        LineKind::SameRequester => same_requester(alloc, line),
        LineKind::LongLine | LineKind::BackInTime | LineKind::BadHex => Ok(String::new(alloc)),
    }
}

/// The first word that may not stand where it does, or that the line ends too soon.
fn refused_word(alloc: Global, line: &[u8], kind: LineFaultKind) -> Result<String, Memory> {
    match refusal_of(line) {
        Some(refusal) if refusal.kind == kind => {
            refused_text(alloc, refusal.found, refusal.expected)
        }
        _ => Ok(String::new(alloc)),
    }
}

/// The requester of a line, which no line before it is of.
fn no_requester(alloc: Global, line: &[u8]) -> Result<String, Memory> {
    let words = words_of(alloc, line)?;
    let [_, _, _, eid, ..] = words.as_slice() else {
        return Ok(String::new(alloc));
    };
    let eid = quoted(alloc, eid)?;
    Ok(format!(in alloc; "{eid}: expected 'requester EID timeout MS tries N' above")?)
}

/// The requester of a line, which a line before it is of.
fn same_requester(alloc: Global, line: &[u8]) -> Result<String, Memory> {
    let words = words_of(alloc, line)?;
    let [_, eid, ..] = words.as_slice() else {
        return Ok(String::new(alloc));
    };
    let eid = quoted(alloc, eid)?;
    Ok(format!(in alloc; "{eid} already")?)
}

//! What is wrong with a line of a capture.

use crate::expected::refused_text;
use crate::quote::quoted;
use mctp_packet::Memory;
use mctpctl_input::{
    CaptureRefusal, LineKind, MAX_CAPTURE_LINE, capture_refusal, looks_like_packet,
};
use schedule_text::Expected;
use std::alloc::Global;

/// What is wrong with a line of a capture that was refused for this, but for a moment that goes back; nothing where it
/// is not refused for this.
pub(crate) fn reason_of(alloc: Global, line: &[u8], kind: LineKind) -> Result<String, Memory> {
    match (kind, capture_refusal(line)) {
        (LineKind::LongLine, Some(CaptureRefusal::LongLine(length))) => Ok(format!(in alloc;
            "{length} bytes or more: at most {MAX_CAPTURE_LINE} are allowed"
        )?),
        (LineKind::Words, Some(CaptureRefusal::Words(extra))) => {
            let found = quoted(alloc, extra)?;
            Ok(format!(in alloc; "{found}: expected nothing after a moment and a packet in hex")?)
        }
        (LineKind::Number, Some(CaptureRefusal::Number(word, is_alone))) => {
            no_moment(alloc, word, is_alone)
        }
        (LineKind::BadHex, Some(CaptureRefusal::BadHex(packet))) => no_hex(alloc, packet),
        _ => Ok(String::new(alloc)),
    }
}

/// What is wrong with a first word that is no moment, and may be the only word.
fn no_moment(alloc: Global, word: &[u8], is_alone: bool) -> Result<String, Memory> {
    if is_alone && looks_like_packet(word) {
        let found = quoted(alloc, word)?;
        return Ok(format!(in alloc;
            "{found}: expected a moment in milliseconds before the packet"
        )?);
    }
    refused_text(alloc, word, Expected::Moment)
}

/// The first character that is no hex digit, else the odd count of digits.
fn no_hex(alloc: Global, packet: &[u8]) -> Result<String, Memory> {
    for (place, byte) in packet.iter().enumerate() {
        if !byte.is_ascii_hexdigit() {
            let found = quoted(alloc, &[*byte])?;
            let number = place.saturating_add(1);
            return Ok(format!(in alloc;
                "{found}, character {number} of the packet, is no hex digit"
            )?);
        }
    }
    let found = quoted(alloc, packet)?;
    let count = packet.len();
    Ok(format!(in alloc; "{found} has {count} hex digits: expected two for each byte")?)
}

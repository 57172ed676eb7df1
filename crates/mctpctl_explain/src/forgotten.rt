//! Lines of a capture whose moment is likely to be missing.

use crate::input_warnings::MAX_WARNINGS;
use line_words::{first_word, read_decimal, split_line, split_word};
use mctp_packet::Memory;
use mctpctl_input::looks_like_packet;
use std::alloc::Global;

/// The lines of a capture that are a moment alone and look like a packet.
pub(crate) fn forgotten_moments(
    alloc: Global,
    lines: &[u8],
    lines_before: u64,
    found: &mut Vec<String>,
) -> Result<(), Memory> {
    let mut number = lines_before.saturating_add(1);
    let mut rest = lines;
    while let Some((line, after)) = split_line(rest) {
        warn_of_line(alloc, line, number, found)?;
        number = number.saturating_add(1);
        rest = after;
    }
    warn_of_line(alloc, rest, number, found)
}

fn warn_of_line(
    alloc: Global,
    line: &[u8],
    number: u64,
    found: &mut Vec<String>,
) -> Result<(), Memory> {
    if found.len() < MAX_WARNINGS && is_forgotten_moment(line) {
        found.push(format!(in alloc;
            "input line {number}: a moment alone, which looks like a packet: is the moment before it missing?"
        )?)?;
    }
    Ok(())
}

/// Whether a line of a capture says a moment alone that looks like a packet whose moment was forgotten.
fn is_forgotten_moment(line: &[u8]) -> bool {
    let Some((word, rest)) = first_word(line) else {
        return false;
    };
    split_word(rest).is_none() && looks_like_packet(word) && read_decimal(word).is_some()
}

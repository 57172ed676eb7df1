//! Why the moment of a line, of a capture or of a schedule, is refused after those of the lines before it.

use crate::explanation::Subcommand;
use crate::quote::quoted;
use crate::words::words_of;
use line_words::{read_decimal, split_line};
use mctp_packet::Memory;
use std::alloc::Global;

/// The moment of a line, and the one before it that is later.
pub(crate) fn reason_of(
    alloc: Global,
    subject: Subcommand,
    line: &[u8],
    before: &[u8],
) -> Result<String, Memory> {
    let words = words_of(alloc, line)?;
    let Some(moment) = moment_word(subject, &words) else {
        return Ok(String::new(alloc));
    };
    let found = quoted(alloc, moment)?;
    let last = last_moment(alloc, subject, before)?;
    Ok(format!(in alloc; "{found} is before that of an earlier line, {last}")?)
}

/// The moment of the last of these lines that has one.
fn last_moment(alloc: Global, subject: Subcommand, lines: &[u8]) -> Result<u64, Memory> {
    let mut last = 0;
    let mut rest = lines;
    while let Some((line, after)) = split_line(rest) {
        let words = words_of(alloc, line)?;
        if let Some(word) = moment_word(subject, &words)
            && let Some(moment) = read_decimal(word)
        {
            last = moment;
        }
        rest = after;
    }
    Ok(last)
}

/// The word of a line that is its moment.
fn moment_word<'a>(subject: Subcommand, words: &[&'a [u8]]) -> Option<&'a [u8]> {
    match (subject, words) {
        (Subcommand::Run, [b"at", moment, ..]) => Some(*moment),
        (Subcommand::Answer | Subcommand::Show | Subcommand::Serve, [moment, ..]) => Some(*moment),
        _ => None,
    }
}

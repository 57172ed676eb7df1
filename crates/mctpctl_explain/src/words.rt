//! The words of a line.

use line_words::{first_word, split_word};
use mctp_packet::Memory;
use std::alloc::Global;

/// The words of a line, given without its LF; none where it is blank or a comment.
pub(crate) fn words_of<'a>(alloc: Global, line: &'a [u8]) -> Result<Vec<&'a [u8]>, Memory> {
    let mut words = Vec::new(alloc);
    let Some((first, after)) = first_word(line) else {
        return Ok(words);
    };
    words.push(first)?;
    let mut rest = after;
    while let Some((word, after)) = split_word(rest) {
        words.push(word)?;
        rest = after;
    }
    Ok(words)
}

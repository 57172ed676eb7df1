//! Lines and columns of a text.

ghost use Rattle.std.specs.Prelude.{◌≡◌, ◌≤◌, IfOk, length, string_bytes};
ghost use Rattle.mctpctl_explain.specs.TextPlaces.{IsLineOf, place_at, place_bytes};

use line_words::split_line;
use mctp_packet::Memory;
use std::alloc::Global;

/// A place in a text: its line and its column, both counted from 1. A column counts bytes.
#[derive(Clone, Copy, Debug)]
pub(crate) struct Place {
    /// The line.
    pub(crate) line: usize,
    /// The column.
    pub(crate) column: usize,
}

impl Place {
    /// The place of the byte with this number, counted from 0; that behind the last byte is a place too. Further past
    /// the end of the text it is in the last line.
    pub(crate) fn at(text: &[u8], offset: usize) -> Place
        ensures place { offset ≤ length text.now → result ≡ place_at text.now offset }
        ensures line { IsLineOf text.now result.line }
    {
        let mut line = 1usize;
        let mut rest = text;
        let mut left = offset;
        while let Some((before, after)) = split_line(rest) {
            if left <= before.len() {
                break;
            }
            left -= before.len();
            left -= 1;
            line = line.saturating_add(1);
            rest = after;
        }
        Place {
            line,
            column: left.saturating_add(1),
        }
    }

    /// The place as text, as `line 3, column 1`.
    pub(crate) fn text(self, alloc: Global) -> Result<String, Memory>
        ensures { IfOk result (λ text. string_bytes text ≡ place_bytes self) }
    {
        let Place { line, column } = self;
        Ok(format!(in alloc; "line {line}, column {column}")?)
    }
}

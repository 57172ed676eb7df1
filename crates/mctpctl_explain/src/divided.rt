//! The two parts of an input.

ghost use Rattle.std.specs.Prelude.{◌≡◌, ◌<◌, ◌-◌, ◌++◌, ℕ, List, IfSome, IfNone, None, Some, length, slice_get};
ghost use Rattle.line_words.specs.TextLines.{lines_of};
ghost use Rattle.mctpctl_input.specs.TextLines.{capture_lines, description_of};
ghost use Rattle.mctpctl_explain.specs.Divisions.{AreLines, lines_to_divider};

use line_words::split_line;
use mctpctl_input::is_divider;

/// An input, divided at its first line that is `%%`.
#[derive(Clone, Copy, Debug)]
pub(crate) struct Divided<'a> {
    /// The bytes before that line.
    pub(crate) description: &'a [u8],
    /// The lines after it.
    pub(crate) lines: &'a [u8],
    /// How many lines end before them, the divider among them.
    pub(crate) lines_before: u64,
}

impl<'a> Divided<'a> {
    /// Divides an input; `None` where no line divides.
    pub(crate) fn new(input: &'a [u8]) -> Option<Divided<'a>>
        ensures description { IfSome result (λ d. d.description.now ≡ description_of (lines_of input.now)) }
        ensures lines { IfSome result (λ d. AreLines (capture_lines (lines_of input.now)) d.lines.now) }
        ensures before { IfSome result (λ d. d.lines_before ≡ lines_to_divider (lines_of input.now)) }
        ensures none { IfNone result (capture_lines (lines_of input.now) ≡ None) }
    {
        let mut rest = input;
        let mut lines_before = 0u64;
        while let Some((line, after)) = split_line(rest) {
            lines_before = lines_before.saturating_add(1);
            if is_divider(line) {
                return Some(Divided {
                    description: front(input, rest),
                    lines: after,
                    lines_before,
                });
            }
            rest = after;
        }
        if is_divider(rest) {
            return Some(Divided {
                description: front(input, rest),
                lines: &[],
                lines_before: lines_before.saturating_add(1),
            });
        }
        None
    }
}

/// The bytes of a text before its last ones, `rest`.
fn front<'a>(text: &'a [u8], rest: &[u8]) -> &'a [u8]
    ensures { (before : List ℕ) → text.now ≡ before ++ rest.now → result.now ≡ before }
{
    &text[..text.len().saturating_sub(rest.len())]
}

/// The line of this number, counted from 1, and the bytes before it; `None` where there are not as many lines. Number 0
/// is the first line too.
pub(crate) fn numbered_line(lines: &[u8], number: u64) -> Option<(&[u8], &[u8])>
    ensures line { IfSome result (λ p. slice_get (lines_of lines.now) (number - 1) ≡ Some p.0.now) }
    ensures before { IfSome result (λ p. (after : List ℕ) × (lines.now ≡ p.1.now ++ (p.0.now ++ after))) }
    ensures none { IfNone result (length (lines_of lines.now) < number) }
{
    let mut rest = lines;
    let mut left = number;
    while let Some((line, after)) = split_line(rest) {
        if left <= 1 {
            return Some((line, front(lines, rest)));
        }
        left -= 1;
        rest = after;
    }
    if left <= 1 {
        Some((rest, front(lines, rest)))
    } else {
        None
    }
}

//! The lines of a text, and the words of a line.

ghost use Rattle.std.specs.Prelude.{◌≡◌, ◌+◌, ◌++◌, ◌∷◌, [], ◌==◌, IfSome, IfNone, length, position, ◌≢◌, slice_get, Some, take, unwrap_or};
ghost use Rattle.line_words.specs.TextLines.{HasNoFeed, lines_of};
ghost use Rattle.line_words.specs.Lines.{said_words, without_cr, words_of};
ghost use Rattle.line_words.specs.Numbers.{decimal_of};

use crate::numbers::{leading_digits, read_decimal};
use memchr::memchr;

/// The first line, and what follows its LF; `None` where there is no LF, and all is one line.
// Inlined: it is called for each line, and its result is then passed on in parts.
#[inline(always)]
pub fn split_line(text: &[u8]) -> Option<(&[u8], &[u8])>
    ensures some { IfSome result (λ p. lines_of text.now ≡ p.0.now ∷ lines_of p.1.now) }
    ensures parts { IfSome result (λ p. text.now ≡ p.0.now ++ 10 ∷ p.1.now) }
    ensures len { IfSome result (λ p. length p.0.now + length p.1.now + 1 ≡ length text.now) }
    ensures none { IfNone result (lines_of text.now ≡ text.now ∷ []) }
    ensures ended { IfSome result (λ p. HasNoFeed p.0.now) }
    ensures open { IfNone result (HasNoFeed text.now) }
{
    let end = line_end(text)?;
    Some((&text[..end], &text[end + 1..]))
}

/// Where the first LF is.
fn line_end(text: &[u8]) -> Option<usize>
    ensures { result ≡ position (λ b. b == 10) text.now }
{
    memchr(b'\n', text)
}

/// The line with one CR at its very end dropped.
pub fn without_cr(line: &[u8]) -> &[u8]
    ensures { result.now ≡ without_cr line.now }
{
    match line.last() {
        Some(b'\r') => &line[..line.len() - 1],
        _ => line,
    }
}

/// The first word of a line, given without its LF, and what follows the word. It is `None` where the
/// line says nothing: where it is blank, or its first character past spaces is `#`. One CR at the very
/// end of the line is dropped.
pub fn first_word(line: &[u8]) -> Option<(&[u8], &[u8])>
    ensures some { IfSome result (λ p. said_words line.now ≡ p.0.now ∷ words_of p.1.now) }
    ensures none { IfNone result (said_words line.now ≡ []) }
{
    let (word, _, rest) = first_number(line)?;
    Some((word, rest))
}

/// The first word of a line as [`first_word`] has it, with the number that it spells, as [`split_number`] reads it,
/// and what follows the word.
// Inlined, as `split_number`.
#[inline(always)]
pub fn first_number(line: &[u8]) -> Option<(&[u8], Option<u64>, &[u8])>
    ensures some { IfSome result (λ p. said_words line.now ≡ p.0.now ∷ words_of p.2.now) }
    ensures number { IfSome result (λ p. p.1 ≡ decimal_of p.0.now) }
    ensures none { IfNone result (said_words line.now ≡ []) }
{
    let (word, number, rest) = split_number(without_cr(line))?;
    if word.first() == Some(&b'#') {
        return None;
    }
    Some((word, number, rest))
}

/// The first word of a text, and what follows it; `None` where there are spaces alone. A tab is part of
/// a word.
pub fn split_word(text: &[u8]) -> Option<(&[u8], &[u8])>
    ensures some { IfSome result (λ p. words_of text.now ≡ p.0.now ∷ words_of p.1.now) }
    ensures none { IfNone result (words_of text.now ≡ []) }
{
    let (word, _, rest) = split_number(text)?;
    Some((word, rest))
}

/// The first word of a text, the number that it spells as [`read_decimal`] reads it, and what follows the word;
/// `None` where there are spaces alone.
// Inlined: its result is then passed on in parts.
#[inline(always)]
pub fn split_number(text: &[u8]) -> Option<(&[u8], Option<u64>, &[u8])>
    ensures some { IfSome result (λ p. words_of text.now ≡ p.0.now ∷ words_of p.2.now) }
    ensures number { IfSome result (λ p. p.1 ≡ decimal_of p.0.now) }
    ensures none { IfNone result (words_of text.now ≡ []) }
{
    let text = trim_spaces(text);
    if text.is_empty() {
        return None;
    }
    if let Some((number, end)) = leading_number(text) {
        return Some((&text[..end], Some(number), &text[end..]));
    }
    let end = first_space(text).unwrap_or(text.len());
    let word = &text[..end];
    Some((word, read_decimal(word), &text[end..]))
}

/// The number that a text begins with, and where it ends, if it ends there where the text does or a space is.
fn leading_number(text: &[u8]) -> Option<(u64, usize)>
    ensures number { IfSome result (λ p. Some p.0 ≡ decimal_of (take p.1 text.now)) }
    ensures end { IfSome result (λ p. p.1 ≡ unwrap_or (position (λ b. b == 32) text.now) (length text.now)) }
{
    let (number, end) = leading_digits(text);
    let ends = match text.get(end) {
        Some(byte) => *byte == b' ',
        None => true,
    };
    if end > 0 && ends {
        Some((number, end))
    } else {
        None
    }
}

/// The text without the spaces that it begins with.
fn trim_spaces(text: &[u8]) -> &[u8]
    ensures words { words_of result.now ≡ words_of text.now }
    ensures trimmed { slice_get result.now 0 ≢ Some 32 }
{
    let mut rest = text;
    while let [b' ', after @ ..] = rest {
        rest = after;
    }
    rest
}

/// Where the first space is.
fn first_space(text: &[u8]) -> Option<usize>
    ensures { result ≡ position (λ b. b == 32) text.now }
{
    text.iter().position(|byte| *byte == b' ')
}

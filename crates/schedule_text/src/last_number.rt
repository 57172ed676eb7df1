//! The number that was read last.

ghost use Rattle.std.specs.Prelude.{◌≡◌, ◌∷◌, ◌++◌, ◌-◌, true, IfSome, drop, length};
ghost use Rattle.line_words.specs.Lines.{words_of};

use crate::word::Word;
use line_words::MAX_DIGITS;
use std::marker::Model;

/// The number that was read last, with its digits. Many lines in a row have the same one, whose digits are then
/// compared and not read again.
#[derive(Debug, Drop)]
pub(crate) struct LastNumber {
    number: u64,
    room: [u8; MAX_DIGITS],
    /// How many digits it has.
    count: usize,
}

impl Model for LastNumber {
    ghost use Rattle.std.specs.Prelude.{◌≡◌, ◌≤◌, List, ℕ, Some, take};
    ghost use Rattle.line_words.specs.declared.numbers.TheConstants.{MAX_DIGITS};
    ghost use Rattle.line_words.specs.Numbers.{decimal_of};

    ghost Value = { List ℕ };

    ghost view = { λ n. take n.count n.room };

    ghost invariant = { λ n. (n.count ≤ MAX_DIGITS) × (decimal_of (take n.count n.room) ≡ Some n.number) };
}

/// What the lines before had.
#[derive(Debug, Drop)]
pub(crate) struct LastNumbers {
    /// The moment of the last step.
    pub(crate) moment: LastNumber,
    /// The number of the request in the last step that had one.
    pub(crate) number: LastNumber,
}

impl LastNumber {
    /// Where none was read yet: zero.
    pub(crate) fn none() -> LastNumber {
        LastNumber {
            number: 0,
            room: [b'0'; MAX_DIGITS],
            count: 1,
        }
    }

    /// Its digits.
    fn digits(&self) -> &[u8]
        ensures { result.now ≡ self.now }
    {
        &self.room[..self.count]
    }

    /// The first word of a text and what follows it, where that word has these digits and a space after them.
    // Inlined: it stands at the begin of nearly all steps.
    #[inline(always)]
    pub(crate) fn split<'a>(&self, text: &'a [u8]) -> Option<(Word<'a>, &'a [u8])>
        ensures { IfSome result (λ p. words_of text.now ≡ p.0 ∷ words_of p.1.now) }
    {
        let (digits, rest) = text.split_at_checked(self.count)?;
        match rest {
            [b' ', ..] if are_same(digits, self.digits()) => {
                Some((Word::new(digits, Some(self.number)), rest))
            }
            _ => None,
        }
    }

    /// Becomes the number that a word spells, if it spells one.
    pub(crate) fn set(&mut self, word: &Word<'_>) {
        if let Some(number) = word.number() {
            let digits = word.bytes();
            self.number = number;
            self.room[..digits.len()].copy_from_slice(digits);
            self.count = digits.len();
        }
    }
}

/// Whether both have the same digits.
// A usual number has four to eight digits: they are compared as two groups of four, by no loop and no call.
#[inline(always)]
fn are_same(digits: &[u8], others: &[u8]) -> bool
    ensures { result ≡ true → digits.now ≡ others.now }
{
    match (in_groups(digits), in_groups(others)) {
        (Some((first, last)), Some((other_first, other_last))) if digits.len() == others.len() => {
            first == other_first && last == other_last
        }
        _ => digits == others,
    }
}

/// The first and the last four of four to eight digits.
#[inline(always)]
fn in_groups(digits: &[u8]) -> Option<(&[u8; 4], &[u8; 4])>
    ensures { IfSome result (λ groups. digits.now ≡ groups.0.now ++ drop (8 - length digits.now) groups.1.now) }
{
    if digits.len() > 8 {
        return None;
    }
    let (first, _) = digits.split_first_chunk()?;
    let (_, last) = digits.split_last_chunk()?;
    Some((first, last))
}

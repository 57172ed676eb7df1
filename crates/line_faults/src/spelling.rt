//! The words of `--faults`: a seed, two shares in percent, and a delay.

ghost use Rattle.std.specs.Prelude.{◌≡◌, ◌≤◌, ◌∷◌, ◌==◌, [], IfErr, IfNone, IfOk, IfSome, Some, position};
ghost use Rattle.line_faults.specs.Spellings.{faults_in, name_of_part, parts_of, refused_in};

use crate::fate::{LineFaults, MAX_DELAY, PERCENT};
use line_words::read_number;

/// The greatest seed.
pub const MAX_SEED: u64 = 9_999_999_999_999_999;

/// What is wrong with the spelling of faults.
#[derive(Clone, Copy, Debug, PartialEq, Eq)]
pub enum FaultsPart {
    /// There are not four parts.
    Count = 1,
    /// The seed is no number, or a greater one than [`MAX_SEED`].
    Seed = 2,
    /// The share of the frames that are lost is none.
    Lose = 3,
    /// The share of those that come twice is none.
    Repeat = 4,
    /// The delay is no number, or a greater one than [`MAX_DELAY`].
    Delay = 5,
}

impl FaultsPart {
    /// What the part has to be.
    pub fn text(self) -> &'static str
        ensures { result.now ≡ name_of_part self }
    {
        match self {
            FaultsPart::Count => "four numbers are needed, with commas between",
            FaultsPart::Seed => "SEED is a number of at most 16 digits",
            FaultsPart::Lose => "LOSE is 0 to 100, in percent",
            FaultsPart::Repeat => "REPEAT is 0 to 100, in percent",
            FaultsPart::Delay => "DELAY is 0 to 60000, in milliseconds",
        }
    }
}

/// The faults that a word spells, as `7,10,10,50`; else what is wrong first.
#[tactic(auto, using(crate::proofs::CommaSplits::too_many))]
pub fn read_faults(word: &[u8]) -> Result<LineFaults, FaultsPart>
    ensures ok { IfOk result (λ faults. faults_in (parts_of word.now) ≡ Some faults) }
    ensures err { IfErr result (λ part. refused_in (parts_of word.now) ≡ Some part) }
    ensures lose { IfOk result (λ faults. faults.lose ≤ PERCENT) }
    ensures repeat { IfOk result (λ faults. faults.repeat ≤ PERCENT) }
    ensures delay { IfOk result (λ faults. faults.delay ≤ MAX_DELAY) }
{
    let Some((seed, rest)) = split_part(word) else {
        return Err(FaultsPart::Count);
    };
    let Some((lose, rest)) = split_part(rest) else {
        return Err(FaultsPart::Count);
    };
    let Some((repeat, delay)) = split_part(rest) else {
        return Err(FaultsPart::Count);
    };
    let None = split_part(delay) else {
        return Err(FaultsPart::Count);
    };
    let Some(seed) = read_number(seed, MAX_SEED) else {
        return Err(FaultsPart::Seed);
    };
    let Some(lose) = read_number(lose, PERCENT) else {
        return Err(FaultsPart::Lose);
    };
    let Some(repeat) = read_number(repeat, PERCENT) else {
        return Err(FaultsPart::Repeat);
    };
    let Some(delay) = read_number(delay, MAX_DELAY) else {
        return Err(FaultsPart::Delay);
    };
    Ok(LineFaults {
        seed,
        lose: lose as u8,
        repeat: repeat as u8,
        delay: delay as u32,
    })
}

/// The first part of a text, and what follows its comma.
fn split_part(text: &[u8]) -> Option<(&[u8], &[u8])>
    ensures some { IfSome result (λ p. parts_of text.now ≡ p.0.now ∷ parts_of p.1.now) }
    ensures none { IfNone result (parts_of text.now ≡ text.now ∷ []) }
{
    let end = part_end(text)?;
    Some((&text[..end], &text[end + 1..]))
}

/// Where the first comma is.
fn part_end(text: &[u8]) -> Option<usize>
    ensures { result ≡ position (λ b. b == 44) text.now }
{
    text.iter().position(|byte| *byte == b',')
}

//! The known word that a wrong one was meant to be.

ghost use Rattle.std.specs.Prelude.{IfOk, IfSome, string_bytes};
ghost use Rattle.mctpctl_explain.specs.RepeatedWords.{IsKnown, IsSuggestion};

use crate::limits::{MAX_EDITS, MAX_SUGGESTED};
use mctp_packet::Memory;
use std::alloc::Global;
use strsim::damerau_levenshtein;

/// The known word that differs from this one in the fewest letters, and in at most [`MAX_EDITS`]; of
/// several the first. Letters of another case differ by nothing.
pub(crate) fn similar<'a>(
    alloc: Global,
    word: &[u8],
    known: &[&'a str],
) -> Result<Option<&'a str>, Memory>
    ensures { IfOk result (λ best. IfSome best (IsKnown known.now)) }
{
    if word.len() > MAX_SUGGESTED {
        return Ok(None);
    }
    let Ok(word) = str::from_utf8(word) else {
        return Ok(None);
    };
    let word = word.to_ascii_lowercase(alloc)?;
    let mut least = MAX_EDITS + 1;
    let mut best = None;
    for name in known {
        let edits = damerau_levenshtein(alloc, word.as_str(), name)?;
        if edits < least && edits < name.len() {
            least = edits;
            best = Some(*name);
        }
    }
    Ok(best)
}

/// What is said after a wrong word: the known word that it was meant to be, or nothing. Which of them is tested.
#[tactic(auto, using(crate::proofs::RepeatedWords::suggests))]
pub(crate) fn suggestion(alloc: Global, word: &[u8], known: &[&str]) -> Result<String, Memory>
    ensures { IfOk result (λ text. IsSuggestion known.now (string_bytes text)) }
{
    match similar(alloc, word, known)? {
        Some(name) => Ok(format!(in alloc; "; did you mean '{name}'?")?),
        None => Ok(String::new(alloc)),
    }
}

/// Known words as a choice: `'a', 'b' or 'c'`.
pub(crate) fn choice(alloc: Global, known: &[&str]) -> Result<String, Memory> {
    let mut text = String::new(alloc);
    for (place, name) in known.iter().enumerate() {
        if place > 0 {
            let last = place + 1 == known.len();
            text.push_str(if last { " or " } else { ", " })?;
        }
        text.push_str(format!(in alloc; "'{name}'")?.as_str())?;
    }
    Ok(text)
}

//! A word as an explanation repeats it.

ghost use Rattle.std.specs.Prelude.{IfOk, string_bytes};
ghost use Rattle.mctpctl_explain.specs.RepeatedWords.{IsQuoted};

use crate::limits::MAX_QUOTED;
use mctp_packet::Memory;
use std::alloc::Global;

/// A word between quotes: a byte that is no printable ASCII character is `\xNN`, and of a word that is longer than
/// [`MAX_QUOTED`] bytes the front stands alone, with `..` after it. What stands between the quotes is tested.
pub(crate) fn quoted(alloc: Global, word: &[u8]) -> Result<String, Memory>
    ensures { IfOk result (λ text. IsQuoted (string_bytes text)) }
{
    let mut text = String::from_str(alloc, "'")?;
    for (place, byte) in word.iter().enumerate() {
        if place == MAX_QUOTED {
            text.push_str("..")?;
            break;
        }
        if *byte >= b' ' && *byte <= b'~' {
            text.push(char::from(*byte))?;
        } else {
            text.push_str(format!(in alloc; "\\x{byte:02x}")?.as_str())?;
        }
    }
    text.push_str("'")?;
    Ok(text)
}

//! Why a line of a capture is refused by itself, and what was found there.

ghost use Rattle.std.specs.Prelude.{◌≡◌, ◌∷◌, ℕ, IfSome, length};
ghost use Rattle.line_words.specs.Lines.{said_words, words_of};
ghost use Rattle.mctpctl_input.specs.CaptureLine.{capture_of, moment_spelled, packet_word, timed_packet};
ghost use Rattle.mctpctl_input.specs.CaptureRefusals.{IsFound, fault_of, kind_of};

use crate::capture::read_moment;
use crate::limits::MAX_CAPTURE_LINE;
use crate::packet_word::spells_bytes;
use line_words::{first_number, split_word};

/// Why a line of a capture is refused, with what was found there.
#[derive(Clone, Copy, Debug)]
pub enum CaptureRefusal<'a> {
    /// The line is too long: it has so many bytes.
    LongLine(usize),
    /// There is a third word.
    Words(&'a [u8]),
    /// The first word is no moment. Beside it stands whether it is the only word.
    Number(&'a [u8], bool),
    /// The second word does not spell bytes.
    BadHex(&'a [u8]),
}

/// Why a line, given without its LF, is refused by itself: as one before which no line has a moment. `None` where it
/// may stand after some lines.
#[tactic(auto, unfolding(crate::specs::CaptureLine::capture_of))]
pub fn capture_refusal(line: &[u8]) -> Option<CaptureRefusal<'_>>
    ensures kind { kind_of result ≡ fault_of (capture_of line.now 0) }
    ensures found { IfSome result (IsFound (length line.now) (said_words line.now)) }
{
    if line.len() > MAX_CAPTURE_LINE {
        return Some(CaptureRefusal::LongLine(line.len()));
    }
    let (first, number, rest) = first_number(line)?;
    words_refusal(first, number, rest)
}

/// As [`capture_refusal`], for a line whose first word spells this number, if it spells one, with the text behind it.
#[tactic(auto, using(crate::proofs::RefusedWords::packet_fault, crate::proofs::RefusedWords::no_bytes))]
fn words_refusal<'a>(
    first: &'a [u8],
    number: Option<u64>,
    rest: &'a [u8],
) -> Option<CaptureRefusal<'a>>
    ensures kind { kind_of result
        ≡ fault_of (timed_packet (packet_word (words_of rest.now)) (moment_spelled number 0)) }
    ensures found { (count : ℕ) → IfSome result (IsFound count (first.now ∷ words_of rest.now)) }
{
    let is_moment = read_moment(number, 0).is_ok();
    let Some((packet, more)) = split_word(rest) else {
        return if is_moment {
            None
        } else {
            Some(CaptureRefusal::Number(first, true))
        };
    };
    if let Some((extra, _)) = split_word(more) {
        return Some(CaptureRefusal::Words(extra));
    }
    if !is_moment {
        Some(CaptureRefusal::Number(first, false))
    } else if spells_bytes(packet) {
        None
    } else {
        Some(CaptureRefusal::BadHex(packet))
    }
}

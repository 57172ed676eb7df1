//! A line of a capture: the moment of a packet in milliseconds, and its bytes in hex.

ghost use Rattle.std.specs.Prelude.{◌≡◌, ◌⊎◌, Ok, Err, IfOk, IfErr, MatchResult, option_map};
ghost use Rattle.line_words.specs.Lines.{words_of};
ghost use Rattle.fan_board.specs.PacketLines.{digits_of, moment_of, packet_of, packet_read};

use hex::{FromHexError, decode};
use line_words::{first_word, read_decimal, split_word};
use mctp_packet::Moment;
use std::alloc::Global;
use thiserror::Error;

/// Why a line is no packet.
#[derive(Clone, Copy, Debug, PartialEq, Eq, Error)]
pub(crate) enum LineFault {
    /// It has more words than a moment and bytes.
    #[error("more than a moment and bytes")]
    Words,
    /// It has no moment, or one that is no number or too large.
    #[error("no moment")]
    NoMoment,
    /// Its moment is before an earlier line's.
    #[error("a moment before the last")]
    BackInTime,
    /// Its bytes are not in hex.
    #[error("no bytes in hex")]
    NoHex,
    /// There was no memory for it.
    #[error("out of memory")]
    Memory,
}

/// A packet, and when it came.
#[derive(Debug, Drop)]
pub(crate) struct TimedPacket {
    pub(crate) moment: Moment,
    pub(crate) bytes: Vec<u8>,
}

/// The packet of a line, given without its line end. A blank line and one that begins with `#` has none; one with a
/// moment alone has an empty packet.
///
/// # Errors
///
/// The first fault of `Words`, `NoMoment` and `NoHex` that the line has; `Memory` where the packet's bytes were refused
/// the memory.
pub(crate) fn read_line(alloc: Global, line: &[u8]) -> Result<Option<TimedPacket>, LineFault>
    ensures ok { IfOk result (λ packet. packet_of line.now ≡ Ok (option_map packet_read packet)) }
    ensures err { IfErr result (λ fault. (fault ≡ LineFault.Memory) ⊎ (packet_of line.now ≡ Err fault)) }
{
    let Some((first, rest)) = first_word(line) else {
        return Ok(None);
    };
    let digits = read_digits(rest)?;
    let moment = read_moment(first)?;
    match decode(alloc, digits) {
        Ok(bytes) => Ok(Some(TimedPacket { moment, bytes })),
        Err(FromHexError::OutOfMemory) => Err(LineFault::Memory),
        Err(_) => Err(LineFault::NoHex),
    }
}

/// The hex digits in what follows the moment.
fn read_digits(rest: &[u8]) -> Result<&[u8], LineFault>
    ensures { MatchResult result
        (λ digits. digits_of (words_of rest.now) ≡ Ok digits.now)
        (λ fault. digits_of (words_of rest.now) ≡ Err fault) }
{
    let Some((digits, more)) = split_word(rest) else {
        return Ok(b"");
    };
    if split_word(more).is_some() {
        return Err(LineFault::Words);
    }
    Ok(digits)
}

/// The moment that a word spells.
fn read_moment(word: &[u8]) -> Result<Moment, LineFault>
    ensures { result ≡ moment_of word.now }
{
    let Some(milliseconds) = read_decimal(word) else {
        return Err(LineFault::NoMoment);
    };
    match Moment::new(milliseconds) {
        Some(moment) => Ok(moment),
        None => Err(LineFault::NoMoment),
    }
}

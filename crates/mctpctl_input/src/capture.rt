//! One line of a capture: `MS`, or `MS HEX`.

ghost use Rattle.std.specs.Prelude.{◌≡◌, ◌≤◌, ℕ, MatchResult, drop, Ok, Err, IfOk, IfErr, OnOk, true};
ghost use Rattle.line_words.specs.Lines.{words_of};
ghost use Rattle.mctp_packet.specs.Memories.{out_of_memory};
ghost use Rattle.mctpctl_input.specs.CaptureLine.{IsInTime, ReadsLine, capture_of, packet_in, packet_at, packet_word, timed_packet, moment_spelled, ReportsFault};
ghost use Rattle.hex.specs.Hex.{decode_of};

use crate::faults::LineKind;
use crate::hex_digits::HexDigits;
use crate::limits::MAX_CAPTURE_LINE;
use line_words::{first_number, split_word};
use mctp_packet::{MAX_MOMENT, Memory};
use std::alloc::AllocError;
use thiserror::Error;

/// What a line of a capture says.
#[derive(Clone, Copy, Debug)]
pub enum CaptureLine {
    /// Nothing: the line is blank, or a comment.
    Skipped,
    /// That a packet came.
    Packet {
        /// When it came, in milliseconds.
        moment: u64,
    },
}

/// Why a line of a capture was not read.
#[derive(Clone, Copy, Debug, PartialEq, Eq, Error)]
pub enum CaptureFault {
    /// The line is faulty.
    #[error("{0}")]
    Line(LineKind),
    /// No memory was left.
    #[error("out of memory")]
    Memory(Memory),
}

impl From<AllocError> for CaptureFault {
    ghost use Rattle.mctpctl_input.specs.declared.capture.CaptureFault.TheVariants as faults;

    ghost from_gives = { λ _ fault. fault ≡ faults.Memory out_of_memory };

    fn from(refused: AllocError) -> CaptureFault {
        CaptureFault::Memory(refused.into())
    }
}

/// What one line says, given without its LF, where `last` is the moment of an earlier line, in
/// milliseconds. The bytes of a packet, of which there may be none, are put into `packet`. Of several
/// faults it reports the first of `LongLine`, `Words`, `Number`, `BackInTime` and `BadHex`; a line that is
/// too long is refused even where it says nothing.
#[tactic(auto, unfolding(crate::specs::CaptureLine::capture_of))]
// Inlined: it is called for each line, and its result is then not moved.
#[inline(always)]
pub fn read_capture_line(
    digits: &HexDigits,
    line: &[u8],
    last: u64,
    packet: &mut Vec<u8>,
) -> Result<CaptureLine, CaptureFault>
    ensures ok { IfOk result (λ read. capture_of line.now last ≡ Ok (packet_in read packet.new.items)) }
    ensures err { IfErr result (λ fault. ReportsFault (capture_of line.now last) fault) }
    ensures moment { IfOk result (λ read. IsInTime last (packet_in read packet.new.items)) }
{
    if line.len() > MAX_CAPTURE_LINE {
        return Err(CaptureFault::Line(LineKind::LongLine));
    }
    let Some((_, moment, rest)) = first_number(line) else {
        return Ok(CaptureLine::Skipped);
    };
    read_packet(digits, moment, rest, last, packet)
}

/// The packet of a line whose first word, before `rest`, spells the number `moment`, if it spells one.
fn read_packet(
    digits: &HexDigits,
    moment: Option<u64>,
    rest: &[u8],
    last: u64,
    packet: &mut Vec<u8>,
) -> Result<CaptureLine, CaptureFault>
    ensures { ReadsLine (timed_packet (packet_word (words_of rest.now)) (moment_spelled moment last)) last
        packet.new.items result }
{
    if !is_plain(digits, rest, packet) {
        return read_words(moment, rest, last, packet);
    }
    match read_moment(moment, last) {
        Ok(moment) => Ok(CaptureLine::Packet { moment }),
        Err(kind) => Err(CaptureFault::Line(kind)),
    }
}

/// As `read_packet`, word by word.
fn read_words(
    moment: Option<u64>,
    rest: &[u8],
    last: u64,
    packet: &mut Vec<u8>,
) -> Result<CaptureLine, CaptureFault>
    ensures { ReadsLine (timed_packet (packet_word (words_of rest.now)) (moment_spelled moment last)) last
        packet.new.items result }
{
    let digits = read_packet_word(rest).map_err(CaptureFault::Line)?;
    let moment = read_moment(moment, last).map_err(CaptureFault::Line)?;
    read_hex(digits, packet)?;
    Ok(CaptureLine::Packet { moment })
}

/// Whether the text is a space and then hex digits alone, as it nearly always is. Their bytes are then
/// put into `packet`, and no end of a word was looked for.
#[tactic(auto, using(crate::proofs::PlainWords::plain_text))]
fn is_plain(digits: &HexDigits, text: &[u8], packet: &mut Vec<u8>) -> bool
    ensures word { result ≡ true → packet_word (words_of text.now) ≡ Ok (drop 1 text.now) }
    ensures bytes { result ≡ true → decode_of (drop 1 text.now) ≡ Ok packet.new.items }
{
    if text.first() != Some(&b' ') {
        return false;
    }
    let (_, word) = text.split_at(1);
    if packet.resize(word.len() / 2, 0).is_err() {
        return false;
    }
    digits.read(word, packet.as_mut_slice())
}

/// The one word of a text, or no bytes where it has no word.
fn read_packet_word(text: &[u8]) -> Result<&[u8], LineKind>
    ensures { MatchResult result (λ word. packet_word (words_of text.now) ≡ Ok word.now) (λ kind. packet_word
        (words_of text.now) ≡ Err kind) }
{
    let Some((word, rest)) = split_word(text) else {
        return Ok(b"");
    };
    if split_word(rest).is_some() {
        return Err(LineKind::Words);
    }
    Ok(word)
}

/// Puts the bytes that hex digits of either case spell into `packet`.
fn read_hex(digits: &[u8], packet: &mut Vec<u8>) -> Result<(), CaptureFault>
    ensures ok { OnOk result (decode_of digits.now ≡ Ok packet.new.items) }
    ensures err { IfErr result (λ fault. (moment : ℕ) → ReportsFault (packet_at moment (decode_of digits.now)) fault) }
{
    packet.resize(digits.len() / 2, 0)?;
    match hex::decode_to_slice(digits, packet.as_mut_slice()) {
        Ok(()) => Ok(()),
        Err(_) => Err(CaptureFault::Line(LineKind::BadHex)),
    }
}

/// The moment of the number that a word spells, where it is in its range and not before the last one.
pub(crate) fn read_moment(number: Option<u64>, last: u64) -> Result<u64, LineKind>
    ensures value { result ≡ moment_spelled number last }
    ensures range { IfOk result (λ moment. (last ≤ moment) × (moment ≤ MAX_MOMENT)) }
{
    match number {
        Some(moment) if moment > MAX_MOMENT => Err(LineKind::Number),
        Some(moment) if moment < last => Err(LineKind::BackInTime),
        Some(moment) => Ok(moment),
        None => Err(LineKind::Number),
    }
}

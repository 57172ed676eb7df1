//! The parts that texts are made of: words, numbers, a drop with its reason.

ghost use Rattle.std.specs.Fmt.{decimal, signed_decimal};
ghost use Rattle.std.specs.Prelude.{◌++◌, ◌∷◌, []};
ghost use Rattle.mctpctl_texts.specs.EntryTexts.{numbers_text};
ghost use Rattle.mctpctl_texts.specs.ShownLines.{drop_text};
ghost use Rattle.mctpctl_texts.specs.Writers.{KeepsFront, Wrote};

use crate::text_writer::TextWriter;
use itoa::Buffer;
use mctp_packet::Reason;

/// Writes text.
pub fn write_text<O: TextWriter>(out: &mut O, text: &str) -> Result<(), O::Refusal>
    ensures written { Wrote O.contents O.failed O.refused out.old out.new text.now result }
    ensures front { KeepsFront O.begins out.old out.new }
{
    out.write_bytes(text.as_bytes())
}

/// Writes a number in decimal.
pub fn write_number<O: TextWriter>(out: &mut O, number: u64) -> Result<(), O::Refusal>
    ensures { Wrote O.contents O.failed O.refused out.old out.new (decimal number) result }
{
    if number < 10 {
        return out.write_bytes(&[b'0' + number as u8]); // most have one digit
    }
    let mut digits = Buffer::new();
    write_text(out, digits.format(number))
}

/// Writes a number in decimal, a negative one after `-`.
pub fn write_signed<O: TextWriter>(out: &mut O, number: i64) -> Result<(), O::Refusal>
    ensures { Wrote O.contents O.failed O.refused out.old out.new (signed_decimal number) result }
{
    let mut digits = Buffer::new();
    write_text(out, digits.format(number))
}

/// Writes numbers in decimal, a space before each.
pub(crate) fn write_numbers<O: TextWriter>(out: &mut O, numbers: &[u64]) -> Result<(), O::Refusal>
    ensures { Wrote O.contents O.failed O.refused out.old out.new (numbers_text numbers.now) result }
{
    for i in 0..numbers.len() {
        write_text(out, " ")?;
        write_number(out, numbers[i])?;
    }
    Ok(())
}

/// Writes that bytes are dropped, and why.
pub(crate) fn write_drop<O: TextWriter>(out: &mut O, reason: Reason) -> Result<(), O::Refusal>
    ensures written { Wrote O.contents O.failed O.refused out.old out.new (drop_text reason) result }
    ensures front { KeepsFront O.begins out.old out.new }
{
    write_text(out, "drop ")?;
    write_text(out, reason.name())
}

/// As `write_drop`, with the end of the line.
pub(crate) fn write_drop_line<O: TextWriter>(out: &mut O, reason: Reason) -> Result<(), O::Refusal>
    ensures written { Wrote O.contents O.failed O.refused out.old out.new
        (drop_text reason ++ 10 ∷ []) result }
    ensures front { KeepsFront O.begins out.old out.new }
{
    write_drop(out, reason)?;
    write_text(out, "\n")
}

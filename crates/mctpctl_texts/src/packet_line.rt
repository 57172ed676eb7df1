//! The lines that show what came at a moment.

ghost use Rattle.std.specs.Prelude.{◌≡◌, ◌++◌, ◌∷◌, [], codes, length};
ghost use Rattle.std.specs.Fmt.{decimal};
ghost use Rattle.mctp_assembly.specs.Fed.{fed_with};
ghost use Rattle.mctpctl_texts.specs.ShownLines.{bits_text, drop_text, fed_text, no_frame_text, packet_line, spaced_line};
ghost use Rattle.mctpctl_texts.specs.Writers.{Wrote};

use crate::parts::{write_drop_line, write_number, write_text};
use crate::text_writer::TextWriter;
use mctp_assembly::Assembled;
use mctp_packet::{PacketRef, Reason, Route, Seq, Tag};

/// Writes the line of a packet that came at this moment and gave this. A message that it completes is not part
/// of the line.
pub fn write_packet_line<O: TextWriter>(
    out: &mut O,
    moment: u64,
    packet: &PacketRef<'_>,
    given: Assembled,
) -> Result<(), O::Refusal>
    ensures { Wrote O.contents O.failed O.refused out.old out.new
        (packet_line moment packet.now (fed_with [] given)) result }
{
    let route = packet.route();
    let owner = route.owner;
    write_number(out, moment)?;
    write_text(out, " ")?;
    write_route(out, route)?;
    write_text(out, bits_text(owner, packet.start(), packet.end()))?;
    write_place(out, packet)?;
    write_given(out, given)
}

/// Writes where a packet comes from and goes to, and its tag.
fn write_route<O: TextWriter>(out: &mut O, route: Route) -> Result<(), O::Refusal>
    ensures { Wrote O.contents O.failed O.refused out.old out.new (decimal route.source
        ++ 62 ∷ (decimal route.destination ++ (codes " tag " ++ decimal route.tag))) result }
{
    let (source, destination) = (route.source.get(), route.destination.get());
    write_number(out, source.into())?;
    write_text(out, ">")?;
    write_number(out, destination.into())?;
    write_text(out, tag_text(route.tag))
}

/// A message tag, with its name in front.
fn tag_text(tag: Tag) -> &'static str
    ensures { result.now ≡ codes " tag " ++ decimal tag }
{
    match tag.get() {
        0 => " tag 0",
        1 => " tag 1",
        2 => " tag 2",
        3 => " tag 3",
        4 => " tag 4",
        5 => " tag 5",
        6 => " tag 6",
        7 => " tag 7",
        _ => unreachable!(),
    }
}

/// The bits of a packet, with the names around them: whether its source chose the tag, whether it starts its
/// message, and whether it ends it.
fn bits_text(owner: bool, start: bool, end: bool) -> &'static str
    ensures { result.now ≡ bits_text owner start end }
{
    match (owner, start, end) {
        (false, false, false) => " to 0 som 0 eom 0 seq ",
        (false, false, true) => " to 0 som 0 eom 1 seq ",
        (false, true, false) => " to 0 som 1 eom 0 seq ",
        (false, true, true) => " to 0 som 1 eom 1 seq ",
        (true, false, false) => " to 1 som 0 eom 0 seq ",
        (true, false, true) => " to 1 som 0 eom 1 seq ",
        (true, true, false) => " to 1 som 1 eom 0 seq ",
        (true, true, true) => " to 1 som 1 eom 1 seq ",
    }
}

/// Writes a packet's place in its message, and how much of it it carries.
fn write_place<O: TextWriter>(out: &mut O, packet: &PacketRef<'_>) -> Result<(), O::Refusal>
    ensures { Wrote O.contents O.failed O.refused out.old out.new
        (decimal packet.now.seq ++ (codes " len " ++ decimal (length packet.now.payload))) result }
{
    write_text(out, sequence_text(packet.seq()))?;
    let length = packet.payload().len();
    write_number(out, length as u64)
}

/// A sequence number, with the name of what comes after it.
fn sequence_text(number: Seq) -> &'static str
    ensures { result.now ≡ decimal number ++ codes " len " }
{
    match number.get() {
        0 => "0 len ",
        1 => "1 len ",
        2 => "2 len ",
        3 => "3 len ",
        _ => unreachable!(),
    }
}

/// Writes a space, what a packet gave (`whole`, `partial` or `drop NAME`), and the end of the line.
fn write_given<O: TextWriter>(out: &mut O, given: Assembled) -> Result<(), O::Refusal>
    ensures { Wrote O.contents O.failed O.refused out.old out.new
        (32 ∷ (fed_text (fed_with [] given) ++ 10 ∷ [])) result }
{
    match given {
        Assembled::Whole => write_text(out, " whole\n"),
        Assembled::Partial => write_text(out, " partial\n"),
        Assembled::Dropped(reason) => {
            write_text(out, " ")?;
            write_drop_line(out, reason)
        }
    }
}

/// Writes the line of bytes that spell no packet.
pub fn write_no_packet_line<O: TextWriter>(
    out: &mut O,
    moment: u64,
    reason: Reason,
) -> Result<(), O::Refusal>
    ensures { Wrote O.contents O.failed O.refused out.old out.new
        (spaced_line (decimal moment ∷ drop_text reason ∷ [])) result }
{
    write_number(out, moment)?;
    write_text(out, " ")?;
    write_drop_line(out, reason)
}

/// Writes the line of bytes that are no frame, for the reason of this name.
pub fn write_no_frame_line<O: TextWriter>(
    out: &mut O,
    moment: u64,
    name: &str,
) -> Result<(), O::Refusal>
    ensures { Wrote O.contents O.failed O.refused out.old out.new
        (spaced_line (decimal moment ∷ no_frame_text name.now ∷ [])) result }
{
    write_number(out, moment)?;
    write_no_frame(out, name)
}

/// Writes a space, that bytes are no frame for the reason of this name, and the end of the line.
fn write_no_frame<O: TextWriter>(out: &mut O, name: &str) -> Result<(), O::Refusal>
    ensures { Wrote O.contents O.failed O.refused out.old out.new
        (32 ∷ (no_frame_text name.now ++ 10 ∷ [])) result }
{
    write_text(out, " no frame: ")?;
    write_last(out, name)
}

/// Writes the last word of a line, and the end of the line.
fn write_last<O: TextWriter>(out: &mut O, word: &str) -> Result<(), O::Refusal>
    ensures { Wrote O.contents O.failed O.refused out.old out.new (word.now ++ 10 ∷ []) result }
{
    write_text(out, word)?;
    write_text(out, "\n")
}

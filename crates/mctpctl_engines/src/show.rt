//! The engine of `mctpctl show`: a capture, and what its packets and messages say.

ghost use Rattle.std.specs.Prelude.{◌≡◌};
ghost use Rattle.mctpctl_input.specs.Ports.{BothWork, ReportsFailedPorts};
ghost use Rattle.mctpctl_engines.specs.WholeRuns.{WritesAll, WritesFront, WritesRead};
ghost use Rattle.mctpctl_engines.specs.ShowText.{seen_run, show_text};
ghost use Rattle.mctpctl_engines.specs.MessageForms.{in_hex};

use crate::capture_lines::CaptureLines;
use crate::line_run::LineRun;
use crate::message_form::{InHex, MessageForm};
use crate::observer::Observer;
use crate::piece_loop::run_to_end;
use mctp_assembly::laws;
use mctpctl_input::{Binding, EngineFault, Port};
use std::alloc::Global;
use std::io::{Read, Write};

/// Shows a capture of packets between any endpoints, as it comes: what the lines of a piece of input
/// give is written before more is asked for. For each packet it writes a line with its header and with
/// what it gave (`whole`, `partial` or `drop NAME`), and after `whole` a line with the message. With
/// a binding the bytes of each line are a frame, and those that are none have a line `no frame: NAME`.
///
/// At `Line` and `TooLarge` the text of the lines that ended before has been written. `Read` is for a
/// read port that has failed: the text of the lines that ended in the bytes before it has been written.
/// `Write` is for a write port; what a failed writer took is not known. At `Memory` the text of the
/// lines that ended in some front of the input has been written.
///
/// It holds the messages that have begun and not ended, the longest line, one piece of input and what
/// that gives, whatever the length of the input.
pub fn show_all<R: Read, W: Write>(
    alloc: Global,
    binding: Option<Binding>,
    reader: &mut Port<R>,
    writer: &mut Port<W>,
) -> Result<(), EngineFault>
    requires works { BothWork reader.old writer.old }
    ensures text { WritesAll R.remaining W.contents (show_text binding in_hex) reader.old writer.old writer.new
        result }
    ensures at_read { WritesRead R.remaining W.contents (seen_run binding in_hex) reader.old reader.new
        writer.old writer.new result }
    ensures at_memory { WritesFront R.remaining W.contents (seen_run binding in_hex) reader.old writer.old
        writer.new result }
    ensures ports { ReportsFailedPorts EngineFault.Read EngineFault.Write result reader.new writer.new }
{
    show_as(alloc, InHex, binding, reader, writer)
}

/// As `show_all`, with the line of a whole message as `form` writes it, which has seen none.
pub fn show_as<F: MessageForm + Drop, R: Read, W: Write>(
    alloc: Global,
    form: F,
    binding: Option<Binding>,
    reader: &mut Port<R>,
    writer: &mut Port<W>,
) -> Result<(), EngineFault>
    requires new { F.held_of form ≡ F.none_held }
    requires works { BothWork reader.old writer.old }
    ensures text { WritesAll R.remaining W.contents (show_text binding F.line) reader.old writer.old writer.new result }
    ensures at_read { WritesRead R.remaining W.contents (seen_run binding F.line) reader.old reader.new writer.old
        writer.new result }
    ensures at_memory { WritesFront R.remaining W.contents (seen_run binding F.line) reader.old writer.old writer.new
        result }
    ensures ports { ReportsFailedPorts EngineFault.Read EngineFault.Write result reader.new writer.new }
{
    laws::looks_back();
    let lines = CaptureLines::new(alloc, Observer::new(alloc, form, binding));
    let mut run = LineRun::new(alloc, lines);
    run_to_end(alloc, &mut run, reader, writer)
}

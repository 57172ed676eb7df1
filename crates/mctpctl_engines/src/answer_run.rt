//! The engine of `mctpctl answer`, over an input that comes in pieces.

ghost use Rattle.std.specs.Prelude.{refl};
ghost use Rattle.mctpctl_engines.specs.AnswerPieces.{blank_capture};
ghost use Rattle.mctpctl_engines.specs.AnswerText.{answer_text, called_run, run_of};
ghost use Rattle.mctpctl_engines.specs.HeldRuns.{held_run, held_step};
ghost use Rattle.mctpctl_engines.specs.LineTasks.{AddsLine};
ghost use Rattle.mctpctl_engines.specs.LongLines.{held_refuses};
ghost use Rattle.mctpctl_input.specs.Ports.{BothWork, ReportsFailedPorts};
ghost use Rattle.mctpctl_engines.specs.WholeRuns.{WritesAll, WritesFront, WritesRead};
ghost use Rattle.simulated_device.specs.Devices.{Device};
ghost use Rattle.pldm_responder.specs.ResponderStates.{ResponderState};
ghost use Rattle.pldm_responder.specs.ResponderViews.{held_of};

use crate::capture_lines::{CaptureLines, LineRoom, LineTask};
use crate::described_lines::{Described, DescribedLines};
use crate::line_run::LineRun;
use crate::piece_loop::run_to_end;
use mctp_packet::Moment;
use mctpctl_input::{CaptureFault, CaptureLine, EngineFault, Port, read_capture_line};
use mctpctl_texts::push_outcome;
use pldm_device::{Description, SimDevice};
use pldm_responder::{Bounds, Responder, ResponderSettings, laws};
use std::alloc::Global;
use std::io::{Read, Write};

impl LineTask for Responder<SimDevice> {
    ghost State = { ResponderState Device };

    ghost state_of = { held_of };

    ghost step = { held_step };

    /// Answers a packet as the described device does.
    fn answer(
        &mut self,
        _alloc: Global,
        number: u64,
        line: &[u8],
        room: &mut LineRoom,
        out: &mut Vec<u8>,
    ) -> Result<(), EngineFault>
        ensures meets { AddsLine number (held_step (held_of self.old) line.now) (held_of self.new) out.old.items
            out.new.items result }
    {
        let last = self.last_moment();
        let moment = match read_capture_line(&room.digits, line, last.get(), &mut room.packet) {
            Ok(CaptureLine::Packet { moment }) => moment,
            Ok(CaptureLine::Skipped) => return Ok(()),
            Err(CaptureFault::Line(kind)) => return Err(EngineFault::Line(number, kind)),
            Err(CaptureFault::Memory(memory)) => return Err(memory.into()),
        };
        let now = Moment::new(moment).unwrap();
        let taken = self.receive_message(now, &room.packet, &mut room.message)?;
        Ok(push_outcome(out, &room.pairs, &taken, &room.message)?)
    }

    ghost refuses_long = { held_refuses };
}

impl Described for CaptureLines<Responder<SimDevice>> {
    ghost written = { held_run };

    /// No line of the capture, which a responder of the described device answers.
    fn begin(alloc: Global, description: Description) -> CaptureLines<Responder<SimDevice>> {
        let Description {
            eid,
            keep,
            window,
            busy,
            device,
        } = description;
        let keeping = ResponderSettings { keep, window, busy };
        let responder = Responder::bounded(alloc, Some(eid), keeping, Bounds::UNREACHED, device);
        CaptureLines::new(alloc, responder)
    }

    ghost blank_line = { blank_capture };

    ghost nothing_after = { λ description. refl };
}

/// Answers a capture as the described device would, as it comes: what the lines of a piece of input
/// give is written before more is asked for. It writes the text of each packet's outcome: `drop NAME`,
/// `partial`, or the answer's packets in lower-case hex, one a line. A request that comes again within
/// the described keeping time and window is not performed again, and has the answer that it had.
///
/// At `Line` and `TooLarge` the text of the lines that ended before has been written, and at
/// `Device` and `NoDivider` nothing. `Read` is for a read port that has failed: the text of the lines
/// that ended in the bytes before it has been written. `Write` is for a write port; what a failed
/// writer took is not known. At `Memory` the text of the lines that ended in some front of the input
/// has been written.
///
/// It holds the description, the longest line, one piece of input and what that gives, whatever the
/// length of the input.
pub fn answer_all<R: Read, W: Write>(
    alloc: Global,
    reader: &mut Port<R>,
    writer: &mut Port<W>,
) -> Result<(), EngineFault>
    requires works { BothWork reader.old writer.old }
    ensures text { WritesAll R.remaining W.contents answer_text reader.old writer.old writer.new result }
    ensures at_read { WritesRead R.remaining W.contents (run_of called_run) reader.old reader.new writer.old writer.new
        result }
    ensures at_memory { WritesFront R.remaining W.contents (run_of called_run) reader.old writer.old writer.new result }
    ensures ports { ReportsFailedPorts EngineFault.Read EngineFault.Write result reader.new writer.new }
{
    laws::looks_back::<SimDevice>();
    let lines = DescribedLines::<CaptureLines<Responder<SimDevice>>>::new(alloc);
    let mut run = LineRun::new(alloc, lines);
    run_to_end(alloc, &mut run, reader, writer)
}

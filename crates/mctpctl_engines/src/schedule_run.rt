//! The engine of `mctpctl run`, over an input that comes in pieces.

ghost use Rattle.std.specs.Io.KnownBytes.{Keeps};
ghost use Rattle.std.specs.Prelude.{IsErrOf};
ghost use Rattle.mctpctl_engines.specs.RunText.{run_text};
ghost use Rattle.mctpctl_input.specs.OutsideFaults.{no_memory};
ghost use Rattle.mctpctl_input.specs.Ports.{inner_of, BothWork, ReportsFailedPorts};
ghost use Rattle.mctpctl_engines.specs.WholeRuns.{WritesAll};

use crate::described_lines::DescribedLines;
use crate::line_run::LineRun;
use crate::piece_loop::run_to_end;
use crate::schedule_lines::ScheduleLines;
use mctpctl_input::{EngineFault, Port};
use std::alloc::Global;
use std::io::{Read, Write};

/// Runs the requesters of a schedule and the described device over its steps. It writes what came of
/// each step, how each request stands, the order in which requests were performed, the device, and
/// whether the schedule was timely.
///
/// The description is read once the divider has come, and each line of the schedule as it ends. All input
/// is read before the schedule is run, and nothing is written unless the whole run is Ok. Of several
/// faults `Device` comes before `TooLarge`, then `Line`, then `Timing`: a line that is refused is reported
/// once the input has ended. `Read` is for a read port that has failed, `Write` for a write port; what a
/// failed writer took is not known.
///
/// It holds the description, what the lines of the schedule spell, the front of a line that has not ended,
/// one piece of input, and then what came of each step. The text is written some thousand bytes at a time, and
/// part of it a few bytes at a time: give it a writer that gathers them, as `BufWriter` does.
pub fn run_all<R: Read, W: Write>(
    alloc: Global,
    reader: &mut Port<R>,
    writer: &mut Port<W>,
) -> Result<(), EngineFault>
    requires works { BothWork reader.old writer.old }
    ensures text { WritesAll R.remaining W.contents run_text reader.old writer.old writer.new result }
    ensures at_read { IsErrOf result EngineFault.Read
        → Keeps (W.contents (inner_of writer.old)) (W.contents (inner_of writer.new)) }
    ensures at_memory { IsErrOf result no_memory
        → Keeps (W.contents (inner_of writer.old)) (W.contents (inner_of writer.new)) }
    ensures ports { ReportsFailedPorts EngineFault.Read EngineFault.Write result reader.new writer.new }
{
    let lines = DescribedLines::<ScheduleLines>::new(alloc);
    let mut run = LineRun::new(alloc, lines);
    run_to_end(alloc, &mut run, reader, writer)
}

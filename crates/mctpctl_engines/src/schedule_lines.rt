//! The lines of a schedule, which are read as they come, and run once the input has ended.

ghost use Rattle.std.specs.Prelude.{◌≡◌, ◌⊎◌, ◌≤◌, ◌<◌, ◌+◌, ◌∷◌, false, [], IfErr, OnOk, refl};
ghost use Rattle.mctp_packet.specs.Memories.{out_of_memory};
ghost use Rattle.mctpctl_engines.specs.LinePieces.{LineGoesOn};
ghost use Rattle.mctpctl_engines.specs.RunText.{scheduled_run, stop_of_line};
ghost use Rattle.mctpctl_engines.specs.ScheduleLines.{ReportsText, blank_schedule, cut_schedule, good_lines_write, lines_ended, may_keep_any, refused_line_writes, schedule_writes, text_of_finished};
ghost use Rattle.mctpctl_engines.specs.PortFaults.{ReportsNoPort};

use crate::described_lines::Described;
use crate::finished_run::{FinishedRun, run_schedule, write_finished};
use crate::line_run::LineTaker;
use bumpalo::Bump;
use mctp_schedule::{LineFault, LineFaultKind, Schedule};
use mctpctl_input::{EngineFault, LineKind, MAX_INPUT, Port};
use pldm_device::Description;
use std::alloc::Global;
use std::io::Write;
use std::mem;

/// What ends the run at a refused line of the schedule.
fn stop_of_line(fault: LineFault) -> EngineFault
    ensures { result ≡ stop_of_line fault }
{
    let kind = match fault.kind {
        LineFaultKind::Words => LineKind::Words,
        LineFaultKind::Number => LineKind::Number,
        LineFaultKind::BackInTime => LineKind::BackInTime,
        LineFaultKind::NoSuchRequester => LineKind::NoSuchRequester,
        LineFaultKind::SameRequester => LineKind::SameRequester,
        LineFaultKind::Memory(memory) => return EngineFault::Memory(memory),
    };
    EngineFault::Line(fault.line, kind)
}

/// The described device, and the lines of a schedule that have come, all of them good.
#[derive(Drop)]
pub struct GoodLines {
    description: Description,
    /// What the lines that have ended spell.
    schedule: Schedule,
    /// How many lines have ended.
    ended: u64,
}

impl GoodLines {
    /// Reads the next line.
    fn add_line(&mut self, line: &[u8]) -> Result<(), LineFault>
        requires { self.old.ended < MAX_INPUT }
        ensures ok { OnOk result (LineGoesOn (good_lines_write self.old) line.now [] (good_lines_write self.new)) }
        ensures err { IfErr result (λ fault. (fault.kind ≡ LineFaultKind.Memory out_of_memory)
            ⊎ LineGoesOn (good_lines_write self.old) line.now [] (refused_line_writes fault)) }
        ensures counted { self.new.ended ≡ self.old.ended + 1 }
    {
        self.ended += 1;
        self.schedule.add_line(self.ended, line)
    }

    /// Reads the last line, and runs the schedule.
    fn run<'a>(
        self,
        alloc: Global,
        arena: &'a Bump<Global>,
        last: &[u8],
    ) -> Result<FinishedRun<'a>, EngineFault>
        requires { self.ended ≤ MAX_INPUT }
        ensures meets { ReportsText text_of_finished (good_lines_write self false (last.now ∷ [])) result }
        ensures ports { ReportsNoPort result }
    {
        let GoodLines {
            description,
            mut schedule,
            ended,
        } = self;
        match schedule.add_line(ended + 1, last) {
            Ok(()) => run_schedule(alloc, arena, description, schedule),
            Err(fault) => Err(stop_of_line(fault)),
        }
    }
}

/// The lines of a schedule that have come.
#[derive(Drop)]
pub enum ScheduleLines {
    /// The lines that have ended are good.
    Good(GoodLines),
    /// A line was refused, which is reported once the input has ended. No line after it is read.
    Refused(LineFault),
    /// The input has ended.
    Ended,
}

impl LineTaker for ScheduleLines {
    ghost writes = { schedule_writes };

    ghost counted = { lines_ended };

    ghost may_keep = { may_keep_any };

    /// Reads a line.
    // Inlined: it runs for each line.
    #[inline(always)]
    fn take_line(
        &mut self,
        _alloc: Global,
        line: &[u8],
        _out: &mut Vec<u8>,
    ) -> Result<(), EngineFault> {
        let result = match self {
            ScheduleLines::Good(lines) => lines.add_line(line),
            ScheduleLines::Refused(_) | ScheduleLines::Ended => return Ok(()),
        };
        match result {
            Ok(()) => Ok(()),
            Err(fault) => match fault.kind {
                LineFaultKind::Memory(memory) => Err(EngineFault::Memory(memory)),
                _ => {
                    *self = ScheduleLines::Refused(fault);
                    Ok(())
                }
            },
        }
    }

    /// A line of a schedule may have any length.
    fn check_front(&self, _front: &[u8]) -> Result<(), EngineFault> {
        Ok(())
    }

    /// Takes the last line, runs the schedule and writes what came of it.
    fn finish<W: Write>(
        &mut self,
        alloc: Global,
        is_cut: bool,
        last: &[u8],
        _out: &mut Vec<u8>,
        writer: &mut Port<W>,
    ) -> Result<(), EngineFault> {
        if is_cut {
            return Err(EngineFault::TooLarge);
        }
        let arena = Bump::new(alloc); // the answers of the run
        match mem::replace(self, ScheduleLines::Ended) {
            ScheduleLines::Good(lines) => match lines.run(alloc, &arena, last) {
                Ok(finished) => write_finished(writer, &finished),
                Err(fault) => Err(fault),
            },
            ScheduleLines::Refused(fault) => Err(stop_of_line(fault)),
            ScheduleLines::Ended => Ok(()),
        }
    }

    ghost none_where_cut = { cut_schedule };
}

impl Described for ScheduleLines {
    ghost written = { scheduled_run };

    /// No line of the schedule, which is run over the described device.
    fn begin(alloc: Global, description: Description) -> ScheduleLines {
        ScheduleLines::Good(GoodLines {
            description,
            schedule: Schedule::new(alloc),
            ended: 0,
        })
    }

    ghost blank_line = { blank_schedule };

    ghost nothing_after = { λ description. refl };
}

//! A schedule that was run over the described device, and its text.

ghost use Rattle.std.specs.Io.KnownBytes.{Appends};
ghost use Rattle.std.specs.Prelude.{◌≡◌, Ok, IfErr, OnOk, false};
ghost use Rattle.mctpctl_engines.specs.RunText.{schedule_written, stop_of_run};
ghost use Rattle.mctpctl_engines.specs.ScheduleLines.{ReportsText, text_of_finished};
ghost use Rattle.mctpctl_input.specs.Ports.{inner_of, has_failed, ReportsFailed};
ghost use Rattle.mctpctl_engines.specs.PortFaults.{ReportsNoPort};

use bumpalo::Bump;
use mctp_schedule::{Report, RunFault, Schedule, Setup, run};
use mctpctl_input::{EngineFault, Port};
use mctpctl_texts::{NotWritten, write_report};
use pldm_device::{Description, SimDevice};
use std::alloc::Global;
use std::io::Write;

/// What ends the run where a requester is refused.
fn stop_of_run(fault: RunFault) -> EngineFault
    ensures { result ≡ stop_of_run fault }
{
    match fault {
        RunFault::Timing(requester, fault) => EngineFault::Timing(requester, fault),
        RunFault::Memory(memory) => EngineFault::Memory(memory),
    }
}

/// A schedule, and what came of it.
#[derive(Drop)]
pub struct FinishedRun<'a> {
    schedule: Schedule,
    report: Report<'a, SimDevice>,
}

/// Runs a schedule over the described device. The arena takes the longer answers.
pub fn run_schedule<'a>(
    alloc: Global,
    arena: &'a Bump<Global>,
    description: Description,
    schedule: Schedule,
) -> Result<FinishedRun<'a>, EngineFault>
    ensures meets { ReportsText text_of_finished (schedule_written description (Ok schedule)) result }
    ensures ports { ReportsNoPort result }
{
    let Description {
        eid,
        keep,
        window,
        device,
        ..
    } = description;
    let setup = Setup {
        eid,
        keep,
        window,
        device,
    };
    let report = match run(alloc, arena, setup, &schedule) {
        Ok(report) => report,
        Err(fault) => return Err(stop_of_run(fault)),
    };
    Ok(FinishedRun { schedule, report })
}

/// Writes the text of a run, part by part, which takes no memory.
pub fn write_finished<W: Write>(
    writer: &mut Port<W>,
    finished: &FinishedRun<'_>,
) -> Result<(), EngineFault>
    requires { has_failed writer.old ≡ false }
    ensures text { OnOk result (Appends (W.contents (inner_of writer.old)) (W.contents (inner_of writer.new))
        (text_of_finished finished.now)) }
    ensures fault { IfErr result (λ fault. fault ≡ EngineFault.Write) }
    ensures write { ReportsFailed EngineFault.Write result writer.new }
{
    let steps = finished.schedule.steps();
    match write_report(writer, steps, &finished.report) {
        Ok(()) => Ok(()),
        Err(NotWritten) => Err(EngineFault::Write),
    }
}

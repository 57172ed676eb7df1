//! `serve`: the described device on a serial line, which is standard input and output.

ghost use Rattle.std.specs.Prelude.{◌≡◌, ◌≤◌};
ghost use Rattle.mctp_serial.specs.Readings.{idle};
ghost use Rattle.mctpctl.specs.ControlResponders.{eid_at_first, responder_of};
ghost use Rattle.pldm_responder.specs.Ends.{eid_or_null, unreached};
ghost use Rattle.pldm_responder.specs.ResponderStates.{IsHeld, held_at_first};
ghost use Rattle.pldm_responder.specs.ResponderViews.{held_of};

use crate::control_responder::{control_responder, eid_at_first};
use crate::device_file::{device_text, read_served};
use crate::faults::{engine_fault, print_fault, say_more};
use crate::firmware_serving::{FirmwareFault, serve_updates};
use crate::line::{EndingReader, input_name};
use crate::statuses::{DONE, FAILED, USAGE};
use line_faults::{FaultsPart, FaultyReader, FaultyWriter, LineFaults, read_faults};
use mctp_serial::FrameReader;
use mctpctl_command_line::{NO_FAULTS, ServeOptions, TRY_HELP};
use mctpctl_explain::Subcommand;
use mctpctl_input::{EngineFault, Port};
use pldm_device::{ControlTable, Description, SimDevice};
use pldm_line::{Log, ServeFault, ServedLine, SystemTicks, Ticks, Watch, serve};
use pldm_responder::{Bounds, Responder, ResponderSettings};
use std::alloc::{AllocError, Global};
use std::fs::File;
use std::io::{ErrorKind, IsTerminal, Stderr};
use std::{fs, io};

/// Why a device was not served until its line ended.
#[derive(Drop)]
enum ServiceFault {
    /// The faults of the line are spelled in another way.
    Faults(FaultsPart),
    /// The description's file was not opened or read.
    Device(io::Error),
    /// The description of this text was refused.
    Refused(EngineFault, Vec<u8>),
    /// The capture's file was not made.
    Capture(io::Error),
    /// The clock gave no reading.
    Clock,
    /// Not all drops were named, or the capture is not whole.
    Log,
    /// A device that takes updates was not served.
    Firmware(FirmwareFault),
    /// Another fault, which an engine has too.
    Engine(EngineFault),
}

/// Serves the device until its line ends, and returns the exit status. A fault is printed on standard error.
pub fn serve_device(rt: &HostRuntime, service: &ServeOptions<'_>) -> u8
    ensures { result ≤ FAILED }
{
    match run(rt, service) {
        Ok(()) => DONE,
        Err(ServiceFault::Faults(part)) => {
            let _ = eprint!(rt; "{NO_FAULTS}{}{TRY_HELP}", part.text());
            USAGE
        }
        Err(ServiceFault::Device(error)) => file_failed(rt, service.device, &error),
        Err(ServiceFault::Refused(fault, text)) => {
            let status = print_fault(rt, &fault);
            if service.explain {
                say_more(rt, Subcommand::Serve, &text, Some(&fault));
            }
            status
        }
        Err(ServiceFault::Capture(error)) => {
            let name = service.log.unwrap_or(""); // there is one, where a capture was to be made
            file_failed(rt, name, &error)
        }
        Err(ServiceFault::Clock) => {
            let _ = eprintln!(rt; "mctpctl: clock fault");
            FAILED
        }
        Err(ServiceFault::Log) => {
            let _ = eprintln!(rt; "mctpctl: log fault");
            FAILED
        }
        Err(ServiceFault::Firmware(fault)) => firmware_failed(rt, service, &fault),
        Err(ServiceFault::Engine(fault)) => print_fault(rt, &fault),
    }
}

/// Says why a device that takes updates was not served, and returns the exit status.
fn firmware_failed(rt: &HostRuntime, service: &ServeOptions<'_>, fault: &FirmwareFault) -> u8
    ensures { result ≤ FAILED }
{
    match fault {
        FirmwareFault::Option(option) => {
            let _ = eprint!(rt; "error: invalid value for '{option}'{TRY_HELP}");
            USAGE
        }
        FirmwareFault::Device(error) => file_failed(rt, service.firmware.unwrap_or(""), error),
        FirmwareFault::Line(fault) => {
            let _ = eprintln!(rt; "mctpctl: {fault}");
            FAILED
        }
    }
}

/// Prints that the file of this name failed, and returns the exit status.
pub fn file_failed(rt: &HostRuntime, name: &str, error: &io::Error) -> u8
    ensures { result ≡ FAILED }
{
    let _ = eprintln!(rt; "mctpctl: {name}: {error}");
    FAILED
}

/// Reads the description, and then the line to its end.
fn run(rt: &HostRuntime, service: &ServeOptions<'_>) -> Result<(), ServiceFault> {
    let alloc = rt.alloc();
    let faults = faults_of(service)?;
    let (description, table) = described(rt, service)?;
    let watch = watcher(rt, service)?;
    if let Some(name) = service.firmware {
        return match serve_updates(rt, service, name, description, &table, faults, watch) {
            Ok(false) => Ok(()),
            Ok(true) => Err(ServiceFault::Log),
            Err(fault) => Err(ServiceFault::Firmware(fault)),
        };
    }
    let Ok(ticks) = SystemTicks::new(rt) else {
        return Err(ServiceFault::Clock);
    };
    let mut line = served_line(alloc, description, &table, ticks, watch);
    match serve_on(rt, &mut line, faults) {
        Ok(()) if line.watch.log_failed() => Err(ServiceFault::Log),
        Ok(()) => Ok(()),
        Err(fault) => Err(match engine_fault(fault) {
            Some(fault) => ServiceFault::Engine(fault),
            None => ServiceFault::Clock,
        }),
    }
}

/// The faults of the line, where some are asked for.
fn faults_of(service: &ServeOptions<'_>) -> Result<Option<LineFaults>, ServiceFault> {
    let Some(word) = service.faults else {
        return Ok(None);
    };
    match read_faults(word.as_bytes()) {
        Ok(faults) => Ok(Some(faults)),
        Err(part) => Err(ServiceFault::Faults(part)),
    }
}

/// Serves a line on standard input and output, with these faults. That a terminal has hung up is said on standard
/// error.
fn serve_on<C: Ticks, L: Watch>(
    rt: &HostRuntime,
    line: &mut ServedLine<SimDevice, C, L>,
    faults: Option<LineFaults>,
) -> Result<(), ServeFault> {
    let name = input_name(rt);
    let input = EndingReader::new(rt.stdin());
    let ended = match faults {
        Some(faults) => serve(
            line,
            &mut Port::new(FaultyReader::new(rt, faults, input)),
            &mut Port::new(FaultyWriter::new(rt, faults, rt.stdout())),
        ),
        None => serve(line, &mut Port::new(input), &mut Port::new(rt.stdout())),
    };
    let Some(name) = name else {
        return ended;
    };
    match ended {
        Err(fault) if fault != ServeFault::Write || rt.stdin().is_terminal() => Err(fault),
        _ => {
            let _ = eprintln!(rt; "mctpctl: {name}: the line ended");
            Ok(())
        }
    }
}

/// The line of a described device, which answers as its description says.
fn served_line<C: Drop, L: Drop>(
    alloc: Global,
    description: Description,
    table: &ControlTable,
    ticks: C,
    watch: L,
) -> ServedLine<SimDevice, C, L>
    ensures held { IsHeld (held_of result.responder) (held_at_first
        (eid_or_null (eid_at_first description.eid table.now.assigned))
        description.busy description.window description.keep description.device) }
    ensures bounds { result.responder.end.bounds ≡ unreached }
    ensures control { result.control ≡ responder_of description.eid description.keep table.now }
    ensures frames { result.frames ≡ idle }
    ensures ticks { result.ticks ≡ ticks }
    ensures watch { result.watch ≡ watch }
{
    let Description {
        eid,
        keep,
        window,
        busy,
        device,
    } = description;
    let own = eid_at_first(eid, table);
    let keeping = ResponderSettings { keep, window, busy };
    ServedLine {
        frames: FrameReader::new(),
        responder: Responder::bounded(alloc, own, keeping, Bounds::UNREACHED, device),
        control: control_responder(eid, keep, table),
        ticks,
        watch,
    }
}

/// Who watches the line: drops are named on standard error with `--verbose`, and a capture is written with `--log`.
fn watcher(
    rt: &HostRuntime,
    service: &ServeOptions<'_>,
) -> Result<Log<Stderr, File>, ServiceFault> {
    let capture = match service.log {
        Some(name) => match fs::create(rt, name) {
            Ok(file) => Some(Port::new(file)),
            Err(error) => return Err(ServiceFault::Capture(error)),
        },
        None => None,
    };
    let drops = service.verbose.then(|| Port::new(rt.stderr()));
    Ok(Log::new(rt.alloc(), drops, capture))
}

/// The device that the description's file describes, and what the file says of its control messages. With `--explain`
/// what is ignored in it is said.
fn described(
    rt: &HostRuntime,
    service: &ServeOptions<'_>,
) -> Result<(Description, ControlTable), ServiceFault> {
    let text = match device_text(rt, service.device) {
        Ok(text) => text,
        Err(error) if error.kind() == ErrorKind::OutOfMemory => {
            return Err(ServiceFault::Engine(AllocError.into()));
        }
        Err(error) => return Err(ServiceFault::Device(error)),
    };
    match read_served(rt.alloc(), &text) {
        Ok(served) => {
            if service.explain {
                say_more(rt, Subcommand::Serve, &text, None);
            }
            Ok(served)
        }
        Err(fault) => Err(ServiceFault::Refused(fault, text)),
    }
}

//! `serve --firmware`: the described device on a serial line, which takes firmware updates into a file.

use crate::line::{EndingReader, input_name};
use crate::settings::{agent_of, piece_lifetime_of};
use crate::update_ends::{PIECE_KEEP_MS, firmware_end};
use line_faults::{FaultyReader, FaultyWriter, LineFaults};
use mctpctl_command_line::ServeOptions;
use mctpctl_input::Port;
use mctpctl_update::FirmwareFile;
use pldm_device::{ControlTable, Description, SimDevice};
use pldm_line::{Log, SystemTicks};
use std::fs::File;
use std::io::{self, IsTerminal, Read, Stderr, Write};
use update_line::{FirmwareEnd, UpdateLine, UpdateLineFault, take_turn};

/// Why a device that takes updates was not served until its line ended.
#[derive(Drop)]
pub enum FirmwareFault {
    /// The value of this option is not valid.
    Option(&'static str),
    /// There is no memory for its names, or the device cannot be made of the options.
    Device(io::Error),
    /// The line failed.
    Line(UpdateLineFault),
}

/// Serves a described device that takes updates into the file of this name, until the line on standard input and output
/// ends, and returns whether a log of it failed. That a terminal has hung up is said on standard error.
pub fn serve_updates(
    rt: &HostRuntime,
    service: &ServeOptions<'_>,
    name: &str,
    description: Description,
    table: &ControlTable,
    faults: Option<LineFaults>,
    watch: Log<Stderr, File>,
) -> Result<bool, FirmwareFault> {
    let Some(agent) = agent_of(service.agent) else {
        return Err(FirmwareFault::Option("--agent <EID>"));
    };
    let lifetime = match piece_lifetime_of(service.lifetime) {
        Some(lifetime) if lifetime > 0 && lifetime <= u64::from(PIECE_KEEP_MS) => lifetime,
        _ => return Err(FirmwareFault::Option("--lifetime <MS>")),
    };
    let file = match FirmwareFile::new(rt, name) {
        Ok(file) => file,
        Err(error) => return Err(FirmwareFault::Device(error)),
    };
    let end = match firmware_end(rt.alloc(), description, table, file, agent, lifetime) {
        Ok(Some(end)) => end,
        Ok(None) => return Err(FirmwareFault::Option("--agent <EID>")),
        Err(_) => return Err(FirmwareFault::Line(UpdateLineFault::Memory)),
    };
    let Ok(ticks) = SystemTicks::new(rt) else {
        return Err(FirmwareFault::Line(UpdateLineFault::Clock));
    };
    let line = UpdateLine::new(ticks, watch);
    let name = input_name(rt);
    let input = EndingReader::new(rt.stdin());
    let served = match faults {
        Some(faults) => serve_on(
            end,
            line,
            FaultyReader::new(rt, faults, input),
            FaultyWriter::new(rt, faults, rt.stdout()),
        ),
        None => serve_on(end, line, input, rt.stdout()),
    };
    let Some(name) = name else {
        return served;
    };
    let failed = match served {
        Ok(failed) => failed,
        Err(fault) if has_hung_up(rt, &fault) => false,
        Err(fault) => return Err(fault),
    };
    let _ = eprintln!(rt; "mctpctl: {name}: the line ended");
    Ok(failed)
}

/// Whether a write failed since the terminal that standard input was is none any more.
fn has_hung_up(rt: &HostRuntime, fault: &FirmwareFault) -> bool {
    match fault {
        FirmwareFault::Line(UpdateLineFault::Write) => !rt.stdin().is_terminal(),
        _ => false,
    }
}

/// Serves a device until its line ends, and returns whether a log of it failed.
fn serve_on<R: Read + Drop, W: Write + Drop>(
    mut end: FirmwareEnd<SimDevice, FirmwareFile<'_>>,
    mut line: UpdateLine<SystemTicks<'_, HostRuntime>, Log<Stderr, File>>,
    reader: R,
    writer: W,
) -> Result<bool, FirmwareFault> {
    let mut reader = Port::new(reader);
    let mut writer = Port::new(writer);
    for _ in 0..u64::MAX {
        match take_turn(&mut end, &mut line, &mut reader, &mut writer) {
            Ok(()) => {}
            Err(UpdateLineFault::LineEnded) => return Ok(line.watch.log_failed()),
            Err(fault) => return Err(FirmwareFault::Line(fault)),
        }
    }
    Ok(line.watch.log_failed())
}

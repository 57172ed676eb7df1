//! `mctpctl` answers captures of MCTP packets as a simulated PLDM device would, serves the device on a serial line,
//! asks a device on one or walks over all that it has, runs requesters and the device over a schedule, and shows what
//! packets say.
#![tactic(auto)]

mod asking;
mod assigning;
mod commands;
mod control_responder;
mod conversation;
mod device_file;
mod errands;
mod faults;
mod firmware_serving;
mod keeper;
mod line;
mod serial_line;
mod settings;
mod state;
mod statuses;
mod talk;
mod update_ends;
mod updating;
mod walking;
mod watching;

ghost use Rattle.std.specs.Prelude.{◌≡◌, false};
ghost use Rattle.mctpctl_input.specs.Ports.{has_failed, BothWork};

use crate::errands::{ask_device, run_assign, run_walk, run_watch};
use crate::faults::{print_fault, say_more};
use crate::serial_line::serve_device;
use crate::statuses::{DONE, FAILED, USAGE};
use crate::updating::run_update;
use mctpctl_colours::{Colouring, Marks, is_asked};
use mctpctl_command_line::{Choice, ChooseFault, Task, TextTask, choose};
use mctpctl_decode::decode_all;
use mctpctl_engines::{answer_all, run_all, show_all};
use mctpctl_explain::Subcommand;
use mctpctl_input::{EngineFault, Port, TeeReader};
use std::alloc::{AllocError, Global};
use std::env;
use std::io::{BufWriter, ErrorKind, IsTerminal, Read, Write};
use std::process::ExitCode;

/// How many bytes of the text of a run are gathered before they are written, since most of its parts have a few: as
/// many as a pipe of Linux holds.
const GATHERED: usize = 65_536;

fn main(rt: HostRuntime) -> ExitCode {
    let status = match perform(&rt) {
        Ok(status) => status,
        Err(ChooseFault::Help(text)) => {
            let _ = print!(rt; "{text}");
            DONE
        }
        Err(ChooseFault::Refused(text)) => {
            let _ = eprint!(rt; "{text}");
            USAGE
        }
        Err(ChooseFault::Memory(_)) => FAILED,
    };
    ExitCode::from(status)
}

/// Does what the command line asks for, and returns the exit status.
fn perform(rt: &HostRuntime) -> Result<u8, ChooseFault> {
    let alloc = rt.alloc();
    let args = arguments(rt)?;
    let words = args
        .iter()
        .map(|arg| arg.as_str())
        .collect::<Vec<&str>>(alloc)?;
    match choose(alloc, &words) {
        Ok(Choice::Text(text)) => Ok(perform_text(rt, text)),
        Ok(Choice::Serve(service)) => Ok(serve_device(rt, &service)),
        Ok(Choice::Ask(question)) => Ok(ask_device(rt, &question, &words)),
        Ok(Choice::Walk(options)) => Ok(run_walk(rt, &options)),
        Ok(Choice::Watch(options)) => Ok(run_watch(rt, &options)),
        Ok(Choice::Assign(link)) => Ok(run_assign(rt, &link)),
        Ok(Choice::Update(options)) => Ok(run_update(rt, &options)),
        Err(fault) => Err(fault),
    }
}

/// The words of the command line.
fn arguments(rt: &HostRuntime) -> Result<Vec<String>, ChooseFault> {
    let alloc = rt.alloc();
    let args = match env::args(rt) {
        Ok(args) => args,
        Err(fault) if fault.kind() == ErrorKind::OutOfMemory => return Err(AllocError.into()),
        Err(_) => {
            let text = String::from_str(alloc, "error: an argument is not UTF-8\n")?;
            return Err(ChooseFault::Refused(text));
        }
    };
    Ok(args.collect::<Vec<String>>(alloc)?)
}

/// Does a task over standard input, on standard output, and returns the exit status. Only with `--explain` is a
/// copy of the input kept.
fn perform_text(rt: &HostRuntime, text: TextTask) -> u8 {
    if rt.stdin().is_terminal() {
        let _ = eprintln!(rt; "mctpctl: reading standard input; Ctrl-D ends it");
    }
    if !text.explain {
        let result = run(rt, text, &mut Port::new(rt.stdin()));
        return status(rt, &result);
    }
    let mut reader = Port::new(TeeReader::new(rt.alloc(), rt.stdin()));
    let result = run(rt, text, &mut reader);
    let status = status(rt, &result);
    if let Some(input) = reader.into_inner().kept() {
        say_more(rt, subject_of(text.task), input, result.as_ref().err());
    }
    status
}

/// Runs the engine of the task over a reader, on standard output.
fn run<R: Read>(rt: &HostRuntime, text: TextTask, reader: &mut Port<R>) -> Result<(), EngineFault>
    requires { has_failed reader.old ≡ false }
{
    let alloc = rt.alloc();
    match text.task {
        Task::Answer => answer_all(alloc, reader, &mut Port::new(rt.stdout())),
        Task::Run => {
            let Ok(gathering) = BufWriter::with_capacity(alloc, GATHERED, rt.stdout()) else {
                return Err(AllocError.into()); // no more is kept of it
            };
            run_all(alloc, reader, &mut Port::new(gathering))
        }
        Task::Show if rt.stdout().is_terminal() && is_asked(rt) => {
            let marks = Some(Marks::of_capture(alloc));
            let mut writer = Port::new(Colouring::new(alloc, rt.stdout(), marks));
            show(alloc, text, reader, &mut writer)
        }
        Task::Show => show(alloc, text, reader, &mut Port::new(rt.stdout())),
    }
}

/// Shows a capture, as it is asked for.
fn show<R: Read, W: Write>(
    alloc: Global,
    text: TextTask,
    reader: &mut Port<R>,
    writer: &mut Port<W>,
) -> Result<(), EngineFault>
    requires works { BothWork reader.old writer.old }
{
    if text.decode {
        decode_all(alloc, text.binding, reader, writer)
    } else {
        show_all(alloc, text.binding, reader, writer)
    }
}

/// The exit status of a run, whose fault is printed on standard error.
fn status(rt: &HostRuntime, ended: &Result<(), EngineFault>) -> u8 {
    match ended {
        Ok(()) => DONE,
        Err(fault) => print_fault(rt, fault),
    }
}

/// Whose input that of a task is.
fn subject_of(task: Task) -> Subcommand {
    match task {
        Task::Answer => Subcommand::Answer,
        Task::Run => Subcommand::Run,
        Task::Show => Subcommand::Show,
    }
}

//! Faults on standard error, and their exit statuses.

ghost use Rattle.std.specs.Prelude.{◌≡◌, ◌≤◌};
ghost use Rattle.mctpctl.specs.LineFaults.{engine_fault_of};
ghost use Rattle.mctpctl_input.specs.Statuses.{status_of_fault};

use mctpctl_explain::{Subcommand, explain, warnings};
use mctpctl_input::{EngineFault, fault_line, status_of};
use pldm_line::ServeFault;
use std::alloc::AllocError;

/// Prints the line of a fault on standard error, and returns its exit status. Where there is no memory for the line,
/// none is printed.
pub fn print_fault(rt: &HostRuntime, fault: &EngineFault) -> u8
    ensures value { result ≡ status_of_fault fault.now }
    ensures range { result ≤ 3 }
{
    if let Ok(line) = fault_line(rt.alloc(), fault) {
        let _ = eprintln!(rt; "mctpctl: {line}");
    }
    status_of(fault)
}

/// The engine's fault for the same cause as a fault of a serial line; `None` for a fault of the clock, which an engine
/// has not.
pub fn engine_fault(fault: ServeFault) -> Option<EngineFault>
    ensures { result ≡ engine_fault_of fault }
{
    match fault {
        ServeFault::Read => Some(EngineFault::Read),
        ServeFault::Write => Some(EngineFault::Write),
        ServeFault::Clock => None,
        ServeFault::Memory => Some(AllocError.into()), // the line keeps no more of it
        ServeFault::TooMany => Some(EngineFault::TooLarge),
    }
}

/// Explains the fault of an input on standard error, where it has one, and warns of what is ignored in the input.
pub fn say_more(rt: &HostRuntime, subject: Subcommand, input: &[u8], fault: Option<&EngineFault>) {
    if let Some(fault) = fault
        && let Ok(text) = explain(rt.alloc(), subject, input, fault)
        && !text.is_empty()
    {
        let _ = eprintln!(rt; "mctpctl: {text}");
    }
    if let Ok(found) = warnings(rt.alloc(), subject, input) {
        for text in found.iter() {
            let _ = eprintln!(rt; "mctpctl: warning: {text}");
        }
    }
}

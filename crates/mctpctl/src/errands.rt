//! What a command line asks of a device: commands, a walk, a watch or an endpoint ID.

ghost use Rattle.std.specs.Prelude.{◌≤◌};

use crate::commands::{CommandsFault, read_commands};
use crate::settings::periods_of;
use crate::statuses::{DONE, FAILED, USAGE};
use crate::talk::{Errand, do_errand, read_settings};
use mctpctl_command_line::{
    AskOptions, LineOptions, NO_COMMAND, TRY_HELP, WalkOptions, WatchOptions,
};

/// Asks the device what the command line says, and returns the exit status. What fails is said on standard error.
pub fn ask_device(rt: &HostRuntime, question: &AskOptions<'_>, words: &[&str]) -> u8
    ensures { result ≤ FAILED }
{
    let settings = match read_settings(rt, &question.link) {
        Ok(settings) => settings,
        Err(status) => return status,
    };
    let commands = match read_commands(rt, question, words) {
        Ok(commands) => commands,
        Err(fault) => return commands_failed(rt, question, &fault),
    };
    if commands.is_empty() {
        let _ = eprintln!(rt; "mctpctl: {}: no command", question.file.unwrap_or(""));
        return DONE;
    }
    do_errand(
        rt,
        &question.link,
        &settings,
        Errand::Ask(question, &commands),
    )
}

/// Says why there are no commands, and returns the exit status.
fn commands_failed(rt: &HostRuntime, question: &AskOptions<'_>, fault: &CommandsFault) -> u8
    ensures { result ≤ FAILED }
{
    let file = question.file.unwrap_or("");
    match fault {
        CommandsFault::None => {
            let _ = eprint!(rt; "{NO_COMMAND}{TRY_HELP}");
            USAGE
        }
        CommandsFault::Words(text) => {
            let _ = eprint!(rt; "error: COMMAND: {text}{TRY_HELP}");
            USAGE
        }
        CommandsFault::Line(number, kind) => {
            let _ = eprintln!(rt; "mctpctl: {file}: line {number}: {}", kind.name());
            USAGE
        }
        CommandsFault::File(error) => {
            let _ = eprintln!(rt; "mctpctl: {file}: {error}");
            FAILED
        }
        CommandsFault::TooLarge => {
            let _ = eprintln!(rt; "mctpctl: {file}: input too large");
            USAGE
        }
        CommandsFault::Memory => {
            let _ = eprintln!(rt; "mctpctl: out of memory");
            FAILED
        }
    }
}

/// Asks the device for all that it has, and returns the exit status. What fails is said on standard error.
pub fn run_walk(rt: &HostRuntime, options: &WalkOptions<'_>) -> u8
    ensures { result ≤ FAILED }
{
    match read_settings(rt, &options.link) {
        Ok(settings) => do_errand(rt, &options.link, &settings, Errand::Walk(options)),
        Err(status) => status,
    }
}

/// Reads the sensors and effecters of the device, as often as the command line says, and returns the exit status. What
/// fails is said on standard error.
pub fn run_watch(rt: &HostRuntime, options: &WatchOptions<'_>) -> u8
    ensures { result ≤ FAILED }
{
    let settings = match read_settings(rt, &options.link) {
        Ok(settings) => settings,
        Err(status) => return status,
    };
    match periods_of(options) {
        Ok(periods) if periods.count == 0 => {
            let _ = eprintln!(rt; "mctpctl: --count 0: no period, so nothing is asked");
            DONE
        }
        Ok(periods) => do_errand(
            rt,
            &options.link,
            &settings,
            Errand::Watch(options, &periods),
        ),
        Err(option) => {
            let _ = eprint!(rt; "error: invalid value for '{option}'{TRY_HELP}");
            USAGE
        }
    }
}

/// Gives the device its endpoint ID, and returns the exit status. What fails is said on standard error.
pub fn run_assign(rt: &HostRuntime, link: &LineOptions<'_>) -> u8
    ensures { result ≤ FAILED }
{
    match read_settings(rt, link) {
        Ok(settings) => do_errand(rt, link, &settings, Errand::Assign),
        Err(status) => status,
    }
}

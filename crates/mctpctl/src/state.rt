//! What the file of a line's state says of earlier requests, and what is said of it.

ghost use Rattle.std.specs.Prelude.{◌≡◌, ◌≤◌, IfErr};
ghost use Rattle.mctpctl.specs.States.{first_query};

use crate::keeper::{Keeper, WALK_QUERIES};
use crate::settings::Settings;
use crate::statuses::{FAILED, USAGE};
use mctp_packet::Moment;
use mctpctl_command_line::LineOptions;
use mctpctl_state::{
    Begun, Earlier, Queries, StateFault, StateFile, Unknown, boot_moment, state_folder, state_name,
};
use pldm_requester::{Openings, Requester, ResumeFault};
use pldm_wire::INSTANCE_IDS;
use std::fs;
use std::io::{self, ErrorKind};

/// What is known of earlier requests when a run begins.
#[derive(Drop)]
pub struct LineState {
    /// What keeps those of this run.
    pub keeper: Keeper,
    /// The requester that goes on after earlier requests, where they are known.
    pub requester: Option<Requester>,
    /// The instance ID of the first control query; `None` where answers to earlier ones have to pass first.
    pub first_query: Option<u8>,
    /// The present moment, in milliseconds since the system's start where that is known.
    pub present: u64,
}

/// Locks and reads the file of the line's state: the one that is named, else the usual one of the line and the two
/// endpoints; none with `--no-state`, or where neither is named. What is found is said on standard error; where nothing
/// may be asked, the exit status is returned.
pub fn begin_state(
    rt: &HostRuntime,
    link: &LineOptions<'_>,
    settings: &Settings,
) -> Result<LineState, u8>
    ensures { IfErr result (λ status. status ≤ FAILED) }
{
    if link.no_state {
        return Ok(nothing_kept(rt));
    }
    match (link.state, link.line) {
        (Some(name), _) => match StateFile::begin(rt, name, settings.own, settings.device) {
            Ok(begun) => Ok(state_by(rt, name, settings, begun)),
            Err(fault) => Err(state_failed(rt, name, &fault)),
        },
        (None, Some(line)) => begin_usual(rt, line, settings),
        (None, None) => Ok(nothing_kept(rt)),
    }
}

/// As [`begin_state`], with the usual file of a line. Where that cannot be had, nothing is kept, and that is said.
fn begin_usual(rt: &HostRuntime, line: &str, settings: &Settings) -> Result<LineState, u8>
    ensures { IfErr result (λ status. status ≤ FAILED) }
{
    let name = match usual_name(rt, line, settings) {
        Ok(Some(name)) => name,
        Ok(None) => return Ok(nothing_kept(rt)),
        Err(error) if error.kind() == ErrorKind::NotFound => return Ok(nothing_kept(rt)), // there is no such line
        Err(error) => return Ok(say_not_kept(rt, line, &error)),
    };
    match StateFile::begin(rt, &name, settings.own, settings.device) {
        Ok(begun) => Ok(state_by(rt, &name, settings, begun)),
        Err(StateFault::InUse) => Err(say_in_use(rt, line)),
        Err(StateFault::File(error)) => Ok(say_not_kept(rt, &name, &error)),
        Err(fault) => Err(state_failed(rt, &name, &fault)),
    }
}

/// The usual file of a line, whose folder is made where there is none. `None` where the user has no such folder.
fn usual_name(rt: &HostRuntime, line: &str, settings: &Settings) -> io::Result<Option<String>> {
    let Some(folder) = state_folder(rt)? else {
        return Ok(None);
    };
    let name = state_name(rt, &folder, line, settings.own, settings.device)?;
    fs::create_dir_all(rt, folder.as_str())?;
    Ok(Some(name))
}

/// Says that another run asks the same device on a line, and returns the exit status.
fn say_in_use(rt: &HostRuntime, line: &str) -> u8
    ensures { result ≡ FAILED }
{
    let _ = eprintln!(rt; "mctpctl: {line}: in use by another program");
    FAILED
}

/// Says that nothing is kept, and why.
fn say_not_kept(rt: &HostRuntime, name: &str, error: &io::Error) -> LineState {
    let _ = eprintln!(rt; "mctpctl: {name}: {error}; no state is kept");
    nothing_kept(rt)
}

/// Where nothing is kept.
fn nothing_kept(rt: &HostRuntime) -> LineState {
    let present = match boot_moment(rt) {
        Ok(now) => now.milliseconds,
        Err(_) => 0,
    };
    LineState {
        keeper: Keeper::new(None, Queries::NONE),
        first_query: Some(0),
        requester: None,
        present,
    }
}

/// What a file says. Where it is there and tells nothing, the reason is said.
fn state_by(rt: &HostRuntime, name: &str, settings: &Settings, begun: Begun) -> LineState {
    let Begun {
        file,
        earlier,
        present,
    } = begun;
    let (requester, queries) = match earlier {
        Earlier::Known(known) => {
            let requester = resumed(rt, name, settings, &known.openings, present);
            (requester, known.queries)
        }
        Earlier::New => (None, Queries::NONE),
        Earlier::Unknown(reason) => {
            say_unknown(rt, name, settings, reason);
            (None, Queries::NONE)
        }
    };
    LineState {
        keeper: Keeper::new(Some(file), queries),
        first_query: first_query(queries, settings, present),
        requester,
        present,
    }
}

/// The requester that goes on after these openings; `None` where no requester leaves them, which is said, or none can be
/// made.
fn resumed(
    rt: &HostRuntime,
    name: &str,
    settings: &Settings,
    openings: &Openings,
    present: u64,
) -> Option<Requester> {
    let Settings {
        own,
        device,
        timing,
        pace,
    } = *settings;
    let now = Moment::new(present)?;
    match Requester::resumed(rt.alloc(), own, device, timing, pace, now, openings) {
        Ok(requester) => Some(requester),
        Err(ResumeFault::Openings) => {
            say_unknown(rt, name, settings, Unknown::Damaged);
            None
        }
        Err(ResumeFault::Setting(_) | ResumeFault::Memory(_)) => None, // a new one has the same fault
    }
}

/// The instance ID of the first of a walk's control queries: the next one, and 0 again where these do not suffice and
/// the last query went out twice the keeping time ago or earlier.
fn first_query(queries: Queries, settings: &Settings, present: u64) -> Option<u8>
    ensures { result ≡ first_query queries settings.now.timing.keep present }
{
    if queries.next <= INSTANCE_IDS - WALK_QUERIES {
        return Some(queries.next);
    }
    let whole = 2 * u64::from(settings.timing.keep.get());
    match queries.last {
        Some(last) if last.saturating_add(whole) <= present => Some(0),
        _ => None,
    }
}

/// Says why a file tells nothing of earlier requests, and what that costs.
fn say_unknown(rt: &HostRuntime, name: &str, settings: &Settings, reason: Unknown) {
    let wait = 2 * u64::from(settings.timing.keep.get());
    let _ = eprintln!(rt; "mctpctl: {name}: {reason}; {wait} ms pass first");
}

/// Says why the file of the state is of no use, and returns the exit status.
fn state_failed(rt: &HostRuntime, name: &str, fault: &StateFault) -> u8
    ensures { result ≤ FAILED }
{
    let _ = eprintln!(rt; "mctpctl: {name}: {fault}");
    match fault {
        StateFault::Content => USAGE,
        StateFault::File(_) | StateFault::InUse => FAILED,
    }
}

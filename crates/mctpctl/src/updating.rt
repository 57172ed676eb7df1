//! `update`: a firmware update is brought to a device on a serial line.

ghost use Rattle.std.specs.Prelude.{◌≡◌, ◌≤◌};

use crate::keeper::Keeper;
use crate::line::{Line, open_input, open_line, plain_input};
use crate::serial_line::file_failed;
use crate::settings::{Settings, component_of};
use crate::state::{LineState, begin_state};
use crate::statuses::{DONE, FAILED, REFUSED, USAGE};
use crate::talk::{read_settings, settling_time};
use crate::update_ends::agent_terminus;
use mctpctl_command_line::{TRY_HELP, UpdateOptions};
use mctpctl_input::Port;
use mctpctl_update::{ImageOptions, Job, Keeps, SessionFault, bring, read_brought};
use pldm_line::{AskFault, LaterTicks, SystemTicks, Unwatched};
use pldm_requester::{Openings, Requester};
use std::fs;
use std::io::{self, ErrorKind, IsTerminal, Read, Write};
use update_line::{UpdateLine, UpdateLineFault};

/// The most bytes of a package or an image.
const MAX_FILE: u64 = 67_108_864;

/// Keeps when requests were opened in the file of the line's state.
#[derive(Drop)]
struct KeptState<'k> {
    rt: &'k HostRuntime,
    keeper: &'k mut Keeper,
    /// The next instance ID when that was kept last.
    kept: Option<u8>,
}

impl Keeps for KeptState<'_> {
    fn keep(&mut self, openings: &Openings, last: u64) -> bool {
        if self.kept == Some(openings.next) {
            return true;
        }
        self.kept = Some(openings.next);
        self.keeper.keep_openings(self.rt, openings, last).is_ok()
    }
}

/// Brings a firmware update to the device, and returns the exit status. What fails is said on standard error.
pub fn run_update(rt: &HostRuntime, options: &UpdateOptions<'_>) -> u8
    ensures { result ≤ FAILED }
{
    let settings = match read_settings(rt, &options.link) {
        Ok(settings) => settings,
        Err(status) => return status,
    };
    let component = match component_of(options.component) {
        Ok(component) => component,
        Err(option) => {
            let _ = eprint!(rt; "error: invalid value for '{option}'{TRY_HELP}");
            return USAGE;
        }
    };
    let file = match read_file(rt, options.image) {
        Ok(file) => file,
        Err(error) => return file_failed(rt, options.image, &error),
    };
    let brought = match read_brought(&file) {
        Ok(brought) => brought,
        Err(fault) => {
            let _ = eprintln!(rt;
                "mctpctl: {}: no package and no image: {fault}",
                options.image
            );
            return USAGE;
        }
    };
    let job = Job {
        brought,
        options: ImageOptions {
            component,
            version: options.version.unwrap_or(name_of(options.image)),
        },
        dry_run: options.dry_run,
        has_progress: rt.stderr().is_terminal(),
    };
    update_on(rt, options, &settings, &job)
}

/// The file of this name.
fn read_file(rt: &HostRuntime, name: &str) -> io::Result<Vec<u8>> {
    let file = fs::open(rt, name)?;
    let mut bytes = Vec::new(rt.alloc());
    file.take(MAX_FILE + 1).read_to_end(&mut bytes)?;
    if bytes.len() as u64 > MAX_FILE {
        return Err(ErrorKind::FileTooLarge.into());
    }
    Ok(bytes)
}

/// The last part of a path.
fn name_of(path: &str) -> &str {
    match path.rsplit_once('/') {
        Some((_, name)) => name,
        None => path,
    }
}

/// Brings an update on the line that is named, or on standard input and output, and returns the exit status.
fn update_on(
    rt: &HostRuntime,
    options: &UpdateOptions<'_>,
    settings: &Settings,
    job: &Job<'_>,
) -> u8
    ensures { result ≤ FAILED }
{
    let state = match begin_state(rt, &options.link, settings) {
        Ok(state) => state,
        Err(status) => return status,
    };
    let wait = settling_time(settings);
    let Some(path) = options.link.line else {
        let line = Line {
            path: None,
            probe: None,
        };
        let (writer, out) = (rt.stdout(), rt.stderr());
        return match open_input(rt, wait) {
            Ok(reader) => update_over(rt, settings, job, state, &line, reader, writer, out),
            Err(_) => {
                let reader = plain_input(rt, wait);
                update_over(rt, settings, job, state, &line, reader, writer, out)
            }
        };
    };
    match open_line(rt, path, wait) {
        Ok((reader, writer)) => {
            let line = Line {
                path: Some(path),
                probe: reader.probe(),
            };
            update_over(rt, settings, job, state, &line, reader, writer, rt.stdout())
        }
        Err(error) => {
            let _ = state.keeper.end(rt);
            file_failed(rt, path, &error)
        }
    }
}

/// When it opened requests. It has no clause, so that no proof computes what a requester leaves.
fn openings_of(requester: &Requester) -> Openings {
    requester.openings()
}

/// Brings an update over a line, prints what comes of it, gives the state back, and returns the exit status.
fn update_over<R: Read + Drop, W: Write + Drop, O: Write + Drop>(
    rt: &HostRuntime,
    settings: &Settings,
    job: &Job<'_>,
    state: LineState,
    on: &Line<'_>,
    reader: R,
    writer: W,
    out: O,
) -> u8
    ensures { result ≤ FAILED }
{
    let LineState {
        keeper,
        requester,
        present,
        ..
    } = state;
    let mut keeper = keeper;
    let mut out = out;
    let earlier = requester.as_ref().map(|requester| openings_of(requester));
    let rest = rest_of(settings, earlier, present);
    say_rest(rt, rest, present);
    let Some(end) = agent_terminus(rt.alloc(), settings, rest) else {
        let _ = eprint!(rt; "error: the times do not fit one another{TRY_HELP}");
        let _ = keeper.end(rt);
        return USAGE;
    };
    let Ok(ticks) = SystemTicks::new(rt) else {
        let _ = keeper.end(rt);
        return on.failed(rt, AskFault::Clock);
    };
    let mut line = UpdateLine::new(LaterTicks { ticks, by: present }, Unwatched);
    let mut kept = KeptState {
        rt,
        keeper: &mut keeper,
        kept: None,
    };
    let done = bring(
        rt,
        job,
        end,
        &mut line,
        &mut Port::new(reader),
        &mut Port::new(writer),
        &mut out,
        &mut kept,
    );
    match (keeper.end(rt), done) {
        (Some(_), _) => FAILED,
        (None, Ok(())) => DONE,
        (None, Err(fault)) => session_failed(rt, on, &fault),
    }
}

/// The moment before which nothing may be asked: twice the keeping time after the last request that is known, else after
/// now.
fn rest_of(settings: &Settings, earlier: Option<Openings>, present: u64) -> u64 {
    let span = settling_time(settings);
    let Some(earlier) = earlier else {
        return present.saturating_add(span);
    };
    match earlier.moments.iter().max() {
        Some(last) => last.saturating_add(span),
        None => 0,
    }
}

/// Says on a terminal for how long nothing is asked, where that is a second or more.
fn say_rest(rt: &HostRuntime, rest: u64, present: u64) {
    let seconds = rest.saturating_sub(present).div_ceil(1_000);
    if seconds > 1 && rt.stderr().is_terminal() {
        let _ = eprintln!(rt;
            "mctpctl: {seconds} s pass first: late answers to earlier requests may still come"
        );
    }
}

/// Says why an update was not brought to its end, and returns the exit status.
fn session_failed(rt: &HostRuntime, on: &Line<'_>, fault: &SessionFault) -> u8
    ensures { result ≤ FAILED }
{
    match fault {
        SessionFault::Line(UpdateLineFault::LineEnded) => on.failed(rt, AskFault::LineEnded),
        SessionFault::Line(UpdateLineFault::Read) => on.failed(rt, AskFault::Read),
        SessionFault::Line(UpdateLineFault::Write) => on.failed(rt, AskFault::Write),
        SessionFault::Line(UpdateLineFault::Clock) => on.failed(rt, AskFault::Clock),
        SessionFault::Line(UpdateLineFault::Memory) => on.failed(rt, AskFault::Memory),
        SessionFault::Unread => FAILED,
        fault => {
            let _ = eprintln!(rt; "mctpctl: {fault}");
            match fault {
                SessionFault::Offer(_)
                | SessionFault::Refused(_, _)
                | SessionFault::NotTaken(_)
                | SessionFault::NotRead(_)
                | SessionFault::Ended(_) => REFUSED,
                _ => FAILED,
            }
        }
    }
}

//! A conversation with a device on a serial line: the line is opened, and the answers to earlier requests pass first.

ghost use Rattle.std.specs.Prelude.{◌≡◌, ◌≤◌, ◌+◌, ◌*◌, IfErr, IfOk, OnOk, Some};
ghost use Rattle.mctpctl.specs.Settings.{settings_in};
ghost use Rattle.mctpctl.specs.Conversations.{IsGoingOn};
ghost use Rattle.pldm_wire.specs.declared.assigned.TheConstants.{INSTANCE_IDS};
ghost use Rattle.pldm_line.specs.Asked.{Listens, begun_as, shown};
ghost use Rattle.mctpctl_command_line.specs.Choice.{linked};
ghost use Rattle.mctpctl_input.specs.Ports.{BothWork};

use crate::asking::ask_each;
use crate::assigning::assign_device;
use crate::commands::AskedCommand;
use crate::conversation::Conversation;
use crate::keeper::{Keeper, WALK_QUERIES};
use crate::line::{Line, input_name, open_input, open_line, plain_input};
use crate::settings::{KEEP_MS, Periods, Settings, pace_option, settings_of};
use crate::state::{LineState, begin_state};
use crate::statuses::{FAILED, USAGE};
use crate::walking::walk_device;
use crate::watching::watch_device;
use mctpctl_colours::{Colouring, Marks, is_asked};
use mctpctl_command_line::{AskOptions, LineOptions, TRY_HELP, WalkOptions, WatchOptions};
use mctpctl_input::Port;
use pldm_line::{AskFault, AskingLine, BeginFault, LaterTicks, SystemTicks, Ticks, begin, resume};
use pldm_requester::{Requester, SettingFault};
use pldm_wire::INSTANCE_IDS;
use std::alloc::Global;
use std::io::{IsTerminal, Read, Write};

/// What a device may do where it has an earlier answer with a request's instance ID.
const MISTAKEN: &str =
    "may take a new request for a copy of an earlier one, not perform it, and send the earlier answer";

/// What is asked of a device.
#[derive(Clone, Copy)]
pub enum Errand<'q> {
    /// These commands.
    Ask(&'q AskOptions<'q>, &'q [AskedCommand]),
    /// All that it has.
    Walk(&'q WalkOptions<'q>),
    /// What its sensors and effecters say, in each of these periods.
    Watch(&'q WatchOptions<'q>, &'q Periods),
    /// To take an endpoint ID.
    Assign,
}

/// Who asks, and what.
#[derive(Clone, Copy)]
struct Talk<'q> {
    settings: Settings,
    errand: Errand<'q>,
}

impl Talk<'_> {
    /// Whether control queries are asked.
    fn has_queries(&self) -> bool {
        matches!(self.errand, Errand::Walk(_) | Errand::Assign)
    }
}

/// The settings that the words spell; else the exit status, once the refused option is named on standard error.
pub fn read_settings(rt: &HostRuntime, link: &LineOptions<'_>) -> Result<Settings, u8>
    ensures ok { IfOk result (λ settings. settings_in (linked link.now) ≡ Some settings) }
    ensures err { IfErr result (λ status. status ≡ USAGE) }
{
    match settings_of(link) {
        Ok(settings) => Ok(settings),
        Err(option) => {
            let _ = eprint!(rt; "error: invalid value for '{option}'{TRY_HELP}");
            Err(USAGE)
        }
    }
}

/// Does an errand on a line, with the state that a file keeps, and returns the exit status. What fails is said on
/// standard error.
pub fn do_errand(
    rt: &HostRuntime,
    link: &LineOptions<'_>,
    settings: &Settings,
    errand: Errand<'_>,
) -> u8
    ensures { result ≤ FAILED }
{
    let state = match begin_state(rt, link, settings) {
        Ok(state) => state,
        Err(status) => return status,
    };
    let talk = Talk {
        settings: *settings,
        errand,
    };
    say_assumed(rt, settings);
    let wait = match state.requester {
        Some(_) => 0,
        None => settling_time(settings),
    };
    let Some(path) = link.line else {
        return talk_on_input(rt, &talk, state, wait);
    };
    match open_line(rt, path, wait) {
        Ok((reader, writer)) => {
            let line = Line {
                path: Some(path),
                probe: reader.probe(),
            };
            talk_over(rt, &talk, state, &line, reader, writer, rt.stdout())
        }
        Err(error) => {
            let _ = state.keeper.end(rt);
            let _ = eprintln!(rt; "mctpctl: {path}: {error}");
            FAILED
        }
    }
}

/// Does an errand over standard input and output, and returns the exit status. Where the input is a terminal or a pipe,
/// its reads end.
fn talk_on_input(rt: &HostRuntime, talk: &Talk<'_>, state: LineState, wait: u64) -> u8
    ensures { result ≤ FAILED }
{
    let name = input_name(rt);
    let path = name.as_ref().map(|name| name.as_str());
    match open_input(rt, wait) {
        Ok(reader) => {
            let line = Line {
                path,
                probe: reader.probe(),
            };
            talk_over(rt, talk, state, &line, reader, rt.stdout(), rt.stderr())
        }
        Err(_) => {
            let line = Line { path, probe: None };
            let reader = plain_input(rt, wait);
            talk_over(rt, talk, state, &line, reader, rt.stdout(), rt.stderr())
        }
    }
}

/// Does an errand over a line, prints what comes of it, gives the state back, and returns the exit status.
fn talk_over<R: Read + Drop, W: Write + Drop, O: Write + IsTerminal + Drop>(
    rt: &HostRuntime,
    talk: &Talk<'_>,
    state: LineState,
    on: &Line<'_>,
    reader: R,
    writer: W,
    out: O,
) -> u8
    ensures { result ≤ FAILED }
{
    let LineState {
        keeper,
        requester,
        first_query,
        present,
    } = state;
    let Ok(ticks) = SystemTicks::new(rt) else {
        let _ = keeper.end(rt);
        return on.failed(rt, AskFault::Clock);
    };
    let ticks = LaterTicks { ticks, by: present };
    let marks = marks_of(rt, talk, &out);
    let mut reader = Port::new(reader);
    let mut writer = Port::new(writer);
    let requester = match first_query {
        None if talk.has_queries() => None,
        _ => requester,
    };
    let settings = &talk.settings;
    match go_on_or_begin(rt, settings, requester, ticks, &mut reader, &mut writer) {
        Ok(line) => {
            let conversation = Conversation {
                line,
                reader,
                writer,
                out: Port::new(Colouring::new(rt.alloc(), out, marks)),
                keeper,
            };
            converse(
                rt,
                talk,
                on,
                queries_from(first_query),
                present,
                conversation,
            )
        }
        Err(fault) => {
            let _ = keeper.end(rt);
            begin_failed(rt, settings, on, fault)
        }
    }
}

/// The instance ID of a walk's first control query: 0 where earlier ones have passed.
fn queries_from(first: Option<u8>) -> u8
    ensures { result + 3 ≤ INSTANCE_IDS }
{
    match first {
        Some(first) if first <= INSTANCE_IDS - WALK_QUERIES => first,
        _ => 0,
    }
}

/// Does an errand over a line that was begun at the moment `start` of its clock, gives the state back, and returns the
/// exit status.
fn converse<C: Ticks + Drop, R: Read + Drop, W: Write + Drop, O: Write + Drop>(
    rt: &HostRuntime,
    talk: &Talk<'_>,
    on: &Line<'_>,
    first_query: u8,
    start: u64,
    conversation: Conversation<C, R, W, O>,
) -> u8
    requires queries { first_query + 3 ≤ INSTANCE_IDS }
    requires going { IsGoingOn conversation }
    ensures { result ≤ FAILED }
{
    let (keeper, done) = match talk.errand {
        Errand::Ask(question, commands) => ask_device(rt, question, commands, conversation),
        Errand::Walk(options) => {
            walk_all(rt, &talk.settings, first_query, options, conversation)
        }
        Errand::Watch(options, periods) => {
            watch_device(rt, options, periods, start, conversation)
        }
        Errand::Assign => assign_eid(rt, &talk.settings, first_query, conversation),
    };
    match (keeper.end(rt), done) {
        (Some(_), _) => FAILED,
        (None, Ok(status)) => status,
        (None, Err(fault)) => on.failed(rt, fault),
    }
}

/// Asks each command, and returns what keeps the requests, with the exit status.
fn ask_device<C: Ticks + Drop, R: Read + Drop, W: Write + Drop, O: Write + Drop>(
    rt: &HostRuntime,
    question: &AskOptions<'_>,
    commands: &[AskedCommand],
    conversation: Conversation<C, R, W, O>,
) -> (Keeper, Result<u8, AskFault>)
    requires going { IsGoingOn conversation }
    ensures { IfOk result.1 (λ status. status ≤ FAILED) }
{
    let mut conversation = conversation;
    let done = ask_each(rt, question, commands, &mut conversation);
    (conversation.keeper, done)
}

/// Walks over the device, and returns what keeps the requests, with the exit status.
fn walk_all<C: Ticks + Drop, R: Read + Drop, W: Write + Drop, O: Write + Drop>(
    rt: &HostRuntime,
    settings: &Settings,
    first_query: u8,
    options: &WalkOptions<'_>,
    conversation: Conversation<C, R, W, O>,
) -> (Keeper, Result<u8, AskFault>)
    requires queries { first_query + 3 ≤ INSTANCE_IDS }
    requires going { IsGoingOn conversation }
    ensures { IfOk result.1 (λ status. status ≤ FAILED) }
{
    let mut conversation = conversation;
    let done = walk_device(rt, settings, first_query, options, &mut conversation);
    (conversation.keeper, done)
}

/// Gives the device its endpoint ID, and returns what keeps the requests, with the exit status.
fn assign_eid<C: Ticks + Drop, R: Read + Drop, W: Write + Drop, O: Write + Drop>(
    rt: &HostRuntime,
    settings: &Settings,
    id: u8,
    conversation: Conversation<C, R, W, O>,
) -> (Keeper, Result<u8, AskFault>)
    requires query { id + 3 ≤ INSTANCE_IDS }
    requires going { IsGoingOn conversation }
    ensures { IfOk result.1 (λ status. status ≤ FAILED) }
{
    let mut conversation = conversation;
    let done = assign_device(rt, settings, id, &mut conversation);
    (conversation.keeper, done)
}

/// What of the tables of `watch` gets a colour, where they are printed on a terminal.
fn marks_of(rt: &HostRuntime, talk: &Talk<'_>, out: &impl IsTerminal) -> Option<Marks> {
    let is_table = matches!(talk.errand, Errand::Watch(_, _));
    (is_table && out.is_terminal() && is_asked(rt)).then_some(Marks::Tables)
}

/// For how many milliseconds answers to earlier requests may come, where nothing is known of these: twice the keeping
/// time.
pub fn settling_time(settings: &Settings) -> u64
    ensures { result ≡ 2 * settings.now.timing.keep }
{
    2 * u64::from(settings.timing.keep.get())
}

/// Says on a terminal what becomes of requests where the device keeps its answers longer than the options say, or more
/// of them, if they say less than is usual.
fn say_assumed(rt: &HostRuntime, settings: &Settings) {
    let keep = u64::from(settings.timing.keep.get());
    let window = settings.pace.window;
    if !rt.stderr().is_terminal() {
        return;
    }
    if window < INSTANCE_IDS {
        let _ = eprintln!(rt;
            "mctpctl: warning: a device that keeps more than {window} answers, or for more than {keep} ms, {MISTAKEN}"
        );
    } else if keep < KEEP_MS {
        let _ = eprintln!(rt;
            "mctpctl: warning: a device that keeps its answers for more than {keep} ms {MISTAKEN}"
        );
    }
}

/// Says on a terminal for how long nothing is asked, where that is a second or more.
fn say_waiting(rt: &HostRuntime, settings: &Settings) {
    let span = settling_time(settings);
    if span >= 1_000 && rt.stderr().is_terminal() {
        let seconds = span.div_ceil(1_000);
        let _ = eprintln!(rt;
            "mctpctl: {seconds} s pass first: late answers to earlier requests may still come"
        );
    }
}

/// A line that goes on with a requester, where there is one; else one that is begun.
fn go_on_or_begin<C: Ticks + Drop, R: Read, W: Write>(
    rt: &HostRuntime,
    settings: &Settings,
    requester: Option<Requester>,
    ticks: C,
    reader: &mut Port<R>,
    writer: &mut Port<W>,
) -> Result<AskingLine<C>, BeginFault>
    requires works { BothWork reader.old writer.old }
    ensures works { OnOk result (BothWork reader.new writer.new) }
{
    match requester {
        Some(requester) => Ok(resume(requester, ticks)),
        None => {
            say_waiting(rt, settings);
            begin_line(rt.alloc(), settings, ticks, reader, writer)
        }
    }
}

/// Begins a line: as long as answers to earlier requests may come, they pass.
fn begin_line<C: Ticks + Drop, R: Read, W: Write>(
    alloc: Global,
    settings: &Settings,
    ticks: C,
    reader: &mut Port<R>,
    writer: &mut Port<W>,
) -> Result<AskingLine<C>, BeginFault>
    requires works { BothWork reader.old writer.old }
    ensures begun { IfOk result (λ line. Listens (2 * settings.now.timing.keep)
        (begun_as C.to_come R.remaining W.contents settings.now.own settings.now.device settings.now.timing
        settings.now.pace ticks reader.old writer.old)
        (shown C.to_come R.remaining W.contents line reader.new writer.new)) }
    ensures works { OnOk result (BothWork reader.new writer.new) }
{
    let Settings {
        own,
        device,
        timing,
        pace,
    } = *settings;
    begin(alloc, own, device, timing, pace, ticks, reader, writer)
}

/// Says why nothing can be asked, and returns the exit status.
fn begin_failed(rt: &HostRuntime, settings: &Settings, on: &Line<'_>, fault: BeginFault) -> u8
    ensures { result ≤ FAILED }
{
    match fault {
        BeginFault::Setting(SettingFault::Timing(fault)) => {
            let _ = eprint!(rt; "error: {fault}{TRY_HELP}");
            USAGE
        }
        BeginFault::Setting(SettingFault::Pace(fault)) => {
            let option = pace_option(settings, fault);
            let _ = eprint!(rt; "error: invalid value for '{option}': {fault}{TRY_HELP}");
            USAGE
        }
        BeginFault::Line(fault) => on.failed(rt, fault),
    }
}

//! `walk`: a device is asked for all that it has, its answers are printed, and a table of what it measures and sets.

ghost use Rattle.std.specs.Prelude.{◌+◌, ◌≡◌, ◌⊎◌, ◌<◌, ◌≤◌, ◌++◌, IfOk, IfErr, IfSome, OnOk, length, map, option_map};
ghost use Rattle.std.specs.Io.KnownBytes.{Appends};
ghost use Rattle.mctp_control.specs.declared.assigned.TheConstants.{INSTANCE_IDS};
ghost use Rattle.mctpctl.specs.AskedTexts.{IsOfPrinting, Reports};
ghost use Rattle.mctpctl.specs.Conversations.{IsGoingOn, printed_in, shown_in};
ghost use Rattle.mctpctl.specs.WalkedTexts.{AsksAndPrints, AsksEndpoint, StepsOn, StopsNext, StopsWalking, ReportsQuery, WalksDevice, WalksThrough, described_at, goes_on, query_of, record_text, status_of_query, rows_at, walk_view, walk_text, walked_rows};
ghost use Rattle.mctpctl_table.specs.Rows.{rows_by};
ghost use Rattle.pldm_line.specs.Asked.{AskStops};
ghost use Rattle.pldm_line.specs.Queries.{StopsQuery};
ghost use Rattle.mctpctl_input.specs.Ports.{inner_of};

use crate::asking::{
    AnswerForm, ask_command, name_of, print_message, print_text, status_of_answer,
};
use crate::conversation::Conversation;
use crate::settings::Settings;
use crate::statuses::{DONE, FAILED, REFUSED};
use mctp_control::{AnyQuery, Command as ControlCommand, Query, SUCCESS, read_response};
use mctp_packet::{Body, Memory, Tag};
use mctpctl_command_line::WalkOptions;
use mctpctl_decode::push_record;
use mctpctl_input::Port;
use mctpctl_table::{Described, Table};
use mctpctl_texts::write_text;
use pldm_discovery::Walk;
use pldm_line::{AskFault, Ticks, ask, ask_control};
use pldm_wire::{Command, GET_NEXT_PART};
use std::alloc::Global;
use std::fs;
use std::io::{self, IsTerminal, Read, Write};

/// Asks the device for all that it has over a line, prints its answers and the table, and returns the exit status. The
/// first command without an answer is the last.
pub fn walk_device<C: Ticks, R: Read, W: Write, O: Write>(
    rt: &HostRuntime,
    settings: &Settings,
    first_query: u8,
    options: &WalkOptions<'_>,
    conversation: &mut Conversation<C, R, W, O>,
) -> Result<u8, AskFault>
    requires queries { first_query + 3 ≤ INSTANCE_IDS }
    requires going { IsGoingOn conversation.old }
    ensures walked { IfOk result (λ status. WalksDevice settings.now first_query status
        (shown_in C.to_come R.remaining W.contents conversation.old)
        (shown_in C.to_come R.remaining W.contents conversation.new)
        (printed_in O.contents conversation.old) (printed_in O.contents conversation.new)) }
    ensures range { IfOk result (λ status. status ≤ FAILED) }
{
    let keeper = &mut conversation.keeper;
    keeper.keep_queries(rt, first_query, &conversation.line)?;
    let found = match ask_endpoint(rt, settings, first_query, conversation) {
        Ok(found) => found,
        Err(fault) => return Err(fault),
    };
    conversation.keeper.end_queries(&conversation.line);
    if found == FAILED {
        return Ok(FAILED);
    }
    let mut walk = Walk::new(rt.alloc());
    let walked = match ask_all(rt, &mut walk, conversation) {
        Ok(walked) => walked,
        Err(fault) => return Err(fault),
    };
    match print_table(rt.alloc(), &walk, &mut conversation.out) {
        Ok(()) => {}
        Err(fault) => return Err(fault),
    }
    match write_records(rt, options, &walk) {
        Ok(()) => Ok(found.max(walked)),
        Err(error) => {
            let file = options.records.unwrap_or("");
            let _ = eprintln!(rt; "mctpctl: {file}: {error}");
            Ok(FAILED)
        }
    }
}

/// Asks the device what a bus owner asks an endpoint that it has found (DSP0236, "MCTP control protocol"): its endpoint
/// ID, its UUID and its message types, up to the first without an answer; and returns the greatest of the exit statuses.
fn ask_endpoint<C: Ticks, R: Read, W: Write, O: Write>(
    rt: &HostRuntime,
    settings: &Settings,
    first: u8,
    conversation: &mut Conversation<C, R, W, O>,
) -> Result<u8, AskFault>
    requires queries { first + 3 ≤ INSTANCE_IDS }
    requires going { IsGoingOn conversation.old }
    ensures asked { IfOk result (λ status. AsksEndpoint settings.now first status
        (shown_in C.to_come R.remaining W.contents conversation.old)
        (shown_in C.to_come R.remaining W.contents conversation.new)
        (printed_in O.contents conversation.old) (printed_in O.contents conversation.new)) }
    ensures range { IfOk result (λ status. status ≤ FAILED) }
    ensures going { OnOk result (IsGoingOn conversation.new) }
{
    let eid = query(settings, first, ControlCommand::GetEndpointId);
    let eid_status = match report_query(rt, settings, "GetEndpointID", &eid, conversation) {
        Ok(status) => status,
        Err(fault) => return Err(fault),
    };
    if eid_status == FAILED {
        say_without_eid(rt, settings);
        return Ok(FAILED);
    }
    let second = first + 1;
    let uuid = query(settings, second, ControlCommand::GetEndpointUuid);
    let uuid_status = match report_query(rt, settings, "GetEndpointUUID", &uuid, conversation) {
        Ok(status) => status,
        Err(fault) => return Err(fault),
    };
    if uuid_status == FAILED {
        return Ok(FAILED);
    }
    let third = second + 1;
    let types = query(settings, third, ControlCommand::GetMessageTypeSupport);
    let types_status = match report_query(
        rt,
        settings,
        "GetMessageTypeSupport",
        &types,
        conversation,
    ) {
        Ok(status) => status,
        Err(fault) => return Err(fault),
    };
    Ok(eid_status.max(uuid_status.max(types_status)))
}

/// The query of a command with this instance ID.
fn query(settings: &Settings, id: u8, command: ControlCommand) -> AnyQuery
    requires { id < INSTANCE_IDS }
    ensures { result ≡ query_of settings.now id command }
{
    AnyQuery::ToDevice(Query::new(
        settings.own,
        settings.device,
        Tag::new(0).unwrap(),
        id,
        command,
    ))
}

/// Asks a query, prints its own answer, and returns the exit status. Where none came, that is said on standard error,
/// with the name of its command.
fn report_query<C: Ticks, R: Read, W: Write, O: Write>(
    rt: &HostRuntime,
    settings: &Settings,
    name: &str,
    query: &AnyQuery,
    conversation: &mut Conversation<C, R, W, O>,
) -> Result<u8, AskFault>
    requires going { IsGoingOn conversation.old }
    ensures reported { IfOk result (λ status. ReportsQuery settings.now.timing query.now status
        (shown_in C.to_come R.remaining W.contents conversation.old)
        (shown_in C.to_come R.remaining W.contents conversation.new)
        (printed_in O.contents conversation.old) (printed_in O.contents conversation.new)) }
    ensures stopped { IfErr result (λ fault. IsOfPrinting fault
        ⊎ StopsQuery query.now settings.now.timing.timeout settings.now.timing.tries fault
        (shown_in C.to_come R.remaining W.contents conversation.old)
        (shown_in C.to_come R.remaining W.contents conversation.new)) }
    ensures range { IfOk result (λ status. status ≤ FAILED) }
    ensures going { OnOk result (IsGoingOn conversation.new) }
{
    let answer = match ask_query(rt, settings, query, conversation) {
        Ok(answer) => answer,
        Err(fault) => return Err(fault),
    };
    let Some(message) = answer else {
        say_no_answer(rt, name);
        return Ok(FAILED);
    };
    Ok(status_of_query(&message))
}

/// Asks a query, prints its own answer, and returns its message; `None` where none came.
pub fn ask_query<C: Ticks, R: Read, W: Write, O: Write>(
    rt: &HostRuntime,
    settings: &Settings,
    query: &AnyQuery,
    conversation: &mut Conversation<C, R, W, O>,
) -> Result<Option<Body>, AskFault>
    requires going { IsGoingOn conversation.old }
    ensures asked { IfOk result (λ answer. AsksAndPrints settings.now.timing query.now
        (option_map (λ answer. answer.items) answer)
        (shown_in C.to_come R.remaining W.contents conversation.old)
        (shown_in C.to_come R.remaining W.contents conversation.new)
        (printed_in O.contents conversation.old) (printed_in O.contents conversation.new)) }
    ensures stopped { IfErr result (λ fault. IsOfPrinting fault
        ⊎ StopsQuery query.now settings.now.timing.timeout settings.now.timing.tries fault
        (shown_in C.to_come R.remaining W.contents conversation.old)
        (shown_in C.to_come R.remaining W.contents conversation.new)) }
    ensures going { OnOk result (IsGoingOn conversation.new) }
{
    let Conversation {
        line,
        reader,
        writer,
        out,
        ..
    } = conversation;
    let (timeout, tries) = (settings.timing.timeout, settings.timing.tries);
    let answer = match ask_control(line, query, timeout, tries, reader, writer) {
        Ok(answer) => answer,
        Err(fault) => return Err(fault),
    };
    let Some(message) = answer else {
        return Ok(None);
    };
    match print_message(rt.alloc(), false, &message, out) {
        Ok(()) => Ok(Some(message)),
        Err(fault) => Err(fault),
    }
}

/// The exit status of an answer to a query, by its completion code.
fn status_of_query(message: &[u8]) -> u8
    ensures value { result ≡ status_of_query message.now }
    ensures range { result ≤ FAILED }
{
    match read_response(message) {
        Some(response) if response.code() == SUCCESS => DONE,
        _ => REFUSED,
    }
}

/// Says that the command of this name got no answer.
fn say_no_answer(rt: &HostRuntime, name: &str) {
    let _ = eprintln!(rt; "mctpctl: {name}: no answer");
}

/// Says what may help where nobody gives an endpoint ID: a device has none before a bus owner assigns one (DSP0236,
/// "Special endpoint IDs").
fn say_without_eid(rt: &HostRuntime, settings: &Settings) {
    let eid = settings.device.get();
    let _ = eprintln!(rt;
        "mctpctl: nobody answered as endpoint {eid}; a device that has no endpoint ID yet gets it by 'mctpctl assign'"
    );
}

/// The name of the command that a walk asks next; nothing at its end.
fn next_name(walk: &Walk) -> &'static str {
    match walk.next() {
        Some(command) => name_of(&command),
        None => "",
    }
}

/// Asks the commands of a walk one after another, up to its end or to one without an answer, and returns the greatest of
/// their exit statuses.
pub fn ask_all<C: Ticks, R: Read, W: Write, O: Write>(
    rt: &HostRuntime,
    walk: &mut Walk,
    conversation: &mut Conversation<C, R, W, O>,
) -> Result<u8, AskFault>
    requires going { IsGoingOn conversation.old }
    ensures walked { IfOk result (λ status. WalksThrough status
        (walk_view C.to_come R.remaining W.contents O.contents walk.old conversation.old)
        (walk_view C.to_come R.remaining W.contents O.contents walk.new conversation.new)) }
    ensures stopped { IfErr result (λ fault. IsOfPrinting fault ⊎ StopsWalking fault
        (walk_view C.to_come R.remaining W.contents O.contents walk.old conversation.old)
        (walk_view C.to_come R.remaining W.contents O.contents walk.new conversation.new)) }
    ensures range { IfOk result (λ status. status ≤ FAILED) }
    ensures going { OnOk result (IsGoingOn conversation.new) }
{
    let shows_progress = rt.stderr().is_terminal() && !rt.stdout().is_terminal();
    let mut status = DONE;
    for _ in 0..u64::MAX {
        let name = next_name(walk);
        let asked = match ask_next(rt, walk, conversation) {
            Ok(asked) => asked,
            Err(fault) => return Err(fault),
        };
        let Some(one) = asked else {
            return Ok(status);
        };
        status = status.max(one);
        if one == FAILED {
            say_no_answer(rt, name);
            return Ok(status);
        }
        if shows_progress {
            say_progress(rt, walk);
        }
    }
    Err(AskFault::TooMany)
}

/// Asks the next command of a walk, prints its own answer, hands it to the walk, and returns the exit status; `None` at
/// the walk's end, where nothing is done.
fn ask_next<C: Ticks, R: Read, W: Write, O: Write>(
    rt: &HostRuntime,
    walk: &mut Walk,
    conversation: &mut Conversation<C, R, W, O>,
) -> Result<Option<u8>, AskFault>
    requires going { IsGoingOn conversation.old }
    ensures stepped { IfOk result (λ status. StepsOn status
        (walk_view C.to_come R.remaining W.contents O.contents walk.old conversation.old)
        (walk_view C.to_come R.remaining W.contents O.contents walk.new conversation.new)) }
    ensures stopped { IfErr result (λ fault. IsOfPrinting fault ⊎ StopsNext fault
        (walk_view C.to_come R.remaining W.contents O.contents walk.old conversation.old)
        (walk_view C.to_come R.remaining W.contents O.contents walk.new conversation.new)) }
    ensures range { IfOk result (λ status. IfSome status (λ one. one ≤ FAILED)) }
    ensures going { OnOk result (IsGoingOn conversation.new) }
{
    let Some(command) = walk.next() else {
        return Ok(None);
    };
    let number = match ask_command(rt, AnswerForm::WithCommand, &command, conversation) {
        Ok(number) => number,
        Err(fault) => return Err(fault),
    };
    let answer = conversation.line.answer(number);
    let count = walk.record_count();
    if walk.take(answer).is_err() {
        return Err(AskFault::Memory);
    }
    match print_record(rt.alloc(), &command, walk, count, &mut conversation.out) {
        Ok(()) => {}
        Err(fault) => return Err(fault),
    }
    Ok(Some(status_of_answer(answer)))
}

/// Prints the fields of the record at this place of a walk, where it is there and the command asked for its last part:
/// one that came in one part stands below its answer.
fn print_record<O: Write>(
    alloc: Global,
    command: &Command,
    walk: &Walk,
    place: usize,
    out: &mut Port<O>,
) -> Result<(), AskFault>
    ensures text { OnOk result (Appends (O.contents (inner_of out.old)) (O.contents (inner_of out.new))
        (record_text command.now place walk.now)) }
    ensures fault { IfErr result IsOfPrinting }
{
    let mut text = Vec::new(alloc);
    if push_joined_record(command, walk, place, &mut text).is_err() {
        return Err(AskFault::Memory);
    }
    print_text(&text, out)
}

/// Adds the fields of that record.
fn push_joined_record(
    command: &Command,
    walk: &Walk,
    place: usize,
    out: &mut Vec<u8>,
) -> Result<(), Memory>
    ensures { OnOk result (out.new.items ≡ out.old.items ++ record_text command.now place walk.now) }
{
    if !goes_on(command) {
        return Ok(());
    }
    match walk.record(place) {
        Some(record) => push_record(out, record),
        None => Ok(()),
    }
}

/// Whether a command asks for another part than the first of a record.
fn goes_on(command: &Command) -> bool
    ensures { result ≡ goes_on command.now }
{
    match command {
        Command::GetPdr {
            transfer_operation_flag,
            ..
        } => *transfer_operation_flag == GET_NEXT_PART,
        _ => false,
    }
}

/// Says on standard error how many records were read, and of how many.
fn say_progress(rt: &HostRuntime, walk: &Walk) {
    if let Some(expected) = walk.expected_records() {
        let _ = eprint!(rt; "\rrecord {} of {expected}", walk.record_count());
    }
}

/// Prints the table of what a walk has found.
fn print_table<O: Write>(alloc: Global, walk: &Walk, out: &mut Port<O>) -> Result<(), AskFault>
    ensures { OnOk result (Appends (O.contents (inner_of out.old)) (O.contents (inner_of out.new))
        (walk_text walk.now)) }
{
    let mut text = Vec::new(alloc);
    if push_table(alloc, walk, &mut text).is_err() {
        return Err(AskFault::Memory);
    }
    print_text(&text, out)
}

/// Adds the table of what a walk has found, after a blank line.
fn push_table(alloc: Global, walk: &Walk, out: &mut Vec<u8>) -> Result<(), Memory>
    ensures { OnOk result (out.new.items ≡ out.old.items ++ walk_text walk.now) }
{
    let table = table_of(alloc, walk)?;
    if !walk.found().is_empty() {
        write_text(out, "\n")?;
    }
    table.push_text(out)
}

/// The table of what a walk has found.
fn table_of(alloc: Global, walk: &Walk) -> Result<Table, Memory>
    ensures { IfOk result (λ table. table ≡ walked_rows walk.now) }
{
    let described = described_of(alloc, walk)?;
    let mut table = Table::new(alloc);
    for place in 0..walk.found().len() {
        add_found(&mut table, walk, &described, place)?;
    }
    Ok(table)
}

/// Adds the rows of what was found at this place.
fn add_found(
    table: &mut Table,
    walk: &Walk,
    described: &[Option<Described>],
    place: usize,
) -> Result<(), Memory>
    requires described { described.now ≡ map (described_at walk.now) walk.now.found }
    requires place { place < length walk.now.found }
    ensures { OnOk result (table.new ≡ table.old ++ rows_at walk.now place) }
{
    add_heard(table, &described[place], walk.reading(place))
}

/// Adds the rows of what is described, if something is, by the message that came for it.
pub fn add_heard(
    table: &mut Table,
    described: &Option<Described>,
    message: Option<&[u8]>,
) -> Result<(), Memory>
    ensures { OnOk result (table.new
        ≡ table.old ++ rows_by described.now (option_map (λ bytes. bytes.now) message.entry)) }
{
    match described {
        Some(described) => table.add(described, message),
        None => Ok(()),
    }
}

/// What the record of each sensor and effecter that a walk has found says of it, with its names among the records.
pub fn described_of(alloc: Global, walk: &Walk) -> Result<Vec<Option<Described>>, Memory>
    ensures { IfOk result (λ described. described.items ≡ map (described_at walk.now) walk.now.found) }
{
    let records = records_of(alloc, walk)?;
    let mut described = Vec::new(alloc);
    for found in walk.found() {
        let record = walk.record(found.place).unwrap_or(&[]);
        described.push(Described::read(alloc, record, &records)?)?;
    }
    Ok(described)
}

/// The records of a walk, in the order in which they were read.
fn records_of(alloc: Global, walk: &Walk) -> Result<Vec<Vec<u8>>, Memory>
    ensures { IfOk result (λ records. map (λ pdr. pdr.items) records.items ≡ walk.now.records) }
{
    let mut records = Vec::new(alloc);
    for place in 0..walk.record_count() {
        let record = walk.record(place).unwrap_or(&[]);
        records.push(record.to_vec(alloc)?)?;
    }
    Ok(records)
}

/// The records of a walk, one after another.
fn write_records(rt: &HostRuntime, options: &WalkOptions<'_>, walk: &Walk) -> io::Result<()> {
    let Some(name) = options.records else {
        return Ok(());
    };
    let mut file = fs::create(rt, name)?;
    for place in 0..walk.record_count() {
        if let Some(record) = walk.record(place) {
            file.write_all(record)?;
        }
    }
    file.flush()
}

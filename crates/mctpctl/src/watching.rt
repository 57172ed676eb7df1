//! `watch`: the sensors and effecters of a device are read again and again, and their table is printed each time.

ghost use Rattle.std.specs.Prelude.{◌≡◌, ◌⊎◌, ◌++◌, ◌<◌, ◌≤◌, IfOk, IfErr, OnOk, length, map};
ghost use Rattle.std.specs.Io.KnownBytes.{Appends};
ghost use Rattle.mctpctl.specs.AskedTexts.{IsOfPrinting};
ghost use Rattle.mctpctl.specs.Conversations.{IsGoingOn};
ghost use Rattle.mctpctl.specs.WalkedTexts.{described_at};
ghost use Rattle.mctpctl.specs.WatchedTexts.{AsksFor, ReadsAll, ReadsOne, StopsOne, StopsReading, round_text};
ghost use Rattle.pldm_line.specs.Asked.{shown};
ghost use Rattle.mctpctl_input.specs.Ports.{inner_of, BothWork};

use crate::asking::{print_text, status_of_answer};
use crate::conversation::Conversation;
use crate::keeper::Keeper;
use crate::settings::{MAX_EVERY, Periods};
use crate::statuses::{DONE, FAILED};
use crate::walking::{add_heard, ask_all, described_of};
use mctp_packet::Memory;
use mctpctl_command_line::WatchOptions;
use mctpctl_input::Port;
use mctpctl_table::{Described, Table};
use mctpctl_texts::{write_number, write_text};
use pldm_discovery::Walk;
use pldm_line::{AskFault, AskingLine, Ticks, ask, listen};
use pldm_wire::Command;
use std::alloc::Global;
use std::fs::{self, File};
use std::io::{self, Read, Write};
use std::thread;
use std::time::Duration;

/// A read of a terminal ends after so many milliseconds at most where nothing comes.
const READ_MS: u64 = 100;

/// Finds the sensors and effecters of the device over a line, reads them in each period, prints their table, and
/// returns what keeps its requests, with the exit status. Moments are printed from `start` on, one of the line's clock.
pub fn watch_device<C: Ticks + Drop, R: Read + Drop, W: Write + Drop, O: Write + Drop>(
    rt: &HostRuntime,
    options: &WatchOptions<'_>,
    periods: &Periods,
    start: u64,
    conversation: Conversation<C, R, W, O>,
) -> (Keeper, Result<u8, AskFault>)
    requires going { IsGoingOn conversation }
    ensures { IfOk result.1 (λ status. status ≤ FAILED) }
{
    let (mut quiet, mut out) = conversation.printing_to(Port::new(Vec::new(rt.alloc())));
    let watched = watch_rounds(rt, options, periods, start, &mut quiet, &mut out);
    (quiet.keeper, watched)
}

/// As [`watch_device`], over a line that prints nothing by itself.
fn watch_rounds<C: Ticks, R: Read, W: Write, Q: Write, O: Write>(
    rt: &HostRuntime,
    options: &WatchOptions<'_>,
    periods: &Periods,
    start: u64,
    quiet: &mut Conversation<C, R, W, Q>,
    out: &mut Port<O>,
) -> Result<u8, AskFault>
    requires going { IsGoingOn quiet.old }
    ensures { IfOk result (λ status. status ≤ FAILED) }
{
    let mut log = match log_of(rt, options) {
        Ok(log) => log,
        Err(error) => return Ok(log_failed(rt, options, &error)),
    };
    let mut walk = Walk::new(rt.alloc());
    let mut status = ask_all(rt, &mut walk, quiet)?;
    if status == FAILED {
        return Ok(FAILED); // what it has is not known
    }
    let Ok(described) = described_of(rt.alloc(), &walk) else {
        return Err(AskFault::Memory);
    };
    let mut before = Table::new(rt.alloc());
    let mut due = quiet.line.moment().get();
    for period in 0..periods.count {
        let began = quiet.line.moment().get();
        let (table, one) = read_all(
            rt,
            &walk,
            &described,
            &mut quiet.keeper,
            &mut quiet.line,
            &mut quiet.reader,
            &mut quiet.writer,
        )?;
        status = status.max(one);
        let last = if period > 0 { &before } else { &table };
        let moment = began.saturating_sub(start);
        print_round(rt.alloc(), moment, &table, last, out)?;
        if let Err(error) = log_round(rt.alloc(), moment, &table, &mut log) {
            return Ok(log_failed(rt, options, &error));
        }
        before = table;
        if period + 1 < periods.count {
            due = due
                .saturating_add(periods.every)
                .max(quiet.line.moment().get());
            rest(
                rt,
                due,
                &mut quiet.line,
                &mut quiet.reader,
                &mut quiet.writer,
            )?;
        }
    }
    Ok(status)
}

/// The file that the readings are written to, made anew, where one is named.
fn log_of(rt: &HostRuntime, options: &WatchOptions<'_>) -> io::Result<Option<File>> {
    match options.readings {
        Some(name) => Ok(Some(fs::create(rt, name)?)),
        None => Ok(None),
    }
}

/// Says why the readings are not written, and returns the exit status.
fn log_failed(rt: &HostRuntime, options: &WatchOptions<'_>, error: &io::Error) -> u8
    ensures { result ≡ FAILED }
{
    let file = options.readings.unwrap_or("");
    let _ = eprintln!(rt; "mctpctl: {file}: {error}");
    FAILED
}

/// Reads each sensor and effecter of a walk once, and returns the table of what they say, with the greatest exit
/// status.
fn read_all<C: Ticks, R: Read, W: Write>(
    rt: &HostRuntime,
    walk: &Walk,
    described: &[Option<Described>],
    keeper: &mut Keeper,
    line: &mut AskingLine<C>,
    reader: &mut Port<R>,
    writer: &mut Port<W>,
) -> Result<(Table, u8), AskFault>
    requires described { described.now ≡ map (described_at walk.now) walk.now.found }
    requires works { BothWork reader.old writer.old }
    ensures read { IfOk result (λ read. ReadsAll walk.now
        (shown C.to_come R.remaining W.contents line.old reader.old writer.old)
        (shown C.to_come R.remaining W.contents line.new reader.new writer.new) read.0 read.1) }
    ensures range { IfOk result (λ read. read.1 ≤ FAILED) }
    ensures stopped { IfErr result (λ fault. IsOfPrinting fault ⊎ StopsReading walk.now fault
        (shown C.to_come R.remaining W.contents line.old reader.old writer.old)
        (shown C.to_come R.remaining W.contents line.new reader.new writer.new)) }
    ensures works { OnOk result (BothWork reader.new writer.new) }
{
    let mut table = Table::new(rt.alloc());
    let mut status = DONE;
    for place in 0..walk.found().len() {
        match read_one(
            rt, walk, described, place, keeper, line, reader, writer, &mut table,
        ) {
            Ok(one) => status = status.max(one),
            Err(fault) => return Err(fault),
        }
    }
    Ok((table, status))
}

/// Reads the sensor or effecter at this place of a walk, adds its rows to a table, and returns the exit status.
fn read_one<C: Ticks, R: Read, W: Write>(
    rt: &HostRuntime,
    walk: &Walk,
    described: &[Option<Described>],
    place: usize,
    keeper: &mut Keeper,
    line: &mut AskingLine<C>,
    reader: &mut Port<R>,
    writer: &mut Port<W>,
    table: &mut Table,
) -> Result<u8, AskFault>
    requires described { described.now ≡ map (described_at walk.now) walk.now.found }
    requires place { place < length walk.now.found }
    requires works { BothWork reader.old writer.old }
    ensures read { IfOk result (λ status. ReadsOne walk.now place
        (shown C.to_come R.remaining W.contents line.old reader.old writer.old)
        (shown C.to_come R.remaining W.contents line.new reader.new writer.new) table.old table.new status) }
    ensures range { IfOk result (λ status. status ≤ FAILED) }
    ensures stopped { IfErr result (λ fault. IsOfPrinting fault ⊎ StopsOne walk.now place fault
        (shown C.to_come R.remaining W.contents line.old reader.old writer.old)
        (shown C.to_come R.remaining W.contents line.new reader.new writer.new)) }
    ensures works { OnOk result (BothWork reader.new writer.new) }
{
    keeper.keep_next(rt, line)?;
    let question = question_at(walk, place);
    let asked = match ask(line, &question, reader, writer) {
        Ok(asked) => asked,
        Err(fault) => return Err(fault),
    };
    let answer = line.answer(asked.number);
    let Ok(()) = add_heard(table, &described[place], answer) else {
        return Err(AskFault::Memory);
    };
    Ok(status_of_answer(answer))
}

/// The command that asks for what was found at a place.
fn question_at(walk: &Walk, place: usize) -> Command
    requires { place < length walk.now.found }
    ensures { AsksFor walk.now place result }
{
    let found = walk.found()[place];
    found.subject.question()
}

/// Listens until a moment, for a day at most. The last read begins so that it ends then where nothing comes.
fn rest<C: Ticks, R: Read, W: Write>(
    rt: &HostRuntime,
    due: u64,
    line: &mut AskingLine<C>,
    reader: &mut Port<R>,
    writer: &mut Port<W>,
) -> Result<(), AskFault>
    requires works { BothWork reader.old writer.old }
    ensures works { OnOk result (BothWork reader.new writer.new) }
{
    let span = due.saturating_sub(line.moment().get()).min(MAX_EVERY);
    if span == 0 {
        return Ok(());
    }
    if span > 3 * READ_MS {
        listen(line, span - 3 * READ_MS, reader, writer)?;
    }
    let left = due.saturating_sub(line.moment().get()).min(MAX_EVERY);
    thread::sleep(rt, Duration::from_millis(left.saturating_sub(READ_MS)));
    listen(line, 0, reader, writer)?;
    let left = due.saturating_sub(line.moment().get()).min(MAX_EVERY);
    if left < READ_MS / 2 {
        return Ok(());
    }
    listen(line, left, reader, writer) // that read ended at once
}

/// Prints the table of a period: the moment, the rows, and a blank line. Rows that have changed are marked.
fn print_round<O: Write>(
    alloc: Global,
    moment: u64,
    table: &Table,
    before: &Table,
    out: &mut Port<O>,
) -> Result<(), AskFault>
    ensures { OnOk result (Appends (O.contents (inner_of out.old)) (O.contents (inner_of out.new))
        (round_text moment table.now before.now)) }
{
    let mut text = Vec::new(alloc);
    if push_round(&mut text, moment, table, before).is_err() {
        return Err(AskFault::Memory);
    }
    print_text(&text, out)
}

/// Adds the table of a period.
fn push_round(out: &mut Vec<u8>, moment: u64, table: &Table, before: &Table) -> Result<(), Memory>
    ensures { OnOk result (out.new.items ≡ out.old.items ++ round_text moment table.now before.now) }
{
    write_number(out, moment)?;
    write_text(out, " ms\n")?;
    table.push_marked(before, out)?;
    write_text(out, "\n")
}

/// Writes the readings of a period to the log, where one is kept.
fn log_round(alloc: Global, moment: u64, table: &Table, log: &mut Option<File>) -> io::Result<()> {
    let Some(file) = log else {
        return Ok(());
    };
    let mut text = Vec::new(alloc);
    if table.push_log(moment, &mut text).is_err() {
        return Err(io::ErrorKind::OutOfMemory.into());
    }
    file.write_all(&text)?;
    file.flush()
}

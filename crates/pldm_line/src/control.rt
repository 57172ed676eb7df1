//! A control query on a line: its frame goes out until a packet answers it, or its tries have passed.

ghost use Rattle.std.specs.Prelude.{◌≡◌, ◌≢◌, IfOk, IfErr, OnOk, false, option_map};
ghost use Rattle.std.specs.Io.KnownBytes.{Appends, Keeps};
ghost use Rattle.pldm_line.specs.Asked.{FailsTurn, shown};
ghost use Rattle.pldm_line.specs.Queries.{AsksQuery, StopsQuery, query_frame};
ghost use Rattle.pldm_line.specs.QueryTries.{is_again};
ghost use Rattle.pldm_line.specs.QueryTurns.{TakesQueryTurn};
ghost use Rattle.mctpctl_input.specs.Ports.{inner_of, has_failed, BothWork, ReportsFailed, ReportsFailedPorts, StaysFlushed};

use crate::ask_fault::AskFault;
use crate::asking_line::AskingLine;
use crate::ticks::Ticks;
use crate::tries::Tries;
use crate::turn::{framed, take_turn_seeing};
use crate::wanted::Wanted;
use mctp_control::AnyQuery;
use mctp_packet::{Body, Moment};
use mctpctl_input::Port;
use std::io::{Read, Write};

/// Asks a control query (DSP0236, "MCTP control protocol"): its frame goes out at once, and again each time that
/// `again` milliseconds have passed without an answer, `tries` times in all, 0 as 1. Returns the message of the first
/// packet that answers it, of those whose frames end in the bytes that are read meanwhile; `None` where none has come
/// when the time of the last try has passed. The packets come to the requester of the line too, and its requests that
/// are due are sent again: let the query have a tag that none of them has.
///
/// The first try begins at the last reading of the clock: where the line was left alone since, [`listen`] first.
///
/// # Errors
///
/// As from [`ask`].
///
/// [`listen`]: crate::listen
/// [`ask`]: crate::ask
pub fn ask_control<C: Ticks, R: Read, W: Write>(
    line: &mut AskingLine<C>,
    query: &AnyQuery,
    again: u32,
    tries: u8,
    reader: &mut Port<R>,
    writer: &mut Port<W>,
) -> Result<Option<Body>, AskFault>
    requires works { BothWork reader.old writer.old }
    ensures asked { IfOk result (λ answer. AsksQuery query.now again tries (option_map (λ answer. answer.items) answer)
        (shown C.to_come R.remaining W.contents line.old reader.old writer.old)
        (shown C.to_come R.remaining W.contents line.new reader.new writer.new)) }
    ensures stopped { IfErr result (λ fault. fault ≢ AskFault.Write → StopsQuery query.now again tries fault
        (shown C.to_come R.remaining W.contents line.old reader.old writer.old)
        (shown C.to_come R.remaining W.contents line.new reader.new writer.new)) }
    ensures flushed { result ≢ Err AskFault.Write → StaysFlushed writer.old writer.new }
    ensures ports { ReportsFailedPorts AskFault.Read AskFault.Write result reader.new writer.new }
{
    let mut wanted = Wanted::answer_to(query);
    let mut tried = Tries::new(again, tries, line.requester.last_moment());
    match send_query(query, true, writer) {
        Ok(()) => {}
        Err(fault) => return Err(fault),
    }
    for _ in 0..u64::MAX {
        if !wanted.is_open() || tried.is_over(line.requester.last_moment()) {
            return Ok(wanted.answer());
        }
        if line.quiet.is_end() {
            return Err(AskFault::LineEnded);
        }
        match take_query_turn(line, query, &mut wanted, &mut tried, reader, writer) {
            Ok(()) => {}
            Err(fault) => return Err(fault),
        }
    }
    Err(AskFault::TooMany)
}

/// Takes a turn, and sends the frame of the query again where no answer has come in time.
fn take_query_turn<C: Ticks, R: Read, W: Write>(
    line: &mut AskingLine<C>,
    query: &AnyQuery,
    wanted: &mut Wanted<'_>,
    tries: &mut Tries,
    reader: &mut Port<R>,
    writer: &mut Port<W>,
) -> Result<(), AskFault>
    requires works { BothWork reader.old writer.old }
    ensures turned { OnOk result (TakesQueryTurn query.now wanted.old wanted.new tries.old tries.new
        (shown C.to_come R.remaining W.contents line.old reader.old writer.old)
        (shown C.to_come R.remaining W.contents line.new reader.new writer.new)) }
    ensures kept { IfErr result (λ fault. fault ≢ AskFault.Write
        → Keeps (W.contents (inner_of writer.old)) (W.contents (inner_of writer.new))) }
    ensures reason { IfErr result (λ fault. FailsTurn fault
        (shown C.to_come R.remaining W.contents line.old reader.old writer.old)
        (shown C.to_come R.remaining W.contents line.new reader.new writer.new)) }
    ensures flushed { result ≢ Err AskFault.Write → StaysFlushed writer.old writer.new }
    ensures ports { ReportsFailedPorts AskFault.Read AskFault.Write result reader.new writer.new }
{
    match take_turn_seeing(line, wanted, reader, writer) {
        Ok(()) => {}
        Err(fault) => return Err(fault),
    }
    let now = line.requester.last_moment();
    let goes = is_again(wanted, tries, now);
    match send_query(query, goes, writer) {
        Ok(()) => {}
        Err(fault) => return Err(fault),
    }
    tries.take(goes, now);
    Ok(())
}

/// Whether the frame of the query goes out again: no answer has come, and there is to be another try.
fn is_again(wanted: &Wanted<'_>, tries: &Tries, now: Moment) -> bool
    ensures { result ≡ is_again tries.now now wanted.now.answer }
{
    wanted.is_open() && tries.is_next(now)
}

/// Sends the frame of a query, where it goes out, and flushes it.
fn send_query<W: Write>(query: &AnyQuery, goes: bool, writer: &mut Port<W>) -> Result<(), AskFault>
    requires { has_failed writer.old ≡ false }
    ensures bytes { OnOk result (Appends (W.contents (inner_of writer.old)) (W.contents (inner_of writer.new))
        (query_frame query.now goes)) }
    ensures flushed { OnOk result (StaysFlushed writer.old writer.new) }
    ensures fault { IfErr result (λ fault. fault ≡ AskFault.Write) }
    ensures write { ReportsFailed AskFault.Write result writer.new }
{
    if !goes {
        return Ok(());
    }
    if writer.write_all(&framed(&query.packet())).is_err() || writer.flush().is_err() {
        return Err(AskFault::Write);
    }
    Ok(())
}

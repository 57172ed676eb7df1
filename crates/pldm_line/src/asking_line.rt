//! A line that asks: it listens until requests may be opened, opens one, and follows it until it has ended.

ghost use Rattle.std.specs.Prelude.{◌≡◌, ◌≢◌, ℕ, ◌*◌, ◌<◌, ◌≤◌, ◌^◌, Some, Err, option_map, IfOk, IfErr, OnOk, true, false};
ghost use Rattle.std.specs.Io.KnownBytes.{Keeps};
ghost use Rattle.pldm_line.specs.Asked.{AskStops, Asks, ChecksSettings, Goes, Listens, Opens, OpensNow, Stops, StopsBeginning, StopsListening, StopsOpening, asking_of, begun_as, shown};
ghost use Rattle.pldm_line.specs.Ends.{IsWaiting, answer_of, ended_of};
ghost use Rattle.mctpctl_input.specs.Ports.{inner_of, has_failed, BothWork, ReportsFailed, ReportsFailedPorts, StaysFlushed};
ghost use Rattle.pldm_line.specs.Turns.{quiet_from};
ghost use Rattle.mctp_serial.specs.Readings.{idle};
ghost use Rattle.pldm_requester.specs.Resuming.{AreKnown, AreLeft};
ghost use Rattle.pldm_requester.specs.Slots.{held_of};
ghost use Rattle.pldm_requester.specs.Steps.{accepts};
ghost use Rattle.pldm_requester.specs.declared.requester.TheConstants.{MAX_REMEMBERED};

use crate::ask_fault::{AskFault, BeginFault};
use crate::quiet::Quiet;
use crate::ticks::Ticks;
use crate::turn::{send_request, take_turn};
use mctp_packet::{Eid, Moment};
use mctp_serial::FrameReader;
use mctpctl_input::Port;
use pldm_requester::{OpenFault, Openings, Pace, Requester, Status, Timing};
use pldm_wire::Command;
use std::alloc::Global;
use std::io::{Read, Write};

/// A line on which a device is asked. Instance IDs begin at 0 on each, so it is begun by [`begin`], which lets the
/// answers to an earlier one pass.
#[derive(Drop)]
pub struct AskingLine<C> {
    pub(crate) frames: FrameReader,
    pub(crate) requester: Requester,
    pub(crate) quiet: Quiet,
    pub(crate) ticks: C,
}

/// How a request ended.
#[derive(Clone, Copy, Debug, PartialEq, Eq)]
pub enum Ended {
    /// It was answered.
    Answered,
    /// No answer came in its tries.
    GaveUp,
}

/// A request that has ended.
#[derive(Clone, Copy, Debug, PartialEq, Eq)]
pub struct Asked {
    /// Its number, counted from 0 over all requests of the line.
    pub number: u64,
    /// How it ended.
    pub ended: Ended,
}

impl<C> AskingLine<C> {
    /// The message that answered a request, where it is among the last 32 and was answered.
    pub fn answer(&self, number: u64) -> Option<&[u8]>
        ensures { option_map (λ message. message.now) result ≡ answer_of (held_of self.now.requester) number }
    {
        match self.requester.status(number) {
            Some(Status::Answered(message)) => Some(message),
            _ => None,
        }
    }

    /// The last reading of the line's clock, in milliseconds; it never goes back.
    pub fn moment(&self) -> Moment
        ensures { result ≡ (held_of self.now.requester).last }
    {
        self.requester.last_moment()
    }

    /// When the last request with each instance ID was opened, for a line that is to go on ([`resume`]).
    pub fn openings(&self) -> Openings
        ensures left { AreLeft (held_of self.now.requester) result }
        ensures known { (now : ℕ) → (held_of self.now.requester).last ≤ now → AreKnown now result }
    {
        self.requester.openings()
    }

    /// How a request ended, where it has.
    fn ended(&self, number: u64) -> Option<Ended>
        ensures { result ≡ ended_of (held_of self.now.requester) number }
    {
        match self.requester.status(number) {
            Some(Status::Open) => None,
            Some(Status::Answered(_)) => Some(Ended::Answered),
            Some(Status::GaveUp) | None => Some(Ended::GaveUp),
        }
    }
}

/// Begins a line on which the endpoint `own` asks the endpoint `device`: twice the keeping time passes, reading, before
/// a request may be opened. Packets that come meanwhile are dropped, and nothing is written.
///
/// # Errors
///
/// `Setting` where the requester refuses the timing or the pace; nothing is read then. `Line` as from [`listen`].
pub fn begin<C: Ticks + Drop, R: Read, W: Write>(
    alloc: Global,
    own: Eid,
    device: Eid,
    timing: Timing,
    pace: Pace,
    ticks: C,
    reader: &mut Port<R>,
    writer: &mut Port<W>,
) -> Result<AskingLine<C>, BeginFault>
    requires works { BothWork reader.old writer.old }
    ensures begun { IfOk result (λ line. Listens (2 * timing.keep)
        (begun_as C.to_come R.remaining W.contents own device timing pace ticks reader.old writer.old)
        (shown C.to_come R.remaining W.contents line reader.new writer.new)) }
    ensures stopped { IfErr result (StopsBeginning (2 * timing.keep)
        (begun_as C.to_come R.remaining W.contents own device timing pace ticks reader.old writer.old)
        (R.remaining (inner_of reader.new)) (W.contents (inner_of writer.new))) }
    ensures silent { result ≢ Err (BeginFault.Line AskFault.Write)
        → Keeps (W.contents (inner_of writer.old)) (W.contents (inner_of writer.new)) }
    ensures settings { ChecksSettings own device timing pace result }
    ensures flushed { result ≢ Err (BeginFault.Line AskFault.Write) → StaysFlushed writer.old writer.new }
    ensures ports { ReportsFailedPorts (BeginFault.Line AskFault.Read) (BeginFault.Line AskFault.Write) result
        reader.new writer.new }
{
    let span = settling_time(&timing);
    begin_after(
        alloc, own, device, timing, pace, span, ticks, reader, writer,
    )
}

/// As [`begin`], where answers to earlier requests of `own` may come for so many milliseconds yet, up to twice the
/// keeping time after the last of them was opened: that time passes, reading, before a request may be opened. Packets
/// that come meanwhile are dropped, and nothing is written.
///
/// # Errors
///
/// `Setting` where the requester refuses the timing or the pace; nothing is read then. `Line` as from [`listen`].
pub fn begin_after<C: Ticks + Drop, R: Read, W: Write>(
    alloc: Global,
    own: Eid,
    device: Eid,
    timing: Timing,
    pace: Pace,
    span: u64,
    ticks: C,
    reader: &mut Port<R>,
    writer: &mut Port<W>,
) -> Result<AskingLine<C>, BeginFault>
    requires works { BothWork reader.old writer.old }
    requires span { span < 2 ^ 60 }
    ensures begun { IfOk result (λ line. Listens span
        (begun_as C.to_come R.remaining W.contents own device timing pace ticks reader.old writer.old)
        (shown C.to_come R.remaining W.contents line reader.new writer.new)) }
    ensures stopped { IfErr result (StopsBeginning span
        (begun_as C.to_come R.remaining W.contents own device timing pace ticks reader.old writer.old)
        (R.remaining (inner_of reader.new)) (W.contents (inner_of writer.new))) }
    ensures silent { result ≢ Err (BeginFault.Line AskFault.Write)
        → Keeps (W.contents (inner_of writer.old)) (W.contents (inner_of writer.new)) }
    ensures settings { ChecksSettings own device timing pace result }
    ensures flushed { result ≢ Err (BeginFault.Line AskFault.Write) → StaysFlushed writer.old writer.new }
    ensures ports { ReportsFailedPorts (BeginFault.Line AskFault.Read) (BeginFault.Line AskFault.Write) result
        reader.new writer.new }
{
    let requester = match Requester::with_pace(alloc, own, device, timing, pace) {
        Ok(requester) => requester,
        Err(fault) => return Err(BeginFault::Setting(fault)),
    };
    let mut line = AskingLine {
        frames: FrameReader::new(),
        requester,
        quiet: Quiet::new(Moment::new(0).unwrap()),
        ticks,
    };
    match listen(&mut line, span, reader, writer) {
        Ok(()) => Ok(line),
        Err(fault) => Err(BeginFault::Line(fault)),
    }
}

/// A line that goes on where an earlier one stopped, with a requester that knows when that one's requests were opened
/// ([`Requester::resumed`]), by a clock that has the same start. A request may be opened at once.
pub fn resume<C>(requester: Requester, ticks: C) -> AskingLine<C>
    ensures { result ≡ record {
      frames = idle;
      requester = requester;
      quiet = quiet_from (held_of requester).last;
      ticks = ticks;
    } }
{
    let moment = requester.last_moment();
    AskingLine {
        frames: FrameReader::new(),
        requester,
        quiet: Quiet::new(moment),
        ticks,
    }
}

/// How long the answers to an earlier requester may come: twice the keeping time.
fn settling_time(timing: &Timing) -> u64
    ensures value { result ≡ 2 * timing.now.keep }
    ensures range { result < 2 ^ 60 }
{
    2 * u64::from(timing.keep.get())
}

/// Listens until so many milliseconds have passed since its first read: packets come to the requester, and requests
/// that are due are sent again.
///
/// # Errors
///
/// As from [`ask`].
pub fn listen<C: Ticks, R: Read, W: Write>(
    line: &mut AskingLine<C>,
    span: u64,
    reader: &mut Port<R>,
    writer: &mut Port<W>,
) -> Result<(), AskFault>
    requires works { BothWork reader.old writer.old }
    requires span { span < 2 ^ 60 }
    ensures listened { OnOk result (Listens span (shown C.to_come R.remaining W.contents line.old reader.old writer.old)
        (shown C.to_come R.remaining W.contents line.new reader.new writer.new)) }
    ensures stopped { IfErr result (λ fault. fault ≢ AskFault.Write → StopsListening span fault
        (shown C.to_come R.remaining W.contents line.old reader.old writer.old)
        (shown C.to_come R.remaining W.contents line.new reader.new writer.new)) }
    ensures flushed { result ≢ Err AskFault.Write → StaysFlushed writer.old writer.new }
    ensures ports { ReportsFailedPorts AskFault.Read AskFault.Write result reader.new writer.new }
{
    match take_turn(line, reader, writer) {
        Ok(()) => {}
        Err(fault) => return Err(fault),
    }
    let end = line.requester.last_moment().get() + span;
    for _ in 0..u64::MAX {
        if line.requester.last_moment().get() >= end {
            return Ok(());
        }
        if line.quiet.is_end() {
            return Err(AskFault::LineEnded);
        }
        match take_turn(line, reader, writer) {
            Ok(()) => {}
            Err(fault) => return Err(fault),
        }
    }
    Err(AskFault::TooMany)
}

/// Asks the device: a request for the command is opened as soon as the requester may, sent, and followed until it has
/// ended. [`AskingLine::answer`] has the answer.
///
/// A request is opened at the last reading of the clock: where the line was left alone since, [`listen`] first.
///
/// # Errors
///
/// `LineEnded` where [`END_READS`] reads of 0 bytes in a row took less than [`END_MS`]. `Read` and `Write` where the
/// port has failed; what a failed writer took is not known. At all others, the frames of the turns before went out.
/// `Clock` where the clock gave no reading, `Memory` where a packet or the opening of the request wanted some,
/// `TooMany` after `u64::MAX` reads. At all but `Write` what was written has been flushed.
///
/// [`END_READS`]: crate::END_READS
/// [`END_MS`]: crate::END_MS
pub fn ask<C: Ticks, R: Read, W: Write>(
    line: &mut AskingLine<C>,
    command: &Command,
    reader: &mut Port<R>,
    writer: &mut Port<W>,
) -> Result<Asked, AskFault>
    requires works { BothWork reader.old writer.old }
    ensures asked { IfOk result (λ asked. Asks command.now asked.number asked.ended
        (shown C.to_come R.remaining W.contents line.old reader.old writer.old)
        (shown C.to_come R.remaining W.contents line.new reader.new writer.new)) }
    ensures stopped { IfErr result (λ fault. fault ≢ AskFault.Write → AskStops command.now fault
        (shown C.to_come R.remaining W.contents line.old reader.old writer.old)
        (shown C.to_come R.remaining W.contents line.new reader.new writer.new)) }
    ensures flushed { result ≢ Err AskFault.Write → StaysFlushed writer.old writer.new }
    ensures ports { ReportsFailedPorts AskFault.Read AskFault.Write result reader.new writer.new }
{
    let number = match open(line, command, reader, writer) {
        Ok(number) => number,
        Err(fault) => return Err(fault),
    };
    match follow(line, number, reader, writer) {
        Ok(ended) => Ok(Asked { number, ended }),
        Err(fault) => Err(fault),
    }
}

/// Opens a request as soon as the requester may, and sends it.
fn open<C: Ticks, R: Read, W: Write>(
    line: &mut AskingLine<C>,
    command: &Command,
    reader: &mut Port<R>,
    writer: &mut Port<W>,
) -> Result<u64, AskFault>
    requires works { BothWork reader.old writer.old }
    ensures opened { IfOk result (λ number. Opens command.now number
        (shown C.to_come R.remaining W.contents line.old reader.old writer.old)
        (shown C.to_come R.remaining W.contents line.new reader.new writer.new)) }
    ensures works { OnOk result (has_failed reader.new ≡ false) }
    ensures stopped { IfErr result (λ fault. fault ≢ AskFault.Write → StopsOpening fault
        (shown C.to_come R.remaining W.contents line.old reader.old writer.old)
        (shown C.to_come R.remaining W.contents line.new reader.new writer.new)) }
    ensures flushed { result ≢ Err AskFault.Write → StaysFlushed writer.old writer.new }
    ensures ports { ReportsFailedPorts AskFault.Read AskFault.Write result reader.new writer.new }
{
    for _ in 0..u64::MAX {
        if line.quiet.is_end() {
            return Err(AskFault::LineEnded);
        }
        let opened = match open_now(line, command, writer) {
            Ok(opened) => opened,
            Err(fault) => return Err(fault),
        };
        match opened {
            Some(number) => return Ok(number),
            None => {}
        }
        match take_turn(line, reader, writer) {
            Ok(()) => {}
            Err(fault) => return Err(fault),
        }
    }
    Err(AskFault::TooMany)
}

/// Opens a request at the last moment, where the requester may, and sends it.
fn open_now<C, W: Write>(
    line: &mut AskingLine<C>,
    command: &Command,
    writer: &mut Port<W>,
) -> Result<Option<u64>, AskFault>
    requires { has_failed writer.old ≡ false }
    ensures opened { IfOk result (λ opened. OpensNow command.now opened (asking_of line.old) (asking_of line.new)
        (W.contents (inner_of writer.old)) (W.contents (inner_of writer.new))) }
    ensures ticks { line.new.ticks ≡ line.old.ticks }
    ensures kept { IfErr result (λ fault. fault ≢ AskFault.Write → (fault ≡ AskFault.Memory)
        × Keeps (W.contents (inner_of writer.old)) (W.contents (inner_of writer.new))) }
    ensures room { IfErr result (λ fault. fault ≢ AskFault.Write
        → (accepts (held_of line.old.requester) (held_of line.old.requester).last ≡ true)
        × (held_of line.old.requester).count < MAX_REMEMBERED) }
    ensures flushed { result ≢ Err AskFault.Write → StaysFlushed writer.old writer.new }
    ensures write { ReportsFailed AskFault.Write result writer.new }
{
    let opened = match line.requester.open(line.requester.last_moment(), command) {
        Ok(opened) => opened,
        Err(fault) => {
            return match fault {
                OpenFault::Memory(_) => Err(AskFault::Memory),
                OpenFault::TagInUse => Ok(None),
                OpenFault::IdInUse => Ok(None),
            };
        }
    };
    match send_request(&line.requester, opened.number, writer) {
        Ok(()) => Ok(Some(opened.number)),
        Err(fault) => Err(fault),
    }
}

/// Follows a request until it has ended.
fn follow<C: Ticks, R: Read, W: Write>(
    line: &mut AskingLine<C>,
    number: u64,
    reader: &mut Port<R>,
    writer: &mut Port<W>,
) -> Result<Ended, AskFault>
    requires works { BothWork reader.old writer.old }
    ensures waited { OnOk result (Goes (IsWaiting number)
        (shown C.to_come R.remaining W.contents line.old reader.old writer.old)
        (shown C.to_come R.remaining W.contents line.new reader.new writer.new)) }
    ensures ended { IfOk result (λ ended. ended_of (held_of line.new.requester) number ≡ Some ended) }
    ensures stopped { IfErr result (λ fault. fault ≢ AskFault.Write → Stops (IsWaiting number) fault
        (shown C.to_come R.remaining W.contents line.old reader.old writer.old)
        (shown C.to_come R.remaining W.contents line.new reader.new writer.new)) }
    ensures flushed { result ≢ Err AskFault.Write → StaysFlushed writer.old writer.new }
    ensures ports { ReportsFailedPorts AskFault.Read AskFault.Write result reader.new writer.new }
{
    for _ in 0..u64::MAX {
        match line.ended(number) {
            Some(ended) => return Ok(ended),
            None => {}
        }
        if line.quiet.is_end() {
            return Err(AskFault::LineEnded);
        }
        match take_turn(line, reader, writer) {
            Ok(()) => {}
            Err(fault) => return Err(fault),
        }
    }
    Err(AskFault::TooMany)
}

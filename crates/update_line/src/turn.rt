//! A turn of a line: bytes are read, the packets in them come to the end, and what it sends is written.

ghost use Rattle.std.specs.Prelude.{◌≡◌, ◌≢◌, Err, false};
ghost use Rattle.mctp_serial.specs.Readings.{idle};
ghost use Rattle.pldm_line.specs.Turns.{quiet_from};
ghost use Rattle.mctpctl_input.specs.Ports.{has_failed, BothWork, ReportsFailed, ReportsFailedPorts, StaysFlushed};

use crate::update_end::{Reply, Sending, UpdateEnd};
use mctp_packet::{Body, Moment, Packets, Route, split};
use mctp_serial::{FrameEvent, FrameReader, frame};
use pldm_line::{Event, Port, Quiet, Ticks, Watch, moment_after};
use std::io::{Read, Write};
use thiserror::Error;

/// How many bytes are asked for at once.
const PIECE: usize = 4_096;

/// A line on which an end of an update is.
#[derive(Drop)]
pub struct UpdateLine<C, L> {
    /// Finds the packets.
    pub frames: FrameReader,
    /// Gives their moments.
    pub ticks: C,
    /// Sees what happens.
    pub watch: L,
    /// The reads that gave nothing.
    pub quiet: Quiet,
    /// The last moment.
    pub last: Moment,
}

/// Why a turn was not whole.
#[derive(Clone, Copy, Debug, PartialEq, Eq, Error)]
pub enum UpdateLineFault {
    /// The line was not read.
    #[error("read fault")]
    Read,
    /// The line was not written.
    #[error("write fault")]
    Write,
    /// The clock gave no reading.
    #[error("clock fault")]
    Clock,
    /// No memory was left.
    #[error("out of memory")]
    Memory,
    /// The line has ended: many reads gave nothing at once.
    #[error("the line ended")]
    LineEnded,
}

impl<C: Ticks, L: Watch> UpdateLine<C, L> {
    /// A line whose moments are the readings of this clock, and which is watched so.
    pub fn new(ticks: C, watch: L) -> UpdateLine<C, L>
        ensures { result ≡ record { frames = idle; ticks = ticks; watch = watch; quiet = quiet_from 0; last = 0 } }
    {
        let start = Moment::new(0).unwrap();
        UpdateLine {
            frames: FrameReader::new(),
            ticks,
            watch,
            quiet: Quiet::new(start),
            last: start,
        }
    }
}

/// Takes a turn: reads once, hands the packets that have come to the end, lets the time pass there, and writes and
/// flushes what the end sends.
///
/// # Errors
///
/// `Read` and `Write` where the port has failed, `Clock` where the clock gave no reading, `Memory` where a growth was
/// refused, and `LineEnded` where [`pldm_line::END_READS`] reads in a row gave nothing in less than
/// [`pldm_line::END_MS`] milliseconds.
pub fn take_turn<E: UpdateEnd, C: Ticks, L: Watch, R: Read, W: Write>(
    end: &mut E,
    line: &mut UpdateLine<C, L>,
    reader: &mut Port<R>,
    writer: &mut Port<W>,
) -> Result<(), UpdateLineFault>
    requires works { BothWork reader.old writer.old }
    ensures ports { ReportsFailedPorts UpdateLineFault.Read UpdateLineFault.Write result reader.new writer.new }
{
    if line.quiet.is_end() {
        return Err(UpdateLineFault::LineEnded);
    }
    let mut room = [0; PIECE];
    let Ok(count) = reader.read(&mut room) else {
        return Err(UpdateLineFault::Read);
    };
    let Ok(reading) = line.ticks.tick() else {
        return Err(UpdateLineFault::Clock);
    };
    line.last = moment_after(line.last, reading);
    line.quiet.take(count == 0, line.last);
    hear(end, line, &room[..count], writer)?;
    let Ok(sending) = end.pass(line.last.get()) else {
        return Err(UpdateLineFault::Memory);
    };
    send_requests(end, &sending, line, writer)
}

/// Hands the packets whose frames end in a piece of input to the end, and sends what it answers.
fn hear<E: UpdateEnd, C, L: Watch, W: Write>(
    end: &mut E,
    line: &mut UpdateLine<C, L>,
    piece: &[u8],
    writer: &mut Port<W>,
) -> Result<(), UpdateLineFault>
    requires { has_failed writer.old ≡ false }
    ensures write { ReportsFailed UpdateLineFault.Write result writer.new }
    ensures other { result ≢ Err UpdateLineFault.Read }
{
    let mut rest = piece;
    while let Some((byte, others)) = rest.split_first() {
        match line.frames.take(*byte) {
            FrameEvent::Nothing => {}
            FrameEvent::Packet(packet) => hear_packet(end, line, &packet, writer)?,
            FrameEvent::Dropped(fault) => line.watch.saw(&Event::NoFrame(fault)),
        }
        rest = others;
    }
    Ok(())
}

/// Hands a packet to the end, and sends what it answers.
fn hear_packet<E: UpdateEnd, C, L: Watch, W: Write>(
    end: &mut E,
    line: &mut UpdateLine<C, L>,
    packet: &[u8],
    writer: &mut Port<W>,
) -> Result<(), UpdateLineFault>
    requires { has_failed writer.old ≡ false }
    ensures write { ReportsFailed UpdateLineFault.Write result writer.new }
    ensures other { result ≢ Err UpdateLineFault.Read }
{
    let mut reply = Body::new();
    line.watch.saw(&Event::Came(line.last, packet));
    let Ok(sent) = end.receive(line.last.get(), packet, &mut reply) else {
        return Err(UpdateLineFault::Memory);
    };
    match sent {
        Reply::Nothing => Ok(()),
        Reply::Dropped(reason) => {
            line.watch.saw(&Event::Dropped(reason));
            Ok(())
        }
        Reply::Message(route) => send_message(&route, &reply, line, writer),
        Reply::Control(packet) => {
            line.watch.saw(&Event::SentControl(line.last, &packet));
            send_packet(&packet, writer)?;
            flush(writer)
        }
    }
}

/// Sends the packets of a message on a route, and flushes them.
fn send_message<C, L: Watch, W: Write>(
    route: &Route,
    message: &[u8],
    line: &mut UpdateLine<C, L>,
    writer: &mut Port<W>,
) -> Result<(), UpdateLineFault>
    requires { has_failed writer.old ≡ false }
    ensures write { ReportsFailed UpdateLineFault.Write result writer.new }
    ensures other { result ≢ Err UpdateLineFault.Read }
{
    let Ok(packets) = split(route, message) else {
        return Ok(());
    };
    send_packets(&packets, writer)?;
    line.watch.saw(&Event::Sent(line.last, *route, message));
    flush(writer)
}

/// Sends the packets of requests, and flushes them.
fn send_requests<E: UpdateEnd, C, L: Watch, W: Write>(
    end: &E,
    sending: &Sending,
    line: &mut UpdateLine<C, L>,
    writer: &mut Port<W>,
) -> Result<(), UpdateLineFault>
    requires { has_failed writer.old ≡ false }
    ensures write { ReportsFailed UpdateLineFault.Write result writer.new }
    ensures other { result ≢ Err UpdateLineFault.Read }
{
    for number in &sending.again {
        send_request(end, *number, line, writer)?;
    }
    if let Some(number) = sending.opened {
        send_request(end, number, line, writer)?;
    }
    Ok(())
}

/// Sends the packets of a request, and flushes them.
fn send_request<E: UpdateEnd, C, L: Watch, W: Write>(
    end: &E,
    number: u64,
    line: &mut UpdateLine<C, L>,
    writer: &mut Port<W>,
) -> Result<(), UpdateLineFault>
    requires { has_failed writer.old ≡ false }
    ensures write { ReportsFailed UpdateLineFault.Write result writer.new }
    ensures other { result ≢ Err UpdateLineFault.Read }
{
    let Some(packets) = end.packets(number) else {
        return Ok(());
    };
    for i in 0..packets.len() {
        if let Some(packet) = packets.get(i) {
            line.watch.saw(&Event::SentControl(line.last, packet));
            send_packet(packet, writer)?;
        }
    }
    flush(writer)
}

/// Writes the frames of packets.
fn send_packets<W: Write>(packets: &Packets, writer: &mut Port<W>) -> Result<(), UpdateLineFault>
    requires { has_failed writer.old ≡ false }
    ensures write { ReportsFailed UpdateLineFault.Write result writer.new }
    ensures other { result ≢ Err UpdateLineFault.Read }
{
    for i in 0..packets.len() {
        if let Some(packet) = packets.get(i) {
            send_packet(packet, writer)?;
        }
    }
    Ok(())
}

/// Writes the frame of a packet.
fn send_packet<W: Write>(packet: &[u8], writer: &mut Port<W>) -> Result<(), UpdateLineFault>
    requires { has_failed writer.old ≡ false }
    ensures write { ReportsFailed UpdateLineFault.Write result writer.new }
    ensures other { result ≢ Err UpdateLineFault.Read }
{
    let Some(bytes) = frame(packet) else {
        return Ok(());
    };
    match writer.write_all(&bytes) {
        Ok(()) => Ok(()),
        Err(_) => Err(UpdateLineFault::Write),
    }
}

/// Flushes what was written.
fn flush<W: Write>(writer: &mut Port<W>) -> Result<(), UpdateLineFault>
    requires { has_failed writer.old ≡ false }
    ensures write { ReportsFailed UpdateLineFault.Write result writer.new }
    ensures other { result ≢ Err UpdateLineFault.Read }
{
    match writer.flush() {
        Ok(()) => Ok(()),
        Err(_) => Err(UpdateLineFault::Write),
    }
}

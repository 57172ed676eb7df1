//! A turn of the loop: bytes are read, then the clock; packets come to the requester, and what is due is sent.

ghost use Rattle.std.specs.Prelude.{◌≡◌, ◌≢◌, ◌≤◌, ℕ, List, ◌∷◌, IfErr, OnErr, OnOk, Err, false};
ghost use Rattle.std.specs.Io.KnownBytes.{Appends, Keeps};
ghost use Rattle.std.specs.List.{flat_map};
ghost use Rattle.mctp_serial.specs.Readings.{after};
ghost use Rattle.pldm_line.specs.Asked.{FailsTurn, TakesTurn, shown};
ghost use Rattle.pldm_line.specs.QueryTurns.{SeesByte, TakesTurnSeeing, all_seen};
ghost use Rattle.pldm_line.specs.Turns.{HearsByte, WantsMemory, framed, frames_of, memo_frames, received};
ghost use Rattle.mctpctl_input.specs.Ports.{inner_of, has_failed, BothWork, ReportsFailed, ReportsFailedPorts, StaysFlushed};
ghost use Rattle.pldm_line.specs.Serving.{packets_in};
ghost use Rattle.pldm_requester.specs.Slots.{held_of};
ghost use Rattle.pldm_requester.specs.Steps.{again_at, ticked_held, at_hand};

use crate::ask_fault::AskFault;
use crate::asking_line::AskingLine;
use crate::ticks::{Ticks, moment_after};
use crate::wanted::Wanted;
use mctp_packet::{Memory, Moment, Packets};
use mctp_serial::{FrameBytes, FrameEvent, FrameReader, frame};
use mctpctl_input::Port;
use pldm_requester::Requester;
use std::io::{Read, Write};

/// How many bytes are asked for at once.
const PIECE: usize = 4_096;

/// Takes a turn: reads once, hands the packets to the requester at the reading of the clock, and sends the requests
/// that are due.
pub(crate) fn take_turn<C: Ticks, R: Read, W: Write>(
    line: &mut AskingLine<C>,
    reader: &mut Port<R>,
    writer: &mut Port<W>,
) -> Result<(), AskFault>
    requires works { BothWork reader.old writer.old }
    ensures turned { OnOk result (TakesTurn
        (shown C.to_come R.remaining W.contents line.old reader.old writer.old)
        (shown C.to_come R.remaining W.contents line.new reader.new writer.new)) }
    ensures kept { IfErr result (λ fault. fault ≢ AskFault.Write
        → Keeps (W.contents (inner_of writer.old)) (W.contents (inner_of writer.new))) }
    ensures reason { IfErr result (λ fault. FailsTurn fault
        (shown C.to_come R.remaining W.contents line.old reader.old writer.old)
        (shown C.to_come R.remaining W.contents line.new reader.new writer.new)) }
    ensures flushed { result ≢ Err AskFault.Write → StaysFlushed writer.old writer.new }
    ensures ports { ReportsFailedPorts AskFault.Read AskFault.Write result reader.new writer.new }
{
    take_turn_seeing(line, &mut Wanted::nothing(), reader, writer)
}

/// Takes a turn, as [`take_turn`] does. The packets are seen by what wants an answer, too.
pub(crate) fn take_turn_seeing<C: Ticks, R: Read, W: Write>(
    line: &mut AskingLine<C>,
    wanted: &mut Wanted<'_>,
    reader: &mut Port<R>,
    writer: &mut Port<W>,
) -> Result<(), AskFault>
    requires works { BothWork reader.old writer.old }
    ensures turned { OnOk result (TakesTurnSeeing wanted.old wanted.new
        (shown C.to_come R.remaining W.contents line.old reader.old writer.old)
        (shown C.to_come R.remaining W.contents line.new reader.new writer.new)) }
    ensures kept { IfErr result (λ fault. fault ≢ AskFault.Write
        → Keeps (W.contents (inner_of writer.old)) (W.contents (inner_of writer.new))) }
    ensures reason { IfErr result (λ fault. FailsTurn fault
        (shown C.to_come R.remaining W.contents line.old reader.old writer.old)
        (shown C.to_come R.remaining W.contents line.new reader.new writer.new)) }
    ensures flushed { result ≢ Err AskFault.Write → StaysFlushed writer.old writer.new }
    ensures ports { ReportsFailedPorts AskFault.Read AskFault.Write result reader.new writer.new }
{
    let mut room = [0; PIECE];
    let Ok(count) = reader.read(&mut room) else {
        return Err(AskFault::Read);
    };
    let Ok(reading) = line.ticks.tick() else {
        return Err(AskFault::Clock);
    };
    let now = moment_after(line.requester.last_moment(), reading);
    let Ok(()) = hear(
        &mut line.frames,
        &mut line.requester,
        wanted,
        now,
        &room[..count],
    ) else {
        return Err(AskFault::Memory);
    };
    send_due(&mut line.requester, now, writer)?;
    line.quiet.take(count == 0, now);
    Ok(())
}

/// Hands the packets whose frames end in a piece of input to the requester, and to what wants an answer.
fn hear(
    frames: &mut FrameReader,
    requester: &mut Requester,
    wanted: &mut Wanted<'_>,
    now: Moment,
    piece: &[u8],
) -> Result<(), Memory>
    requires { (held_of requester.old).last ≤ now }
    ensures frames { OnOk result (frames.new ≡ after frames.old piece.now) }
    ensures held { OnOk result (held_of requester.new
        ≡ received (held_of requester.old) now (packets_in frames.old piece.now)) }
    ensures seen { OnOk result (wanted.new ≡ all_seen wanted.old (packets_in frames.old piece.now)) }
    ensures last { OnOk result ((held_of requester.new).last ≤ now) }
    ensures memory { OnErr result (WantsMemory (held_of requester.old) now (packets_in frames.old piece.now)) }
{
    let mut rest = piece;
    while let Some((byte, others)) = rest.split_first() {
        hear_byte(frames, requester, wanted, now, *byte)?;
        rest = others;
    }
    Ok(())
}

/// Takes a byte. Where it ends the frame of a packet, the requester gets that, and what wants an answer sees it.
#[tactic(auto, using(crate::proofs::SameRequester::same_held))]
fn hear_byte(
    frames: &mut FrameReader,
    requester: &mut Requester,
    wanted: &mut Wanted<'_>,
    now: Moment,
    byte: u8,
) -> Result<(), Memory>
    requires { (held_of requester.old).last ≤ now }
    ensures heard { OnOk result (HearsByte (held_of requester.old) frames.old now byte (held_of requester.new)
        frames.new) }
    ensures seen { OnOk result (SeesByte wanted.old frames.old byte wanted.new) }
    ensures last { OnOk result ((held_of requester.new).last ≤ now) }
    ensures memory { OnErr result ((bytes : List ℕ)
        → WantsMemory (held_of requester.old) now (packets_in frames.old (byte ∷ bytes))) }
{
    match frames.take(byte) {
        FrameEvent::Packet(packet) => {
            wanted.see(&packet);
            match requester.receive(now, &packet) {
                Ok(_) => Ok(()),
                Err(memory) => Err(memory),
            }
        }
        FrameEvent::Nothing | FrameEvent::Dropped(_) => Ok(()),
    }
}

/// Sends the requests again that are due.
#[tactic(auto, using(crate::proofs::SameRequester::same_held, crate::proofs::Sending::frames_same))]
fn send_due<W: Write>(
    requester: &mut Requester,
    now: Moment,
    writer: &mut Port<W>,
) -> Result<(), AskFault>
    requires last { (held_of requester.old).last ≤ now }
    requires works { has_failed writer.old ≡ false }
    ensures held { OnOk result (held_of requester.new ≡ ticked_held (held_of requester.old) now) }
    ensures bytes { OnOk result (Appends (W.contents (inner_of writer.old)) (W.contents (inner_of writer.new))
        (frames_of (held_of requester.old) (again_at (held_of requester.old) now))) }
    ensures flushed { OnOk result (StaysFlushed writer.old writer.new) }
    ensures fault { IfErr result (λ fault. fault ≡ AskFault.Write) }
    ensures write { ReportsFailed AskFault.Write result writer.new }
{
    let due = requester.tick(now);
    send_requests(requester, &due.again, writer)
}

/// Sends the packets of these requests.
fn send_requests<W: Write>(
    requester: &Requester,
    numbers: &[u64],
    writer: &mut Port<W>,
) -> Result<(), AskFault>
    requires { has_failed writer.old ≡ false }
    ensures bytes { OnOk result (Appends (W.contents (inner_of writer.old)) (W.contents (inner_of writer.new))
        (frames_of (held_of requester.now) numbers.now)) }
    ensures flushed { OnOk result (StaysFlushed writer.old writer.new) }
    ensures fault { IfErr result (λ fault. fault ≡ AskFault.Write) }
    ensures write { ReportsFailed AskFault.Write result writer.new }
{
    for number in numbers {
        match send_request(requester, *number, writer) {
            Ok(()) => {}
            Err(fault) => return Err(fault),
        }
    }
    Ok(())
}

/// Sends the packets of a request, and flushes them.
pub(crate) fn send_request<W: Write>(
    requester: &Requester,
    number: u64,
    writer: &mut Port<W>,
) -> Result<(), AskFault>
    requires { has_failed writer.old ≡ false }
    ensures bytes { OnOk result (Appends (W.contents (inner_of writer.old)) (W.contents (inner_of writer.new))
        (memo_frames (at_hand (held_of requester.now) number))) }
    ensures flushed { OnOk result (StaysFlushed writer.old writer.new) }
    ensures fault { IfErr result (λ fault. fault ≡ AskFault.Write) }
    ensures write { ReportsFailed AskFault.Write result writer.new }
{
    let Some(packets) = requester.packets(number) else {
        return Ok(());
    };
    send_packets(packets, writer)?;
    if writer.flush().is_err() {
        return Err(AskFault::Write);
    }
    Ok(())
}

/// Writes the frames of packets.
fn send_packets<W: Write>(packets: &Packets, writer: &mut Port<W>) -> Result<(), AskFault>
    requires { has_failed writer.old ≡ false }
    ensures bytes { OnOk result (Appends (W.contents (inner_of writer.old)) (W.contents (inner_of writer.new))
        (flat_map framed packets.now)) }
    ensures fault { IfErr result (λ fault. fault ≡ AskFault.Write) }
    ensures write { ReportsFailed AskFault.Write result writer.new }
{
    for i in 0..packets.len() {
        let Some(packet) = packets.get(i) else {
            unreachable!();
        };
        if writer.write_all(&framed(packet)).is_err() {
            return Err(AskFault::Write);
        }
    }
    Ok(())
}

/// The frame of a packet, where it has one.
pub(crate) fn framed(packet: &[u8]) -> FrameBytes
    ensures { result.items ≡ framed packet.now }
{
    match frame(packet) {
        Some(bytes) => bytes,
        None => FrameBytes::new(),
    }
}

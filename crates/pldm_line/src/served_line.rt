//! The loop: bytes are read, each packet is answered at its moment, and the answer is written and flushed
//! before more is read.

ghost use Rattle.std.specs.Prelude.{◌≡◌, ◌≢◌, ℕ, List, [], ◌∷◌, Some, Err, IfErr, OnOk, IfSome, IsErrOf, max, min, ◌≤◌, ◌<◌, ◌==◌, false, true};
ghost use Rattle.std.specs.Io.KnownBytes.{Appends, Consumes};
ghost use Rattle.std.specs.List.{FoldsTo, flat_map};
ghost use Rattle.mctp_control.specs.Dropped.{control_left, control_reply};
ghost use Rattle.mctp_packet.specs.Pieces.{written_packets};
ghost use Rattle.mctp_serial.specs.Frames.{frame};
ghost use Rattle.mctpctl_input.specs.Ports.{inner_of, has_failed, is_flushed, BothWork, ReportsFailed, ReportsFailedPorts, StaysFlushed};
ghost use Rattle.pldm_line.specs.Heard.{Hears, HearsFront, HearsPacket, HearsTaken, Stops, shown};
ghost use Rattle.pldm_line.specs.Serving.{frames_if, with_eid};
ghost use Rattle.pldm_line.specs.Seen.{drop_seen};
ghost use Rattle.pldm_responder.specs.Ends.{eid_or_null};
ghost use Rattle.pldm_responder.specs.ResponderStates.{IsHeld};
ghost use Rattle.pldm_responder.specs.Performing.{rules_of};
ghost use Rattle.pldm_responder.specs.ResponderViews.{held_of};

use crate::answers::frames_of;
use crate::events::{Event, Watch};
use crate::serve_fault::ServeFault;
use crate::ticks::{Ticks, moment_after};
use mctp_control::ControlResponder;
use mctp_packet::{Body, Eid, Moment, Reason};
use mctp_serial::{FrameEvent, FrameReader, frame};
use mctpctl_input::Port;
use pldm_platform::Platform;
use pldm_responder::{MessageOutcome, Responder};
use std::io::{Read, Write};

/// How many bytes are asked for at once: a line gives a few at a time, and these hold many frames, in a room that needs
/// no memory.
const PIECE: usize = 4_096;

/// A line: what finds packets in its bytes, what answers them, the clock, and who watches.
#[derive(Drop)]
pub struct ServedLine<P: Platform, C, L> {
    /// Finds the packets.
    pub frames: FrameReader,
    /// Answers them.
    pub responder: Responder<P>,
    /// Answers those of control messages, which the responder drops. Both begin with one endpoint ID, or with none.
    pub control: ControlResponder,
    /// Gives their moments.
    pub ticks: C,
    /// Sees what happens.
    pub watch: L,
}

/// Writes an answer whole, and flushes it.
fn send<W: Write>(frames: &[u8], writer: &mut Port<W>) -> Result<(), ServeFault>
    requires { has_failed writer.old ≡ false }
    ensures bytes { OnOk result
        (Appends (W.contents (inner_of writer.old)) (W.contents (inner_of writer.new)) frames.now) }
    ensures flushed { OnOk result (is_flushed writer.new ≡ true) }
    ensures fault { IfErr result (λ fault. fault ≡ ServeFault.Write) }
    ensures write { ReportsFailed ServeFault.Write result writer.new }
{
    if writer.write_all(frames).is_err() || writer.flush().is_err() {
        return Err(ServeFault::Write);
    }
    Ok(())
}

/// Answers a packet at its moment.
#[tactic(auto, using(crate::proofs::SameResponder::same_held))]
fn hear_packet<P: Platform, C: Ticks, L: Watch, W: Write>(
    line: &mut ServedLine<P, C, L>,
    packet: &[u8],
    reply: &mut Body,
    writer: &mut Port<W>,
) -> Result<(), ServeFault>
    requires { has_failed writer.old ≡ false }
    ensures heard { OnOk result (HearsPacket P.performed (rules_of P.answer P.after P.sensed) L.sees
        (shown C.to_come W.contents line.old writer.old) packet.now (shown C.to_come W.contents line.new writer.new)) }
    ensures frames { line.new.frames ≡ line.old.frames }
    ensures stopped { IfErr result (λ fault. fault ≢ ServeFault.Write → Stops P.performed L.sees fault
        (shown C.to_come W.contents line.old writer.old) (shown C.to_come W.contents line.new writer.new)) }
    ensures flushed { result ≢ Err ServeFault.Write → StaysFlushed writer.old writer.new }
    ensures read { result ≢ Err ServeFault.Read }
    ensures write { ReportsFailed ServeFault.Write result writer.new }
{
    let Ok(reading) = line.ticks.tick() else {
        return Err(ServeFault::Clock);
    };
    let now = moment_after(line.responder.last_moment(), reading);
    line.watch.saw(&Event::Came(now, packet));
    let Ok(taken) = line.responder.receive_message(now, packet, reply) else {
        return Err(ServeFault::Memory);
    };
    match taken {
        MessageOutcome::Dropped(reason) => {
            answer_drop(
                &mut line.control,
                &mut line.watch,
                now,
                reason,
                packet,
                writer,
            )?;
            keep_in_step(&mut line.responder, &line.control, now);
        }
        MessageOutcome::Partial => {}
        MessageOutcome::Answered { route, .. } => {
            send(&frames_of(&route, reply), writer)?;
            line.watch.saw(&Event::Sent(now, route, reply));
        }
    }
    Ok(())
}

/// Sends the answer to a packet that the responder dropped; where there is none, the drop is reported.
fn answer_drop<L: Watch, W: Write>(
    control: &mut ControlResponder,
    watch: &mut L,
    now: Moment,
    reason: Reason,
    packet: &[u8],
    writer: &mut Port<W>,
) -> Result<(), ServeFault>
    requires { has_failed writer.old ≡ false }
    ensures bytes { OnOk result (Appends (W.contents (inner_of writer.old)) (W.contents (inner_of writer.new))
        (frames_if (control_reply control.old now reason packet.now))) }
    ensures control { control.new ≡ control_left control.old now reason packet.now }
    ensures seen { OnOk result
        (FoldsTo L.sees watch.old (drop_seen now reason (control_reply control.old now reason packet.now)) watch.new) }
    ensures flushed { OnOk result (StaysFlushed writer.old writer.new) }
    ensures fault { IfErr result (λ fault. fault ≡ ServeFault.Write) }
    ensures write { ReportsFailed ServeFault.Write result writer.new }
{
    let Some(reply) = control.receive_dropped(now, reason, packet) else {
        watch.saw(&Event::Dropped(reason));
        return Ok(());
    };
    let Some(frame) = frame(&reply) else {
        unreachable!();
    };
    send(&frame, writer)?;
    watch.saw(&Event::SentControl(now, &reply));
    Ok(())
}

/// Gives the responder the endpoint ID that the control responder has, where that is another than its own.
fn keep_in_step<P: Platform>(responder: &mut Responder<P>, control: &ControlResponder, now: Moment)
    requires { (held_of responder.old).last ≤ now }
    ensures held { IsHeld (held_of responder.new) (with_eid (held_of responder.old) now control.now.eid) }
    ensures bounds { responder.new.end.bounds ≡ responder.old.end.bounds }
    ensures platform { responder.new.platform ≡ responder.old.platform }
{
    if let Some(eid) = control.eid
        && !has_eid(responder.own(), eid)
    {
        responder.assign(now, eid);
    }
}

/// Whether the responder has this endpoint ID.
fn has_eid(own: Option<Eid>, eid: Eid) -> bool
    ensures { result ≡ (eid_or_null own == eid) }
{
    let _range = eid.get(); // for the proof: not the null one
    own == Some(eid)
}

/// Takes a byte. Where it ends the frame of a packet, that is answered.
fn hear_byte<P: Platform, C: Ticks, L: Watch, W: Write>(
    line: &mut ServedLine<P, C, L>,
    byte: u8,
    reply: &mut Body,
    writer: &mut Port<W>,
) -> Result<(), ServeFault>
    requires { has_failed writer.old ≡ false }
    ensures heard { OnOk result (Hears P.performed (rules_of P.answer P.after P.sensed) L.sees
        (shown C.to_come W.contents line.old writer.old) (byte ∷ []) (shown C.to_come W.contents line.new writer.new)) }
    ensures stopped { IfErr result (λ fault. fault ≢ ServeFault.Write → Stops P.performed L.sees fault
        (shown C.to_come W.contents line.old writer.old) (shown C.to_come W.contents line.new writer.new)) }
    ensures flushed { result ≢ Err ServeFault.Write → StaysFlushed writer.old writer.new }
    ensures read { result ≢ Err ServeFault.Read }
    ensures write { ReportsFailed ServeFault.Write result writer.new }
{
    match line.frames.take(byte) {
        FrameEvent::Nothing => Ok(()),
        FrameEvent::Packet(packet) => hear_packet(line, &packet, reply, writer),
        FrameEvent::Dropped(fault) => {
            line.watch.saw(&Event::NoFrame(fault));
            Ok(())
        }
    }
}

/// Takes a piece of the input.
fn hear_piece<P: Platform, C: Ticks, L: Watch, W: Write>(
    line: &mut ServedLine<P, C, L>,
    piece: &[u8],
    reply: &mut Body,
    writer: &mut Port<W>,
) -> Result<(), ServeFault>
    requires { has_failed writer.old ≡ false }
    ensures heard { OnOk result (Hears P.performed (rules_of P.answer P.after P.sensed) L.sees
        (shown C.to_come W.contents line.old writer.old) piece.now (shown C.to_come W.contents line.new writer.new)) }
    ensures stopped { IfErr result (λ fault. fault ≢ ServeFault.Write
        → HearsFront P.performed (rules_of P.answer P.after P.sensed) L.sees
        (shown C.to_come W.contents line.old writer.old) (Some piece.now) fault
        (shown C.to_come W.contents line.new writer.new)) }
    ensures flushed { result ≢ Err ServeFault.Write → StaysFlushed writer.old writer.new }
    ensures read { result ≢ Err ServeFault.Read }
    ensures write { ReportsFailed ServeFault.Write result writer.new }
{
    let mut rest = piece;
    while let Some((first, others)) = rest.split_first() {
        match hear_byte(line, *first, reply, writer) {
            Ok(()) => {}
            Err(fault) => return Err(fault),
        }
        rest = others;
    }
    Ok(())
}

/// Serves a line until its input ends: each packet whose frame ends is answered at its moment, and the frames of its
/// answer are written and flushed before more is read. The input may be of any length. The watcher sees each
/// frame that was none, of each packet that came, and of what became of it. The platform performs the commands of these
/// packets and no others, and the responder's bounds stay.
///
/// # Errors
///
/// `Read` where the read port has failed: the answers to all packets whose frames ended in what was read
/// have been written. `Write` where the write port has failed; what a failed writer took is not known, and
/// nothing is said of the platform and of the responder's bounds then.
/// At `Clock`, which comes only where the clock gave no reading, and `Memory` the answers to the packets before have
/// been written, and their commands were performed. `TooMany` after `u64::MAX` pieces. At all ends but `Write` what was
/// written has been flushed.
pub fn serve<P: Platform, C: Ticks, L: Watch, R: Read, W: Write>(
    line: &mut ServedLine<P, C, L>,
    reader: &mut Port<R>,
    writer: &mut Port<W>,
) -> Result<(), ServeFault>
    requires works { BothWork reader.old writer.old }
    ensures heard { OnOk result (IfSome (R.remaining (inner_of reader.old)) (λ all.
        Hears P.performed (rules_of P.answer P.after P.sensed) L.sees
        (shown C.to_come W.contents line.old writer.old) all (shown C.to_come W.contents line.new writer.new))) }
    ensures at_read { IsErrOf result ServeFault.Read
        → HearsTaken P.performed (rules_of P.answer P.after P.sensed) L.sees
        (shown C.to_come W.contents line.old writer.old) (R.remaining (inner_of reader.old))
        (R.remaining (inner_of reader.new)) (shown C.to_come W.contents line.new writer.new) }
    ensures stopped { IfErr result (λ fault. fault ≢ ServeFault.Write
        → HearsFront P.performed (rules_of P.answer P.after P.sensed) L.sees
        (shown C.to_come W.contents line.old writer.old) (R.remaining (inner_of reader.old)) fault
        (shown C.to_come W.contents line.new writer.new)) }
    ensures flushed { result ≢ Err ServeFault.Write → StaysFlushed writer.old writer.new }
    ensures ports { ReportsFailedPorts ServeFault.Read ServeFault.Write result reader.new writer.new }
{
    let mut reply = Body::new();
    let mut room = [0; PIECE];
    for _ in 0..u64::MAX {
        let Ok(count) = reader.read(&mut room) else {
            return Err(ServeFault::Read);
        };
        if count == 0 {
            return Ok(());
        }
        match hear_piece(line, &room[..count], &mut reply, writer) {
            Ok(()) => {}
            Err(fault) => return Err(fault),
        }
    }
    Err(ServeFault::TooMany)
}

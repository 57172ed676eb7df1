//! The lines that the log of `mctpctl serve` has: for packets that came or went out, and for drops.

ghost use Rattle.std.specs.Prelude.{◌≡◌, ◌≢◌, [], ◌++◌, IfOk, OnOk, OnErr, string_bytes};
ghost use Rattle.mctp_packet.specs.Packets.{written};
ghost use Rattle.mctp_packet.specs.Pieces.{written_packets};
ghost use Rattle.pldm_line.specs.Events.{seen_of};
ghost use Rattle.pldm_line.specs.Logs.{capture_line, capture_lines, capture_text, drop_text};

use crate::events::Event;
use mctp_packet::{
    BASELINE_UNIT, MAX_PACKET_BYTES, Memory, Moment, PacketRef, Route, packet_at, write,
};
use std::alloc::Global;

/// What an event adds to the capture of a line.
pub(crate) fn capture_text(alloc: Global, event: &Event<'_>) -> Result<String, Memory>
    ensures text { IfOk result (λ text. string_bytes text ≡ capture_text (seen_of event.now)) }
    ensures memory { OnErr result (capture_text (seen_of event.now) ≢ []) }
{
    match event {
        Event::Came(moment, packet) | Event::SentControl(moment, packet) => {
            capture_line(alloc, *moment, packet)
        }
        Event::Sent(moment, route, message) => capture_lines(alloc, *moment, route, message),
        Event::NoFrame(_) | Event::Dropped(_) => Ok(String::new(alloc)),
    }
}

/// The lines of the packets of a message on this route, each at this moment.
fn capture_lines(
    alloc: Global,
    moment: Moment,
    route: &Route,
    message: &[u8],
) -> Result<String, Memory>
    ensures text { IfOk result (λ text. string_bytes text
        ≡ capture_lines moment (written_packets route.now message.now)) }
    ensures memory { OnErr result (capture_lines moment (written_packets route.now message.now) ≢ []) }
{
    let mut lines = String::new(alloc);
    for i in 0..message.len().div_ceil(BASELINE_UNIT) {
        let Some(packet) = packet_at(route, message, i) else {
            unreachable!();
        };
        push_packet(alloc, &mut lines, moment, &packet)?;
    }
    Ok(lines)
}

/// Adds the line of a packet at a moment.
fn push_packet(
    alloc: Global,
    lines: &mut String,
    moment: Moment,
    packet: &PacketRef<'_>,
) -> Result<(), Memory>
    ensures { OnOk result (string_bytes lines.new
        ≡ string_bytes lines.old ++ capture_line moment (written packet.now)) }
{
    let mut bytes = [0; MAX_PACKET_BYTES];
    let count = write(packet, &mut bytes);
    let line = capture_line(alloc, moment, &bytes[..count])?;
    lines.push_str(line.as_str())?;
    Ok(())
}

/// The line of a packet of these bytes at a moment.
fn capture_line(alloc: Global, moment: Moment, packet: &[u8]) -> Result<String, Memory>
    ensures { IfOk result (λ text. string_bytes text ≡ capture_line moment packet.now) }
{
    let digits = hex::encode(alloc, packet)?;
    Ok(format!(in alloc; "{} {digits}\n", moment.get())?)
}

/// What an event adds to the drops of a line.
pub(crate) fn drop_text(alloc: Global, event: &Event<'_>) -> Result<String, Memory>
    ensures text { IfOk result (λ text. string_bytes text ≡ drop_text (seen_of event.now)) }
    ensures memory { OnErr result (drop_text (seen_of event.now) ≢ []) }
{
    match event {
        Event::NoFrame(fault) => { Ok(format!(in alloc; "mctpctl: no frame: {}\n", fault.name())?) }
        Event::Dropped(reason) => Ok(format!(in alloc; "mctpctl: drop {}\n", reason.name())?),
        Event::Came(_, _) | Event::Sent(_, _, _) | Event::SentControl(_, _) => {
            Ok(String::new(alloc))
        }
    }
}

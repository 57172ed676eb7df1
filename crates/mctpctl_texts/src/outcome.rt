//! The text of what becomes of one packet.

ghost use Rattle.std.specs.Io.{StartsWith};
ghost use Rattle.std.specs.Prelude.{◌≡◌, ◌≤◌, ◌*◌, ◌++◌, length, drop, OnOk, OnErr};
ghost use Rattle.hex.specs.Hex.{encode_lower};
ghost use Rattle.mctp_packet.specs.Packets.{written};
ghost use Rattle.mctp_packet.specs.Pieces.{written_packets};
ghost use Rattle.pldm_responder.specs.Answering.{answering};
ghost use Rattle.mctpctl_texts.specs.OutcomeTexts.{outcome_text, packet_text, packets_text};

use crate::hex_pairs::HexPairs;
use crate::parts::{write_drop_line, write_text};
use mctp_packet::{BASELINE_UNIT, HEADER, Memory, PacketRef, Route, header_of, packet_at};
use pldm_responder::MessageOutcome;
use std::alloc::AllocError;

/// Adds the lines of what becomes of a packet that `reply` answers: `drop NAME`, `partial`, or the
/// answer's packets in lower-case hex by `pairs`, one a line. Whether the answer is a copy's, and whether it changed
/// the device, does not show. An `Err` adds nothing.
pub fn push_outcome(
    out: &mut Vec<u8>,
    pairs: &HexPairs,
    taken: &MessageOutcome,
    reply: &[u8],
) -> Result<(), Memory>
    ensures ok { OnOk result (out.new.items ≡ out.old.items ++ outcome_text (answering reply.now taken.now)) }
    ensures err { OnErr result (out.new.items ≡ out.old.items) }
{
    let before = out.len();
    let result = write_outcome(out, pairs, taken, reply);
    if result.is_err() {
        out.truncate(before);
    }
    result
}

/// As `push_outcome`, but that a front of the text may be added before a refusal.
fn write_outcome(
    out: &mut Vec<u8>,
    pairs: &HexPairs,
    taken: &MessageOutcome,
    reply: &[u8],
) -> Result<(), Memory>
    ensures ok { OnOk result (out.new.items ≡ out.old.items ++ outcome_text (answering reply.now taken.now)) }
    ensures err { OnErr result (StartsWith out.new.items out.old.items) }
{
    match taken {
        MessageOutcome::Dropped(reason) => write_drop_line(out, *reason),
        MessageOutcome::Partial => write_text(out, "partial\n"),
        MessageOutcome::Answered { route, .. } => write_packets(out, pairs, route, reply),
    }
}

/// Writes the packets of a message on this route.
fn write_packets(
    out: &mut Vec<u8>,
    pairs: &HexPairs,
    route: &Route,
    message: &[u8],
) -> Result<(), Memory>
    ensures ok { OnOk result (out.new.items ≡ out.old.items ++ packets_text (written_packets route.now message.now)) }
    ensures err { OnErr result (StartsWith out.new.items out.old.items) }
{
    for i in 0..message.len().div_ceil(BASELINE_UNIT) {
        let Some(packet) = packet_at(route, message, i) else {
            unreachable!();
        };
        write_packet(out, pairs, &packet)?;
    }
    Ok(())
}

/// Writes the bytes of a packet in lower-case hex, on a line. The whole line gets its room at once. An `Err` writes
/// nothing.
fn write_packet(out: &mut Vec<u8>, pairs: &HexPairs, packet: &PacketRef<'_>) -> Result<(), Memory>
    ensures ok { OnOk result (out.new.items ≡ out.old.items ++ packet_text (written packet.now)) }
    ensures err { OnErr result (out.new.items ≡ out.old.items) }
{
    let start = out.len();
    let Some(end) = start.checked_add(2 * (HEADER + packet.payload().len()) + 1) else {
        return Err(AllocError.into()); // more bytes than an allocator can give
    };
    out.resize(end, b'\n')?;
    spell_packet(pairs, packet, &mut out[start..]);
    Ok(())
}

/// Puts the bytes of a packet in lower-case hex in front of `room`, whose rest is left as it was. The packet is not put
/// together first: a processor has to wait before it copies bytes that were just stored one by one.
fn spell_packet(pairs: &HexPairs, packet: &PacketRef<'_>, room: &mut [u8])
    requires { 2 * length (written packet.now) ≤ length room.old }
    ensures { room.new ≡ encode_lower (written packet.now) ++ drop (2 * length (written packet.now)) room.old }
{
    let (header, rest) = room.split_at_mut(2 * HEADER);
    pairs.spell(&header_of(packet), header);
    pairs.spell(packet.payload(), rest);
}

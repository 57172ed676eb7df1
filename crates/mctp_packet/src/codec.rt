//! Packets read from bytes and written as bytes (DSP0236, "MCTP packet fields").

ghost use Rattle.std.specs.Prelude.{◌≡◌, ◌+◌, ◌*◌, ◌++◌, length, drop, Option, Some, None, Ok, Err, IfOk, IfErr, IfSome, if◌then◌else◌};
ghost use Rattle.mctp_packet.specs.Ids.{IsEid};
ghost use Rattle.mctp_packet.specs.Packets.{Packet, Spells, IsFor, written, header};
ghost use Rattle.mctp_packet.specs.Refusals.{refusal, is_destination, is_source};
ghost use Rattle.mctp_packet.specs.Reading.{reading};
ghost use Rattle.mctp_packet.specs.declared.TheConstants.{NULL_EID};

use crate::flags::{Flags, byte_of, flags_in};
use crate::{Eid, HEADER, MAX_PACKET_BYTES, PacketRef, Reason, Route, VERSION};

/// The packet that these bytes spell, or the first reason of 1 to 6 for which they spell none
/// (DSP0236, "MCTP packet fields" and "Dropped packets").
pub fn read(bytes: &[u8]) -> Result<PacketRef<'_>, Reason>
    ensures found { IfOk result (λ p. Spells p bytes.now) }
    ensures every { (p : Packet) → Spells p bytes.now → result ≡ Ok p }
    ensures refused { IfErr result (λ reason. refusal None bytes.now ≡ Some reason) }
    ensures answer { result ≡ reading None bytes.now }
{
    read_at(None, bytes)
}

/// The packet that these bytes spell, where it is addressed to the endpoint `own` by another one;
/// or the first reason of 1 to 6 for which it is not.
pub fn read_for(own: Eid, bytes: &[u8]) -> Result<PacketRef<'_>, Reason>
    ensures found { IfOk result (λ p. Spells p bytes.now × IsFor own p) }
    ensures every { (p : Packet) → Spells p bytes.now → IsFor own p → result ≡ Ok p }
    ensures refused { IfErr result (λ reason. refusal (Some own) bytes.now ≡ Some reason) }
    ensures answer { result ≡ reading (Some own) bytes.now }
{
    let _range = own.get(); // for the proof: an endpoint ID
    read_at(Some(own), bytes)
}

/// The reason of 1 to 3 for which an endpoint that has no endpoint ID yet drops these bytes: no packet is addressed to
/// it.
pub fn reason_without_eid(bytes: &[u8]) -> Reason
    ensures { reading (Some NULL_EID) bytes.now ≡ Err result }
{
    let [version, _, _, _, ..] = bytes else {
        return Reason::Short;
    };
    if *version & 0x0f != VERSION {
        return Reason::BadVersion;
    }
    Reason::UnknownDestination
}

/// As `read_for` where the own endpoint ID is known, else as `read`.
fn read_at(own: Option<Eid>, bytes: &[u8]) -> Result<PacketRef<'_>, Reason>
    ensures passed { IfOk result (λ _. refusal own bytes.now ≡ None) }
    ensures refused { IfErr result (λ reason. refusal own bytes.now ≡ Some reason) }
    ensures answer { result ≡ reading own bytes.now }
{
    let own_id = own;
    let [version, destination, source, flags, payload @ ..] = bytes else {
        return Err(Reason::Short);
    };
    if *version & 0x0f != VERSION {
        return Err(Reason::BadVersion);
    }
    let Some(destination) = destination_of(own_id, *destination) else {
        return Err(Reason::UnknownDestination);
    };
    let Some(source) = source_of(own, *source) else {
        return Err(Reason::BadSource);
    };
    if payload.is_empty() {
        return Err(Reason::NoPayload);
    }
    let flags = flags_in(*flags);
    let route = Route {
        destination,
        source,
        owner: flags.owner,
        tag: flags.tag,
    };
    let Some(packet) = PacketRef::new(route, flags.start, flags.end, flags.seq, payload) else {
        return Err(Reason::UnsupportedUnit);
    };
    Ok(packet)
}

/// The destination of this number: the own endpoint ID where it is known, else any endpoint ID.
fn destination_of(own: Option<Eid>, number: u8) -> Option<Eid>
    ensures value { result ≡ (if is_destination own number then Some number else None) }
    ensures range { IfSome result IsEid }
{
    match own {
        None => Eid::new(number),
        Some(own) if own.get() == number => Some(own),
        Some(_) => None,
    }
}

/// The source of this number: any endpoint ID but the own one where that is known.
fn source_of(own: Option<Eid>, number: u8) -> Option<Eid>
    ensures value { result ≡ (if is_source own number then Some number else None) }
    ensures range { IfSome result IsEid }
{
    match own {
        Some(own) if own.get() == number => None,
        _ => Eid::new(number),
    }
}

/// Writes the packet's bytes in front, with reserved bits 0, and gives their count; the rest of
/// `out` is left as it was (DSP0236, "MCTP packet fields").
pub fn write(packet: &PacketRef<'_>, out: &mut [u8; MAX_PACKET_BYTES]) -> usize
    ensures count { result ≡ HEADER + length packet.now.payload }
    ensures bytes { out.new ≡ written packet.now ++ drop (HEADER + length packet.now.payload) out.old }
{
    let payload = packet.payload();
    let count = HEADER + payload.len();
    out[..HEADER].copy_from_slice(&header_of(packet));
    out[HEADER..count].copy_from_slice(payload);
    count
}

/// The bytes before the packet's payload, with reserved bits 0 (DSP0236, "MCTP packet fields"). With
/// the payload after them they are what [`write`] writes.
pub fn header_of(packet: &PacketRef<'_>) -> [u8; HEADER]
    ensures { result ≡ header packet.now }
{
    let route = packet.route();
    let flags = byte_of(Flags {
        start: packet.start(),
        end: packet.end(),
        seq: packet.seq(),
        owner: route.owner,
        tag: route.tag,
    });
    [VERSION, route.destination.get(), route.source.get(), flags]
}

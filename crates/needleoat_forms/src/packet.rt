//! Packets read and written by a struct of their fields for C (DSP0236, "MCTP packet fields").

ghost use Rattle.std.specs.Prelude.{◌≡◌, ◌+◌, ◌-◌, ◌/◌, ◌<◌, ◌≤◌, Some, length};
ghost use Rattle.mctp_packet.specs.Ids.{IsEid};
ghost use Rattle.mctp_packet.specs.Packets.{written};
ghost use Rattle.mctp_packet.specs.Pieces.{piece_count};
ghost use Rattle.mctp_packet.specs.Reading.{reading};
ghost use Rattle.needleoat_forms.specs.Packets.{IsRoute, ReportsFields, ReportsPacket, packet_bytes};
ghost use Rattle.needleoat_forms.specs.Written.{HasFront, IsUntouched};

use crate::room::put_front;
use mctp_packet::{
    BASELINE_UNIT, Eid, MAX_MESSAGE_BYTES, MAX_PACKET_BYTES, PacketRef, Route, Tag, packet_at,
    read_for, write,
};

/// The `reason` of a packet that is read at an endpoint ID that is none.
pub const NOT_AN_ENDPOINT: u8 = 255;

/// A packet's fields, or why the bytes are no packet (DSP0236, "MCTP packet fields"). Its payload
/// begins at byte 4.
#[repr(C)]
#[derive(Drop)]
pub struct PacketFields {
    /// 0, or the number of the reason to drop the packet, 1 to 6, or [`NOT_AN_ENDPOINT`]. Where it
    /// is not 0, the other fields have no meaning.
    pub reason: u8,
    /// The destination endpoint ID.
    pub destination: u8,
    /// The source endpoint ID.
    pub source: u8,
    /// The message tag, 0 to 7.
    pub tag: u8,
    /// The packet sequence number, 0 to 3.
    pub seq: u8,
    /// TO: whether the source chose the tag.
    pub owner: bool,
    /// SOM: whether the packet starts a message.
    pub start: bool,
    /// EOM: whether the packet ends a message.
    pub end: bool,
    /// The length of the payload in bytes, 1 to 64.
    pub payload_length: u32,
}

// As in `include/needleoat.h`.
const _: () = prove!(size_of::<PacketFields>() == 12);

impl PacketFields {
    /// The report of bytes that are no packet.
    fn refused(reason: u8) -> PacketFields
        ensures { result.reason ≡ reason }
    {
        PacketFields {
            reason,
            destination: 0,
            source: 0,
            tag: 0,
            seq: 0,
            owner: false,
            start: false,
            end: false,
            payload_length: 0,
        }
    }

    /// The fields of a packet.
    fn of(packet: &PacketRef<'_>) -> PacketFields
        ensures { ReportsFields packet.now result }
    {
        let route = packet.route();
        PacketFields {
            reason: 0,
            destination: route.destination.get(),
            source: route.source.get(),
            tag: route.tag.get(),
            seq: packet.seq().get(),
            owner: route.owner,
            start: packet.start(),
            end: packet.end(),
            payload_length: packet.payload().len() as u32,
        }
    }
}

/// Reads a packet at the endpoint `own`. The first check that fails names the reason (DSP0236,
/// "Dropped packets").
pub fn packet_read(own: u8, bytes: &[u8]) -> PacketFields
    ensures packet { IsEid own → ReportsPacket (reading (Some own) bytes.now) result }
    ensures no_endpoint { (IsEid own → ⊥) → result.reason ≡ NOT_AN_ENDPOINT }
{
    let Some(own) = Eid::new(own) else {
        return PacketFields::refused(NOT_AN_ENDPOINT);
    };
    match read_for(own, bytes) {
        Ok(packet) => PacketFields::of(&packet),
        Err(reason) => PacketFields::refused(reason.number()),
    }
}

/// How many packets a message of so many bytes has (DSP0236, "Packetizing a message"): 1 to 5, and
/// 0 where there are no bytes or more than [`MAX_MESSAGE_BYTES`].
pub fn packet_count(bytes: u32) -> u32
    ensures count { bytes ≤ MAX_MESSAGE_BYTES → result ≡ (bytes + (BASELINE_UNIT - 1)) / BASELINE_UNIT }
    ensures too_long { MAX_MESSAGE_BYTES < bytes → result ≡ 0 }
{
    let bytes = bytes as usize;
    if bytes > MAX_MESSAGE_BYTES {
        return 0;
    }
    bytes.div_ceil(BASELINE_UNIT) as u32
}

/// Writes packet `index` of a message, counted from 0, to the front of `out`, and returns its
/// length in bytes (DSP0236, "Packetizing a message"). Returns 0 and leaves `out` as it was where
/// an endpoint ID or the tag is none, where the message has more than [`MAX_MESSAGE_BYTES`], and
/// where it has no such packet.
pub fn packet_write(
    destination: u8,
    source: u8,
    owner: bool,
    tag: u8,
    message: &[u8],
    index: u32,
    out: &mut [u8; MAX_PACKET_BYTES],
) -> u32
    ensures written { IsRoute destination source tag → length message.now ≤ MAX_MESSAGE_BYTES
        → index < piece_count message.now
        → HasFront (packet_bytes destination source owner tag message.now index) result out.old out.new }
    ensures past_the_last { piece_count message.now ≤ index → IsUntouched result out.old out.new }
    ensures too_long { MAX_MESSAGE_BYTES < length message.now → IsUntouched result out.old out.new }
    ensures no_route { (IsRoute destination source tag → ⊥) → IsUntouched result out.old out.new }
{
    let (Some(destination), Some(source), Some(tag)) = (
        Eid::new(destination),
        Eid::new(source),
        Tag::new(tag),
    ) else {
        return 0;
    };
    if message.len() > MAX_MESSAGE_BYTES {
        return 0;
    }
    let route = Route {
        destination,
        source,
        owner,
        tag,
    };
    match packet_at(&route, message, index as usize) {
        Some(packet) => put_packet(&packet, out),
        None => 0,
    }
}

/// Writes a packet to the front of `out`, and returns its length in bytes. The bytes go through an
/// array of their own: a copy from the message to `out` would be a `memmove`, which firmware may not
/// have.
fn put_packet(packet: &PacketRef<'_>, out: &mut [u8; MAX_PACKET_BYTES]) -> u32
    ensures { HasFront (written packet.now) result out.old out.new }
{
    let mut bytes = [0; MAX_PACKET_BYTES];
    let count = write(packet, &mut bytes);
    put_front(out, &bytes[..count])
}

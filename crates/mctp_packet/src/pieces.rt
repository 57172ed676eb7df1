//! A message cut into packets of the baseline transmission unit (DSP0236, "Packetizing a message").

ghost use Rattle.std.specs.Prelude.{◌≡◌, ◌<◌, ◌%◌, ◌↔◌, [], length, slice_get, option_map, IfOk, IfSome, IsErrOf, IsSome, OnErr, OnOk, ◌≤◌, map};
ghost use Rattle.mctp_packet.specs.Packets.{written, HasPayloadSize};
ghost use Rattle.mctp_packet.specs.Pieces.{piece, piece_count, packet_at, written_packets};
ghost use Rattle.mctp_packet.specs.SplitFaults.{number_of_split_fault};

use crate::codec::header_of;
use crate::{
    BASELINE_UNIT, MAX_MESSAGE_BYTES, MAX_PACKET_BYTES, MAX_PACKETS, PacketRef, Route,
    SEQUENCE_NUMBERS, Seq,
};
use arrayvec::ArrayVec;
use std::marker::Model;
use thiserror::Error;

/// Why a message was not split.
#[derive(Clone, Copy, Debug, PartialEq, Eq, Error)]
pub enum SplitFault {
    /// It has no bytes.
    #[error("the message is empty")]
    Empty = 1,
    /// It has more than [`MAX_MESSAGE_BYTES`].
    #[error("the message is too long")]
    TooLong = 2,
}

impl SplitFault {
    /// The fault's number in this profile's list.
    pub fn number(self) -> u8
        ensures { result ≡ number_of_split_fault self }
    {
        self as u8
    }
}

/// The packets of one message, in order: 1 to [`MAX_PACKETS`] of them. Its size is fixed.
#[derive(Debug, Drop)]
pub struct Packets {
    packets: ArrayVec<ArrayVec<u8, MAX_PACKET_BYTES>, MAX_PACKETS>,
}

impl Model for Packets {
    ghost use Rattle.std.specs.Prelude.{ℕ, ◌≤◌, List, length, map};
    ghost use Rattle.mctp_packet.specs.declared.TheConstants.{MAX_PACKETS};

    ghost Value = { List (List ℕ) };

    ghost view = { λ a. map (λ packet. packet.items) a.packets.items };

    ghost invariant = { λ a. (1 ≤ length a.packets.items) × (length a.packets.items ≤ MAX_PACKETS) };
}

impl Packets {
    ghost use Rattle.std.specs.Prelude.{◌≡◌, ◌≤◌, length, slice_get, option_map};
    ghost use Rattle.mctp_packet.specs.declared.TheConstants.{MAX_PACKETS};

    /// How many packets there are, 1 to [`MAX_PACKETS`].
    #[allow(clippy::len_without_is_empty)]
    pub fn len(&self) -> usize
        ensures value { result ≡ length self.now }
        ensures some { 1 ≤ result }
        ensures few { result ≤ MAX_PACKETS }
    {
        self.packets.len()
    }

    /// The bytes of packet `index`, counted from 0.
    pub fn get(&self, index: usize) -> Option<&[u8]>
        ensures { option_map (λ packet. packet.now) result ≡ slice_get self.now index }
    {
        self.packets.get(index).map(|packet| packet.as_slice())
    }
}

/// Cuts a message into packets on this route: pieces of [`BASELINE_UNIT`] bytes, the last of 1 to [`BASELINE_UNIT`],
/// SOM on the first, EOM on the last, and sequence numbers from 0 (DSP0236, "Packetizing a
/// message").
pub fn split(route: &Route, message: &[u8]) -> Result<Packets, SplitFault>
    ensures packets { IfOk result (λ packets. packets ≡ written_packets route.now message.now) }
    ensures empty { IsErrOf result SplitFault.Empty ↔ (message.now ≡ []) }
    ensures too_long { IsErrOf result SplitFault.TooLong ↔ (MAX_MESSAGE_BYTES < length message.now) }
{
    check_size(message)?;
    let mut packets = ArrayVec::new();
    put_packets(&mut packets, route, message);
    Ok(Packets { packets })
}

/// As [`split`], with the packets in the place of those that stand in `packets`.
///
/// # Errors
///
/// As [`split`]. The packets are then as before.
pub fn split_into(route: &Route, message: &[u8], packets: &mut Packets) -> Result<(), SplitFault>
    ensures packets { OnOk result (packets.new ≡ written_packets route.now message.now) }
    ensures empty { IsErrOf result SplitFault.Empty ↔ (message.now ≡ []) }
    ensures too_long { IsErrOf result SplitFault.TooLong ↔ (MAX_MESSAGE_BYTES < length message.now) }
    ensures err { OnErr result (packets.new ≡ packets.old) }
{
    check_size(message)?;
    put_packets(&mut packets.packets, route, message);
    Ok(())
}

/// Whether a message has a size that can be split.
fn check_size(message: &[u8]) -> Result<(), SplitFault>
    ensures ok { OnOk result ((0 < length message.now) × (length message.now ≤ MAX_MESSAGE_BYTES)) }
    ensures empty { IsErrOf result SplitFault.Empty ↔ (message.now ≡ []) }
    ensures too_long { IsErrOf result SplitFault.TooLong ↔ (MAX_MESSAGE_BYTES < length message.now) }
{
    if message.is_empty() {
        return Err(SplitFault::Empty);
    }
    if message.len() > MAX_MESSAGE_BYTES {
        return Err(SplitFault::TooLong);
    }
    Ok(())
}

/// Puts the packets of a message on this route in the place of those that stand there.
fn put_packets(
    packets: &mut ArrayVec<ArrayVec<u8, MAX_PACKET_BYTES>, MAX_PACKETS>,
    route: &Route,
    message: &[u8],
)
    requires some { 0 < length message.now }
    requires few { length message.now ≤ MAX_MESSAGE_BYTES }
    ensures count { length packets.new.items ≡ piece_count message.now }
    ensures written { map (λ packet. packet.items) packets.new.items ≡ written_packets route.now message.now }
{
    packets.clear();
    for i in 0..message.len().div_ceil(BASELINE_UNIT) {
        // Written in its place, so that no bytes are moved.
        packets.push(ArrayVec::new());
        put_packet(&mut packets[i], *route, message, i);
    }
}

/// Packet `index` of a message on this route, counted from 0 and not copied; `None` past the last.
/// [`split`] gives the bytes of all of them.
pub fn packet_at<'a>(route: &Route, message: &'a [u8], index: usize) -> Option<PacketRef<'a>>
    ensures some { IsSome result ↔ (index < piece_count message.now) }
    ensures value { IfSome result (λ packet. packet ≡ packet_at route.now message.now index) }
{
    if index < message.len().div_ceil(BASELINE_UNIT) {
        Some(packet_of(*route, message, index))
    } else {
        None
    }
}

/// Packet `i` of a message.
fn packet_of<'a>(route: Route, message: &'a [u8], i: usize) -> PacketRef<'a>
    requires { i < piece_count message.now }
    ensures { result ≡ packet_at route message.now i }
{
    let is_last = i + 1 == message.len().div_ceil(BASELINE_UNIT);
    PacketRef::new(route, i == 0, is_last, number_at(i), piece_at(message, i)).unwrap()
}

/// Puts the bytes of packet `i` of a message where none are yet.
fn put_packet(bytes: &mut ArrayVec<u8, MAX_PACKET_BYTES>, route: Route, message: &[u8], i: usize)
    requires empty { bytes.old.items ≡ [] }
    requires place { i < piece_count message.now }
    ensures { bytes.new.items ≡ written (packet_at route message.now i) }
{
    let packet = packet_of(route, message, i);
    bytes.try_extend_from_slice(&header_of(&packet)).unwrap();
    bytes.try_extend_from_slice(packet.payload()).unwrap();
}

/// The sequence number of packet `i`.
fn number_at(i: usize) -> Seq
    ensures { result ≡ i % SEQUENCE_NUMBERS }
{
    Seq::new((i % SEQUENCE_NUMBERS as usize) as u8).unwrap()
}

/// Piece `i` of a message.
fn piece_at(message: &[u8], i: usize) -> &[u8]
    requires { i < piece_count message.now }
    ensures value { result.now ≡ piece message.now i }
    ensures size { HasPayloadSize result.now }
{
    let (_, rest) = message.split_at(BASELINE_UNIT * i);
    if rest.len() <= BASELINE_UNIT {
        return rest;
    }
    let (piece, _) = rest.split_at(BASELINE_UNIT);
    piece
}

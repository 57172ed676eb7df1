//! A reader of a serial line: it takes the line byte by byte and finds the frames in it (DSP0253).

ghost use Rattle.std.specs.Prelude.{◌≡◌, ◌++◌, ◌∷◌, [], List, ℕ};
ghost use Rattle.mctp_serial.specs.Places.{reading_of, HasRoom};
ghost use Rattle.mctp_serial.specs.Readings.{idle, opened, counting, inside, escaped, closing, step, after_end, drops, inside_or_past};
ghost use Rattle.mctp_serial.specs.declared.reader.Place.TheVariants.{Inside, Escaped};

use crate::checking::check_sequence;
use crate::{ESCAPE, ESCAPED_ESCAPE, ESCAPED_FLAG, FLAG, PacketBytes, REVISION, SerialFault};
use mctp_packet::MAX_PACKET_BYTES;
use std::marker::Model;
use std::mem;

/// What a byte gives a reader.
#[derive(Clone, Debug, PartialEq, Eq, Drop)]
pub enum FrameEvent {
    /// Nothing yet.
    Nothing,
    /// It ended the frame of this packet.
    Packet(PacketBytes),
    /// It is why the bytes since the last flag are no frame.
    Dropped(SerialFault),
}

/// Which byte of a frame is to come.
#[derive(Clone, Copy, Debug)]
pub(crate) enum Place {
    /// Bytes up to a flag do not count.
    Idle,
    /// After a flag, the revision.
    Opened,
    /// The count.
    Counting,
    /// One of the packet's bytes, of which there are so many.
    Inside(u8),
    /// The second byte of an escaped one.
    Escaped(u8),
    /// The check sequence's high byte.
    High,
    /// The low byte, after this high one.
    Low(u8),
    /// The flag that ends the frame, after this check sequence.
    Closing(u16),
}

/// A reader of frames (DSP0253), which takes one byte after the other. It goes by the count, since a
/// check sequence may have a flag in it.
#[derive(Debug, Drop)]
pub struct FrameReader {
    place: Place,
    /// What has come of the packet.
    bytes: PacketBytes,
}

impl Model for FrameReader {
    ghost use Rattle.mctp_serial.specs.Readings.{Reading};
    ghost use Rattle.mctp_serial.specs.Places.{reading_of, HasRoom};

    ghost Value = { Reading };

    ghost view = { λ r. reading_of r.place r.bytes.items };

    ghost invariant = { λ r. HasRoom r.place r.bytes.items };
}

impl FrameReader {
    /// A reader that waits for a flag.
    pub fn new() -> FrameReader
        ensures { result ≡ idle }
    {
        FrameReader {
            place: Place::Idle,
            bytes: PacketBytes::new(),
        }
    }

    /// Takes the next byte, and returns what it gives: the packet where it ends a frame, or why the bytes
    /// since the last flag are no frame.
    pub fn take(&mut self, byte: u8) -> FrameEvent
        ensures { step self.old byte ≡ record { event = result; next = self.new } }
    {
        let (place, event) = match self.place {
            Place::Idle => (after_end(byte), FrameEvent::Nothing),
            Place::Opened => read_revision(byte),
            Place::Counting => read_count(byte, &mut self.bytes),
            Place::Inside(count) => read_inside(count, byte, &mut self.bytes),
            Place::Escaped(count) => read_escaped(count, byte, &mut self.bytes),
            Place::High => (Place::Low(byte), FrameEvent::Nothing),
            Place::Low(high) => (
                Place::Closing(u16::from_be_bytes([high, byte])),
                FrameEvent::Nothing,
            ),
            Place::Closing(sent) => read_end(sent, byte, &mut self.bytes),
        };
        self.place = place;
        event
    }
}

/// The place after a frame has ended, or a drop, with this byte.
fn after_end(byte: u8) -> Place
    ensures reading { (bytes : List ℕ) → reading_of result bytes ≡ after_end byte }
    ensures room { (bytes : List ℕ) → HasRoom result bytes }
{
    if byte == FLAG {
        Place::Opened
    } else {
        Place::Idle
    }
}

/// The place after this byte, for which the bytes since the last flag are no frame.
fn drop(fault: SerialFault, byte: u8) -> (Place, FrameEvent)
    ensures reading { (bytes : List ℕ)
        → drops fault byte ≡ record { event = result.1; next = reading_of result.0 bytes } }
    ensures room { (bytes : List ℕ) → HasRoom result.0 bytes }
{
    (after_end(byte), FrameEvent::Dropped(fault))
}

/// Takes the byte after a flag.
fn read_revision(byte: u8) -> (Place, FrameEvent)
    ensures reading { (bytes : List ℕ)
        → step opened byte ≡ record { event = result.1; next = reading_of result.0 bytes } }
    ensures room { (bytes : List ℕ) → HasRoom result.0 bytes }
{
    match byte {
        FLAG => (Place::Opened, FrameEvent::Nothing),
        REVISION => (Place::Counting, FrameEvent::Nothing),
        _ => drop(SerialFault::WrongRevision, byte),
    }
}

/// Takes the count of a packet's bytes.
fn read_count(byte: u8, bytes: &mut PacketBytes) -> (Place, FrameEvent)
    ensures reading { step counting byte ≡ record { event = result.1; next = reading_of result.0 bytes.new.items } }
    ensures room { HasRoom result.0 bytes.new.items }
{
    if byte == 0 {
        return drop(SerialFault::Empty, byte);
    }
    if usize::from(byte) > MAX_PACKET_BYTES {
        return drop(SerialFault::TooLong, byte);
    }
    bytes.clear();
    (Place::Inside(byte), FrameEvent::Nothing)
}

/// Takes a byte in a packet of `count`.
fn read_inside(count: u8, byte: u8, bytes: &mut PacketBytes) -> (Place, FrameEvent)
    requires { HasRoom (Inside count) bytes.old.items }
    ensures reading { step (inside count bytes.old.items) byte
        ≡ record { event = result.1; next = reading_of result.0 bytes.new.items } }
    ensures room { HasRoom result.0 bytes.new.items }
{
    match byte {
        FLAG => drop(SerialFault::CutShort, byte),
        ESCAPE => (Place::Escaped(count), FrameEvent::Nothing),
        _ => (add(count, byte, bytes), FrameEvent::Nothing),
    }
}

/// Takes the byte after an escape.
fn read_escaped(count: u8, byte: u8, bytes: &mut PacketBytes) -> (Place, FrameEvent)
    requires { HasRoom (Escaped count) bytes.old.items }
    ensures reading { step (escaped count bytes.old.items) byte
        ≡ record { event = result.1; next = reading_of result.0 bytes.new.items } }
    ensures room { HasRoom result.0 bytes.new.items }
{
    match byte {
        ESCAPED_FLAG => (add(count, FLAG, bytes), FrameEvent::Nothing),
        ESCAPED_ESCAPE => (add(count, ESCAPE, bytes), FrameEvent::Nothing),
        _ => drop(SerialFault::BadEscape, byte),
    }
}

/// Adds a byte to the packet, which has `count` of them.
fn add(count: u8, byte: u8, bytes: &mut PacketBytes) -> Place
    requires { HasRoom (Inside count) bytes.old.items }
    ensures bytes { bytes.new.items ≡ bytes.old.items ++ byte ∷ [] }
    ensures reading { reading_of result bytes.new.items ≡ inside_or_past count bytes.new.items }
    ensures room { HasRoom result bytes.new.items }
{
    bytes.push(byte);
    if bytes.len() == usize::from(count) {
        Place::High
    } else {
        Place::Inside(count)
    }
}

/// Takes the byte after the check sequence that was sent.
fn read_end(sent: u16, byte: u8, bytes: &mut PacketBytes) -> (Place, FrameEvent)
    ensures reading { step (closing bytes.old.items sent) byte
        ≡ record { event = result.1; next = reading_of result.0 bytes.new.items } }
    ensures room { HasRoom result.0 bytes.new.items }
{
    if byte != FLAG {
        return drop(SerialFault::NoEnd, byte);
    }
    if check_sequence(bytes) != sent {
        return drop(SerialFault::WrongCheck, byte);
    }
    (
        Place::Opened,
        FrameEvent::Packet(mem::replace(bytes, PacketBytes::new())),
    )
}

//! The bytes of one message that has begun and not ended, and what the next packet does to it.

ghost use Rattle.std.specs.Prelude.{◌≡◌, ◌≢◌, ◌+◌, ◌≤◌, ◌++◌, length, Some, false};
ghost use Rattle.mctp_assembly.specs.Opened.{IsOpened};
ghost use Rattle.mctp_assembly.specs.Fed.{fed_with};
ghost use Rattle.mctp_assembly.specs.Steps.{answer_alone, answer_to, begun_by, carried_on};
ghost use Rattle.mctp_assembly.specs.declared.fed.Fed.TheVariants.{Partial};
ghost use Rattle.mctp_assembly.specs.declared.fed.Assembled.TheVariants as Assembled;

use crate::Assembled;
use mctp_packet::{Body, MAX_MESSAGE_BYTES, MAX_PACKETS, PacketRef, Reason, SEQUENCE_NUMBERS, Seq};
use std::marker::Model;

/// The packets of a message that has begun and not ended, under the number of its key.
#[derive(Debug, Drop)]
pub(crate) struct Buffer {
    /// The number of its key.
    number: u16,
    /// The payload length of the start packet.
    unit: u8,
    /// The sequence number of the last packet.
    last: Seq,
    /// How many packets there are.
    count: u8,
    /// Their payloads, joined, in a place of their own. There is room for a whole message from the start packet on.
    bytes: Box<Body>,
}

// A buffer is small, so that the list of the open ones is moved fast; most packets are judged by that list alone.
const _: () = prove!(size_of::<Buffer>() == 16);

impl Model for Buffer {
    ghost use Rattle.std.specs.Prelude.{ℕ, box_value};
    ghost use Rattle.std.specs.Coded.{coded×, coded_ℕ};
    ghost use Rattle.mctp_assembly.specs.Opened.{Opened, IsOpened, coded_opened};

    ghost Value = { ℕ × Opened };

    ghost coded = { coded× coded_ℕ coded_opened };

    ghost view = { λ b. (
      b.number,
      record {
        unit = b.unit;
        last = b.last;
        count = b.count;
        bytes =
            (box_value b.bytes).items;
      },
    ) };

    ghost invariant = { λ b. IsOpened (record {
      unit = b.unit;
      last = b.last;
      count = b.count;
      bytes =
          (box_value b.bytes).items;
    }) };
}

impl Buffer {
    /// The buffer that a start packet opens, under this number. Its bytes are put into `room`.
    pub(crate) fn new(number: u16, packet: &PacketRef<'_>, room: Box<Body>) -> Buffer
        ensures value { result ≡ (number, begun_by packet.now) }
        ensures range { IsOpened result.1 }
    {
        let payload = packet.payload();
        let mut bytes = room;
        bytes.clear();
        bytes.try_extend_from_slice(payload).unwrap();
        Buffer {
            number,
            unit: payload.len() as u8,
            last: packet.seq(),
            count: 1,
            bytes,
        }
    }

    /// Its room for bytes, for another message to use.
    pub(crate) fn into_room(self) -> Box<Body> {
        let Buffer { bytes, .. } = self;
        bytes
    }

    /// The number of its key.
    pub(crate) fn number(&self) -> u16
        ensures { result ≡ self.now.0 }
    {
        self.number
    }

    /// Takes a packet, and gives what it gives. One that gives `Partial` begins the buffer anew, or is added; any
    /// other changes nothing.
    pub(crate) fn take(&mut self, packet: &PacketRef<'_>) -> Assembled
        ensures given { fed_with (carried_on (Some self.old.1) packet.now).bytes result
            ≡ answer_to MAX_PACKETS (Some self.old.1) packet.now }
        ensures number { self.new.0 ≡ self.old.0 }
        ensures partial { result ≡ Assembled.Partial → self.new.1 ≡ carried_on (Some self.old.1) packet.now }
        ensures other { result ≢ Assembled.Partial → self.new ≡ self.old }
        ensures range { IsOpened self.new.1 }
    {
        let _range = self.count; // for the proof: a message that has begun
        let given = self.judge(packet);
        if let Assembled::Partial = given {
            if packet.start() {
                self.begin(packet);
            } else {
                self.append(packet);
            }
        }
        given
    }

    /// What a packet gives after the packets here, with a message that it completes in `message`.
    pub(crate) fn look_into(&self, packet: &PacketRef<'_>, message: &mut Body) -> Assembled
        ensures { fed_with message.new.items result ≡ answer_to MAX_PACKETS (Some self.now.1) packet.now }
    {
        let given = self.judge(packet);
        if let Assembled::Whole = given {
            join(message, self.before(packet), packet.payload());
        }
        given
    }

    /// What a packet gives after the packets here.
    fn judge(&self, packet: &PacketRef<'_>) -> Assembled
        ensures given { fed_with (carried_on (Some self.now.1) packet.now).bytes result
            ≡ answer_to MAX_PACKETS (Some self.now.1) packet.now }
        ensures fits { result ≡ Assembled.Whole
            → length (carried_on (Some self.now.1) packet.now).bytes ≤ MAX_MESSAGE_BYTES }
    {
        let payload = packet.payload();
        if packet.start() {
            return judge_alone(packet);
        }
        if packet.seq().get() != (self.last.get() + 1) % SEQUENCE_NUMBERS {
            return Assembled::Dropped(Reason::OutOfSequence);
        }
        if usize::from(self.count) == MAX_PACKETS {
            return Assembled::Dropped(Reason::TooLong);
        }
        if packet.end() {
            if payload.len() > usize::from(self.unit) {
                return Assembled::Dropped(Reason::WrongUnit);
            }
            return Assembled::Whole;
        }
        if payload.len() != usize::from(self.unit) {
            return Assembled::Dropped(Reason::WrongUnit);
        }
        Assembled::Partial
    }

    /// The bytes that a message has before the payload of this packet.
    fn before(&self, packet: &PacketRef<'_>) -> &[u8]
        ensures { result.now ++ packet.now.payload ≡ (carried_on (Some self.now.1) packet.now).bytes }
    {
        if packet.start() { &[] } else { &self.bytes }
    }

    /// Begins anew, with a start packet.
    fn begin(&mut self, packet: &PacketRef<'_>)
        ensures number { self.new.0 ≡ self.old.0 }
        ensures value { self.new.1 ≡ begun_by packet.now }
        ensures range { IsOpened self.new.1 }
    {
        let payload = packet.payload();
        self.unit = payload.len() as u8;
        self.last = packet.seq();
        self.count = 1;
        self.bytes.clear();
        self.bytes.try_extend_from_slice(payload).unwrap();
    }

    /// Adds a middle packet of the message.
    fn append(&mut self, packet: &PacketRef<'_>)
        requires partial { answer_to MAX_PACKETS (Some self.old.1) packet.now ≡ Partial }
        requires middle { packet.now.start ≡ false }
        ensures number { self.new.0 ≡ self.old.0 }
        ensures value { self.new.1 ≡ carried_on (Some self.old.1) packet.now }
        ensures range { IsOpened self.new.1 }
    {
        self.bytes.try_extend_from_slice(packet.payload()).unwrap();
        self.last = packet.seq();
        self.count += 1;
    }
}

/// What a packet gives where nothing is open on its key, and what a start packet gives in any case, with
/// a message that it completes in `message`.
pub(crate) fn look_alone(packet: &PacketRef<'_>, message: &mut Body) -> Assembled
    ensures { fed_with message.new.items result ≡ answer_alone packet.now }
{
    let given = judge_alone(packet);
    if let Assembled::Whole = given {
        join(message, &[], packet.payload());
    }
    given
}

/// What a packet gives where nothing is open on its key, and what a start packet gives in any case.
pub(crate) fn judge_alone(packet: &PacketRef<'_>) -> Assembled
    ensures { fed_with packet.now.payload result ≡ answer_alone packet.now }
{
    if !packet.start() {
        return Assembled::Dropped(Reason::UnexpectedMiddleOrEnd);
    }
    if packet.end() {
        return Assembled::Whole;
    }
    Assembled::Partial
}

/// Puts a whole message into `message`: the bytes that came before its last packet, and that packet's payload.
fn join(message: &mut Body, before: &[u8], payload: &[u8])
    requires { length before.now + length payload.now ≤ MAX_MESSAGE_BYTES }
    ensures { message.new ≡ record { items = before.now ++ payload.now } }
{
    message.clear();
    message.try_extend_from_slice(before).unwrap();
    message.try_extend_from_slice(payload).unwrap();
}

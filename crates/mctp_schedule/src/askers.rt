//! The requesters of a run, and the numbers that their requests have among those of all requesters.

ghost use Rattle.std.specs.Prelude.{◌≡◌, ◌≤◌, ◌<◌, ◌∷◌, ◌++◌, [], Ok, Err, Some, IfOk, IfErr, OnOk, drop, take, slice_index, length, option_map};
ghost use Rattle.std.specs.List.{AllByRecursion};
ghost use Rattle.mctp_packet.specs.Packets.{written};
ghost use Rattle.pldm_requester.specs.Steps.{IsHeld, again_at, given_up_at, got_at, opened_held, opening_answer, received_held, ticked_held, at_hand};
ghost use Rattle.pldm_requester.specs.Slots.{held_of};
ghost use Rattle.mctp_schedule.specs.Askers.{HasPacket, IsAnswered, IsOpenedAs, ReportsAnswer};
ghost use Rattle.mctp_schedule.specs.Entries.{due_over_all, numbered};

use arrayvec::ArrayVec;
use mctp_packet::{HEADER, Memory, Moment, PacketRef};
use pldm_requester::{Due, Got, MAX_OPEN, OpenFault, Requester, Status};
use pldm_wire::{Command, MAX_REQUEST_BYTES};
use std::alloc::Global;
use std::marker::Model;

/// The most bytes of the packet that carries a command.
pub(crate) const MAX_REQUEST_PACKET_BYTES: usize = HEADER + MAX_REQUEST_BYTES;

/// A requester, and the numbers of its requests over all requests.
#[derive(Debug, Drop)]
pub(crate) struct Asker {
    requester: Requester,
    numbers: Vec<u64>,
}

impl Model for Asker {
    ghost use Rattle.mctp_schedule.specs.Askers.{Side, coded_side};

    ghost Value = { Side };

    ghost coded = { coded_side };

    ghost view = { λ a. record { station = a.requester; numbers = a.numbers.items } };
}

/// A request that an asker opened.
#[derive(Drop)]
pub(crate) struct SentRequest<'a> {
    /// Its number, counted from 0 over the requests of its requester.
    pub(crate) own: u64,
    /// The header of the one packet that carries its message.
    pub(crate) header: [u8; HEADER],
    /// Its message, which is the rest of that packet, where its requester remembers it.
    pub(crate) message: &'a [u8],
}

/// A request that was answered.
#[derive(Drop)]
pub(crate) struct AnsweredRequest<'a> {
    /// Its number over all requests.
    pub(crate) number: u64,
    /// The message that answered it, where its requester remembers it.
    pub(crate) message: &'a [u8],
}

impl Asker {
    /// An asker that opened no request yet.
    pub(crate) fn new(alloc: Global, requester: Requester) -> Asker
        ensures { result ≡ record { station = requester; numbers = [] } }
    {
        Asker {
            requester,
            numbers: Vec::new(alloc),
        }
    }

    /// Opens a request, which has the number `number` over all requests, and returns its own number.
    pub(crate) fn open(
        &mut self,
        now: Moment,
        command: &Command,
        number: u64,
    ) -> Result<Result<u64, OpenFault>, Memory>
        requires { (held_of self.old.station).last ≤ now }
        ensures opened { IfOk result (λ opening. IfOk opening (IsOpenedAs (held_of self.old.station) now command.now)) }
        ensures held { IfOk result (λ opening. OnOk opening (IsHeld (held_of self.new.station)
            (opened_held (held_of self.old.station) now command.now))) }
        ensures numbers { IfOk result (λ opening. OnOk opening (self.new.numbers ≡ self.old.numbers ++ number ∷ [])) }
        ensures refused { IfOk result (λ opening. IfErr opening (λ fault. opening_answer (held_of self.old.station)
            now ≡ Err fault)) }
        ensures same { IfOk result (λ opening. IfErr opening (λ fault. IsHeld (held_of self.new.station)
            (held_of self.old.station) × (self.new.numbers ≡ self.old.numbers))) }
    {
        let opened = match self.requester.open(now, command) {
            Ok(opened) => opened,
            Err(OpenFault::Memory(memory)) => return Err(memory),
            Err(fault) => return Ok(Err(fault)),
        };
        // Where this growth is refused, the requester has one request more than `numbers` has. Nobody sees that: the
        // run ends.
        self.numbers.push(number)?;
        Ok(Ok(opened.number))
    }

    /// A request that it opened and remembers.
    pub(crate) fn sent(&self, own: u64) -> SentRequest<'_>
        requires { HasPacket (held_of self.now.station) own }
        ensures own { result.own ≡ own }
        ensures header { length result.header ≡ HEADER }
        ensures packet { option_map (λ memo. memo.packets) (at_hand (held_of self.now.station) own)
            ≡ Some ((result.header ++ result.message.now) ∷ []) }
    {
        let packet = self.packet(own);
        SentRequest {
            own,
            header: header_of(packet),
            message: payload_of(packet),
        }
    }

    /// The packet of a request that is remembered.
    fn packet(&self, own: u64) -> &[u8]
        requires { HasPacket (held_of self.now.station) own }
        ensures { option_map (λ memo. memo.packets) (at_hand (held_of self.now.station) own)
            ≡ Some (result.now ∷ []) }
    {
        match self.requester.packets(own) {
            Some(packets) => packets.get(0).unwrap(),
            None => unreachable!(),
        }
    }

    /// Returns what is due, by the numbers of the requester's own requests.
    pub(crate) fn tick(&mut self, now: Moment) -> Due
        requires { (held_of self.old.station).last ≤ now }
        ensures again { result.again.items ≡ again_at (held_of self.old.station) now }
        ensures given_up { result.given_up.items ≡ given_up_at (held_of self.old.station) now }
        ensures held { IsHeld (held_of self.new.station) (ticked_held (held_of self.old.station) now) }
        ensures numbers { self.new.numbers ≡ self.old.numbers }
    {
        self.requester.tick(now)
    }

    /// The numbers of its requests over all requests.
    pub(crate) fn numbers(&self) -> &[u64]
        ensures { result.now ≡ self.now.numbers }
    {
        &self.numbers
    }

    /// How many requests it opened.
    pub(crate) fn count(&self) -> u64
        ensures { result ≡ (held_of self.now.station).count }
    {
        self.requester.count()
    }

    /// Takes a packet.
    pub(crate) fn receive(&mut self, now: Moment, packet: &PacketRef<'_>) -> Result<Got, Memory>
        requires { (held_of self.old.station).last ≤ now }
        ensures got { IfOk result (λ got. got ≡ got_at (held_of self.old.station) (written packet.now)) }
        ensures held { OnOk result (IsHeld (held_of self.new.station) (received_held (held_of self.old.station) now
            (written packet.now))) }
        ensures numbers { OnOk result (self.new.numbers ≡ self.old.numbers) }
    {
        self.requester.receive_read(now, packet)
    }

    /// The request that was answered, where a packet gave this.
    pub(crate) fn answered(&self, got: Got) -> Option<AnsweredRequest<'_>>
        requires { IsAnswered self.now got }
        ensures { ReportsAnswer self.now got result }
    {
        let Got::Answered(own) = got else {
            return None;
        };
        let number = self.numbers[own as usize];
        match self.requester.status(own) {
            Some(Status::Answered(message)) => Some(AnsweredRequest { number, message }),
            _ => unreachable!(),
        }
    }
}

/// The header of a packet of these bytes.
fn header_of(packet: &[u8]) -> [u8; HEADER]
    requires { HEADER ≤ length packet.now }
    ensures { result ≡ take HEADER packet.now }
{
    let mut header = [0; HEADER];
    header.copy_from_slice(&packet[..HEADER]);
    header
}

/// The payload of a packet of these bytes.
fn payload_of(packet: &[u8]) -> &[u8]
    requires { HEADER ≤ length packet.now }
    ensures { result.now ≡ drop HEADER packet.now }
{
    &packet[HEADER..]
}

/// What is due, with the numbers over all requests in the place of the requester's own numbers.
pub(crate) fn over_all(due: &Due, numbers: &[u64]) -> Due
    requires again { AllByRecursion (λ own. own < length numbers.now) due.now.again.items }
    requires given_up { AllByRecursion (λ own. own < length numbers.now) due.now.given_up.items }
    ensures { result ≡ due_over_all numbers.now due.now }
{
    Due {
        again: numbers_over_all(&due.again, numbers),
        given_up: numbers_over_all(&due.given_up, numbers),
    }
}

/// The numbers over all requests of these own ones.
fn numbers_over_all(owns: &[u64], numbers: &[u64]) -> ArrayVec<u64, MAX_OPEN>
    requires few { length owns.now ≤ MAX_OPEN }
    requires known { AllByRecursion (λ own. own < length numbers.now) owns.now }
    ensures { result.items ≡ numbered numbers.now owns.now }
{
    let mut list = ArrayVec::new();
    list.try_extend_from_slice(owns).unwrap();
    number_over_all(&mut list, numbers);
    list
}

/// Puts numbers over all requests in the place of own ones.
fn number_over_all(owns: &mut [u64], numbers: &[u64])
    requires { AllByRecursion (λ own. own < length numbers.now) owns.old }
    ensures { owns.new ≡ numbered numbers.now owns.old }
{
    for own in owns.iter_mut() {
        *own = numbers[*own as usize];
    }
}

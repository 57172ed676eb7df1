//! The journal of a run: what came of each step so far, and what is known of each request.

ghost use Rattle.std.specs.Prelude.{◌≡◌, ◌+◌, ◌≤◌, ◌<◌, ◌^◌, ◌++◌, ◌∷◌, [], ◌&&◌, ◌==◌, true, ℕ, None, Some, IfOk, OnOk, IfSome, length, option_and_then, option_map, slice_get, if◌then◌else◌};
ghost use Rattle.std.specs.List.{list_any};
ghost use Rattle.mctp_packet.specs.Packets.{written};
ghost use Rattle.pldm_responder.specs.Answering.{answering};
ghost use Rattle.mctp_schedule.specs.Deliveries.{packets_of_outcome};
ghost use Rattle.mctp_schedule.specs.Entering.{AreChangedBy, AreNumbered, HasSameTraffic};
ghost use Rattle.mctp_schedule.specs.Entries.{due_over_all, numbered};
ghost use Rattle.mctp_schedule.specs.EntryColumns.{outcomes_in};
ghost use Rattle.mctp_schedule.specs.Journals.{answered_as, answers_at, fresh_numbers, is_replied, latest_answer_at, latest_packets, packet_at, packet_of_request, place_of, progress_after};
ghost use Rattle.mctp_schedule.specs.Requests.{begun};

use crate::askers::{AnsweredRequest, MAX_REQUEST_PACKET_BYTES, SentRequest, over_all};
use crate::delivery_place::DeliveryPlace;
use crate::{Delivery, DueRequests, Entries, Entry, OpenedRequest, Steps};
use arrayvec::ArrayVec;
use bumpalo::Bump;
use mctp_packet::{Eid, HEADER, Memory, Moment, PacketRef};
use pldm_requester::{Due, Got};
use pldm_responder::MessageOutcome;
use pldm_wire::MAX_REQUEST_BYTES;
use std::alloc::Global;
use std::marker::Model;

/// The header of a request's packet, and where the latest answers to it stand among the deliveries. A requester
/// remembers its last requests alone, and a schedule may deliver any. The rest of the packet is the request's
/// message, which is stored once.
#[derive(Debug, Drop)]
pub(crate) struct Traffic {
    header: [u8; HEADER],
    reply: DeliveryPlace,
    busy: DeliveryPlace,
}

// A run has one for each request: of the packet it holds four bytes, since the request holds the others.
const _: () = prove!(size_of::<Traffic>() == 24);

impl Model for Traffic {
    ghost use Rattle.mctp_schedule.specs.Journals.{Carried, coded_carried};

    ghost Value = { Carried };

    ghost coded = { coded_carried };

    ghost view = { λ t. record { header = t.header; reply = t.reply; busy = t.busy } };
}

impl Traffic {
    /// A request that has no answer yet.
    fn new(header: [u8; HEADER]) -> Traffic
        ensures { result ≡ record { header = header; reply = None; busy = None } }
    {
        Traffic {
            header,
            reply: DeliveryPlace::none(),
            busy: DeliveryPlace::none(),
        }
    }

    /// The header of the request's packet.
    fn header(&self) -> &[u8; HEADER]
        ensures { result.now ≡ self.now.header }
    {
        &self.header
    }

    /// The place among the deliveries of the latest answer, a busy one or not.
    fn latest_place(&self, busy: bool) -> Option<usize>
        ensures { result ≡ place_of busy self.now }
    {
        if busy {
            self.busy.get()
        } else {
            self.reply.get()
        }
    }

    /// The latest answer stands at this place among the deliveries.
    fn set_latest_place(&mut self, place: usize, busy: bool)
        requires { place + 1 < 2 ^ 64 }
        ensures { self.new ≡ answers_at place busy self.old }
    {
        if busy {
            self.busy = DeliveryPlace::at(place);
        } else {
            self.reply = DeliveryPlace::at(place);
        }
    }
}

/// The entries so far, and what is known of each request by its number.
#[derive(Debug, Drop)]
pub(crate) struct Journal<'a> {
    /// Where longer answers are kept, and the numbers of what was due.
    arena: &'a Bump<Global>,
    pub(crate) entries: Entries<'a>,
    pub(crate) requests: Vec<OpenedRequest<'a>>,
    pub(crate) traffic: Vec<Traffic>,
    /// The requests that were performed, in that order.
    pub(crate) order: Vec<u64>,
    /// Whether all steps so far were timely.
    pub(crate) timely: bool,
}

impl<'a> Journal<'a> {
    /// A journal of no step, with room for what most schedules of these steps bring: a list that grows is copied.
    pub(crate) fn new(
        alloc: Global,
        arena: &'a Bump<Global>,
        steps: &Steps,
    ) -> Result<Journal<'a>, Memory>
        ensures entries { IfOk result (λ journal. journal.entries ≡ []) }
        ensures requests { IfOk result (λ journal. journal.requests.items ≡ []) }
        ensures traffic { IfOk result (λ journal. journal.traffic.items ≡ []) }
        ensures order { IfOk result (λ journal. journal.order.items ≡ []) }
        ensures timely { IfOk result (λ journal. journal.timely ≡ true) }
    {
        let opened = steps.open_count();
        Ok(Journal {
            arena,
            entries: Entries::new(alloc, steps.len(), opened)?,
            requests: Vec::with_capacity(alloc, opened)?,
            traffic: Vec::with_capacity(alloc, opened)?,
            order: Vec::with_capacity(alloc, opened)?,
            timely: true,
        })
    }

    /// Puts the bytes of the packet of a request in the place of those that `packet` has.
    pub(crate) fn write_request_packet(
        &self,
        number: u64,
        packet: &mut ArrayVec<u8, MAX_REQUEST_PACKET_BYTES>,
    )
        requires requests { number < length self.now.requests.items }
        requires traffic { number < length self.now.traffic.items }
        ensures { Some packet.new.items ≡ packet_of_request (slice_get self.now.traffic.items number)
            (slice_get self.now.requests.items number) }
    {
        let header = self.traffic[number as usize].header();
        self.requests[number as usize].write_packet(header, packet);
    }

    /// Whether a request arrived: whether an answer to it, a busy one aside, is written down.
    pub(crate) fn has_arrived(&self, number: u64) -> bool
        requires { number < length self.now.traffic.items }
        ensures { result ≡ is_replied (slice_get self.now.traffic.items number) }
    {
        self.traffic[number as usize].latest_place(false).is_some()
    }

    /// A packet of the latest answer to a request, a busy one or not.
    pub(crate) fn latest_answer_packet(
        &self,
        number: u64,
        packet: u8,
        busy: bool,
    ) -> Option<PacketRef<'_>>
        ensures { option_map (λ found. written found) result ≡ packet_at self.now.entries packet busy
            (slice_get self.now.traffic.items number) }
    {
        let delivery = self.latest_delivery(number, busy)?;
        delivery.answer_packet(usize::from(packet))
    }

    /// The delivery that brought the latest answer to a request, a busy one or not.
    pub(crate) fn latest_delivery(&self, number: u64, busy: bool) -> Option<&Delivery<'a>>
        ensures { option_and_then (λ delivery. packets_of_outcome delivery.now) result ≡ latest_packets
            self.now.entries busy (slice_get self.now.traffic.items number) }
    {
        delivery_in(&self.entries, &self.traffic, number, busy)
    }

    /// Writes down what came of a step that brought nothing of a request.
    // Inlined: it is then known which entry it is.
    #[inline(always)]
    pub(crate) fn enter(&mut self, entry: Entry<'a>) -> Result<(), Memory>
        ensures entries { OnOk result (self.new.entries ≡ self.old.entries ++ entry.entry ∷ []) }
        ensures requests { OnOk result (self.new.requests.items ≡ self.old.requests.items) }
        ensures traffic { OnOk result (self.new.traffic.items ≡ self.old.traffic.items) }
        ensures order { OnOk result (self.new.order.items ≡ self.old.order.items) }
        ensures timely { OnOk result (self.new.timely ≡ self.old.timely) }
    {
        self.entries.push(entry)
    }

    /// Writes down that a request was opened.
    pub(crate) fn enter_opened(
        &mut self,
        requester: Eid,
        opening: Moment,
        sent: SentRequest<'_>,
    ) -> Result<(), Memory>
        requires { length sent.message.now ≤ MAX_REQUEST_BYTES }
        ensures entries { OnOk result (self.new.entries ≡ self.old.entries ++ Entry.Opened
            (length self.old.requests.items) ∷ []) }
        ensures requests { OnOk result (self.new.requests.items ≡ self.old.requests.items ++ begun requester
            sent.entry.own opening sent.entry.message.now ∷ []) }
        ensures traffic { OnOk result (self.new.traffic.items ≡ self.old.traffic.items
            ++ (record { header = sent.entry.header; reply = None; busy = None }) ∷ []) }
        ensures order { OnOk result (self.new.order.items ≡ self.old.order.items) }
        ensures timely { OnOk result (self.new.timely ≡ self.old.timely) }
    {
        let number = self.requests.len() as u64;
        let SentRequest {
            own,
            header,
            message,
        } = sent;
        self.requests
            .push(OpenedRequest::new(requester, own, opening))?;
        // Its message is written where it stays, so that it is not moved.
        self.requests[number as usize].set_message(message);
        self.traffic.push(Traffic::new(header))?;
        self.enter(Entry::Opened(number))
    }

    /// Writes down what a tick found due at a requester, whose requests have these numbers over all requests.
    pub(crate) fn enter_due(&mut self, due: &Due, numbers: &[u64]) -> Result<(), Memory>
        requires numbered { AreNumbered (length numbers.now) due.now }
        requires opened { (number : ℕ) → list_any (λ n. n == number) (numbered numbers.now due.now.given_up.items)
            ≡ true → number < length self.old.requests.items }
        ensures entries { OnOk result (self.new.entries ≡ self.old.entries ++ Entry.Due (due_over_all numbers.now
            due.now) ∷ []) }
        ensures requests { OnOk result (AreChangedBy (progress_after (numbered numbers.now due.now.given_up.items))
            self.old.requests.items self.new.requests.items) }
        ensures rest { OnOk result (HasSameTraffic self.old self.new) }
    {
        // Most ticks find nothing: that is asked before what is due is moved anywhere.
        if due.again.is_empty() && due.given_up.is_empty() {
            return self.enter(Entry::Due(DueRequests::none()));
        }
        self.enter_some_due(&over_all(due, numbers))
    }

    /// Writes down what a tick found due, by numbers over all requests.
    fn enter_some_due(&mut self, due: &Due) -> Result<(), Memory>
        requires { (number : ℕ) → list_any (λ n. n == number) due.now.given_up.items ≡ true → number < length
            self.old.requests.items }
        ensures entries { OnOk result (self.new.entries ≡ self.old.entries ++ Entry.Due due.now ∷ []) }
        ensures requests { OnOk result (AreChangedBy (progress_after due.now.given_up.items)
            self.old.requests.items self.new.requests.items) }
        ensures rest { OnOk result (HasSameTraffic self.old self.new) }
    {
        self.give_up(&due.given_up);
        let due = DueRequests::new(self.arena, due)?;
        self.enter(Entry::Due(due))
    }

    /// The requests of these numbers are given up.
    fn give_up(&mut self, numbers: &[u64])
        requires { (number : ℕ) → list_any (λ n. n == number) numbers.now ≡ true → number < length
            self.old.requests.items }
        ensures requests { AreChangedBy (progress_after numbers.now) self.old.requests.items self.new.requests.items }
        ensures rest { self.new ≡ record self.old { requests = self.new.requests } }
    {
        for number in numbers {
            self.requests[*number as usize].give_up();
        }
    }

    /// Writes down what became of the packet of a request.
    pub(crate) fn enter_delivered(
        &mut self,
        number: u64,
        in_time: bool,
        busy: bool,
        taken: MessageOutcome,
        reply: &[u8],
    ) -> Result<(), Memory>
        requires { number < length self.old.traffic.items }
        ensures entries { OnOk result (self.new.entries ≡ self.old.entries ++ Entry.Delivered busy
            (answering reply.now taken) ∷ []) }
        ensures requests { OnOk result (self.new.requests.items ≡ self.old.requests.items) }
        ensures traffic { OnOk result (AreChangedBy (latest_answer_at number (length (outcomes_in self.old.entries))
            busy) self.old.traffic.items self.new.traffic.items) }
        ensures order { OnOk result (self.new.order.items ≡ self.old.order.items ++ fresh_numbers number
            (answering reply.now taken)) }
        ensures timely { OnOk result (self.new.timely ≡ (in_time && self.old.timely)) }
    {
        if let MessageOutcome::Answered { fresh: true, .. } = &taken {
            self.order.push(number)?;
        }
        self.timely = in_time && self.timely;
        // Looked up before this answer is the latest: a copy's answer is mostly the one before it, and is shared.
        let last = self.latest_delivery(number, busy);
        let delivery = Delivery::new(self.arena, taken, reply, last)?;
        self.point_to_next_delivery(number, busy);
        self.enter(Entry::Delivered { busy, delivery })
    }

    /// The latest answer to a request, a busy one or not, will be the next delivery.
    fn point_to_next_delivery(&mut self, number: u64, busy: bool)
        requires { number < length self.old.traffic.items }
        ensures traffic { AreChangedBy (latest_answer_at number (length (outcomes_in self.old.entries)) busy)
            self.old.traffic.items self.new.traffic.items }
        ensures rest { self.new ≡ record self.old { traffic = self.new.traffic } }
    {
        let place = self.entries.delivery_count();
        self.traffic[number as usize].set_latest_place(place, busy);
    }

    /// Writes down what a requester got from a packet of the latest answer to the request `sent`, a busy one or not.
    pub(crate) fn enter_received(
        &mut self,
        sent: u64,
        busy: bool,
        in_time: bool,
        got: Got,
        answered: Option<AnsweredRequest<'_>>,
    ) -> Result<(), Memory>
        requires { IfSome answered (λ a. a.number < length self.old.requests.items) }
        ensures entries { OnOk result (self.new.entries ≡ self.old.entries ++ Entry.Received got ∷ []) }
        ensures requests { OnOk result (AreChangedBy (answered_as answered.entry)
            self.old.requests.items self.new.requests.items) }
        ensures traffic { OnOk result (self.new.traffic.items ≡ self.old.traffic.items) }
        ensures order { OnOk result (self.new.order.items ≡ self.old.order.items) }
        ensures timely { OnOk result (self.new.timely ≡ (in_time && self.old.timely)) }
    {
        if let Some(AnsweredRequest { number, message }) = answered {
            let delivery = delivery_in(&self.entries, &self.traffic, sent, busy);
            self.requests[number as usize].answer(self.arena, message, delivery)?;
        }
        self.timely = in_time && self.timely;
        self.enter(Entry::Received(got))
    }
}

/// As [`Journal::latest_delivery`], with what it needs of a journal.
fn delivery_in<'e, 'a>(
    entries: &'e Entries<'a>,
    traffic: &[Traffic],
    number: u64,
    busy: bool,
) -> Option<&'e Delivery<'a>>
    ensures { option_and_then (λ delivery. packets_of_outcome delivery.now) result ≡ latest_packets
        entries.now busy (slice_get traffic.now number) }
{
    let place = traffic.get(number as usize)?.latest_place(busy)?;
    entries.delivery(place)
}

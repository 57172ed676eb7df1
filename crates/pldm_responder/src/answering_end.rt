//! The responding end of a link without its device: the open messages, the kept answers, and what each packet asks
//! for.

ghost use Rattle.std.specs.FinMap as map;
ghost use Rattle.std.specs.Prelude.{◌≡◌, ◌≢◌, ◌↔◌, ℕ, List, [], Ok, ◌+◌, ◌*◌, ◌≤◌, ◌<◌, ◌==◌, false, true, length, take, nat_lt, IfOk, IfErr, IfSome, IsErrOf, IsSome, OnOk, OnErr, if◌then◌else◌};
ghost use Rattle.mctp_packet.specs.Ids.{IsEid};
ghost use Rattle.mctp_packet.specs.declared.TheConstants.{MAX_MESSAGE_BYTES as most, NULL_EID};
ghost use Rattle.mctp_assembly.specs.declared.key.Key.{Key as KeyValue};
ghost use Rattle.pldm_responder.specs.Counts.{CountsKept};
ghost use Rattle.pldm_responder.specs.Ends.{ChangesOnlyAnswers, End, GetsRoom, end_at_first, end_restarted, IsOwn, IsSameEnd, eid_or_null, held_by};
ghost use Rattle.pldm_responder.specs.Arrivals.{Part, message_arrival};
ghost use Rattle.pldm_responder.specs.Looking.{OpensMessage, HasArrived, HasTaken, IsLastFor, IsReadBy, IsReply, IsRequestTo, IsSentTo, IsTakenOrRefused, arrival_in, end_closed, end_finished, is_past_open, message_at, standing};
ghost use Rattle.pldm_responder.specs.OpenOrder.{begins, is_shut_out_on, way_for};
ghost use Rattle.mctp_assembly.specs.Keys.{IsKey};
ghost use Rattle.pldm_responder.specs.Needs.{NeedsMemory};
ghost use Rattle.pldm_responder.specs.Reserving.{IsRoomAt, IsRoomFor, IsWhyNoRow, IsWithinSources};
ghost use Rattle.pldm_responder.specs.ResponderStates.{IsHeld};
ghost use Rattle.pldm_responder.specs.Slots.{MayBeKept, entry_in, in_front, in_place, kept_in, row_of, source_count};
ghost use Rattle.pldm_responder.specs.Steps.{assigned_held, received_arrival};

use crate::arriving::{Disposition, Intake, Request, RequestClass, RoomRefusal};
use crate::bounds::Bounds;
use crate::kept_answers::{KeptAnswers, Reserved};
use crate::open_order::{end_message, first_open, put_begun, reserve_begun};
use crate::performing::refuse;
use crate::responder_settings::ResponderSettings;
use mctp_assembly::{Assembled, Assembler, Key};
use mctp_packet::{
    Body, Eid, Keep, MAX_EID, MAX_MESSAGE_BYTES, MIN_EID, Memory, Moment, NULL_EID, PacketRef,
    Reason, Route, TAGS, Tag, read_for, reason_without_eid,
};
use pldm_wire::{Code, INSTANCE_IDS, RestartPolicy, read_request};
use std::alloc::Global;
use std::marker::Model;

/// The endpoints other than the own that a message can come from.
pub(crate) const OTHER_ENDPOINTS: usize = (MAX_EID - MIN_EID) as usize;

/// The most kept answers: one for each endpoint ID other than the own and each instance ID.
pub const MAX_KEPT: usize = OTHER_ENDPOINTS * INSTANCE_IDS as usize;

/// The most messages that have begun and not ended: one for each endpoint ID other than the own and
/// each tag.
pub const MAX_PENDING: usize = OTHER_ENDPOINTS * TAGS as usize;

/// The answering end at one endpoint, without a device. [`AnsweringEnd::take`] looks at a packet and
/// [`AnsweringEnd::standing`] at the request that it completes; then the request is done with: answered at once, or
/// first performed, with room for its answer that was reserved before.
#[derive(Drop)]
pub struct AnsweringEnd {
    alloc: Global,
    /// Its endpoint ID: `None` before it got one.
    own: Option<Eid>,
    keep: Keep,
    busy: RestartPolicy,
    bounds: Bounds,
    last: Moment,
    /// The moment in milliseconds from which it serves: the last restart's and the keeping time.
    serves_from: u64,
    /// Whether the oldest open message ends where one more would pass its bound.
    ends_oldest: bool,
    assembler: Assembler,
    /// The keys on which the open messages began, the oldest first; kept only where the oldest ends. Keys of messages
    /// that have ended may be among them.
    begun: Vec<Key>,
    kept: KeptAnswers,
}

impl Model for AnsweringEnd {
    ghost use Rattle.pldm_responder.specs.Ends.{End, coded_end, eid_or_null, AreAsked, IsIdle, IsWithin, KeepsForOthers};
    ghost use Rattle.pldm_responder.specs.OpenOrder.{IsOrdered};

    ghost Value = { End };

    ghost coded = { coded_end };

    ghost view = { λ e. record {
      own = eid_or_null e.own;
      busy = e.busy;
      keep = e.keep;
      bounds = e.bounds;
      ends_oldest = e.ends_oldest;
      open_messages = e.assembler;
      begun = e.begun.items;
      rows = e.kept;
      serves_from = e.serves_from;
      last = e.last;
    } };

    ghost invariant = { λ e.
        AreAsked (eid_or_null e.own) e.assembler × KeepsForOthers (eid_or_null e.own) e.kept
        × IsWithin e.bounds e.assembler e.kept × IsOrdered e.ends_oldest e.assembler e.begun.items
        × IsIdle (eid_or_null e.own) e.assembler e.kept };
}

impl AnsweringEnd {
    /// The endpoint `own`, or one that gets its endpoint ID later ([`AnsweringEnd::assign`]). It keeps answers as
    /// `keeping` says, and at a time no more than `bounds` allow. Where one more message would be open than they allow,
    /// the one that began first ends if `ends_oldest`, else the new one is refused. Nothing is open or kept, and its
    /// last moment is 0. It takes no memory.
    pub fn new(
        alloc: Global,
        own: Option<Eid>,
        keeping: ResponderSettings,
        bounds: Bounds,
        ends_oldest: bool,
    ) -> AnsweringEnd
        ensures { result ≡ end_at_first (eid_or_null own) keeping bounds ends_oldest }
    {
        let ResponderSettings { keep, window, busy } = keeping;
        AnsweringEnd {
            alloc,
            own,
            keep,
            busy,
            bounds,
            last: Moment::new(0).unwrap(),
            serves_from: 0,
            ends_oldest,
            assembler: Assembler::new(alloc),
            begun: Vec::new(alloc),
            kept: KeptAnswers::new(alloc, window),
        }
    }

    /// Its endpoint ID: `None` before it got one.
    #[inline(always)]
    pub fn own(&self) -> Option<Eid>
        ensures { eid_or_null result ≡ self.now.own }
    {
        self.own
    }

    /// Its endpoint ID as a number, the null one before it got one.
    fn own_number(&self) -> u8
        ensures value { result ≡ self.now.own }
        ensures range { IsOwn self.now.own }
    {
        match self.own {
            None => NULL_EID,
            Some(own) => own.get(),
        }
    }

    /// The moment of the last packet that was done with, of the last `restart` or of the last `assign`, whichever was
    /// later, 0 before the first.
    pub fn last_moment(&self) -> Moment
        ensures { result ≡ self.now.last }
    {
        self.last
    }

    /// The most that it keeps at a time.
    pub fn bounds(&self) -> Bounds
        ensures { result ≡ self.now.bounds }
    {
        self.bounds
    }

    /// Whether it does not serve yet at the moment `now`: it restarted less than the keeping time before.
    #[inline(always)]
    pub fn is_busy(&self, now: Moment) -> bool
        ensures { result ≡ nat_lt now self.now.serves_from }
    {
        self.serves_from > now.get()
    }

    /// Lets the time pass up to the moment `now`, and changes nothing else.
    pub fn pass_time(&mut self, now: Moment)
        ensures { self.new ≡ record self.old { last = now } }
    {
        self.last = now;
    }

    /// Restarts at the moment `now`. The kept answers and the messages that have begun are lost, and for the keeping
    /// time from then on it is busy.
    pub fn restart(&mut self, now: Moment)
        ensures { self.new ≡ end_restarted self.old now }
    {
        self.assembler = Assembler::new(self.alloc);
        self.begun.clear();
        self.kept = KeptAnswers::new(self.alloc, self.kept.window());
        self.serves_from = now.get() + u64::from(self.keep.get());
        self.last = now;
    }

    /// Gives it the endpoint ID `eid` at the moment `now`. Where it had one before, that is a restart: packets to that
    /// one may still come, and it may get that one back. Where it had none, nothing was performed, and it serves as
    /// before.
    pub fn assign(&mut self, now: Moment, eid: Eid)
        ensures held { IsHeld (held_by self.new) (assigned_held (held_by self.old) now eid) }
        ensures bounds { self.new.bounds ≡ self.old.bounds }
        ensures ends_oldest { self.new.ends_oldest ≡ self.old.ends_oldest }
        ensures begun { self.new.begun ≡ [] }
        ensures no_rows { source_count self.new.rows ≡ 0 }
        ensures none { (source : ℕ) → kept_in self.new.rows source ≡ [] }
    {
        let serves_from = self.serves_once_assigned(now);
        self.restart(now);
        self.serves_from = serves_from;
        self.own = Some(eid);
    }

    /// The moment from which it serves, once another endpoint ID was assigned at the moment `now`. Where it has none
    /// now, nothing is kept.
    fn serves_once_assigned(&self, now: Moment) -> u64
        ensures moment { result
            ≡ (if self.now.own == NULL_EID then self.now.serves_from else now + self.now.keep) }
        ensures idle { self.now.own ≡ NULL_EID → source_count self.now.rows ≡ 0 }
    {
        match self.own {
            None => self.serves_from, // it performed nothing
            Some(own) => {
                let _eid = own.get(); // for the proof: not the null one
                now.get() + u64::from(self.keep.get())
            }
        }
    }

    /// Takes the bytes of a packet that came at the moment `now`. Nothing more is to be done with a packet that is
    /// dropped or is a part of a message. A request that the packet completes is returned, and nothing is done with it:
    /// the caller serves it, and then calls [`AnsweringEnd::finish`]. The last packet of several is returned as it was
    /// read, for [`AnsweringEnd::take_last`]: only that needs room for a message.
    ///
    /// # Errors
    ///
    /// `OpenMessages` exactly where a packet begins a message of several packets, none is open on its key, and as many
    /// are open as [`Bounds::open_messages`] allow: where the oldest ends, only if none may be open at all. `Memory`
    /// where a growth was refused. Only a start packet that gives `Partial` needs memory.
    #[inline(always)]
    pub fn take<'a>(&mut self, now: Moment, bytes: &'a [u8]) -> Result<Intake<'a>, RoomRefusal>
        ensures ok { IfOk result (HasTaken self.old now bytes.now self.new) }
        ensures err { OnErr result (self.new ≡ self.old) }
        ensures sources { IsErrOf result RoomRefusal.Sources → ⊥ }
        ensures open_messages { IsErrOf result RoomRefusal.OpenMessages ↔ (is_past_open self.old bytes.now ≡ true) }
        ensures part { OnErr result (received_arrival (held_by self.old) now bytes.now ≡ Part) }
        ensures needs { OnErr result (NeedsMemory (held_by self.old) true now bytes.now) }
    {
        let Some(own) = self.own else {
            return Ok(Intake::Decided(self.dropped(now, reason_without_eid(bytes))));
        };
        let packet = match read_for(own, bytes) {
            Ok(packet) => packet,
            Err(reason) => return Ok(Intake::Decided(self.dropped(now, reason))),
        };
        let route = packet.route();
        if !route.owner {
            return Ok(Intake::Decided(self.dropped(now, Reason::BadTag)));
        }
        if !packet.end() {
            return Ok(Intake::Decided(self.take_part(now, &packet)?));
        }
        if !packet.start() {
            return Ok(Intake::Last(packet));
        }
        Ok(Intake::Decided(self.read(now, &route, packet.payload())))
    }

    /// Takes a packet of a message of several packets that is not its last one. It is addressed to the endpoint by
    /// another one, with TO 1.
    // Not inlined: a message of one packet, the usual one, then needs none of its stack.
    #[inline(never)]
    fn take_part<'a>(
        &mut self,
        now: Moment,
        packet: &PacketRef<'_>,
    ) -> Result<Disposition<'a>, RoomRefusal>
        requires goes_on { packet.now.end ≡ false }
        requires sent { IsSentTo self.old packet.now }
        ensures taken { IsTakenOrRefused self.old now packet.now self.new result }
        ensures room { OnErr result (OpensMessage self.old packet.now) }
    {
        if packet.start() {
            return self.begin(now, packet);
        }
        let given = self.assembler.feed_part(packet)?;
        self.last = now;
        Ok(match given {
            Assembled::Whole | Assembled::Partial => Disposition::Partial,
            Assembled::Dropped(reason) => Disposition::Dropped(reason),
        })
    }

    /// Takes the last packet of a message of several packets, as [`AnsweringEnd::take`] returned it and with nothing
    /// done since: a request that it completes is returned, and its bytes are put into `room`.
    pub fn take_last<'a>(
        &mut self,
        now: Moment,
        packet: &PacketRef<'_>,
        room: &'a mut Body,
    ) -> Disposition<'a>
        requires last { IsLastFor self.old packet.now }
        ensures { HasArrived self.old now (Ok packet.now) self.new result }
    {
        match self.assembler.feed_without_ending(packet, room) {
            Ok(Assembled::Whole) => self.read(now, &packet.route(), room),
            Ok(Assembled::Partial) => {
                self.last = now;
                Disposition::Partial
            }
            Ok(Assembled::Dropped(reason)) => {
                self.last = now;
                Disposition::Dropped(reason)
            }
            Err(_) => unreachable!(), // only a first packet takes memory
        }
    }

    /// Reads a whole message, whose packets had this route. Where it is no request, its packets are no longer open.
    #[inline(always)]
    fn read<'a>(&mut self, now: Moment, route: &Route, message: &'a [u8]) -> Disposition<'a>
        requires few { length message.now ≤ most }
        ensures arrival { arrival_in now result ≡ message_arrival route.now.source route.now.tag now message.now }
        ensures left { IsReadBy self.old now route.now message.now self.new result }
    {
        match read_request(message) {
            Ok(read) => {
                self.kept.look_for(route.source);
                Disposition::Request(Request::new(route, message, read))
            }
            Err(reason) => {
                self.forget(now, route.source, route.tag);
                Disposition::Dropped(reason)
            }
        }
    }

    /// A packet that is dropped at the moment `now`, and touches nothing that is open.
    #[inline(always)]
    fn dropped<'a>(&mut self, now: Moment, reason: Reason) -> Disposition<'a>
        ensures value { result ≡ Disposition.Dropped reason }
        ensures left { self.new ≡ record self.old { last = now } }
    {
        self.last = now;
        Disposition::Dropped(reason)
    }

    /// Takes a packet that begins a message of several packets. Where there is no room, the oldest message ends.
    fn begin<'a>(
        &mut self,
        now: Moment,
        packet: &PacketRef<'_>,
    ) -> Result<Disposition<'a>, RoomRefusal>
        requires begins { begins packet.now ≡ true }
        requires sent { IsSentTo self.old packet.now }
        ensures { IsTakenOrRefused self.old now packet.now self.new result }
    {
        let ended = self.way_for(Key::of(packet))?;
        reserve_begun(&mut self.begun, self.ends_oldest)?;
        self.assembler.feed_part(packet)?;
        end_message(&mut self.assembler, ended);
        put_begun(
            &mut self.begun,
            self.ends_oldest,
            Key::of(packet),
            &self.assembler,
        );
        self.last = now;
        Ok(Disposition::Partial)
    }

    /// The key whose message has to end so that a message can begin on this key.
    fn way_for(&self, key: Key) -> Result<Option<Key>, RoomRefusal>
        requires { IsKey key }
        ensures ok { IfOk result (λ ended. ended ≡ way_for self.now key) }
        ensures err { IfErr result (λ refusal. refusal ≡ RoomRefusal.OpenMessages) }
        ensures shut_out { IsErrOf result RoomRefusal.OpenMessages ↔ (is_shut_out_on self.now key ≡ true) }
    {
        if self.assembler.pending() < self.bounds.open_messages || self.assembler.is_open(key) {
            return Ok(None);
        }
        if !self.ends_oldest {
            return Err(RoomRefusal::OpenMessages);
        }
        match first_open(&self.begun, &self.assembler) {
            Some(oldest) => Ok(Some(oldest)),
            None => Err(RoomRefusal::OpenMessages),
        }
    }

    /// What a request that came at the moment `now` is. The message that answers one that is refused in the busy time,
    /// or a copy, is put into `reply`: nothing where the answer is still to come. For a fresh one what `reply` then
    /// holds is not specified.
    #[inline(always)]
    pub fn standing(&self, now: Moment, request: &Request<'_>, reply: &mut Body) -> RequestClass
        ensures standing { result ≡ standing (held_by self.now) (message_at now request.now) }
        ensures reply { IsReply (held_by self.now) (message_at now request.now) reply.new.items result }
    {
        if self.is_busy(now) && self.busy.refuses(request.read()) {
            refuse(request.read(), Code::ERROR_NOT_READY, reply);
            return RequestClass::Busy;
        }
        match self.kept.get(request.source(), request.id()) {
            Some(kept) if kept.is_repeated(self.keep, now, request.bytes()) => {
                reply.clear();
                reply.try_extend_from_slice(kept.answer()).unwrap();
                RequestClass::Copy
            }
            _ => RequestClass::Fresh,
        }
    }

    /// Reserves the room for the answer to a request. Until it is put in, the end keeps what it kept before; room that
    /// is dropped is freed.
    ///
    /// # Errors
    ///
    /// `Sources` exactly where the source has no room yet and as many sources have as [`Bounds::sources`] allow.
    /// `Memory` where it has none and a growth was refused.
    #[inline(always)]
    pub fn reserve(&mut self, request: &Request<'_>) -> Result<Reserved, RoomRefusal>
        ensures same { IsSameEnd self.new self.old }
        ensures ok { IfOk result (IsRoomFor self.new.rows request.now.source) }
        ensures few { IfOk result (IsWithinSources self.new.rows self.new.bounds.sources) }
        ensures err { IfErr result (IsWhyNoRow self.old.rows self.old.bounds.sources request.now.source) }
    {
        self.kept.reserve(request.source(), self.bounds.sources)
    }

    /// Puts the room for the answers to the source of a request in, for an answer that is to come.
    #[inline(always)]
    pub fn put_room(&mut self, request: &Request<'_>, reserved: Reserved)
        requires request { IsRequestTo self.old request.now }
        requires room { IsRoomAt self.old request.now.source reserved }
        ensures { GetsRoom request.now.source self.new self.old }
    {
        let _own = request.destination(); // for the proof: an endpoint ID
        self.kept.put_row(request.source(), reserved);
    }

    /// Keeps the answer to a request, which came at the moment `now`, in the place of the one that is kept for its
    /// instance ID; an empty one is still to come. Where the window has no more room, the answer for the instance ID of
    /// the oldest request falls out. There has to be room for the source. It takes no memory.
    #[inline(always)]
    pub fn keep(&mut self, now: Moment, request: &Request<'_>, answer: &[u8])
        requires room { IsSome (row_of self.old.rows request.now.source) }
        requires few { length answer.now ≤ most }
        ensures { ChangesOnlyAnswers request.now.source (in_front self.old.rows.window
            (record { moment = now; bytes = request.now.bytes; answer = answer.now })) self.new self.old }
    {
        let (source, id) = (request.source(), request.id());
        self.kept.put(source, id, now, request.bytes(), answer);
    }

    /// Keeps the answer to a request of this source, instance ID, moment and bytes that came later than it: it takes
    /// the request's place in the order, and where that fell out of the window it is not kept. It takes no memory.
    pub fn keep_late(&mut self, source: Eid, id: u8, moment: Moment, bytes: &[u8], answer: &[u8])
        requires { MayBeKept id bytes.now answer.now }
        ensures { ChangesOnlyAnswers source
            (in_place (record { moment = moment; bytes = bytes.now; answer = answer.now })) self.new self.old }
    {
        self.kept.replace(source, id, moment, bytes, answer);
    }

    /// Ends a request, which came at the moment `now`: its packets are no longer open, and it is the last that was done
    /// with.
    #[inline(always)]
    pub fn finish(&mut self, now: Moment, request: &Request<'_>)
        ensures { self.new ≡ end_finished self.old now request.now }
    {
        self.forget(now, request.source(), request.tag());
    }

    /// Ends what is open of a source and tag, at the moment `now`.
    #[inline(always)]
    fn forget(&mut self, now: Moment, source: Eid, tag: Tag)
        ensures { self.new ≡ end_closed self.old now source tag }
    {
        self.assembler.forget(Key {
            source,
            tag,
            owner: true,
        });
        self.last = now;
    }

    /// How many pairs of a source and an instance ID have a kept answer: at most [`MAX_KEPT`], each of
    /// at most [`MAX_MESSAGE_BYTES`] bytes.
    pub fn kept(&self) -> usize
        ensures value { CountsKept (entry_in self.now.rows) result }
        ensures few { result ≤ MAX_KEPT }
        ensures bounded { result ≤ self.now.rows.window * self.now.bounds.sources }
        ensures small { (source id : ℕ) → IfSome (entry_in self.now.rows source id)
            (λ entry. length entry.answer ≤ MAX_MESSAGE_BYTES) }
    {
        let _range = self.own_number(); // for the proof: an endpoint ID, or none
        self.kept.count()
    }

    /// How many sources have room for their answers, at most [`Bounds::sources`].
    pub fn sources(&self) -> usize
        ensures value { result ≡ source_count self.now.rows }
        ensures bounded { result ≤ self.now.bounds.sources }
    {
        self.kept.sources()
    }

    /// How many messages have begun and not ended: at most [`MAX_PENDING`], each of at most
    /// [`MAX_MESSAGE_BYTES`] bytes.
    pub fn open_messages(&self) -> usize
        ensures value { result ≡ map.len self.now.open_messages }
        ensures few { result ≤ MAX_PENDING }
        ensures bounded { result ≤ self.now.bounds.open_messages }
        ensures small { (key : KeyValue) → IfSome (map.get self.now.open_messages key)
            (λ o. length o.bytes ≤ MAX_MESSAGE_BYTES) }
    {
        let _range = self.own_number(); // for the proof: an endpoint ID, or none
        self.assembler.pending()
    }
}

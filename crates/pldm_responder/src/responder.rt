//! The responding end of a link, over a platform that answers at once.

ghost use Rattle.std.specs.Borrow.{Lends, sem};
ghost use Rattle.std.specs.FinMap as map;
ghost use Rattle.std.specs.Prelude.{◌≡◌, ◌≢◌, ℕ, ◌*◌, ◌≤◌, ◌<◌, List, [], Ok, length, nat_lt, IfOk, IfSome, OnErr};
ghost use Rattle.mctp_assembly.specs.declared.key.Key.{Key as KeyValue};
ghost use Rattle.pldm_platform.specs.Changes.{made_of};
ghost use Rattle.pldm_wire.specs.declared.assigned.TheConstants.{INSTANCE_IDS};
ghost use Rattle.pldm_wire.specs.declared.restart_policy.RestartPolicy.TheVariants.{All};
ghost use Rattle.pldm_responder.specs.Answering.{HasReply, answering, outcome_on};
ghost use Rattle.pldm_responder.specs.Arrivals.{request_packet, way_back};
ghost use Rattle.pldm_responder.specs.Counts.{CountsKept};
ghost use Rattle.pldm_responder.specs.ResponderStates.{IsHeld, held_at_first};
ghost use Rattle.pldm_responder.specs.Performing.{rules_of};
ghost use Rattle.pldm_responder.specs.Receiving.{HasReceived, IsRefusedMemory};
ghost use Rattle.pldm_responder.specs.Looking.{IsLastFor, IsRequestTo, message_at};
ghost use Rattle.pldm_responder.specs.Serving.{IsNotPerformed, IsNotServed, IsPerformed, IsServed};
ghost use Rattle.pldm_responder.specs.Reserving.{IsWhyNoRoom};
ghost use Rattle.pldm_responder.specs.Slots.{source_count};
ghost use Rattle.pldm_responder.specs.ResponderViews.{held_of, with_platform};
ghost use Rattle.pldm_responder.specs.Steps.{assigned_held, kept_for, restarted_held, sensed_held, updated_held};
ghost use Rattle.pldm_responder.specs.Ends.{eid_or_null, unreached};
ghost use Rattle.pldm_responder.specs.contracts.responder.Responder.{the_row};

use crate::answering_end::{AnsweringEnd, MAX_KEPT, MAX_PENDING};
use crate::arriving::{Disposition, Intake, Request, RequestClass, RoomRefusal};
use crate::bounds::Bounds;
use crate::outcome::{MessageOutcome, Outcome};
use crate::performing::perform;
use crate::responder_settings::ResponderSettings;
use crate::routes::outcome_on;
use mctp_packet::{Body, Eid, Keep, MAX_MESSAGE_BYTES, Memory, Moment, PacketRef};
use pldm_platform::{Platform, ReadingFault};
use pldm_wire::Answer;
use std::alloc::Global;
use std::marker::Model;

/// The responding end at one endpoint: packets in, each fresh request performed once by the platform, and
/// answers out.
#[derive(Drop)]
pub struct Responder<P: Platform> {
    alloc: Global,
    end: AnsweringEnd,
    platform: P,
    /// Room for the platform's answer. It is made once, and not for each request.
    room: Answer,
}

impl<P: Platform> Model for Responder<P> {
    ghost use Rattle.std.specs.Prelude.{◌≡◌, false};
    ghost use Rattle.pldm_responder.specs.Ends.{AreAnswered};
    ghost use Rattle.pldm_responder.specs.ResponderViews.{ResponderView, coded_view};

    ghost Value = { ResponderView P P.State };

    ghost coded = { coded_view P.code P.State.code };

    ghost view = { λ r. record { end = r.end; platform = r.platform; state = P.state r.platform } };

    ghost invariant = { λ r. (r.end.ends_oldest ≡ false) × AreAnswered r.end.rows };
}

impl<P: Platform> Responder<P> {
    /// The endpoint `own` with this platform behind it. It keeps each answer for `keep`, and its last
    /// moment is 0.
    pub fn new(alloc: Global, own: Eid, keep: Keep, platform: P) -> Responder<P>
        ensures held { IsHeld (held_of result) (held_at_first own All INSTANCE_IDS keep (P.state platform)) }
        ensures bounds { result.end.bounds ≡ unreached }
        ensures platform { result.platform ≡ platform }
    {
        Responder::bounded(
            alloc,
            Some(own),
            ResponderSettings::each_for(keep),
            Bounds::UNREACHED,
            platform,
        )
    }

    /// The endpoint `own`, or one that gets its endpoint ID later ([`Responder::assign`]), with this platform behind
    /// it. It keeps answers as `keeping` says, and at a time no more than `bounds` allow.
    pub fn bounded(
        alloc: Global,
        own: Option<Eid>,
        keeping: ResponderSettings,
        bounds: Bounds,
        platform: P,
    ) -> Responder<P>
        ensures held { IsHeld (held_of result)
            (held_at_first (eid_or_null own) keeping.busy keeping.window keeping.keep (P.state platform)) }
        ensures bounds { result.end.bounds ≡ bounds }
        ensures platform { result.platform ≡ platform }
    {
        Responder {
            alloc,
            end: AnsweringEnd::new(alloc, own, keeping, bounds, false),
            platform,
            room: Answer::SetTid,
        }
    }

    /// Its endpoint ID: `None` before it got one.
    pub fn own(&self) -> Option<Eid>
        ensures { eid_or_null result ≡ (held_of self.now).own }
    {
        self.end.own()
    }

    /// The moment of the last `receive` that did not answer Memory, of the last `restart` or of the last `assign`,
    /// whichever was later, 0 before the first.
    pub fn last_moment(&self) -> Moment
        ensures { result ≡ (held_of self.now).last }
    {
        self.end.last_moment()
    }

    /// The most that it keeps at a time.
    pub fn bounds(&self) -> Bounds
        ensures { result ≡ self.now.end.bounds }
    {
        self.end.bounds()
    }

    /// The platform.
    pub fn platform(&self) -> &P
        ensures state { P.state result.now ≡ (held_of self.now).state }
        ensures value { result.now ≡ self.now.platform }
    {
        &self.platform
    }

    /// The platform, where the responder is no longer wanted.
    pub fn into_platform(self) -> P
        ensures state { P.state result ≡ (held_of self).state }
        ensures value { result ≡ self.platform }
    {
        let Responder { platform, .. } = self;
        platform
    }

    /// Gives the platform's numeric sensor with this ID the reading `value`. A fault leaves all as it
    /// was.
    pub fn set_reading(&mut self, id: u16, value: i64) -> Result<(), ReadingFault>
        ensures answer { result ≡ made_of (λ _. tt) (P.sensed (held_of self.old).state id value) }
        ensures held { IsHeld (held_of self.new)
            (sensed_held (rules_of P.answer P.after P.sensed) (held_of self.old) id value) }
        ensures performed { P.performed self.old.platform [] self.new.platform }
        ensures end { self.new.end ≡ self.old.end }
    {
        self.platform.set_reading(id, value)
    }

    /// Restarts at the moment `now`, which must not be before [`Responder::last_moment`]. The kept
    /// answers and the messages that have begun are lost, and the platform is as before. For the
    /// keeping time from then on the responder is busy: a request that it answered before the restart
    /// may still be repeated, so none is performed, or none of those that [`ResponderSettings::busy`] names.
    pub fn restart(&mut self, now: Moment)
        requires { (held_of self.old).last ≤ now }
        ensures held { IsHeld (held_of self.new) (restarted_held (held_of self.old) now) }
        ensures bounds { self.new.end.bounds ≡ self.old.end.bounds }
        ensures no_rows { source_count self.new.end.rows ≡ 0 }
        ensures platform { self.new.platform ≡ self.old.platform }
    {
        self.end.restart(now);
    }

    /// Gives it the endpoint ID `eid` at the moment `now`, which must not be before [`Responder::last_moment`]
    /// (DSP0236, "Set Endpoint ID"). Messages that have begun and kept answers are lost. Where it had an endpoint ID
    /// before, that is a restart: a packet to that one may still come when it has that one again. Where it had none, it
    /// serves as before.
    pub fn assign(&mut self, now: Moment, eid: Eid)
        requires { (held_of self.old).last ≤ now }
        ensures held { IsHeld (held_of self.new) (assigned_held (held_of self.old) now eid) }
        ensures bounds { self.new.end.bounds ≡ self.old.end.bounds }
        ensures no_rows { source_count self.new.end.rows ≡ 0 }
        ensures platform { self.new.platform ≡ self.old.platform }
    {
        self.end.assign(now, eid);
    }

    /// Puts another platform in the place of this one, and leaves all else as it is: a change from outside, to
    /// the other one's state.
    pub fn replace(&mut self, platform: P)
        ensures value { self.new ≡ with_platform P.state self.old platform }
        ensures held { IsHeld (held_of self.new) (updated_held (held_of self.old) (P.state platform)) }
    {
        self.platform = platform;
    }

    /// Lends the platform for a change from outside, as that of a sensor whose reading was taken. What the caller
    /// leaves behind the reference is the platform from then on; all else stays. A copy of a request that was
    /// performed before gets its old answer, and the next fresh one is performed on what was left.
    ///
    /// # Example
    ///
    /// A lamp of the crate `lamp_board` is turned by hand:
    ///
    /// ```
    /// responder.update().turn(70);
    /// ```
    pub fn update(&mut self) -> &mut P
        ensures value { result.now ≡ self.old.platform }
        ensures* lent { sem 𝓛 (Lends (the_row P.row P.State.row P.Platform) P.row self.entry result
            (with_platform P.state self.old)) }
    {
        &mut self.platform
    }

    /// Whether the responder is busy at the moment `now`, which must not be before
    /// [`Responder::last_moment`]: it restarted less than the keeping time before.
    pub fn busy(&self, now: Moment) -> bool
        requires { (held_of self.now).last ≤ now }
        ensures { result ≡ nat_lt now (held_of self.now).serves_from }
    {
        self.end.is_busy(now)
    }

    /// Takes the bytes of a packet that came at the moment `now`, which must not be before
    /// [`Responder::last_moment`], and gives what becomes of them.
    ///
    /// A packet that is addressed to the endpoint by another one, with TO 1, is assembled. A request that is whole is a
    /// copy where the latest one of its source and instance ID that was performed or refused since the last restart has
    /// the same bytes, and came less than the keeping time before, and since then fewer other instance IDs of its
    /// source had such a request than the window counts: then it gets that request's answer. Else it is performed, and
    /// its answer is kept, a refusal too (DSP0240, "PLDM message fields", the instance ID). While the responder is
    /// busy, each request that [`ResponderSettings::busy`] names is answered with ERROR_NOT_READY, and is neither
    /// performed nor kept. The answer goes back to the source, with TO 0 and the tag of the packets that just came.
    ///
    /// # Errors
    ///
    /// `Memory` where a growth was refused; the responder is then as before. Only a start packet that
    /// gives `Partial`, a request that is performed and whose source has no kept answer, and one that
    /// is performed by a platform that is not steady need memory.
    pub fn receive(&mut self, now: Moment, bytes: &[u8]) -> Result<Outcome, Memory>
        requires { (held_of self.old).last ≤ now }
        ensures received { IfOk result
            (HasReceived P.performed self.old now bytes.now self.new (rules_of P.answer P.after P.sensed)) }
        ensures refused { OnErr result (IsRefusedMemory P.performed self.old now bytes.now self.new P.STEADY) }
    {
        let mut reply = Body::new();
        let taken = self.receive_message(now, bytes, &mut reply)?;
        Ok(taken.outcome(&reply))
    }

    /// Takes the bytes of a packet as [`Responder::receive`] does. The message that answers it is put
    /// into `reply` whole, with no packet made of it. Where nothing is answered, what `reply` then holds
    /// is not specified.
    ///
    /// # Errors
    ///
    /// `Memory` as from [`Responder::receive`]; what `reply` then holds is not specified.
    // Inlined: its result is then made where it is wanted, and not copied there.
    #[inline(always)]
    pub fn receive_message(
        &mut self,
        now: Moment,
        bytes: &[u8],
        reply: &mut Body,
    ) -> Result<MessageOutcome, Memory>
        requires { (held_of self.old).last ≤ now }
        ensures received { IfOk result (λ taken. HasReceived P.performed self.old now bytes.now self.new
            (rules_of P.answer P.after P.sensed) (answering reply.new.items taken)) }
        ensures some { IfOk result (HasReply reply.new.items) }
        ensures refused { OnErr result (IsRefusedMemory P.performed self.old now bytes.now self.new P.STEADY) }
    {
        match self.end.take(now, bytes) {
            Ok(Intake::Decided(Disposition::Dropped(reason))) => Ok(MessageOutcome::Dropped(
                reason,
            )),
            Ok(Intake::Decided(Disposition::Partial)) => Ok(MessageOutcome::Partial),
            Ok(Intake::Decided(Disposition::Request(request))) => self.serve(now, &request, reply),
            Ok(Intake::Last(packet)) => self.receive_last(now, &packet, reply),
            Err(refusal) => Err(self.memory_of(refusal)),
        }
    }

    /// Takes the last packet of a message of several packets. The message that answers it is put into `reply`.
    // Not inlined: the room for the message's bytes is cleared, and is on the stack, for such a message alone.
    #[inline(never)]
    fn receive_last(
        &mut self,
        now: Moment,
        packet: &PacketRef<'_>,
        reply: &mut Body,
    ) -> Result<MessageOutcome, Memory>
        requires last { IsLastFor self.old.end packet.now }
        ensures received { (bytes : List ℕ) → request_packet self.old.end.own bytes ≡ Ok packet.now
            → IfOk result (λ taken. HasReceived P.performed self.old now bytes self.new
            (rules_of P.answer P.after P.sensed) (answering reply.new.items taken)) }
        ensures some { IfOk result (HasReply reply.new.items) }
        ensures refused { (bytes : List ℕ) → request_packet self.old.end.own bytes ≡ Ok packet.now
            → OnErr result (IsRefusedMemory P.performed self.old now bytes self.new P.STEADY) }
    {
        let mut room = Body::new();
        match self.end.take_last(now, packet, &mut room) {
            Disposition::Dropped(reason) => Ok(MessageOutcome::Dropped(reason)),
            Disposition::Partial => Ok(MessageOutcome::Partial),
            Disposition::Request(request) => self.serve(now, &request, reply),
        }
    }

    /// Serves a request. The message that answers it is put into `reply`.
    // Inlined: its result is then made where it is wanted.
    #[inline(always)]
    fn serve(
        &mut self,
        now: Moment,
        request: &Request<'_>,
        reply: &mut Body,
    ) -> Result<MessageOutcome, Memory>
        requires { IsRequestTo self.old.end request.now }
        ensures ok { IfOk result (IsServed P.performed self.old now request.now self.new
            (rules_of P.answer P.after P.sensed) reply.new.items) }
        ensures err { OnErr result (IsNotServed P.performed self.old now request.now self.new P.STEADY) }
    {
        let changed = self.settle(now, request, reply)?;
        Ok(outcome_on(request.way_back(), changed))
    }

    /// Serves a request. The result is `None` where it was not performed, else whether it is of a command that sets and
    /// was not refused.
    // Not inlined: most of the code stands here. Its result is small, since what is returned in parts and then moved
    // as a whole is waited for.
    #[inline(never)]
    fn settle(
        &mut self,
        now: Moment,
        request: &Request<'_>,
        reply: &mut Body,
    ) -> Result<Option<bool>, Memory>
        requires { IsRequestTo self.old.end request.now }
        ensures ok { IfOk result (λ changed. IsServed P.performed self.old now request.now self.new
            (rules_of P.answer P.after P.sensed) reply.new.items
            (outcome_on (way_back self.old.end.own (message_at now request.now)) changed)) }
        ensures err { OnErr result (IsNotServed P.performed self.old now request.now self.new P.STEADY) }
    {
        if self.end.standing(now, request, reply) != RequestClass::Fresh {
            self.end.finish(now, request);
            return Ok(None);
        }
        let changed = self.perform(now, request, reply)?;
        self.end.finish(now, request);
        Ok(Some(changed))
    }

    /// Performs a fresh request, or refuses it, and keeps its answer, which is put into `reply`. The result is whether
    /// it is of a command that sets, and was not refused.
    #[inline(always)]
    fn perform(
        &mut self,
        now: Moment,
        request: &Request<'_>,
        reply: &mut Body,
    ) -> Result<bool, Memory>
        requires { IsRequestTo self.old.end request.now }
        ensures ok { IfOk result (IsPerformed P.performed self.old now request.now self.new
            (rules_of P.answer P.after P.sensed) reply.new.items) }
        ensures err { OnErr result (IsNotPerformed P.performed self.old now request.now self.new P.STEADY) }
    {
        let reserved = match self.end.reserve(request) {
            Ok(reserved) => reserved,
            Err(refusal) => return Err(self.memory_of(refusal)),
        };
        let (platform, room) = (&mut self.platform, &mut self.room);
        let changed = perform(self.alloc, platform, request.read(), room, reply)?;
        self.end.put_room(request, reserved);
        self.end.keep(now, request, reply);
        Ok(changed)
    }

    /// The `Memory` error for which there is no room: a growth was refused, or a bound is reached.
    fn memory_of(&self, refusal: RoomRefusal) -> Memory
        requires { IsWhyNoRoom self.now.end refusal }
    {
        let bounds = self.end.bounds();
        match refusal {
            RoomRefusal::Memory(memory) => memory,
            RoomRefusal::Sources => Memory::at_limit(self.end.sources(), bounds.sources),
            RoomRefusal::OpenMessages => {
                Memory::at_limit(self.end.open_messages(), bounds.open_messages)
            }
        }
    }

    /// How many pairs of a source and an instance ID have a kept answer: at most [`MAX_KEPT`], each of
    /// at most [`MAX_MESSAGE_BYTES`] bytes.
    pub fn kept(&self) -> usize
        ensures value { CountsKept (kept_for (held_of self.now)) result }
        ensures few { result ≤ MAX_KEPT }
        ensures bounded { result ≤ self.now.end.rows.window * self.now.end.bounds.sources }
        ensures small { (source id : ℕ) → IfSome (kept_for (held_of self.now) source id)
            (λ entry. length entry.answer ≤ MAX_MESSAGE_BYTES) }
    {
        self.end.kept()
    }

    /// How many messages have begun and not ended: at most [`MAX_PENDING`], each of at most
    /// [`MAX_MESSAGE_BYTES`] bytes.
    pub fn pending(&self) -> usize
        ensures value { result ≡ map.len (held_of self.now).open_messages }
        ensures few { result ≤ MAX_PENDING }
        ensures bounded { result ≤ self.now.end.bounds.open_messages }
        ensures small { (key : KeyValue) → IfSome (map.get (held_of self.now).open_messages key)
            (λ o. length o.bytes ≤ MAX_MESSAGE_BYTES) }
    {
        self.end.open_messages()
    }
}

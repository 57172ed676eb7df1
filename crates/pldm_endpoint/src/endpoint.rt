//! The responding end of a link over a device that answers later: a request is handed out, and its answer comes back.

ghost use Rattle.std.specs.FinMap as map;
ghost use Rattle.std.specs.Prelude.{◌≡◌, ◌<◌, ◌≤◌, ◌*◌, ℕ, true, List, [], ◌∷◌, Ok, length, None, option_map, IfOk, IfErr, IfSome, IsSome, OnErr, OnOk};
ghost use Rattle.mctp_packet.specs.declared.TheConstants.{MAX_MESSAGE_BYTES};
ghost use Rattle.pldm_wire.specs.HandingOn.{hands_on};
ghost use Rattle.pldm_wire.specs.declared.limits.TheConstants.{MAX_REQUEST_DATA};
ghost use Rattle.pldm_responder.specs.Answering.{HasReply, answering};
ghost use Rattle.pldm_responder.specs.Arrivals.{request_packet};
ghost use Rattle.pldm_responder.specs.Asked.{Answered, Given};
ghost use Rattle.pldm_responder.specs.Counts.{CountsKept};
ghost use Rattle.pldm_responder.specs.Ends.{eid_or_null};
ghost use Rattle.pldm_responder.specs.ResponderStates.{IsHeld};
ghost use Rattle.pldm_responder.specs.Looking.{IsLastFor, IsRequestTo};
ghost use Rattle.pldm_responder.specs.Performing.{tasks_of};
ghost use Rattle.pldm_responder.specs.Slots.{source_count};
ghost use Rattle.pldm_responder.specs.Steps.{assigned_held, kept_for, restarted_held};
ghost use Rattle.pldm_endpoint.specs.Receiving.{HasAnswered, HasForgotten, HasReceived, HasServed, IsNewEndpoint, IsNotServed, IsRefused, IsRefusedBy, IsToBeServed};
ghost use Rattle.pldm_endpoint.specs.Giving.{IsReplyOf, busy_with, pending_command, response_of};
ghost use Rattle.pldm_endpoint.specs.Refusing.{IsWhyNotTaken, is_full};
ghost use Rattle.pldm_endpoint.specs.RequestKeys.{pending_at};
ghost use Rattle.pldm_endpoint.specs.Stepping.{StepHasReply, stepping};
ghost use Rattle.pldm_endpoint.specs.TwoSteps.{IsItsAnswer, held_in, request_at, task_in};

use crate::pending_commands::{PendingCommand, PendingCommands, RequestKey, put_reply};
use crate::request_bytes::RequestBytes;
use crate::step::{
    AnswerRefusal, CommandHandle, MessageStep, ReceiveRefusal, Step, asking, is_answer_to,
};
use mctp_packet::{Body, Eid, Moment, PacketRef, Route};
use pldm_responder::{
    AnsweringEnd, Bounds, Disposition, Intake, MessageOutcome, Outcome, Request, RequestClass,
    ResponderSettings, not_performed, performed, refuse,
};
use pldm_wire::{
    Answer, Code, Command, MAX_RESPONSE_DATA, PassThrough, RequestRef, RestartPolicy, SUCCESS,
    put_response, read_command,
};
use std::alloc::Global;
use std::marker::Model;

/// The responding end at one endpoint, over a device that answers in its own time. [`Endpoint::receive`] takes a
/// packet; where a command is to be performed, the caller has the device perform it, however long that takes, and
/// hands its answer to [`Endpoint::answer`]. A request that is handed on as bytes is answered by
/// [`Endpoint::answer_bytes`].
///
/// Meanwhile all other packets are taken, and more is asked of the device, up to a number.
#[derive(Drop)]
pub struct Endpoint {
    alloc: Global,
    end: AnsweringEnd,
    /// Which requests are handed on as bytes.
    handed_on: PassThrough,
    pending: PendingCommands,
    /// How many commands and requests were handed to the device.
    count: u64,
    /// How many commands and requests may be pending at a time.
    max_pending: usize,
}

impl Model for Endpoint {
    ghost use Rattle.pldm_endpoint.specs.TwoSteps.{ArePending, EndpointView, NoneWithoutEid, coded_endpoint};

    ghost Value = { EndpointView };

    ghost coded = { coded_endpoint };

    ghost view = { λ e. record {
      end = e.end;
      handed_on = e.handed_on;
      pending = e.pending;
      count = e.count;
      max_pending = e.max_pending;
    } };

    ghost invariant = { λ e.
        ArePending e.end e.handed_on e.pending e.count e.max_pending × NoneWithoutEid e.end e.pending };
}

impl Endpoint {
    /// The endpoint `own`, or one that gets its endpoint ID later ([`Endpoint::assign`]). It keeps answers as `keeping`
    /// says, and at a time no more than `bounds` allow. Where one more message would be open than they allow, the one
    /// that began first ends, as if a packet of it were lost. The requests of `handed_on` are handed on as bytes; where
    /// only what sets something is refused in the busy time, these are refused too. At most `max_pending` commands and
    /// such requests are pending at a time. Its last moment is 0.
    pub fn new(
        alloc: Global,
        own: Option<Eid>,
        keeping: ResponderSettings,
        handed_on: PassThrough,
        bounds: Bounds,
        max_pending: usize,
    ) -> Endpoint
        ensures { IsNewEndpoint own keeping handed_on bounds max_pending result }
    {
        let busy = busy_with(handed_on, keeping.busy);
        Endpoint {
            alloc,
            end: AnsweringEnd::new(
                alloc,
                own,
                ResponderSettings { busy, ..keeping },
                bounds,
                true,
            ),
            handed_on,
            pending: PendingCommands::new(alloc),
            count: 0,
            max_pending,
        }
    }

    /// Its endpoint ID: `None` before it got one.
    pub fn own(&self) -> Option<Eid>
        ensures { eid_or_null result ≡ (held_in self.now).own }
    {
        self.end.own()
    }

    /// The moment of the last packet that was done with, of the last `restart` or of the last `assign`, whichever was
    /// later, 0 before the first.
    pub fn last_moment(&self) -> Moment
        ensures { result ≡ (held_in self.now).last }
    {
        self.end.last_moment()
    }

    /// The most that it keeps at a time.
    pub fn bounds(&self) -> Bounds
        ensures { result ≡ self.now.end.bounds }
    {
        self.end.bounds()
    }

    /// How many pairs of a source and an instance ID have a kept answer, or the place of one for a command that is
    /// pending: a pending command past the window has none, and does not count. They are at most the window for each
    /// source that [`Endpoint::bounds`] allow.
    pub fn kept(&self) -> usize
        ensures value { CountsKept (kept_for (held_in self.now)) result }
        ensures bounded { result ≤ self.now.end.rows.window * self.now.end.bounds.sources }
    {
        self.end.kept()
    }

    /// How many sources have room for their answers, at most [`Bounds::sources`]: those of which a request was
    /// performed, refused or handed out since the last restart.
    pub fn sources(&self) -> usize
        ensures value { result ≡ source_count self.now.end.rows }
        ensures bounded { result ≤ self.now.end.bounds.sources }
    {
        self.end.sources()
    }

    /// Which requests are handed on as bytes.
    pub fn handed_on(&self) -> PassThrough
        ensures { result ≡ self.now.handed_on }
    {
        self.handed_on
    }

    /// The command that is pending under this handle, where that is not a request that was handed on as bytes.
    pub fn command(&self, handle: &CommandHandle) -> Option<&Command>
        ensures { option_map (λ command. command.now) result
            ≡ pending_command (pending_at self.now.pending handle.now) }
    {
        match self.pending.at(handle) {
            Some(pending) => pending.command.as_ref(),
            None => None,
        }
    }

    /// The request that is pending under this handle: its PLDM type and command, and its data.
    pub fn request(&self, handle: &CommandHandle) -> Option<RequestRef<'_>>
        ensures value { result
            ≡ option_map (λ pending. request_at pending.request) (pending_at self.now.pending handle.now) }
        ensures few { IfSome result (λ request. length request.rest ≤ MAX_REQUEST_DATA) }
    {
        match self.pending.at(handle) {
            Some(pending) => Some(pending.request()),
            None => None,
        }
    }

    /// How many commands and requests are pending: they were handed out and are not answered. They are at most
    /// [`Endpoint::max_pending`].
    pub fn pending(&self) -> usize
        ensures value { result ≡ map.len self.now.pending }
        ensures bounded { result ≤ self.now.max_pending }
    {
        self.pending.len()
    }

    /// How many commands and requests may be pending at a time.
    pub fn max_pending(&self) -> usize
        ensures { result ≡ self.now.max_pending }
    {
        self.max_pending
    }

    /// Takes the bytes of a packet that came at the moment `now`, which must not be before [`Endpoint::last_moment`].
    /// Where it completes a request that is no copy, its command has to be performed once, or where it is handed on as
    /// bytes, it has to be responded to once; the answer is kept from `now` on, as
    /// [`pldm_responder::Responder::receive`] keeps it. Any other packet is done with as that call does.
    ///
    /// # Errors
    ///
    /// Where the packet completes a request whose source and instance ID have a pending command, and only then:
    /// `BeingPerformed` where it is that command's own request, byte for byte, `Performing` where it is another, even
    /// if that one would be refused in the busy time.
    /// `Full` exactly where a command would be pending past [`Endpoint::max_pending`], or 2^64 - 1 were handed out.
    /// `Sources` exactly where a request that is no copy comes from a source without room for its answers, and as
    /// many sources have room as [`Bounds::sources`] allow. `OpenMessages` exactly where a packet begins a message of
    /// several packets and [`Bounds::open_messages`] is 0. `Memory` where none of these holds and a growth was refused.
    /// The endpoint is then as before.
    pub fn receive(&mut self, now: Moment, bytes: &[u8]) -> Result<Step, ReceiveRefusal>
        requires { (held_in self.old).last ≤ now }
        ensures received { IfOk result (HasReceived self.old now bytes.now self.new) }
        ensures refused { IfErr result (IsRefused self.old now bytes.now self.new) }
    {
        let mut reply = Body::new();
        match self.receive_message(now, bytes, &mut reply)? {
            MessageStep::Perform(handle) => Ok(Step::Perform(handle)),
            MessageStep::Respond(handle) => Ok(Step::Respond(handle)),
            MessageStep::Done(taken) => Ok(Step::Done(taken.outcome(&reply))),
        }
    }

    /// Takes the bytes of a packet as [`Endpoint::receive`] does. The message that answers it is put into `reply`
    /// whole, with no packet made of it. Where nothing is answered, what `reply` then holds is not specified.
    ///
    /// # Errors
    ///
    /// As from [`Endpoint::receive`]; what `reply` then holds is not specified.
    pub fn receive_message(
        &mut self,
        now: Moment,
        bytes: &[u8],
        reply: &mut Body,
    ) -> Result<MessageStep, ReceiveRefusal>
        requires { (held_in self.old).last ≤ now }
        ensures received { IfOk result (λ step.
            HasReceived self.old now bytes.now self.new (stepping reply.new.items step)) }
        ensures some { IfOk result (StepHasReply reply.new.items) }
        ensures refused { IfErr result (IsRefused self.old now bytes.now self.new) }
    {
        match self.end.take(now, bytes) {
            Ok(Intake::Decided(Disposition::Dropped(reason))) => {
                Ok(MessageStep::Done(MessageOutcome::Dropped(reason)))
            }
            Ok(Intake::Decided(Disposition::Partial)) => Ok(MessageStep::Done(
                MessageOutcome::Partial,
            )),
            Ok(Intake::Decided(Disposition::Request(request))) => self.serve(now, &request, reply),
            Ok(Intake::Last(packet)) => self.receive_last(now, &packet, reply),
            Err(refusal) => Err(refusal.into()),
        }
    }

    /// Takes the last packet of a message of several packets. The message that answers it is put into `reply`.
    // Not inlined: the room for the message's bytes is cleared, and is on the stack, for such a message alone.
    #[inline(never)]
    fn receive_last(
        &mut self,
        now: Moment,
        packet: &PacketRef<'_>,
        reply: &mut Body,
    ) -> Result<MessageStep, ReceiveRefusal>
        requires last { IsLastFor self.old.end packet.now }
        ensures received { (bytes : List ℕ) → request_packet self.old.end.own bytes ≡ Ok packet.now
            → IfOk result (λ step. HasReceived self.old now bytes self.new (stepping reply.new.items step)) }
        ensures some { IfOk result (StepHasReply reply.new.items) }
        ensures refused { (bytes : List ℕ) → request_packet self.old.end.own bytes ≡ Ok packet.now
            → IfErr result (IsRefused self.old now bytes self.new) }
    {
        let mut room = Body::new();
        match self.end.take_last(now, packet, &mut room) {
            Disposition::Dropped(reason) => Ok(MessageStep::Done(MessageOutcome::Dropped(reason))),
            Disposition::Partial => Ok(MessageStep::Done(MessageOutcome::Partial)),
            Disposition::Request(request) => self.serve(now, &request, reply),
        }
    }

    /// Serves a request: it is answered at once, or its command is handed out.
    fn serve(
        &mut self,
        now: Moment,
        request: &Request<'_>,
        reply: &mut Body,
    ) -> Result<MessageStep, ReceiveRefusal>
        requires { IsRequestTo self.old.end request.now }
        ensures served { IfOk result (HasServed self.old now request.now self.new reply.new.items) }
        ensures refused { IfErr result (IsNotServed self.old now request.now self.new) }
    {
        let (source, id) = (request.source(), request.id());
        if let Some(pending) = self.pending.get(RequestKey { source, id }) {
            return Err(if pending.request.as_slice() == request.bytes() {
                ReceiveRefusal::BeingPerformed
            } else {
                ReceiveRefusal::Performing
            });
        }
        if self.end.standing(now, request, reply) != RequestClass::Fresh {
            self.end.finish(now, request);
            let route = request.way_back();
            return Ok(MessageStep::Done(not_performed(route)));
        }
        match task_in(self.handed_on, request) {
            Ok(command) => self.hand_out(now, request, command),
            Err(code) => self.refuse(now, request, code, reply),
        }
    }

    /// Hands the command of a fresh request out, or where there is none, the request as bytes.
    // Not inlined: the command and its request are put together here, and no place for them is left on the caller's
    // stack.
    #[inline(never)]
    fn hand_out(
        &mut self,
        now: Moment,
        request: &Request<'_>,
        command: Option<Command>,
    ) -> Result<MessageStep, ReceiveRefusal>
        requires ready { IsToBeServed self.old now request.now }
        requires asked { tasks_of (hands_on self.old.handed_on) request.now.bytes
            ≡ task_in command request.now.bytes ∷ [] }
        ensures served { (reply : List ℕ) → IfOk result (HasServed self.old now request.now self.new reply) }
        ensures refused { IfErr result (IsNotServed self.old now request.now self.new) }
    {
        if self.is_full() {
            return Err(ReceiveRefusal::Full);
        }
        let _own = request.destination(); // for the proof: an endpoint ID
        let reserved = self.end.reserve(request)?;
        let (source, id, number) = (request.source(), request.id(), self.count);
        let bytes = RequestBytes::copied(self.alloc, request.bytes())?;
        let is_command = command.is_some();
        let pending = PendingCommand {
            tag: request.tag(),
            moment: now,
            number,
            command,
            request: bytes,
        };
        self.pending.insert(RequestKey { source, id }, pending)?;
        self.end.put_room(request, reserved);
        self.end.keep(now, request, &[]); // its answer is to come
        self.end.finish(now, request);
        self.count = number + 1;
        Ok(asking(is_command, CommandHandle { source, id, number }))
    }

    /// Refuses a fresh request that has no command with this code, and keeps that answer.
    fn refuse(
        &mut self,
        now: Moment,
        request: &Request<'_>,
        code: Code,
        reply: &mut Body,
    ) -> Result<MessageStep, ReceiveRefusal>
        requires ready { IsToBeServed self.old now request.now }
        requires refused { IsRefusedBy self.old.handed_on code request.now.bytes }
        ensures served { IfOk result (HasServed self.old now request.now self.new reply.new.items) }
        ensures refused { IfErr result (IsNotServed self.old now request.now self.new) }
    {
        let reserved = self.end.reserve(request)?;
        refuse(request.read(), code, reply);
        self.end.put_room(request, reserved);
        self.end.keep(now, request, reply);
        self.end.finish(now, request);
        let route = request.way_back();
        Ok(MessageStep::Done(performed(false, route)))
    }

    /// Whether no more may be asked of the device.
    fn is_full(&self) -> bool
        ensures { result ≡ is_full self.now }
    {
        self.pending() >= self.max_pending || self.count == u64::MAX
    }

    /// Takes the device's answer to the command that is pending under this handle, and gives the packets of it. They go
    /// to the source of the request that had it performed, on the tag of its packets, and the answer is kept as if it
    /// had come at that request's moment. Where the request fell out of the window since, the answer is not kept. It
    /// takes no memory.
    ///
    /// # Errors
    ///
    /// `NotPending` exactly where nothing is pending under this handle, `OtherCommand` exactly where something is and
    /// this is the answer to another command, or that was handed on as bytes. The endpoint is then as before.
    pub fn answer(
        &mut self,
        handle: &CommandHandle,
        answer: &Answer,
    ) -> Result<Outcome, AnswerRefusal>
        ensures answered { IfOk result (HasAnswered self.old handle.now (Answered answer.now) self.new) }
        ensures refused { IfErr result (IsWhyNotTaken (pending_at self.old.pending handle.now) (Answered answer.now)) }
        ensures err { OnErr result (self.new ≡ self.old) }
    {
        let mut reply = Body::new();
        let taken = self.answer_message(handle, answer, &mut reply)?;
        Ok(taken.outcome(&reply))
    }

    /// Takes the device's answer as [`Endpoint::answer`] does. The message that answers the request is put into
    /// `reply` whole, with no packet made of it.
    ///
    /// # Errors
    ///
    /// As from [`Endpoint::answer`].
    pub fn answer_message(
        &mut self,
        handle: &CommandHandle,
        answer: &Answer,
        reply: &mut Body,
    ) -> Result<MessageOutcome, AnswerRefusal>
        ensures answered { IfOk result (λ taken.
            HasAnswered self.old handle.now (Answered answer.now) self.new (answering reply.new.items taken)) }
        ensures some { IfOk result (HasReply reply.new.items) }
        ensures refused { IfErr result (IsWhyNotTaken (pending_at self.old.pending handle.now) (Answered answer.now)) }
        ensures err { OnErr result (self.new ≡ self.old) }
    {
        let Some(pending) = self.pending.at(handle) else {
            return Err(AnswerRefusal::NotPending);
        };
        let Some(command) = &pending.command else {
            return Err(AnswerRefusal::OtherCommand);
        };
        if !is_answer_to(answer, command.kind()) {
            return Err(AnswerRefusal::OtherCommand);
        }
        let changed = put_reply(command, handle.id, answer, reply);
        Ok(self.give(handle, changed, reply))
    }

    /// Takes the device's response to the request that is pending under this handle, which was handed on as bytes: its
    /// completion code, and at most [`MAX_RESPONSE_DATA`] bytes of data. It is sent and kept as by
    /// [`Endpoint::answer`]. It takes no memory.
    ///
    /// # Errors
    ///
    /// `NotPending` exactly where nothing is pending under this handle, `OtherCommand` exactly where that is a command,
    /// and else `TooLong` exactly where there is more data. The endpoint is then as before.
    pub fn answer_bytes(
        &mut self,
        handle: &CommandHandle,
        code: u8,
        rest: &[u8],
    ) -> Result<Outcome, AnswerRefusal>
        ensures answered { IfOk result (HasAnswered self.old handle.now (response_of code rest.now) self.new) }
        ensures few { OnOk result (length rest.now ≤ MAX_RESPONSE_DATA) }
        ensures refused { IfErr result (IsWhyNotTaken (pending_at self.old.pending handle.now)
            (response_of code rest.now)) }
        ensures err { OnErr result (self.new ≡ self.old) }
    {
        let mut reply = Body::new();
        let taken = self.answer_bytes_message(handle, code, rest, &mut reply)?;
        Ok(taken.outcome(&reply))
    }

    /// Takes the device's response as [`Endpoint::answer_bytes`] does. The message that answers the request is put into
    /// `reply` whole, with no packet made of it.
    ///
    /// # Errors
    ///
    /// As from [`Endpoint::answer_bytes`].
    pub fn answer_bytes_message(
        &mut self,
        handle: &CommandHandle,
        code: u8,
        rest: &[u8],
        reply: &mut Body,
    ) -> Result<MessageOutcome, AnswerRefusal>
        ensures answered { IfOk result (λ taken.
            HasAnswered self.old handle.now (response_of code rest.now) self.new (answering reply.new.items taken)) }
        ensures some { IfOk result (HasReply reply.new.items) }
        ensures few { OnOk result (length rest.now ≤ MAX_RESPONSE_DATA) }
        ensures refused { IfErr result (IsWhyNotTaken (pending_at self.old.pending handle.now)
            (response_of code rest.now)) }
        ensures err { OnErr result (self.new ≡ self.old) }
    {
        let Some(pending) = self.pending.at(handle) else {
            return Err(AnswerRefusal::NotPending);
        };
        if pending.command.is_some() {
            return Err(AnswerRefusal::OtherCommand);
        }
        if rest.len() > MAX_RESPONSE_DATA {
            return Err(AnswerRefusal::TooLong);
        }
        put_response(reply, handle.id, pending.request().kind(), code, rest);
        Ok(self.give(handle, code == SUCCESS, reply))
    }

    /// Returns the message that answers the request which is pending under this handle, and keeps it.
    fn give(&mut self, handle: &CommandHandle, changed: bool, reply: &[u8]) -> MessageOutcome
        requires pending { IsSome (pending_at self.old.pending handle.now) }
        requires some { 0 < length reply.now }
        requires few { length reply.now ≤ MAX_MESSAGE_BYTES }
        ensures answered { (given : Given) → IsItsAnswer (pending_at self.old.pending handle.now) given
            → IsReplyOf self.old.handed_on given (pending_at self.old.pending handle.now) reply.now changed
            → HasAnswered self.old handle.now given self.new (answering reply.now result) }
        ensures some { HasReply reply.now result }
    {
        let Some(pending) = self.pending.at(handle) else {
            unreachable!() // it is pending
        };
        let Some(own) = self.end.own() else {
            unreachable!() // nothing is pending without an endpoint ID
        };
        let (source, id) = (handle.source, handle.id);
        let route = Route {
            destination: source,
            source: own,
            owner: false,
            tag: pending.tag,
        };
        let (moment, bytes) = (pending.moment, pending.request.as_slice());
        self.end.keep_late(source, id, moment, bytes, reply);
        self.pending.remove(RequestKey { source, id });
        performed(changed, route)
    }

    /// Lets the time pass up to the moment `now`, which must not be before [`Endpoint::last_moment`]: no moment before
    /// it may come then. Nothing else changes.
    pub fn pass_time(&mut self, now: Moment)
        requires { (held_in self.old).last ≤ now }
        ensures { self.new ≡ record self.old { end = record self.old.end { last = now } } }
    {
        self.end.pass_time(now);
    }

    /// Restarts at the moment `now`, which must not be before [`Endpoint::last_moment`]. The kept answers, the messages
    /// that have begun and the pending commands are forgotten. The device may have performed those commands or not, so
    /// for the keeping time from then on nothing is performed, or nothing that [`ResponderSettings::busy`] names, as
    /// after [`pldm_responder::Responder::restart`]; an answer to one of them is refused as `NotPending` from then on.
    pub fn restart(&mut self, now: Moment)
        requires { (held_in self.old).last ≤ now }
        ensures held { IsHeld (held_in self.new) (restarted_held (held_in self.old) now) }
        ensures forgotten { HasForgotten self.new self.old }
    {
        self.pending = PendingCommands::new(self.alloc); // the device may have performed them or not
        self.end.restart(now);
    }

    /// Gives it the endpoint ID `eid` at the moment `now`, which must not be before [`Endpoint::last_moment`] (DSP0236,
    /// "Set Endpoint ID"). Where it had one before, that is a restart ([`Endpoint::restart`]): what was kept, begun and
    /// pending is forgotten, and for the keeping time from then on it is busy. Where it had none, nothing was
    /// performed, and it serves as before.
    pub fn assign(&mut self, now: Moment, eid: Eid)
        requires { (held_in self.old).last ≤ now }
        ensures held { IsHeld (held_in self.new) (assigned_held (held_in self.old) now eid) }
        ensures forgotten { HasForgotten self.new self.old }
    {
        self.pending = PendingCommands::new(self.alloc); // as at a restart
        self.end.assign(now, eid);
    }
}

/// What is refused in the busy time, where these requests are handed on as bytes: they count as requests that set
/// something.
fn busy_with(handed_on: PassThrough, busy: RestartPolicy) -> RestartPolicy
    ensures { result ≡ busy_with handed_on busy }
{
    match busy {
        RestartPolicy::All => RestartPolicy::All,
        RestartPolicy::Sets(_) => RestartPolicy::Sets(handed_on),
    }
}

/// What a request asks the device for: its command, or nothing where it is handed on as bytes. An `Err` has the
/// completion code by which the request is refused.
// Not inlined: the stack that reading a command needs is then free again before the command is handed out.
#[inline(never)]
fn task_in(handed_on: PassThrough, request: &Request<'_>) -> Result<Option<Command>, Code>
    ensures ok { IfOk result (λ command. tasks_of (hands_on handed_on) request.now.bytes
        ≡ task_in command request.now.bytes ∷ []) }
    ensures err { IfErr result (λ code. IsRefusedBy handed_on code request.now.bytes) }
{
    let request = request.read();
    if handed_on.has(request.kind()) {
        return Ok(None);
    }
    Ok(Some(read_command(request)?))
}

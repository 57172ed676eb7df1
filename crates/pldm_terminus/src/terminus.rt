//! An answering end and a requester at one endpoint.

ghost use Rattle.std.specs.Prelude.{◌≡◌, ℕ, ◌≤◌, ◌&&◌, IfOk, IfErr, OnOk, OnErr, is_some, length, option_map};
ghost use Rattle.pldm_endpoint.specs.Giving.{response_of};
ghost use Rattle.pldm_endpoint.specs.Receiving.{HasAnswered, HasForgotten};
ghost use Rattle.pldm_endpoint.specs.Refusing.{IsWhyNotTaken};
ghost use Rattle.pldm_endpoint.specs.RequestKeys.{pending_at};
ghost use Rattle.pldm_endpoint.specs.TwoSteps.{held_in};
ghost use Rattle.pldm_responder.specs.Answering.{HasReply, answering};
ghost use Rattle.pldm_responder.specs.Asked.{Answered};
ghost use Rattle.pldm_responder.specs.ResponderStates.{IsHeld as IsHeldAt};
ghost use Rattle.pldm_responder.specs.Steps.{restarted_held};
ghost use Rattle.pldm_wire.specs.Commands.{IsCommand};
ghost use Rattle.pldm_wire.specs.declared.limits.TheConstants.{MAX_REQUEST_DATA};
ghost use Rattle.pldm_requester.specs.Asks.{ask_for};
ghost use Rattle.pldm_requester.specs.Pacing.{at_default};
ghost use Rattle.pldm_terminus.specs.Askings.{CameBefore, HasBegun, HasOpened, HasOpenedFor, HasTicked, IsBegunAt, IsNextDeadline, IsSameAsking, IsWhyNotOpened};
ghost use Rattle.pldm_terminus.specs.Directions.{is_answer};
ghost use Rattle.pldm_terminus.specs.Termini.{HasComeTo, IsFollowed, IsRefusedAt};

use crate::asking::{AskFault, AskingHalf};
use crate::direction::is_answer;
use bus_endpoint::{BusEndpoint, BusStep};
use mctp_packet::{Body, Eid, Moment, NULL_EID};
use pldm_endpoint::{AnswerRefusal, CommandHandle, ReceiveRefusal};
use pldm_requester::{Due, Got, Opened, Pace, Requester, Timing};
use pldm_responder::MessageOutcome;
use pldm_wire::{Answer, Command, Kind, MAX_RESPONSE_DATA};
use std::alloc::Global;
use std::marker::Model;

/// What becomes of the bytes of a packet.
#[derive(Debug, Drop)]
pub enum TerminusStep {
    /// This is what the answering end makes of them.
    Answering(BusStep),
    /// They are a part of an answer: this is what the requester makes of them.
    Asking(Got),
}

/// An endpoint that answers requests and sends its own to one peer. Both halves have one endpoint ID. Where another is
/// assigned, and at a restart, the requester begins anew: its open requests are forgotten, and it opens none until
/// twice the keeping time has passed.
#[derive(Drop)]
pub struct Terminus {
    answering: BusEndpoint,
    asking: AskingHalf,
}

impl Model for Terminus {
    ghost use Rattle.pldm_terminus.specs.Termini.{TerminusView, HasOneEid, coded_terminus};

    ghost Value = { TerminusView };

    ghost coded = { coded_terminus };

    ghost view = { λ t. record { answering = t.answering; asking = t.asking } };

    ghost invariant = { λ t. HasOneEid t.answering t.asking };
}

/// The endpoint ID of an answering end as a number.
fn number_of(answering: &BusEndpoint) -> u8
    ensures { result ≡ answering.now.endpoint.end.own }
{
    match answering.endpoint().own() {
        Some(eid) => eid.get(),
        None => NULL_EID,
    }
}

impl Terminus {
    /// An end that answers so, and asks this peer, nothing before the moment `rest`: twice the keeping time after now,
    /// where there was a requester at this endpoint before.
    pub fn new(
        alloc: Global,
        answering: BusEndpoint,
        peer: Eid,
        timing: Timing,
        rest: Moment,
    ) -> Terminus
        ensures answering { result.answering ≡ answering }
        ensures requester { IsBegunAt answering.endpoint.end.own peer timing (at_default timing.keep)
            result.asking.requester }
        ensures peer { result.asking.peer ≡ peer }
        ensures timing { result.asking.timing ≡ timing }
        ensures pace { result.asking.pace ≡ at_default timing.keep }
        ensures rest { result.asking.rest ≡ rest }
    {
        let pace = Pace::at_default(timing.keep);
        Terminus::with_pace(alloc, answering, peer, timing, pace, rest)
    }

    /// As [`Terminus::new`], with a pace of its own ([`Requester::with_pace`]). Also a requester that begins anew has it.
    pub fn with_pace(
        alloc: Global,
        answering: BusEndpoint,
        peer: Eid,
        timing: Timing,
        pace: Pace,
        rest: Moment,
    ) -> Terminus
        ensures answering { result.answering ≡ answering }
        ensures requester { IsBegunAt answering.endpoint.end.own peer timing pace result.asking.requester }
        ensures peer { result.asking.peer ≡ peer }
        ensures timing { result.asking.timing ≡ timing }
        ensures pace { result.asking.pace ≡ pace }
        ensures rest { result.asking.rest ≡ rest }
    {
        let asking = AskingHalf::new(alloc, answering.endpoint().own(), peer, timing, pace, rest);
        Terminus { answering, asking }
    }

    /// What answers.
    pub fn answering(&self) -> &BusEndpoint
        ensures { result.now ≡ self.now.answering }
    {
        &self.answering
    }

    /// What asks, where there is an endpoint ID to ask from.
    pub fn asking(&self) -> Option<&Requester>
        ensures { option_map (λ requester. requester.now) result ≡ self.now.asking.requester }
    {
        self.asking.requester()
    }

    /// Takes the bytes of a packet that came at the moment `now`, which must not be before the last moment of either
    /// half. Exactly one of them takes it: the requester, where there is one and TO is 0, else the answering end. The
    /// other stays as it was, but that a requester begins anew where the answering end has got another endpoint ID.
    ///
    /// # Errors
    ///
    /// As from [`BusEndpoint::receive_message`], or `Memory` as from [`Requester::receive`]; then all is as before.
    pub fn receive_message(
        &mut self,
        now: Moment,
        bytes: &[u8],
        reply: &mut Body,
    ) -> Result<TerminusStep, ReceiveRefusal>
        requires answering { (held_in self.old.answering.endpoint).last ≤ now }
        requires asking { CameBefore self.old.asking.requester now }
        ensures come { IfOk result (HasComeTo (is_some self.old.asking.requester && is_answer bytes.now)
            self.old now bytes.now self.new reply.new.items) }
        ensures refused { IfErr result (IsRefusedAt (is_some self.old.asking.requester && is_answer bytes.now)
            self.old now bytes.now self.new) }
    {
        if self.asking.is_some() && is_answer(bytes) {
            return Ok(TerminusStep::Asking(self.asking.receive(now, bytes)?));
        }
        let before = number_of(&self.answering);
        let step = self.answering.receive_message(now, bytes, reply)?;
        follow(&mut self.asking, &self.answering, before, now);
        Ok(TerminusStep::Answering(step))
    }

    /// Opens a request to the peer. Its packets are to be sent then.
    ///
    /// # Errors
    ///
    /// The first fault of `NoEid`, `Resting` and what [`Requester::open`] says. Then all is as before.
    pub fn open(&mut self, now: Moment, command: &Command) -> Result<Opened, AskFault>
        requires { CameBefore self.old.asking.requester now }
        ensures rested { OnOk result (self.old.asking.rest ≤ now) }
        ensures opened { IfOk result (HasOpened self.old.asking now command.now self.new.asking) }
        ensures why { IfErr result (IsWhyNotOpened self.old.asking now) }
        ensures readable { OnOk result (IsCommand command.now) }
        ensures err { OnErr result (IsSameAsking self.old.asking self.new.asking) }
        ensures answering { self.new.answering ≡ self.old.answering }
    {
        self.asking.open(now, command)
    }

    /// Opens a request of any PLDM type to the peer: of this type and command, with this data, which is what follows
    /// its header (DSP0240, "PLDM message fields"). Data has at most [`MAX_REQUEST_DATA`] bytes. Its packets are to be
    /// sent then.
    ///
    /// # Errors
    ///
    /// As from [`Terminus::open`].
    ///
    /// [`MAX_REQUEST_DATA`]: pldm_wire::MAX_REQUEST_DATA
    pub fn open_request(&mut self, now: Moment, kind: Kind, data: &[u8]) -> Result<Opened, AskFault>
        requires moment { CameBefore self.old.asking.requester now }
        requires few { length data.now ≤ MAX_REQUEST_DATA }
        ensures rested { OnOk result (self.old.asking.rest ≤ now) }
        ensures opened { IfOk result (HasOpenedFor self.old.asking now (ask_for kind data.now) self.new.asking) }
        ensures why { IfErr result (IsWhyNotOpened self.old.asking now) }
        ensures err { OnErr result (IsSameAsking self.old.asking self.new.asking) }
        ensures answering { self.new.answering ≡ self.old.answering }
    {
        self.asking.open_request(now, kind, data)
    }

    /// Says which of its own requests are due, as [`Requester::tick`] does: none, where there is no endpoint ID to ask
    /// from. The moment `now` must not be before the last one of the requester.
    pub fn tick(&mut self, now: Moment) -> Due
        requires { CameBefore self.old.asking.requester now }
        ensures asking { HasTicked self.old.asking now self.new.asking result.again.items result.given_up.items }
        ensures answering { self.new.answering ≡ self.old.answering }
    {
        self.asking.tick(now)
    }

    /// The moment from which on [`Terminus::tick`] finds something due, exactly, as [`Requester::next_deadline`] says;
    /// `None` also where there is no endpoint ID to ask from. The answering end has nothing to do by itself.
    pub fn next_deadline(&self) -> Option<Moment>
        ensures { IsNextDeadline self.now.asking.requester result }
    {
        self.asking.next_deadline()
    }

    /// Lets the time pass at the answering end up to the moment `now`, as [`BusEndpoint::pass_time`] does. The
    /// requester's time passes at a [`Terminus::tick`].
    pub fn pass_time(&mut self, now: Moment)
        requires { (held_in self.old.answering.endpoint).last ≤ now }
        ensures endpoint { self.new.answering.endpoint
            ≡ record self.old.answering.endpoint { end = record self.old.answering.endpoint.end { last = now } } }
        ensures control { self.new.answering.control ≡ self.old.answering.control }
        ensures asking { self.new.asking ≡ self.old.asking }
    {
        self.answering.pass_time(now);
    }

    /// Restarts both halves at the moment `now`: the answering end as [`BusEndpoint::restart`] does, and a requester
    /// begins anew.
    pub fn restart(&mut self, now: Moment)
        requires { (held_in self.old.answering.endpoint).last ≤ now }
        ensures held { IsHeldAt (held_in self.new.answering.endpoint)
            (restarted_held (held_in self.old.answering.endpoint) now) }
        ensures forgotten { HasForgotten self.new.answering.endpoint self.old.answering.endpoint }
        ensures control { self.new.answering.control ≡ self.old.answering.control }
        ensures asking { HasBegun self.old.answering.endpoint.end.own now self.old.asking self.new.asking }
    {
        self.answering.restart(now);
        self.asking.begin(self.answering.endpoint().own(), now);
    }

    /// Takes the device's answer, as [`BusEndpoint::answer_message`] does.
    ///
    /// # Errors
    ///
    /// As from [`BusEndpoint::answer_message`].
    pub fn answer_message(
        &mut self,
        handle: &CommandHandle,
        answer: &Answer,
        reply: &mut Body,
    ) -> Result<MessageOutcome, AnswerRefusal>
        ensures answered { IfOk result (λ taken. HasAnswered self.old.answering.endpoint handle.now
            (Answered answer.now) self.new.answering.endpoint (answering reply.new.items taken)) }
        ensures some { IfOk result (HasReply reply.new.items) }
        ensures refused { IfErr result (IsWhyNotTaken (pending_at self.old.answering.endpoint.pending handle.now)
            (Answered answer.now)) }
        ensures err { OnErr result (self.new.answering.endpoint ≡ self.old.answering.endpoint) }
        ensures control { self.new.answering.control ≡ self.old.answering.control }
        ensures asking { self.new.asking ≡ self.old.asking }
    {
        self.answering.answer_message(handle, answer, reply)
    }

    /// Takes the device's response to a request that was handed on, as [`BusEndpoint::answer_bytes_message`] does.
    ///
    /// # Errors
    ///
    /// As from [`BusEndpoint::answer_bytes_message`].
    pub fn answer_bytes_message(
        &mut self,
        handle: &CommandHandle,
        code: u8,
        rest: &[u8],
        reply: &mut Body,
    ) -> Result<MessageOutcome, AnswerRefusal>
        ensures answered { IfOk result (λ taken. HasAnswered self.old.answering.endpoint handle.now
            (response_of code rest.now) self.new.answering.endpoint (answering reply.new.items taken)) }
        ensures some { IfOk result (HasReply reply.new.items) }
        ensures few { OnOk result (length rest.now ≤ MAX_RESPONSE_DATA) }
        ensures refused { IfErr result (IsWhyNotTaken (pending_at self.old.answering.endpoint.pending handle.now)
            (response_of code rest.now)) }
        ensures err { OnErr result (self.new.answering.endpoint ≡ self.old.answering.endpoint) }
        ensures control { self.new.answering.control ≡ self.old.answering.control }
        ensures asking { self.new.asking ≡ self.old.asking }
    {
        self.answering
            .answer_bytes_message(handle, code, rest, reply)
    }
}

/// A requester begins anew where the answering end has another endpoint ID than this one, which it had before.
fn follow(asking: &mut AskingHalf, answering: &BusEndpoint, before: u8, now: Moment)
    ensures { IsFollowed answering.now.endpoint.end.own before now asking.old asking.new }
{
    if number_of(answering) != before {
        asking.begin(answering.endpoint().own(), now);
    }
}

//! An endpoint and its control responder, kept in step.

ghost use Rattle.std.specs.FinMap as map;
ghost use Rattle.std.specs.Prelude.{◌≡◌, ℕ, ◌≤◌, ◌<◌, ◌↔◌, IfOk, IfErr, IfSome, IsOk, IsSome, List, OnErr, OnOk, Some, false, length, None, option_map, true};
ghost use Rattle.mctp_control.specs.Dropped.{control_left, control_reply};
ghost use Rattle.pldm_endpoint.specs.Giving.{response_of};
ghost use Rattle.pldm_endpoint.specs.Receiving.{HasAnswered, HasForgotten, IsRefused};
ghost use Rattle.pldm_endpoint.specs.Refusing.{IsWhyNotTaken};
ghost use Rattle.pldm_endpoint.specs.RequestKeys.{pending_at};
ghost use Rattle.pldm_endpoint.specs.Stepping.{StepHasReply, stepping};
ghost use Rattle.pldm_endpoint.specs.TwoSteps.{held_in};
ghost use Rattle.pldm_responder.specs.Answering.{HasReply, answering};
ghost use Rattle.pldm_responder.specs.Asked.{Answered};
ghost use Rattle.pldm_responder.specs.Ends.{eid_or_null};
ghost use Rattle.pldm_responder.specs.ResponderStates.{IsHeld};
ghost use Rattle.pldm_responder.specs.Steps.{restarted_held};
ghost use Rattle.bus_endpoint.specs.BusViews.{HaveOneEid};
ghost use Rattle.bus_endpoint.specs.Coming.{BusStepHasReply, HasCome, IsInStep, IsStep, control_after, control_answer, eid_in};

use crate::step::{BusStep, answered, dropped_for};
use mctp_control::{ControlPacket, ControlResponder};
use mctp_packet::{Body, Eid, Memory, Moment, NULL_EID, Reason};
use pldm_endpoint::{AnswerRefusal, CommandHandle, Endpoint, MessageStep, ReceiveRefusal};
use pldm_responder::MessageOutcome;
use pldm_wire::{Answer, MAX_RESPONSE_DATA};
use std::alloc::Global;
use std::marker::Model;

/// A control responder in a place of its own: an endpoint without one takes no room for it.
#[derive(Drop)]
struct Place {
    responder: Box<ControlResponder>,
}

impl Model for Place {
    ghost use Rattle.std.specs.Prelude.{box_value};
    ghost use Rattle.mctp_control.specs.contracts.control_responder.ControlResponder as responder_type;
    ghost use Rattle.mctp_control.specs.declared.control_responder.ControlResponder.{ControlResponder as ControlResponderValue};

    ghost Value = { ControlResponderValue };

    ghost coded = { responder_type.the_row.coded };

    ghost view = { λ p. box_value p.responder };
}

impl Place {
    /// A place of its own for this responder, where there is one.
    fn of(alloc: Global, control: Option<ControlResponder>) -> Result<Option<Place>, Memory>
        ensures value { IfOk result (λ place. place ≡ control) }
        ensures none { control ≡ None → IsOk result }
    {
        match control {
            Some(control) => Ok(Some(Place {
                responder: Box::new(alloc, control)?,
            })),
            None => Ok(None),
        }
    }

    /// The responder.
    fn responder(&self) -> &ControlResponder
        ensures { result.now ≡ self.now }
    {
        &self.responder
    }

    /// The packet that answers a packet which the endpoint dropped for this reason, if one does.
    fn receive_dropped(
        &mut self,
        now: Moment,
        reason: Reason,
        packet: &[u8],
    ) -> Option<ControlPacket>
        ensures answer { option_map (λ reply. reply.items) result ≡ control_reply self.old now reason packet.now }
        ensures control { self.new ≡ control_left self.old now reason packet.now }
        ensures some { IfSome result (λ reply. 0 < length reply.items) }
    {
        self.responder.receive_dropped(now, reason, packet)
    }
}

/// A device's endpoint as a bus owner sees it (DSP0236, "MCTP control protocol"): it answers messages of PLDM, and
/// control messages, where there is a control responder. Both have one endpoint ID, or none yet.
#[derive(Drop)]
pub struct BusEndpoint {
    endpoint: Endpoint,
    control: Option<Place>,
}

impl Model for BusEndpoint {
    ghost use Rattle.bus_endpoint.specs.BusViews.{BusView, HaveOneEid, coded_bus};

    ghost Value = { BusView };

    ghost coded = { coded_bus };

    ghost view = { λ b. record { endpoint = b.endpoint; control = b.control } };

    ghost invariant = { λ b. HaveOneEid b.endpoint b.control };
}

impl BusEndpoint {
    /// An endpoint with this control responder, or with none: then control messages are dropped. `None` exactly where
    /// the two have different endpoint IDs.
    ///
    /// # Errors
    ///
    /// Where there is no memory for the place of the control responder. Without one, none is taken.
    pub fn new(
        alloc: Global,
        endpoint: Endpoint,
        control: Option<ControlResponder>,
    ) -> Result<Option<BusEndpoint>, Memory>
        ensures some { IfOk result (λ made. IsSome made ↔ HaveOneEid endpoint control) }
        ensures value { IfOk result (λ made. IfSome made
            (λ bus. bus ≡ record { endpoint = endpoint; control = control })) }
        ensures none { control ≡ None → IsOk result }
    {
        if has_other_eid(&endpoint, &control) {
            return Ok(None);
        }
        let control = Place::of(alloc, control)?;
        Ok(Some(BusEndpoint { endpoint, control }))
    }

    /// The endpoint: what is pending, kept and allowed there.
    pub fn endpoint(&self) -> &Endpoint
        ensures value { result.now ≡ self.now.endpoint }
        ensures one { HaveOneEid self.now.endpoint self.now.control }
    {
        &self.endpoint
    }

    /// What answers control messages, where they are answered. Its endpoint ID is that of the endpoint.
    pub fn control(&self) -> Option<&ControlResponder>
        ensures value { option_map (λ control. control.now) result ≡ self.now.control }
        ensures one { HaveOneEid self.now.endpoint self.now.control }
    {
        match &self.control {
            Some(place) => Some(place.responder()),
            None => None,
        }
    }

    /// Takes the bytes of a packet that came at the moment `now`, which must not be before [`Endpoint::last_moment`]:
    /// first as [`Endpoint::receive_message`] does. A packet that this drops goes to the control responder
    /// ([`ControlResponder::receive_dropped`]). Where the control responder then has another endpoint ID than the
    /// endpoint, the endpoint is given that one, as by [`Endpoint::assign`]; the packet that answers still comes from
    /// the earlier endpoint ID.
    ///
    /// # Errors
    ///
    /// As from [`Endpoint::receive_message`]; then all is as before, and what `reply` holds is not specified.
    pub fn receive_message(
        &mut self,
        now: Moment,
        bytes: &[u8],
        reply: &mut Body,
    ) -> Result<BusStep, ReceiveRefusal>
        requires { (held_in self.old.endpoint).last ≤ now }
        ensures come { IfOk result (HasCome self.old now bytes.now self.new reply.new.items) }
        ensures some { IfOk result (BusStepHasReply reply.new.items) }
        ensures refused { IfErr result (IsRefused self.old.endpoint now bytes.now self.new.endpoint) }
        ensures same { OnErr result (self.new.control ≡ self.old.control) }
    {
        let step = self.endpoint.receive_message(now, bytes, reply)?;
        let Some(reason) = dropped_for(&step) else {
            return Ok(BusStep::Pldm(step));
        };
        self.take_drop(now, reason, bytes, step)
    }

    /// Takes a packet that the endpoint dropped for this reason, with what became of it there. The control responder
    /// may answer it; the endpoint then has the same endpoint ID as the control responder. It is always `Ok`, the
    /// result of its caller, through whose stack it is then not moved.
    // Not inlined: the stack that the answer to a control message needs is then not in use while the endpoint takes a
    // packet.
    #[inline(never)]
    fn take_drop(
        &mut self,
        now: Moment,
        reason: Reason,
        packet: &[u8],
        step: MessageStep,
    ) -> Result<BusStep, ReceiveRefusal>
        requires { (held_in self.old.endpoint).last ≤ now }
        ensures taken { IsOk result }
        ensures step { (reply : List ℕ) → IfOk result (IsStep reply (stepping reply step)
            (control_answer self.old.control now (Some reason) packet.now)) }
        ensures some { (reply : List ℕ) → StepHasReply reply step → IfOk result (BusStepHasReply reply) }
        ensures control { self.new.control ≡ control_after self.old.control now (Some reason) packet.now }
        ensures in_step { IsInStep self.old.endpoint now (eid_in self.new.control) self.new.endpoint }
    {
        let answer = answer_drop(&mut self.control, now, reason, packet);
        let eid = eid_in(&self.control);
        keep_in_step(&mut self.endpoint, now, eid);
        Ok(answered(answer, step))
    }

    /// Takes the device's answer as [`Endpoint::answer_message`] does.
    ///
    /// # Errors
    ///
    /// As from [`Endpoint::answer_message`].
    pub fn answer_message(
        &mut self,
        handle: &CommandHandle,
        answer: &Answer,
        reply: &mut Body,
    ) -> Result<MessageOutcome, AnswerRefusal>
        ensures answered { IfOk result (λ taken. HasAnswered self.old.endpoint handle.now (Answered answer.now)
            self.new.endpoint (answering reply.new.items taken)) }
        ensures some { IfOk result (HasReply reply.new.items) }
        ensures refused { IfErr result (IsWhyNotTaken (pending_at self.old.endpoint.pending handle.now)
            (Answered answer.now)) }
        ensures err { OnErr result (self.new.endpoint ≡ self.old.endpoint) }
        ensures control { self.new.control ≡ self.old.control }
    {
        self.endpoint.answer_message(handle, answer, reply)
    }

    /// Takes the device's response as [`Endpoint::answer_bytes_message`] does.
    ///
    /// # Errors
    ///
    /// As from [`Endpoint::answer_bytes_message`].
    pub fn answer_bytes_message(
        &mut self,
        handle: &CommandHandle,
        code: u8,
        rest: &[u8],
        reply: &mut Body,
    ) -> Result<MessageOutcome, AnswerRefusal>
        ensures answered { IfOk result (λ taken. HasAnswered self.old.endpoint handle.now (response_of code rest.now)
            self.new.endpoint (answering reply.new.items taken)) }
        ensures some { IfOk result (HasReply reply.new.items) }
        ensures few { OnOk result (length rest.now ≤ MAX_RESPONSE_DATA) }
        ensures refused { IfErr result (IsWhyNotTaken (pending_at self.old.endpoint.pending handle.now)
            (response_of code rest.now)) }
        ensures err { OnErr result (self.new.endpoint ≡ self.old.endpoint) }
        ensures control { self.new.control ≡ self.old.control }
    {
        self.endpoint
            .answer_bytes_message(handle, code, rest, reply)
    }

    /// Lets the time pass up to the moment `now`, as [`Endpoint::pass_time`] does.
    pub fn pass_time(&mut self, now: Moment)
        requires { (held_in self.old.endpoint).last ≤ now }
        ensures endpoint { self.new.endpoint
            ≡ record self.old.endpoint { end = record self.old.endpoint.end { last = now } } }
        ensures control { self.new.control ≡ self.old.control }
    {
        self.endpoint.pass_time(now);
    }

    /// Restarts the endpoint at the moment `now`, as [`Endpoint::restart`] does. It keeps its endpoint ID.
    pub fn restart(&mut self, now: Moment)
        requires { (held_in self.old.endpoint).last ≤ now }
        ensures held { IsHeld (held_in self.new.endpoint) (restarted_held (held_in self.old.endpoint) now) }
        ensures forgotten { HasForgotten self.new.endpoint self.old.endpoint }
        ensures control { self.new.control ≡ self.old.control }
    {
        self.endpoint.restart(now);
    }
}

/// An endpoint ID as a number, the null one where there is none.
fn number_of(eid: Option<Eid>) -> u8
    ensures { result ≡ eid_or_null eid }
{
    match eid {
        Some(eid) => eid.get(),
        None => NULL_EID,
    }
}

/// Whether there is a control responder that has another endpoint ID than the endpoint.
fn has_other_eid(endpoint: &Endpoint, control: &Option<ControlResponder>) -> bool
    ensures yes { result ≡ true → HaveOneEid endpoint.now control.now → ⊥ }
    ensures no { result ≡ false → HaveOneEid endpoint.now control.now }
{
    match control {
        Some(control) => number_of(control.eid) != number_of(endpoint.own()),
        None => false,
    }
}

/// The endpoint ID of a control responder, where it has one.
fn eid_in(control: &Option<Place>) -> Option<Eid>
    ensures { result ≡ eid_in control.now }
{
    match control {
        Some(place) => place.responder().eid,
        None => None,
    }
}

/// The packet that answers a packet which the endpoint dropped for this reason, where control messages are answered.
fn answer_drop(
    control: &mut Option<Place>,
    now: Moment,
    reason: Reason,
    packet: &[u8],
) -> Option<ControlPacket>
    ensures answer { option_map (λ reply. reply.items) result
        ≡ control_answer control.old now (Some reason) packet.now }
    ensures control { control.new ≡ control_after control.old now (Some reason) packet.now }
    ensures some { IfSome result (λ reply. 0 < length reply.items) }
{
    let Some(place) = control else {
        return None;
    };
    place.receive_dropped(now, reason, packet)
}

/// Gives the endpoint the endpoint ID that the control responder has, where that is another than its own.
fn keep_in_step(endpoint: &mut Endpoint, now: Moment, eid: Option<Eid>)
    requires { (held_in endpoint.old).last ≤ now }
    ensures { IsInStep endpoint.old now eid endpoint.new }
{
    if let Some(eid) = eid
        && number_of(endpoint.own()) != eid.get()
    {
        endpoint.assign(now, eid);
    }
}

//! The end of a device that takes updates.

ghost use Rattle.std.specs.Prelude.{◌≡◌, ◌⊎◌, ℕ, Bool, [], IfNone, IfOk, IfSome, length};
ghost use Rattle.pldm_update.specs.declared.command.UpdateCommand.{UpdateCommand as Asked};
ghost use Rattle.pldm_update.specs.DeviceAnswers.{answered, done};
ghost use Rattle.pldm_update.specs.Machines.{first_machine};
ghost use Rattle.update_line.specs.FirmwareEnds.{Does, Takes, TakesCommand};
ghost use Rattle.update_line.specs.FlashCalls.{call_of};
ghost use Rattle.update_line.specs.OwnAnswers.{response_in};

use crate::exchanges::{answered, moment_at, open, refused, reply_of, respond, response_to};
use crate::flash::{Flash, act};
use crate::offer::again;
use crate::parameters::parameters_of;
use crate::type_answers::with_updates;
use crate::update_end::{Reply, Sending, UpdateEnd};
use bus_endpoint::BusStep;
use mctp_packet::{Body, Eid, Memory, Moment, Packets};
use pldm_endpoint::{CommandHandle, MessageStep};
use pldm_platform::Platform;
use pldm_requester::Got;
use pldm_terminus::{Terminus, TerminusStep};
use pldm_update::{
    Component, DeviceIdentifiers, DeviceRequest, FirmwareDevice, FirmwareIdentity, FlashAction,
    FlashStep, UNABLE_TO_INITIATE_UPDATE, UpdateAnswer, UpdateCommand, VersionString,
    read_update_command,
};
use pldm_wire::Code;
use std::alloc::Global;

/// What a device says of its firmware, and from whom it takes another.
#[derive(Clone, Copy, Debug)]
pub struct FirmwareSettings {
    /// The endpoint ID of the update agent. An update of any other endpoint is refused.
    pub agent: Eid,
    /// Its one component.
    pub component: Component,
    /// The most bytes that the component's image may have.
    pub room: u32,
}

/// A device at an endpoint: what it answers, its updates, and where their images are stored.
#[derive(Drop)]
pub struct FirmwareEnd<P: Platform, F: Flash> {
    /// What answers at the endpoint, and asks the update agent.
    pub end: Terminus,
    /// What performs the commands that are not of firmware update.
    pub platform: P,
    /// Where it is in an update.
    pub machine: FirmwareDevice,
    /// Where images are stored.
    pub flash: F,
    /// What it says of its firmware, and from whom it takes another.
    pub settings: FirmwareSettings,
    /// What it says of itself.
    pub identity: FirmwareIdentity,
    /// The version of the image that is transferred.
    pub coming: VersionString,
    /// The version of the image that was applied last, which is active after its activation.
    pub next: VersionString,
    alloc: Global,
}

/// The result of a step that failed, of which no more is told (DSP0267, "TransferComplete command").
const GENERIC_ERROR: u8 = 0x0A;

/// The result of a step: 0 for a success (DSP0267, "TransferComplete command").
fn result_of(well: bool) -> u8 {
    if well { 0 } else { GENERIC_ERROR }
}

/// The command that asks so.
fn command_of(request: DeviceRequest) -> UpdateCommand {
    match request {
        DeviceRequest::Piece { offset, length } => {
            UpdateCommand::RequestFirmwareData { offset, length }
        }
        DeviceRequest::TransferComplete(well) => UpdateCommand::TransferComplete {
            result: result_of(well),
        },
        DeviceRequest::VerifyComplete(well) => UpdateCommand::VerifyComplete {
            result: result_of(well),
        },
        DeviceRequest::ApplyComplete(well) => UpdateCommand::ApplyComplete {
            result: result_of(well),
            activation_methods: 0,
        },
    }
}

/// The flash does a step, for this component and with the bytes of the piece that has just come, and the machine is told
/// how it went.
fn work<F: Flash>(
    machine: &mut FirmwareDevice,
    flash: &mut F,
    component: Component,
    step: FlashStep,
    piece: &[u8],
)
    ensures { (well : Bool) × F.acted flash.old (call_of component step.action piece.now) well flash.new
        × (machine.new ≡ done machine.old step.number well) }
{
    let well = act(flash, component, step.action, piece);
    machine.done(step.number, well);
}

impl<P: Platform, F: Flash> FirmwareEnd<P, F> {
    /// A device with no update under way, whose active firmware has this version.
    pub fn new(
        alloc: Global,
        end: Terminus,
        platform: P,
        flash: F,
        settings: FirmwareSettings,
        identifiers: DeviceIdentifiers,
        active: VersionString,
    ) -> FirmwareEnd<P, F>
        ensures end { result.end ≡ end }
        ensures platform { result.platform ≡ platform }
        ensures machine { result.machine ≡ first_machine 0 }
        ensures flash { result.flash ≡ flash }
        ensures settings { result.settings ≡ settings }
        ensures identifiers { result.identity.identifiers ≡ identifiers }
    {
        let parameters = parameters_of(settings.component, &active);
        let coming = again(&active);
        let identity = FirmwareIdentity {
            identifiers,
            parameters,
        };
        FirmwareEnd {
            end,
            platform,
            machine: FirmwareDevice::new(0),
            flash,
            settings,
            identity,
            coming,
            next: active,
            alloc,
        }
    }

    /// Performs the command under this handle.
    fn perform(&mut self, handle: &CommandHandle, reply: &mut Body) -> Result<Reply, Memory>
        ensures machine { self.new.machine ≡ self.old.machine }
        ensures flash { self.new.flash ≡ self.old.flash }
    {
        let Some(command) = self.end.answering().endpoint().command(handle) else {
            return Ok(Reply::Nothing);
        };
        let answer = with_updates(command, self.platform.perform(self.alloc, command)?);
        Ok(answered(self.end.answer_message(handle, &answer, reply)))
    }

    /// Responds to the request under this handle, which is of firmware update.
    fn respond(&mut self, now: Moment, handle: &CommandHandle, reply: &mut Body) -> Reply
        ensures { ((self.new.machine ≡ self.old.machine) × (self.new.flash ≡ self.old.flash))
            ⊎ ((command : Asked) × TakesCommand F.acted self.old.settings.component handle.now.source now
            self.old.flash self.new.flash self.old.machine self.new.machine command) }
    {
        let Some(request) = self.end.answering().endpoint().request(handle) else {
            return Reply::Nothing;
        };
        let answer = match read_update_command(request.kind().command, request.data()) {
            Ok(command) => self.take_command(now, handle.source, &command),
            Err(code) => UpdateAnswer::Refused(code),
        };
        respond(&mut self.end, handle, &answer, reply)
    }

    /// Takes a command of firmware update; the answer.
    fn take_command(&mut self, now: Moment, source: Eid, command: &UpdateCommand) -> UpdateAnswer
        ensures { TakesCommand F.acted self.old.settings.component source now self.old.flash self.new.flash
            self.old.machine self.new.machine command.now }
    {
        if let Some(answer) = self.identity.answer(command) {
            return answer;
        }
        if matches!(command, UpdateCommand::RequestUpdate { .. }) && source != self.settings.agent {
            return match Code::new(UNABLE_TO_INITIATE_UPDATE) {
                Some(code) => UpdateAnswer::Refused(code),
                None => UpdateAnswer::Refused(Code::ERROR),
            };
        }
        let component = self.settings.component;
        let room = self.room_for(command);
        let Some(received) = self.machine.receive(source, now, command, room) else {
            return UpdateAnswer::Refused(Code::ERROR_UNSUPPORTED_PLDM_CMD);
        };
        if let Some(step) = received.step {
            work(&mut self.machine, &mut self.flash, component, step, &[]);
            self.note(command);
        }
        received.answer
    }

    /// The most bytes that the image of an UpdateComponent may have; `None` for a component that the device does not
    /// have.
    fn room_for(&self, command: &UpdateCommand) -> Option<u32> {
        match command {
            UpdateCommand::UpdateComponent { component, .. }
                if *component == self.settings.component => Some(self.settings.room),
            _ => None,
        }
    }

    /// Notes the version of an image that is transferred, and that what was applied is active.
    fn note(&mut self, command: &UpdateCommand)
        ensures machine { self.new.machine ≡ self.old.machine }
        ensures flash { self.new.flash ≡ self.old.flash }
    {
        match command {
            UpdateCommand::UpdateComponent { version, .. } => self.coming = again(version),
            UpdateCommand::ActivateFirmware { .. } => {
                self.identity.parameters = parameters_of(self.settings.component, &self.next);
            }
            _ => {}
        }
    }

    /// Takes the agent's answer to a request.
    fn take_answer(&mut self, now: Moment, number: u64)
        ensures told { IfSome (response_in self.old.end.asking.requester number) (λ r.
            Does F.acted self.old.settings.component r.rest self.old.flash self.new.flash self.new.machine
            (answered self.old.machine number now r.code (length r.rest))) }
        ensures none { IfNone (response_in self.old.end.asking.requester number)
            ((self.new.machine ≡ self.old.machine) × (self.new.flash ≡ self.old.flash)) }
        ensures end { self.new.end ≡ self.old.end }
    {
        let component = self.settings.component;
        let Some(response) = response_to(&self.end, number) else {
            return;
        };
        let data = response.data();
        if let Some(step) = self.machine.answered(number, now, response.code(), data) {
            work(&mut self.machine, &mut self.flash, component, step, data);
            if step.action == FlashAction::Apply {
                self.next = again(&self.coming);
            }
        }
    }
}

impl<P: Platform, F: Flash> UpdateEnd for FirmwareEnd<P, F> {
    /// Takes a packet. What the machine is told of an answer is what its requester has as the answer to that very
    /// request, and the bytes that are stored are those of that answer.
    fn receive(&mut self, reading: u64, packet: &[u8], reply: &mut Body) -> Result<Reply, Memory>
        ensures { IfOk result (λ _. (now : ℕ) × Takes F.acted self.old.settings.component now self.new.end
            self.old.flash self.new.flash self.old.machine self.new.machine) }
    {
        let now = moment_at(&self.end, reading);
        let step = match self.end.receive_message(now, packet, reply) {
            Ok(step) => step,
            Err(refusal) => return refused(refusal),
        };
        match step {
            TerminusStep::Answering(BusStep::Pldm(MessageStep::Perform(handle))) => {
                self.perform(&handle, reply)
            }
            TerminusStep::Answering(BusStep::Pldm(MessageStep::Respond(handle))) => {
                Ok(self.respond(now, &handle, reply))
            }
            TerminusStep::Answering(BusStep::Pldm(MessageStep::Done(taken))) => Ok(reply_of(taken)),
            TerminusStep::Answering(BusStep::Control(packet)) => Ok(Reply::Control(packet)),
            TerminusStep::Asking(Got::Answered(number)) => {
                self.take_answer(now, number);
                Ok(Reply::Nothing)
            }
            TerminusStep::Asking(Got::Partial) => Ok(Reply::Nothing),
            TerminusStep::Asking(Got::Dropped(reason)) => Ok(Reply::Dropped(reason)),
        }
    }

    fn pass(&mut self, reading: u64) -> Result<Sending, Memory> {
        let now = moment_at(&self.end, reading);
        let due = self.end.tick(now);
        let component = self.settings.component;
        for number in &due.given_up {
            if let Some(step) = self.machine.gave_up(*number) {
                work(&mut self.machine, &mut self.flash, component, step, &[]);
            }
        }
        if let Some(step) = self.machine.tick(now) {
            work(&mut self.machine, &mut self.flash, component, step, &[]);
        }
        let mut opened = None;
        let now = moment_at(&self.end, now.get()); // the same, for the proof
        if let Some(request) = self.machine.wish(now) {
            opened = open(&mut self.end, now, &command_of(request))?;
            if let Some(number) = opened {
                self.machine.opened(number, now);
            }
        }
        Ok(Sending {
            again: due.again,
            opened,
        })
    }

    fn packets(&self, number: u64) -> Option<&Packets> {
        self.end.asking()?.packets(number)
    }
}

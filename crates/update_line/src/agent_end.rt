//! The end of an update agent.

ghost use Rattle.std.specs.Prelude.{◌≡◌, IfErr, IfSome, OnOk, None, Some, is_some, length};
ghost use Rattle.pldm_terminus.specs.Askings.{CameBefore};
ghost use Rattle.pldm_update.specs.Agents.{wish_at};
ghost use Rattle.pldm_update.specs.declared.command.UpdateCommand.TheVariants as Asked;
ghost use Rattle.update_line.specs.AgentEnds.{answer_unless, command_answer, command_left, image_served, stated_size};

use crate::exchanges::{moment_at, open, refuse, refused, reply_of, respond, response_to};
use crate::offer::{Offer, again};
use crate::update_end::{Reply, Sending, UpdateEnd};
use bus_endpoint::BusStep;
use mctp_packet::{Body, Memory, Moment, Packets};
use pldm_endpoint::{CommandHandle, MessageStep};
use pldm_requester::Got;
use pldm_terminus::{Terminus, TerminusStep};
use pldm_update::{
    ACTIVATE_FIRMWARE, AgentRequest, AgentStage, DeviceReply, INVALID_STATE_FOR_COMMAND,
    MAX_PIECE_BYTES, TablePart, UpdateAgent, UpdateAnswer, UpdateCommand, VersionString, piece_of,
    read_update_answer, read_update_command,
};
use pldm_wire::{Code, ResponseRef, SUCCESS};

/// The most bytes of a piece that the agent gives at once: a power of two that fits one message.
pub const MOST_BYTES: u32 = 256;

/// An update agent at an endpoint: the images that it offers, and how far the update is.
#[derive(Drop)]
pub struct AgentEnd<'a> {
    /// What asks the device, and answers it.
    pub end: Terminus,
    /// Where the update is.
    pub machine: UpdateAgent,
    /// The images, in the order in which they are offered, and how many there are.
    offers: &'a [Offer<'a>],
    total: u16,
    /// The version of all of them together.
    version: VersionString,
    /// How far the piece that was asked for last reaches into the image, in bytes.
    pub reached: u32,
    /// What was asked last.
    asked: Option<AgentRequest>,
    /// What the device refused, where it did.
    pub refusal: Option<Refusal>,
}

/// What the device refused, and by which completion code; 0 where it says in the data that the component cannot be
/// updated.
#[derive(Clone, Copy, Debug, PartialEq, Eq)]
pub struct Refusal {
    /// What was asked.
    pub request: AgentRequest,
    /// The completion code.
    pub code: u8,
}

/// Which part of the table of components the component of this number is, of so many.
fn part_of(number: u16, total: usize) -> TablePart {
    match (number == 0, usize::from(number) + 1 >= total) {
        (true, true) => TablePart::StartAndEnd,
        (true, false) => TablePart::Start,
        (false, false) => TablePart::Middle,
        (false, true) => TablePart::End,
    }
}

/// This answer, or the refusal.
fn answer_or(taken: Result<(), Code>, answer: UpdateAnswer) -> UpdateAnswer
    ensures ok { OnOk taken (result ≡ answer) }
    ensures fault { IfErr taken (λ code. result ≡ answer_unless (Some code) answer) }
{
    match taken {
        Ok(()) => answer,
        Err(code) => UpdateAnswer::Refused(code),
    }
}

/// What a response says: that the device has done what was asked, that it has not come so far, or that it refuses.
fn reply_in(command: &UpdateCommand, response: &ResponseRef<'_>) -> DeviceReply {
    match response.code() {
        SUCCESS => {}
        INVALID_STATE_FOR_COMMAND => return DeviceReply::NotYet,
        _ => return DeviceReply::Refused,
    }
    match read_update_answer(command.number(), SUCCESS, response.data()) {
        Ok(UpdateAnswer::PassComponentTable { response, .. }) if response != 0 => {
            DeviceReply::Refused
        }
        Ok(UpdateAnswer::UpdateComponent { compatibility, .. }) if compatibility != 0 => {
            DeviceReply::Refused
        }
        Ok(_) => DeviceReply::Taken,
        Err(_) => DeviceReply::Refused,
    }
}

impl<'a> AgentEnd<'a> {
    /// An agent that offers these images in turn, with one version of all. `None` for none, and for more than 65,535.
    pub fn new(
        end: Terminus,
        offers: &'a [Offer<'a>],
        version: VersionString,
        reading: u64,
    ) -> Option<AgentEnd<'a>>
        ensures end { IfSome result (λ agent. agent.end ≡ end) }
        ensures total { IfSome result (λ agent. agent.machine.total ≡ length offers.now) }
        ensures stage { IfSome result (λ agent. agent.machine.stage ≡ AgentStage.Requesting) }
    {
        let total = u16::try_from(offers.len()).ok()?;
        let now = moment_at(&end, reading);
        Some(AgentEnd {
            machine: UpdateAgent::new(now, total)?,
            end,
            offers,
            total,
            version,
            reached: 0,
            asked: None,
            refusal: None,
        })
    }

    /// Where the update is.
    pub fn stage(&self) -> AgentStage
        ensures { result ≡ self.now.machine.stage }
    {
        self.machine.stage()
    }

    /// Whether the agent has something to ask at this stage, or has asked it.
    pub fn asks(&self) -> bool
        ensures { result ≡ is_some (wish_at self.now.machine.stage) }
    {
        matches!(
            self.machine.stage(),
            AgentStage::Requesting
                | AgentStage::Passing(_)
                | AgentStage::Offering(_)
                | AgentStage::Activating
                | AgentStage::Cancelling
        )
    }

    /// The command of a request; `None` for a component that is not offered.
    fn command_of(&self, request: AgentRequest) -> Option<UpdateCommand> {
        Some(match request {
            AgentRequest::RequestUpdate => UpdateCommand::RequestUpdate {
                max_transfer_bytes: MOST_BYTES,
                components: self.total,
                outstanding_requests: 1,
                package_data_bytes: 0,
                version: again(&self.version),
            },
            AgentRequest::PassComponent(number) => {
                let offer = self.offers.get(usize::from(number))?;
                UpdateCommand::PassComponentTable {
                    part: part_of(number, self.offers.len()),
                    component: offer.component,
                    comparison_stamp: offer.comparison_stamp,
                    version: again(&offer.version),
                }
            }
            AgentRequest::UpdateComponent(number) => {
                let offer = self.offers.get(usize::from(number))?;
                UpdateCommand::UpdateComponent {
                    component: offer.component,
                    comparison_stamp: offer.comparison_stamp,
                    image_bytes: offer.size(),
                    option_flags: offer.option_flags,
                    version: again(&offer.version),
                }
            }
            AgentRequest::ActivateFirmware => UpdateCommand::ActivateFirmware { self_contained: 1 },
            AgentRequest::CancelUpdate => UpdateCommand::CancelUpdate,
        })
    }

    /// The image of the component that is transferred now.
    fn image(&self) -> &'a [u8]
        ensures { result.now ≡ image_served self.now.offers.now self.now.machine.stage }
    {
        match self.machine.stage() {
            AgentStage::Serving(number) => match self.offers.get(usize::from(number)) {
                Some(offer) => offer.image,
                None => &[],
            },
            _ => &[],
        }
    }

    /// Responds to the request under this handle, which is of firmware update.
    fn respond(&mut self, now: Moment, handle: &CommandHandle, reply: &mut Body) -> Reply {
        let Some(request) = self.end.answering().endpoint().request(handle) else {
            return Reply::Nothing;
        };
        let answer = match read_update_command(request.kind().command, request.data()) {
            Ok(command) => self.take_command(now, &command),
            Err(code) => UpdateAnswer::Refused(code),
        };
        respond(&mut self.end, handle, &answer, reply)
    }

    /// Takes a command of the device, and returns the answer: to a request for a piece of the image that is transferred
    /// just that piece, or the refusal of it; to what the device reports, that it was heard; to all else
    /// ERROR_UNSUPPORTED_PLDM_CMD. `receive` gives the device these answers.
    pub fn take_command(&mut self, now: Moment, command: &UpdateCommand) -> UpdateAnswer
        ensures answer { result ≡ command_answer self.old.machine
            (image_served self.old.offers.now self.old.machine.stage) command.now }
        ensures machine { self.new.machine ≡ command_left self.old.machine
            (image_served self.old.offers.now self.old.machine.stage) now command.now }
        ensures end { self.new.end ≡ self.old.end }
        ensures offers { self.new.offers ≡ self.old.offers }
    {
        match command {
            UpdateCommand::RequestFirmwareData { offset, length } => {
                self.fetch(now, *offset, *length)
            }
            UpdateCommand::TransferComplete { result } => answer_or(
                self.machine.transfer_complete(now, *result == 0),
                UpdateAnswer::TransferComplete,
            ),
            UpdateCommand::VerifyComplete { result } => answer_or(
                self.machine.verify_complete(now, *result == 0),
                UpdateAnswer::VerifyComplete,
            ),
            UpdateCommand::ApplyComplete { result, .. } => answer_or(
                self.machine.apply_complete(now, *result <= 1),
                UpdateAnswer::ApplyComplete,
            ),
            _ => UpdateAnswer::Refused(Code::ERROR_UNSUPPORTED_PLDM_CMD),
        }
    }

    /// Gives a piece of the image that is transferred now.
    fn fetch(&mut self, now: Moment, offset: u32, length: u32) -> UpdateAnswer
        ensures answer { result ≡ command_answer self.old.machine
            (image_served self.old.offers.now self.old.machine.stage) (Asked.RequestFirmwareData offset length) }
        ensures machine { self.new.machine ≡ command_left self.old.machine
            (image_served self.old.offers.now self.old.machine.stage) now (Asked.RequestFirmwareData offset length) }
        ensures end { self.new.end ≡ self.old.end }
        ensures offers { self.new.offers ≡ self.old.offers }
    {
        let image = self.image();
        let size = u32::try_from(image.len()).unwrap_or(u32::MAX);
        match self.machine.fetch(now, size, MOST_BYTES, offset, length) {
            Ok(()) => {
                self.reached = offset.saturating_add(length);
                let count = length.min(MOST_BYTES) as usize;
                UpdateAnswer::RequestFirmwareData {
                    piece: piece_of(image, offset, count),
                }
            }
            Err(code) => UpdateAnswer::Refused(code),
        }
    }

    /// Asks what the machine wishes, where the requester may; the number of the request.
    fn ask(&mut self, now: Moment) -> Result<Option<u64>, Memory>
        requires { CameBefore self.old.end.asking.requester now }
    {
        let Some(request) = self.machine.wish(now) else {
            return Ok(None);
        };
        let Some(command) = self.command_of(request) else {
            return Ok(None);
        };
        let opened = open(&mut self.end, now, &command)?;
        if let Some(number) = opened {
            self.machine.opened(number, now);
            self.asked = Some(request);
        }
        Ok(opened)
    }

    /// Takes the device's answer to a request.
    fn take_answer(&mut self, now: Moment, number: u64) {
        let (Some(request), Some(response)) = (self.asked, response_to(&self.end, number)) else {
            return;
        };
        let Some(command) = self.command_of(request) else {
            return;
        };
        let reply = reply_in(&command, &response);
        if reply == DeviceReply::Refused {
            self.refusal = Some(Refusal {
                request,
                code: response.code(),
            });
        }
        self.machine.answered(number, now, reply);
    }
}

impl UpdateEnd for AgentEnd<'_> {
    fn receive(&mut self, reading: u64, packet: &[u8], reply: &mut Body) -> Result<Reply, Memory> {
        let now = moment_at(&self.end, reading);
        let step = match self.end.receive_message(now, packet, reply) {
            Ok(step) => step,
            Err(refusal) => return refused(refusal),
        };
        match step {
            TerminusStep::Answering(BusStep::Pldm(MessageStep::Respond(handle))) => {
                Ok(self.respond(now, &handle, reply))
            }
            TerminusStep::Answering(BusStep::Pldm(MessageStep::Perform(handle))) => {
                Ok(refuse(&mut self.end, &handle, reply))
            }
            TerminusStep::Answering(BusStep::Pldm(MessageStep::Done(taken))) => Ok(reply_of(taken)),
            TerminusStep::Answering(BusStep::Control(packet)) => Ok(Reply::Control(packet)),
            TerminusStep::Asking(Got::Answered(number)) => {
                self.take_answer(now, number);
                Ok(Reply::Nothing)
            }
            TerminusStep::Asking(Got::Partial) => Ok(Reply::Nothing),
            TerminusStep::Asking(Got::Dropped(reason)) => Ok(Reply::Dropped(reason)),
        }
    }

    fn pass(&mut self, reading: u64) -> Result<Sending, Memory> {
        let now = moment_at(&self.end, reading);
        let due = self.end.tick(now);
        for number in &due.given_up {
            self.machine.gave_up(*number);
        }
        self.machine.tick(now);
        let now = moment_at(&self.end, now.get()); // the same, for the proof
        let opened = self.ask(now)?;
        Ok(Sending {
            again: due.again,
            opened,
        })
    }

    fn packets(&self, number: u64) -> Option<&Packets> {
        self.end.asking()?.packets(number)
    }
}

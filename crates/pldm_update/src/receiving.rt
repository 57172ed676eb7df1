//! A command of the update agent, and its answer.

ghost use Rattle.std.specs.Prelude.{◌≡◌, IfErr, IfOk, IfSome, None, OnOk, Some, option_map};
ghost use Rattle.pldm_update.specs.Receiving.{answer_to, received, status};
ghost use Rattle.pldm_update.specs.Machines.{IsNumbered};

use crate::{FirmwareDevice, FlashStep, UpdateAnswer, UpdateCommand};
use mctp_packet::{Eid, Moment};
use pldm_wire::Code;

/// What comes of a command: the answer that is to be sent, and then what the flash is to do.
#[derive(Debug, Drop)]
pub struct Received {
    /// The answer.
    pub answer: UpdateAnswer,
    /// The step of the flash, where the command brings one.
    pub step: Option<FlashStep>,
}

impl FirmwareDevice {
    /// Takes a command of this sender. `room` is the most bytes that an image of the component of an UpdateComponent
    /// may have, `None` where the device has no such component. `None` for QueryDeviceIdentifiers and
    /// GetFirmwareParameters, which [`FirmwareIdentity`](crate::FirmwareIdentity) answers: they change nothing.
    ///
    /// A command that is refused is answered by its completion code and changes nothing (see [`request_update`] and the
    /// other calls); so is one that a firmware device sends and never gets, by ERROR_UNSUPPORTED_PLDM_CMD.
    ///
    /// [`request_update`]: FirmwareDevice::request_update
    pub fn receive(
        &mut self,
        source: Eid,
        now: Moment,
        command: &UpdateCommand,
        room: Option<u32>,
    ) -> Option<Received>
        ensures device { self.new ≡ (received self.old source now room command.now).machine }
        ensures answer { option_map (λ got. got.answer) result ≡ answer_to self.old source room command.now }
        ensures action { IfSome result (λ got. option_map (λ step. step.action) got.step
            ≡ (received self.old source now room command.now).action) }
        ensures number { IfSome result (λ got. IfSome got.step (IsNumbered self.new)) }
    {
        match command {
            UpdateCommand::QueryDeviceIdentifiers | UpdateCommand::GetFirmwareParameters => None,
            UpdateCommand::RequestUpdate {
                max_transfer_bytes,
                components,
                ..
            } => {
                let begun = self.request_update(source, now, *max_transfer_bytes, *components);
                Some(told(begun, UPDATE_BEGINS))
            }
            UpdateCommand::PassComponentTable { part, .. } => {
                Some(told(self.pass_component(source, now, *part), CAN_BE_UPDATED))
            }
            UpdateCommand::UpdateComponent { image_bytes, .. } => {
                let begun = self.update_component(source, now, *image_bytes, room);
                Some(brought(begun, TRANSFER_BEGINS))
            }
            UpdateCommand::ActivateFirmware { .. } => {
                Some(brought(self.activate_firmware(source, now), ACTIVATION_BEGINS))
            }
            UpdateCommand::GetStatus => Some(told(Ok(()), self.status())),
            UpdateCommand::CancelUpdateComponent => {
                let ended = self.cancel_component(source, now);
                Some(brought(ended, UpdateAnswer::CancelUpdateComponent))
            }
            UpdateCommand::CancelUpdate => Some(brought(self.cancel_update(source), UPDATE_ENDS)),
            UpdateCommand::RequestFirmwareData { .. }
            | UpdateCommand::TransferComplete { .. }
            | UpdateCommand::VerifyComplete { .. }
            | UpdateCommand::ApplyComplete { .. } => {
                Some(refused(Code::ERROR_UNSUPPORTED_PLDM_CMD))
            }
        }
    }

    /// The device's state (DSP0267, "GetStatus command"). Progress is not told, and why it became idle neither (own).
    fn status(&self) -> UpdateAnswer
        ensures { result ≡ status self.now }
    {
        UpdateAnswer::GetStatus {
            state: self.stage.state(),
            previous: self.previous,
            auxiliary_state: self.stage.auxiliary_state(),
            auxiliary_status: self.stage.auxiliary_status(),
            progress: NO_PROGRESS,
            reason: 0,
            enabled_flags: 0,
        }
    }
}

/// What is told of progress where it is not told (DSP0267, "GetStatus command").
const NO_PROGRESS: u8 = 0x65;

/// The answer to a RequestUpdate that is accepted.
const UPDATE_BEGINS: UpdateAnswer = UpdateAnswer::RequestUpdate {
    meta_data_bytes: 0,
    sends_package_data: 0,
};

/// The answer to a PassComponentTable that is accepted.
const CAN_BE_UPDATED: UpdateAnswer = UpdateAnswer::PassComponentTable {
    response: 0,
    response_code: 0,
};

/// The answer to an UpdateComponent that is accepted.
const TRANSFER_BEGINS: UpdateAnswer = UpdateAnswer::UpdateComponent {
    compatibility: 0,
    compatibility_code: 0,
    enabled_flags: 0,
    seconds_before_first_piece: 0,
};

/// The answer to an ActivateFirmware that is accepted.
const ACTIVATION_BEGINS: UpdateAnswer = UpdateAnswer::ActivateFirmware {
    estimated_seconds: 0,
};

/// The answer to a CancelUpdate that is accepted.
const UPDATE_ENDS: UpdateAnswer = UpdateAnswer::CancelUpdate {
    not_functioning: 0,
    components: 0,
};

/// A refusal.
fn refused(code: Code) -> Received
    ensures answer { result.answer ≡ UpdateAnswer.Refused code }
    ensures step { result.step ≡ None }
{
    Received {
        answer: UpdateAnswer::Refused(code),
        step: None,
    }
}

/// What comes of a command that the flash has no part in.
fn told(taken: Result<(), Code>, answer: UpdateAnswer) -> Received
    ensures ok { OnOk taken (result.answer ≡ answer) }
    ensures err { IfErr taken (λ code. result.answer ≡ UpdateAnswer.Refused code) }
    ensures step { result.step ≡ None }
{
    match taken {
        Ok(()) => Received { answer, step: None },
        Err(code) => refused(code),
    }
}

/// What comes of a command that brings a step of the flash.
fn brought(taken: Result<FlashStep, Code>, answer: UpdateAnswer) -> Received
    ensures ok { IfOk taken (λ step. (result.answer ≡ answer) × (result.step ≡ Some step)) }
    ensures err { IfErr taken (λ code. (result.answer ≡ UpdateAnswer.Refused code) × (result.step ≡ None)) }
{
    match taken {
        Ok(step) => Received {
            answer,
            step: Some(step),
        },
        Err(code) => refused(code),
    }
}

//! The work of each call on the machine behind a handle.

ghost use Rattle.std.specs.Prelude.{◌≡◌, IfOk, Ok, Some, length};
ghost use Rattle.pldm_update.specs.DeviceAnswers.{answered, given_up, opened, ticked};
ghost use Rattle.pldm_update.specs.Machines.{first_machine};
ghost use Rattle.needleoat_c.specs.Firmware.{AsksCommand, HasAnswer, HasComponent, ReportsRequest, coming_answer, coming_step, command_in, command_of, component_in, left_at, left_by_coming, refusal_at, report_of, result_of, room_in, stage_number, stage_report, told, told_at, wish_of};

use crate::firmware_reports::{ComponentFields, FirmwareAnswer, FlashReport, StageReport};
use crate::kinds::{
    UPDATE_ACTIVATING, UPDATE_APPLIED, UPDATE_APPLYING, UPDATE_BEGINNING, UPDATE_FAILED,
    UPDATE_FETCHED, UPDATE_FETCHING, UPDATE_IDLE, UPDATE_LEARNING, UPDATE_NOT_APPLIED,
    UPDATE_NOT_VERIFIED, UPDATE_READY, UPDATE_STORING, UPDATE_VERIFIED, UPDATE_VERIFYING,
};
use crate::refusals::{BAD_MOMENT, FIRMWARE_ANSWERS, OUT_OF_RANGE};
use crate::reports::RequestFields;
use mctp_packet::{Eid, Memory, Moment};
use pldm_update::{
    Component, DeviceRequest, FIRMWARE_UPDATE, FirmwareDevice, FlashStep, Stage, UpdateAnswer,
    UpdateCommand, read_update_command, update_command_data,
};
use std::alloc::Global;

/// The result of a transfer, a verification or an application that failed, of which no more is told (DSP0267,
/// "TransferComplete command").
pub const GENERIC_ERROR: u8 = 0x0a;

/// A new machine, in a place of its own. Where there is no memory for it, nothing is kept.
pub(crate) fn start(alloc: Global, latest: u64) -> Result<Box<FirmwareDevice, Global>, Memory>
    ensures { IfOk result (λ made. made.value ≡ first_machine latest) }
{
    Ok(Box::new(alloc, FirmwareDevice::new(latest))?)
}

/// The step of the flash, where there is one.
fn report(step: Option<FlashStep>) -> FlashReport
    ensures { result ≡ report_of step }
{
    match step {
        Some(step) => FlashReport::of(step),
        None => FlashReport::none(0),
    }
}

/// The most bytes of an image, where the device has the component.
fn room_in(room: u32) -> Option<u32>
    ensures { result ≡ room_in room }
{
    if room == 0 { None } else { Some(room) }
}

/// Takes a command as it was handed on.
pub(crate) fn receive(
    device: &mut FirmwareDevice,
    source: u8,
    now_ms: u64,
    command: u8,
    data: &[u8],
    room: u32,
    answer: &mut FirmwareAnswer,
) -> FlashReport
    ensures step { result ≡ coming_step source now_ms room command data.now (Some device.old) }
    ensures answer { HasAnswer (coming_answer source now_ms room command data.now (Some device.old))
        answer.old answer.new }
    ensures left { device.new ≡ left_by_coming source now_ms room command data.now device.old }
{
    let Some(source) = Eid::new(source) else {
        return FlashReport::none(OUT_OF_RANGE);
    };
    let Some(now) = Moment::new(now_ms) else {
        return FlashReport::none(BAD_MOMENT);
    };
    let command = match read_update_command(command, data) {
        Ok(command) => command,
        Err(code) => {
            answer.set(&UpdateAnswer::Refused(code));
            return FlashReport::none(0);
        }
    };
    match device.receive(source, now, &command, room_in(room)) {
        Some(received) => {
            answer.set(&received.answer);
            report(received.step)
        }
        None => FlashReport::none(FIRMWARE_ANSWERS),
    }
}

/// The component that a command names.
fn component_in(command: &UpdateCommand) -> Option<Component>
    ensures { result ≡ component_in (Ok command.now) }
{
    match command {
        UpdateCommand::PassComponentTable { component, .. }
        | UpdateCommand::UpdateComponent { component, .. } => Some(*component),
        _ => None,
    }
}

/// Puts the component that a command names into `fields`, and returns whether it names one.
pub(crate) fn put_component(command: u8, data: &[u8], fields: &mut ComponentFields) -> bool
    ensures { HasComponent (component_in (command_in command data.now)) result fields.old fields.new }
{
    let Ok(command) = read_update_command(command, data) else {
        return false;
    };
    let Some(component) = component_in(&command) else {
        return false;
    };
    *fields = ComponentFields {
        classification: component.classification,
        identifier: component.identifier,
        index: component.index,
    };
    true
}

/// The result that is told of a success or a fault.
fn result_of(well: bool) -> u8
    ensures { result ≡ result_of well }
{
    if well { 0 } else { GENERIC_ERROR }
}

/// The command of a request of the device.
fn command_of(request: DeviceRequest) -> UpdateCommand
    ensures { result ≡ command_of request }
{
    match request {
        DeviceRequest::Piece { offset, length } => {
            UpdateCommand::RequestFirmwareData { offset, length }
        }
        DeviceRequest::TransferComplete(well) => UpdateCommand::TransferComplete {
            result: result_of(well),
        },
        DeviceRequest::VerifyComplete(well) => UpdateCommand::VerifyComplete {
            result: result_of(well),
        },
        DeviceRequest::ApplyComplete(well) => UpdateCommand::ApplyComplete {
            result: result_of(well),
            activation_methods: 0,
        },
    }
}

/// Puts what the device asks into `request`, and returns whether it asks something.
pub(crate) fn wish(device: &FirmwareDevice, now_ms: u64, request: &mut RequestFields) -> bool
    ensures { ReportsRequest (wish_of now_ms (Some device.now)) result request.old request.new }
{
    let Some(now) = Moment::new(now_ms) else {
        return false;
    };
    match device.wish(now) {
        Some(wish) => {
            put_command(request, &command_of(wish));
            true
        }
        None => false,
    }
}

/// Puts the request of a command. What follows its data is as it was.
fn put_command(request: &mut RequestFields, command: &UpdateCommand)
    ensures { AsksCommand command.now request.old request.new }
{
    let data = update_command_data(command);
    request.pldm_type = FIRMWARE_UPDATE;
    request.command = command.number();
    request.length = data.len() as u32;
    request.data[..data.len()].copy_from_slice(&data);
}

/// What the device asks was opened: 0, or why the call was refused.
pub(crate) fn opened(device: &mut FirmwareDevice, number: u64, now_ms: u64) -> u8
    ensures refusal { result ≡ refusal_at now_ms (Some device.old) }
    ensures left { Some device.new ≡ left_at now_ms (λ m. opened m number now_ms) (Some device.old) }
{
    let Some(now) = Moment::new(now_ms) else {
        return BAD_MOMENT;
    };
    device.opened(number, now);
    0
}

/// A request was answered.
pub(crate) fn answered(
    device: &mut FirmwareDevice,
    number: u64,
    now_ms: u64,
    code: u8,
    data: &[u8],
) -> FlashReport
    ensures step { result ≡ told_at now_ms (λ m. answered m number now_ms code (length data.now)) (Some device.old) }
    ensures left { Some device.new
        ≡ left_at now_ms (λ m. (answered m number now_ms code (length data.now)).machine) (Some device.old) }
{
    match Moment::new(now_ms) {
        Some(now) => report(device.answered(number, now, code, data)),
        None => FlashReport::none(BAD_MOMENT),
    }
}

/// A request was given up.
pub(crate) fn gave_up(device: &mut FirmwareDevice, number: u64) -> FlashReport
    ensures step { result ≡ told (λ m. given_up m number) (Some device.old) }
    ensures left { device.new ≡ (given_up device.old number).machine }
{
    report(device.gave_up(number))
}

/// Time passes.
pub(crate) fn tick(device: &mut FirmwareDevice, now_ms: u64) -> FlashReport
    ensures step { result ≡ told_at now_ms (λ m. ticked m now_ms) (Some device.old) }
    ensures left { Some device.new ≡ left_at now_ms (λ m. (ticked m now_ms).machine) (Some device.old) }
{
    match Moment::new(now_ms) {
        Some(now) => report(device.tick(now)),
        None => FlashReport::none(BAD_MOMENT),
    }
}

/// The number of a stage.
fn stage_number(stage: Stage) -> u8
    ensures { result ≡ stage_number stage }
{
    match stage {
        Stage::Idle => UPDATE_IDLE,
        Stage::Learning => UPDATE_LEARNING,
        Stage::Ready => UPDATE_READY,
        Stage::Beginning => UPDATE_BEGINNING,
        Stage::Fetching => UPDATE_FETCHING,
        Stage::Storing(_) => UPDATE_STORING,
        Stage::Fetched => UPDATE_FETCHED,
        Stage::Failed => UPDATE_FAILED,
        Stage::Verifying => UPDATE_VERIFYING,
        Stage::Verified(true) => UPDATE_VERIFIED,
        Stage::Verified(false) => UPDATE_NOT_VERIFIED,
        Stage::Applying => UPDATE_APPLYING,
        Stage::Applied(true) => UPDATE_APPLIED,
        Stage::Applied(false) => UPDATE_NOT_APPLIED,
        Stage::Activating => UPDATE_ACTIVATING,
    }
}

/// Reports where the device is in the update.
pub(crate) fn stage(device: &FirmwareDevice) -> StageReport
    ensures { result ≡ stage_report (Some device.now) }
{
    StageReport {
        stage: stage_number(device.stage()),
        stored: device.stored(),
    }
}

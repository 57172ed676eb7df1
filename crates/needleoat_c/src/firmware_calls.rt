//! The C calls on the machine of a firmware device, as `include/needleoat.h` declares them.

ghost use Rattle.std.specs.Prelude.{◌≡◌, ◌≢◌, false, length, option_map, Some};
ghost use Rattle.pldm_update.specs.DeviceAnswers.{answered, done, given_up, opened, ticked};
ghost use Rattle.pldm_update.specs.Machines.{first_machine};
ghost use Rattle.needleoat_c.specs.Firmware.{HasAnswer, HasComponent, IsUpheld, ReportsMaking, ReportsRequest, coming_answer, coming_step, command_in, component_in, left_at, left_by_coming, refusal_at, stage_report, told, told_at, wish_of};

use crate::firmware;
use crate::firmware_handle::FirmwareForC;
use crate::firmware_reports::{ComponentFields, FirmwareAnswer, FlashReport, StageReport};
use crate::kinds::UPDATE_NONE;
use crate::refusals::{ALREADY_THERE, NO_MEMORY, NOTHING_THERE};
use crate::reports::RequestFields;
use std::alloc::Global;

/// Makes the machine of a firmware device with no update under way, as it is after each restart: 0, or why not. Steps
/// of the flash have numbers after `latest`.
#[unsafe(no_mangle)]
pub extern "C" fn needleoat_firmware_new(
    alloc: Global,
    latest: u64,
    firmware: &mut FirmwareForC,
) -> u8
    requires { IsUpheld firmware.old }
    ensures upheld { IsUpheld firmware.new }
    ensures number { ReportsMaking firmware.old.is_live result }
    ensures made { result ≡ 0 → firmware.new.handle.held ≡ Some (first_machine latest) }
    ensures refused { result ≢ 0 → firmware.new.handle.held ≡ firmware.old.handle.held }
{
    if firmware.is_live {
        return ALREADY_THERE;
    }
    match firmware::start(alloc, latest) {
        Ok(inside) => {
            firmware.handle.put(inside);
            firmware.is_live = true;
            0
        }
        Err(_) => NO_MEMORY,
    }
}

/// Puts the component that a command of firmware update names, by its number and its data, into `component`, and
/// returns true: PassComponentTable and UpdateComponent name one. False, with `component` as it was, where it is
/// another command or can't be read.
#[unsafe(no_mangle)]
pub extern "C" fn needleoat_firmware_component(
    command: u8,
    data: &[u8],
    component: &mut ComponentFields,
) -> bool
    ensures { HasComponent (component_in (command_in command data.now)) result component.old component.new }
{
    firmware::put_component(command, data, component)
}

/// Takes a command of firmware update as it was handed on: its number and its data, from this endpoint. `room` is the
/// most bytes that an image of the component of an UpdateComponent may have, 0 where the device has no such component.
/// The answer is put into `answer`, also that to a command that can't be read; the step of the flash that comes of it
/// is returned. Where the call is refused, `answer` stays as it was, and so does the machine.
#[unsafe(no_mangle)]
pub extern "C" fn needleoat_firmware_receive(
    alloc: Global,
    firmware: &mut FirmwareForC,
    source: u8,
    now_ms: u64,
    command: u8,
    data: &[u8],
    room: u32,
    answer: &mut FirmwareAnswer,
) -> FlashReport
    requires { IsUpheld firmware.old }
    ensures upheld { IsUpheld firmware.new }
    ensures step { result ≡ coming_step source now_ms room command data.now firmware.old.handle.held }
    ensures answer { HasAnswer (coming_answer source now_ms room command data.now firmware.old.handle.held)
        answer.old answer.new }
    ensures left { firmware.new.handle.held
        ≡ option_map (left_by_coming source now_ms room command data.now) firmware.old.handle.held }
{
    if !firmware.is_live {
        return FlashReport::none(NOTHING_THERE);
    }
    let mut inside = firmware.handle.take(alloc);
    let step = firmware::receive(&mut inside, source, now_ms, command, data, room, answer);
    firmware.handle.put(inside);
    step
}

/// Puts what the device asks of the update agent at a moment into `request`, and returns whether it asks something.
/// Where it does not, `request` stays as it was.
#[unsafe(no_mangle)]
pub extern "C" fn needleoat_firmware_wish(
    alloc: Global,
    firmware: &mut FirmwareForC,
    now_ms: u64,
    request: &mut RequestFields,
) -> bool
    requires { IsUpheld firmware.old }
    ensures upheld { IsUpheld firmware.new }
    ensures request { ReportsRequest (wish_of now_ms firmware.old.handle.held) result request.old request.new }
    ensures left { firmware.new.handle.held ≡ firmware.old.handle.held }
{
    if !firmware.is_live {
        return false;
    }
    let inside = firmware.handle.take(alloc);
    let asks = firmware::wish(&inside, now_ms, request);
    firmware.handle.put(inside);
    asks
}

/// What [`needleoat_firmware_wish`] puts at this moment was opened, under this number of its requester: 0, or why the
/// call was refused. Where nothing is asked, nothing changes.
#[unsafe(no_mangle)]
pub extern "C" fn needleoat_firmware_opened(
    alloc: Global,
    firmware: &mut FirmwareForC,
    number: u64,
    now_ms: u64,
) -> u8
    requires { IsUpheld firmware.old }
    ensures upheld { IsUpheld firmware.new }
    ensures refusal { result ≡ refusal_at now_ms firmware.old.handle.held }
    ensures left { firmware.new.handle.held
        ≡ left_at now_ms (λ m. opened m number now_ms) firmware.old.handle.held }
{
    if !firmware.is_live {
        return NOTHING_THERE;
    }
    let mut inside = firmware.handle.take(alloc);
    let refusal = firmware::opened(&mut inside, number, now_ms);
    firmware.handle.put(inside);
    refusal
}

/// The request with this number was answered, by this completion code and this data. Returns the step of the flash that
/// comes of it; the bytes of a piece that is to be stored are this data. An answer to any other request than the open
/// one changes nothing.
#[unsafe(no_mangle)]
pub extern "C" fn needleoat_firmware_answered(
    alloc: Global,
    firmware: &mut FirmwareForC,
    number: u64,
    now_ms: u64,
    code: u8,
    data: &[u8],
) -> FlashReport
    requires { IsUpheld firmware.old }
    ensures upheld { IsUpheld firmware.new }
    ensures step { result
        ≡ told_at now_ms (λ m. answered m number now_ms code (length data.now)) firmware.old.handle.held }
    ensures left { firmware.new.handle.held
        ≡ left_at now_ms (λ m. (answered m number now_ms code (length data.now)).machine) firmware.old.handle.held }
{
    if !firmware.is_live {
        return FlashReport::none(NOTHING_THERE);
    }
    let mut inside = firmware.handle.take(alloc);
    let step = firmware::answered(&mut inside, number, now_ms, code, data);
    firmware.handle.put(inside);
    step
}

/// The request with this number was given up by its requester. Returns the step of the flash that comes of it. Any
/// other request than the open one changes nothing.
#[unsafe(no_mangle)]
pub extern "C" fn needleoat_firmware_gave_up(
    alloc: Global,
    firmware: &mut FirmwareForC,
    number: u64,
) -> FlashReport
    requires { IsUpheld firmware.old }
    ensures upheld { IsUpheld firmware.new }
    ensures step { result ≡ told (λ m. given_up m number) firmware.old.handle.held }
    ensures left { firmware.new.handle.held
        ≡ option_map (λ m. (given_up m number).machine) firmware.old.handle.held }
{
    if !firmware.is_live {
        return FlashReport::none(NOTHING_THERE);
    }
    let mut inside = firmware.handle.take(alloc);
    let step = firmware::gave_up(&mut inside, number);
    firmware.handle.put(inside);
    step
}

/// The flash is done with the step of this number, well or not. A report of any step but the last one changes nothing,
/// nor does any where there is no machine.
#[unsafe(no_mangle)]
pub extern "C" fn needleoat_firmware_done(
    alloc: Global,
    firmware: &mut FirmwareForC,
    number: u64,
    well: bool,
)
    requires { IsUpheld firmware.old }
    ensures upheld { IsUpheld firmware.new }
    ensures left { firmware.new.handle.held ≡ option_map (λ m. done m number well) firmware.old.handle.held }
{
    if firmware.is_live {
        let mut inside = firmware.handle.take(alloc);
        inside.done(number, well);
        firmware.handle.put(inside);
    }
}

/// Time passes. Returns the step of the flash that comes of it, where the update agent was silent for too long.
#[unsafe(no_mangle)]
pub extern "C" fn needleoat_firmware_tick(
    alloc: Global,
    firmware: &mut FirmwareForC,
    now_ms: u64,
) -> FlashReport
    requires { IsUpheld firmware.old }
    ensures upheld { IsUpheld firmware.new }
    ensures step { result ≡ told_at now_ms (λ m. ticked m now_ms) firmware.old.handle.held }
    ensures left { firmware.new.handle.held
        ≡ left_at now_ms (λ m. (ticked m now_ms).machine) firmware.old.handle.held }
{
    if !firmware.is_live {
        return FlashReport::none(NOTHING_THERE);
    }
    let mut inside = firmware.handle.take(alloc);
    let step = firmware::tick(&mut inside, now_ms);
    firmware.handle.put(inside);
    step
}

/// Reports where the device is in the update.
#[unsafe(no_mangle)]
pub extern "C" fn needleoat_firmware_stage(
    alloc: Global,
    firmware: &mut FirmwareForC,
) -> StageReport
    requires { IsUpheld firmware.old }
    ensures upheld { IsUpheld firmware.new }
    ensures stage { result ≡ stage_report firmware.old.handle.held }
    ensures left { firmware.new.handle.held ≡ firmware.old.handle.held }
{
    if !firmware.is_live {
        return StageReport {
            stage: UPDATE_NONE,
            stored: 0,
        };
    }
    let inside = firmware.handle.take(alloc);
    let report = firmware::stage(&inside);
    firmware.handle.put(inside);
    report
}

/// Frees what is behind the handle, where there is something. The handle is then as one of zeros.
#[unsafe(no_mangle)]
pub extern "C" fn needleoat_firmware_free(alloc: Global, firmware: &mut FirmwareForC)
    requires { IsUpheld firmware.old }
    ensures upheld { IsUpheld firmware.new }
    ensures freed { firmware.new.is_live ≡ false }
{
    if firmware.is_live {
        drop(firmware.handle.take(alloc));
        firmware.is_live = false;
    }
}

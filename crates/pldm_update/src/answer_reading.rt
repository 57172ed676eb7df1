//! The answer in a completion code and data, or why they are none.

ghost use Rattle.std.specs.Prelude.{◌≡◌, Ok, IfOk};
ghost use Rattle.pldm_update.specs.AnswerReading.{activate_firmware_answer_row, cancel_update_answer_row, empty_answer, get_firmware_parameters_answer_row, get_status_answer_row, pass_component_table_answer_row, query_device_identifiers_answer_row, request_firmware_data_answer_row, request_update_answer_row, update_answer_of, update_component_answer_row, update_success_of};
ghost use Rattle.pldm_update.specs.Answers.{UpdateAnswerFields};
ghost use Rattle.pldm_update.specs.FieldReading.{read_row};
ghost use Rattle.pldm_update.specs.declared.answer.UpdateAnswer.{UpdateAnswer as UpdateAnswerValue};

use crate::assigned::{
    ACTIVATE_FIRMWARE, APPLY_COMPLETE, CANCEL_UPDATE, CANCEL_UPDATE_COMPONENT,
    GET_FIRMWARE_PARAMETERS, GET_STATUS, PASS_COMPONENT_TABLE, QUERY_DEVICE_IDENTIFIERS,
    REQUEST_FIRMWARE_DATA, REQUEST_UPDATE, TRANSFER_COMPLETE, UPDATE_COMPONENT, VERIFY_COMPLETE,
};
use crate::places::{end_at, piece_at, state_at, u8_at, u16_at, u32_at, u64_at};
use crate::{DeviceIdentifiers, FirmwareParameters, UpdateAnswer, UpdateFault};
use pldm_wire::Code;

/// The answer to the command of this number that this completion code and the data after it are: another code than
/// SUCCESS is a refusal, whatever follows it; else OtherCommand for a number whose answer isn't read here; else, by the
/// first field that fails, Length for one that is cut short or for bytes that are left after the last, and Value for a
/// state that there is not and for a device without a descriptor (DSP0267; the order is this profile's own). A piece of
/// an image has the rest of the data, [`MAX_PIECE_BYTES`](crate::MAX_PIECE_BYTES) at most. What a device says of itself
/// has [`MAX_UPDATE_DATA`](crate::MAX_UPDATE_DATA) bytes at most, and its descriptors are as long as is stated; else the
/// fault is Length.
pub fn read_update_answer(command: u8, code: u8, data: &[u8]) -> Result<UpdateAnswer, UpdateFault>
    ensures exact { result ≡ update_answer_of command code data.now }
    ensures found { IfOk result (λ a. UpdateAnswerFields a command code data.now) }
    ensures only { (a : UpdateAnswerValue) → UpdateAnswerFields a command code data.now → result ≡ Ok a }
{
    answer_in(command, code, data)
}

/// As `read_update_answer`, check by check.
fn answer_in(command: u8, code: u8, data: &[u8]) -> Result<UpdateAnswer, UpdateFault>
    ensures { result ≡ update_answer_of command code data.now }
{
    match Code::new(code) {
        Some(code) => Ok(UpdateAnswer::Refused(code)),
        None => success_in(command, data),
    }
}

/// The answer that this data is, after SUCCESS.
#[tactic(auto, unfolding(crate::specs::AnswerReading::update_success_of))]
fn success_in(command: u8, bytes: &[u8]) -> Result<UpdateAnswer, UpdateFault>
    ensures { result ≡ update_success_of command bytes.now }
{
    match command {
        QUERY_DEVICE_IDENTIFIERS => identifiers_answer_in(bytes),
        GET_FIRMWARE_PARAMETERS => parameters_answer_in(bytes),
        REQUEST_UPDATE => request_update_answer_in(bytes),
        PASS_COMPONENT_TABLE => pass_component_table_answer_in(bytes),
        UPDATE_COMPONENT => update_component_answer_in(bytes),
        REQUEST_FIRMWARE_DATA => request_firmware_data_answer_in(bytes),
        TRANSFER_COMPLETE => empty_answer_in(UpdateAnswer::TransferComplete, bytes),
        VERIFY_COMPLETE => empty_answer_in(UpdateAnswer::VerifyComplete, bytes),
        APPLY_COMPLETE => empty_answer_in(UpdateAnswer::ApplyComplete, bytes),
        ACTIVATE_FIRMWARE => activate_firmware_answer_in(bytes),
        GET_STATUS => get_status_answer_in(bytes),
        CANCEL_UPDATE_COMPONENT => empty_answer_in(UpdateAnswer::CancelUpdateComponent, bytes),
        CANCEL_UPDATE => cancel_update_answer_in(bytes),
        _ => Err(UpdateFault::OtherCommand),
    }
}

/// An answer with no data.
fn empty_answer_in(answer: UpdateAnswer, bytes: &[u8]) -> Result<UpdateAnswer, UpdateFault>
    ensures { result ≡ read_row (empty_answer answer) bytes.now }
{
    end_at(bytes, 0)?;
    Ok(answer)
}

/// QueryDeviceIdentifiers' answer: the device's descriptors.
fn identifiers_answer_in(bytes: &[u8]) -> Result<UpdateAnswer, UpdateFault>
    ensures { result ≡ read_row query_device_identifiers_answer_row bytes.now }
{
    let identifiers = DeviceIdentifiers::read(bytes)?;
    Ok(UpdateAnswer::QueryDeviceIdentifiers { identifiers })
}

/// GetFirmwareParameters' answer: the firmware that the device has.
fn parameters_answer_in(bytes: &[u8]) -> Result<UpdateAnswer, UpdateFault>
    ensures { result ≡ read_row get_firmware_parameters_answer_row bytes.now }
{
    let parameters = FirmwareParameters::read(bytes)?;
    Ok(UpdateAnswer::GetFirmwareParameters { parameters })
}

/// RequestUpdate's answer: meta data length, whether GetPackageData will be sent.
fn request_update_answer_in(bytes: &[u8]) -> Result<UpdateAnswer, UpdateFault>
    ensures { result ≡ read_row request_update_answer_row bytes.now }
{
    let meta_data_bytes = u16_at(bytes, 0)?;
    let sends_package_data = u8_at(bytes, 2)?;
    end_at(bytes, 3)?;
    Ok(UpdateAnswer::RequestUpdate {
        meta_data_bytes,
        sends_package_data,
    })
}

/// PassComponentTable's answer: response, its code.
fn pass_component_table_answer_in(bytes: &[u8]) -> Result<UpdateAnswer, UpdateFault>
    ensures { result ≡ read_row pass_component_table_answer_row bytes.now }
{
    let response = u8_at(bytes, 0)?;
    let response_code = u8_at(bytes, 1)?;
    end_at(bytes, 2)?;
    Ok(UpdateAnswer::PassComponentTable {
        response,
        response_code,
    })
}

/// UpdateComponent's answer: compatibility, its code, enabled flags, seconds before the first piece is asked for.
fn update_component_answer_in(bytes: &[u8]) -> Result<UpdateAnswer, UpdateFault>
    ensures { result ≡ read_row update_component_answer_row bytes.now }
{
    let compatibility = u8_at(bytes, 0)?;
    let compatibility_code = u8_at(bytes, 1)?;
    let enabled_flags = u32_at(bytes, 2)?;
    let seconds_before_first_piece = u16_at(bytes, 6)?;
    end_at(bytes, 8)?;
    Ok(UpdateAnswer::UpdateComponent {
        compatibility,
        compatibility_code,
        enabled_flags,
        seconds_before_first_piece,
    })
}

/// RequestFirmwareData's answer: a piece of the image.
fn request_firmware_data_answer_in(bytes: &[u8]) -> Result<UpdateAnswer, UpdateFault>
    ensures { result ≡ read_row request_firmware_data_answer_row bytes.now }
{
    let piece = piece_at(bytes)?;
    Ok(UpdateAnswer::RequestFirmwareData { piece })
}

/// ActivateFirmware's answer: estimated seconds.
fn activate_firmware_answer_in(bytes: &[u8]) -> Result<UpdateAnswer, UpdateFault>
    ensures { result ≡ read_row activate_firmware_answer_row bytes.now }
{
    let estimated_seconds = u16_at(bytes, 0)?;
    end_at(bytes, 2)?;
    Ok(UpdateAnswer::ActivateFirmware { estimated_seconds })
}

/// GetStatus' answer: state, previous state, auxiliary state and status, progress, reason, enabled flags.
fn get_status_answer_in(bytes: &[u8]) -> Result<UpdateAnswer, UpdateFault>
    ensures { result ≡ read_row get_status_answer_row bytes.now }
{
    let state = state_at(bytes, 0)?;
    let previous = state_at(bytes, 1)?;
    let auxiliary_state = u8_at(bytes, 2)?;
    let auxiliary_status = u8_at(bytes, 3)?;
    let progress = u8_at(bytes, 4)?;
    let reason = u8_at(bytes, 5)?;
    let enabled_flags = u32_at(bytes, 6)?;
    end_at(bytes, 10)?;
    Ok(UpdateAnswer::GetStatus {
        state,
        previous,
        auxiliary_state,
        auxiliary_status,
        progress,
        reason,
        enabled_flags,
    })
}

/// CancelUpdate's answer: whether components don't function, and which.
fn cancel_update_answer_in(bytes: &[u8]) -> Result<UpdateAnswer, UpdateFault>
    ensures { result ≡ read_row cancel_update_answer_row bytes.now }
{
    let not_functioning = u8_at(bytes, 0)?;
    let components = u64_at(bytes, 1)?;
    end_at(bytes, 9)?;
    Ok(UpdateAnswer::CancelUpdate {
        not_functioning,
        components,
    })
}

//! The command in data, or why it is none.

ghost use Rattle.std.specs.Prelude.{◌≡◌, Ok, IfOk};
ghost use Rattle.pldm_update.specs.CommandReading.{apply_complete_row, no_data, one_byte_row, or_code, pass_component_table_row, request_firmware_data_row, request_update_row, update_command_of, update_component_row};
ghost use Rattle.pldm_update.specs.Commands.{UpdateCommandFields};
ghost use Rattle.pldm_update.specs.FieldReading.{read_row};
ghost use Rattle.pldm_update.specs.declared.command.UpdateCommand.{UpdateCommand as UpdateCommandValue};

use crate::assigned::{
    ACTIVATE_FIRMWARE, APPLY_COMPLETE, CANCEL_UPDATE, CANCEL_UPDATE_COMPONENT,
    GET_FIRMWARE_PARAMETERS, GET_STATUS, PASS_COMPONENT_TABLE, QUERY_DEVICE_IDENTIFIERS,
    REQUEST_FIRMWARE_DATA, REQUEST_UPDATE, TRANSFER_COMPLETE, UPDATE_COMPONENT, VERIFY_COMPLETE,
};
use crate::places::{end_at, part_at, text_at, u8_at, u16_at, u32_at};
use crate::{Component, UpdateCommand, UpdateFault};
use pldm_wire::Code;

/// A command with no data.
fn no_data_in(command: UpdateCommand, bytes: &[u8]) -> Result<UpdateCommand, UpdateFault>
    ensures { result ≡ read_row (no_data command) bytes.now }
{
    end_at(bytes, 0)?;
    Ok(command)
}

/// RequestFirmwareData: offset, length.
fn request_firmware_data_in(bytes: &[u8]) -> Result<UpdateCommand, UpdateFault>
    ensures { result ≡ read_row request_firmware_data_row bytes.now }
{
    let offset = u32_at(bytes, 0)?;
    let length = u32_at(bytes, 4)?;
    end_at(bytes, 8)?;
    Ok(UpdateCommand::RequestFirmwareData { offset, length })
}

/// RequestUpdate: maximum transfer size, components, outstanding requests, package data length, version.
fn request_update_in(bytes: &[u8]) -> Result<UpdateCommand, UpdateFault>
    ensures { result ≡ read_row request_update_row bytes.now }
{
    let max_transfer_bytes = u32_at(bytes, 0)?;
    let components = u16_at(bytes, 4)?;
    let outstanding_requests = u8_at(bytes, 6)?;
    let package_data_bytes = u16_at(bytes, 7)?;
    let version = text_at(bytes, 9)?;
    end_at(bytes, 11 + version.text().len())?;
    Ok(UpdateCommand::RequestUpdate {
        max_transfer_bytes,
        components,
        outstanding_requests,
        package_data_bytes,
        version,
    })
}

/// PassComponentTable: transfer flag, classification, identifier, index, comparison stamp, version.
fn pass_component_table_in(bytes: &[u8]) -> Result<UpdateCommand, UpdateFault>
    ensures { result ≡ read_row pass_component_table_row bytes.now }
{
    let part = part_at(bytes, 0)?;
    let classification = u16_at(bytes, 1)?;
    let identifier = u16_at(bytes, 3)?;
    let index = u8_at(bytes, 5)?;
    let comparison_stamp = u32_at(bytes, 6)?;
    let version = text_at(bytes, 10)?;
    end_at(bytes, 12 + version.text().len())?;
    Ok(UpdateCommand::PassComponentTable {
        part,
        component: Component {
            classification,
            identifier,
            index,
        },
        comparison_stamp,
        version,
    })
}

/// UpdateComponent: classification, identifier, index, comparison stamp, image size, option flags, version.
fn update_component_in(bytes: &[u8]) -> Result<UpdateCommand, UpdateFault>
    ensures { result ≡ read_row update_component_row bytes.now }
{
    let classification = u16_at(bytes, 0)?;
    let identifier = u16_at(bytes, 2)?;
    let index = u8_at(bytes, 4)?;
    let comparison_stamp = u32_at(bytes, 5)?;
    let image_bytes = u32_at(bytes, 9)?;
    let option_flags = u32_at(bytes, 13)?;
    let version = text_at(bytes, 17)?;
    end_at(bytes, 19 + version.text().len())?;
    Ok(UpdateCommand::UpdateComponent {
        component: Component {
            classification,
            identifier,
            index,
        },
        comparison_stamp,
        image_bytes,
        option_flags,
        version,
    })
}

/// TransferComplete: result.
fn transfer_complete_in(bytes: &[u8]) -> Result<UpdateCommand, UpdateFault>
    ensures { result ≡ read_row (one_byte_row (λ result. UpdateCommand.TransferComplete result)) bytes.now }
{
    let result = u8_at(bytes, 0)?;
    end_at(bytes, 1)?;
    Ok(UpdateCommand::TransferComplete { result })
}

/// VerifyComplete: result.
fn verify_complete_in(bytes: &[u8]) -> Result<UpdateCommand, UpdateFault>
    ensures { result ≡ read_row (one_byte_row (λ result. UpdateCommand.VerifyComplete result)) bytes.now }
{
    let result = u8_at(bytes, 0)?;
    end_at(bytes, 1)?;
    Ok(UpdateCommand::VerifyComplete { result })
}

/// ApplyComplete: result, activation methods.
fn apply_complete_in(bytes: &[u8]) -> Result<UpdateCommand, UpdateFault>
    ensures { result ≡ read_row apply_complete_row bytes.now }
{
    let result = u8_at(bytes, 0)?;
    let activation_methods = u16_at(bytes, 1)?;
    end_at(bytes, 3)?;
    Ok(UpdateCommand::ApplyComplete {
        result,
        activation_methods,
    })
}

/// ActivateFirmware: whether self-contained components are to be activated.
fn activate_firmware_in(bytes: &[u8]) -> Result<UpdateCommand, UpdateFault>
    ensures { result ≡ read_row (one_byte_row (λ flag. UpdateCommand.ActivateFirmware flag)) bytes.now }
{
    let self_contained = u8_at(bytes, 0)?;
    end_at(bytes, 1)?;
    Ok(UpdateCommand::ActivateFirmware { self_contained })
}

/// The command of this number that the data is.
#[tactic(auto, unfolding(crate::specs::CommandReading::update_command_of))]
fn update_command_in(command: u8, bytes: &[u8]) -> Result<UpdateCommand, UpdateFault>
    ensures { result ≡ update_command_of command bytes.now }
{
    match command {
        QUERY_DEVICE_IDENTIFIERS => no_data_in(UpdateCommand::QueryDeviceIdentifiers, bytes),
        GET_FIRMWARE_PARAMETERS => no_data_in(UpdateCommand::GetFirmwareParameters, bytes),
        REQUEST_UPDATE => request_update_in(bytes),
        PASS_COMPONENT_TABLE => pass_component_table_in(bytes),
        UPDATE_COMPONENT => update_component_in(bytes),
        REQUEST_FIRMWARE_DATA => request_firmware_data_in(bytes),
        TRANSFER_COMPLETE => transfer_complete_in(bytes),
        VERIFY_COMPLETE => verify_complete_in(bytes),
        APPLY_COMPLETE => apply_complete_in(bytes),
        ACTIVATE_FIRMWARE => activate_firmware_in(bytes),
        GET_STATUS => no_data_in(UpdateCommand::GetStatus, bytes),
        CANCEL_UPDATE_COMPONENT => no_data_in(UpdateCommand::CancelUpdateComponent, bytes),
        CANCEL_UPDATE => no_data_in(UpdateCommand::CancelUpdate, bytes),
        _ => Err(UpdateFault::OtherCommand),
    }
}

/// The command of this number that the data after a request's header is, or the completion code by which it is refused:
/// ERROR_UNSUPPORTED_PLDM_CMD for a number that isn't read here; else, by the first field that fails,
/// ERROR_INVALID_LENGTH for one that is cut short or for bytes that are left after the last, and ERROR_INVALID_DATA for
/// a transfer flag of PassComponentTable other than 1, 2, 4 and 5 (DSP0267; the order is this profile's own). A maximum
/// transfer size under `MIN_TRANSFER_BYTES` is read.
pub fn read_update_command(command: u8, data: &[u8]) -> Result<UpdateCommand, Code>
    ensures exact { result ≡ or_code (update_command_of command data.now) }
    ensures found { IfOk result (λ c. UpdateCommandFields c command data.now) }
    ensures only { (c : UpdateCommandValue) → UpdateCommandFields c command data.now → result ≡ Ok c }
{
    coded(update_command_in(command, data))
}

/// The same with the fault's completion code.
fn coded(read: Result<UpdateCommand, UpdateFault>) -> Result<UpdateCommand, Code>
    ensures { result ≡ or_code read }
{
    match read {
        Ok(command) => Ok(command),
        Err(fault) => Err(fault.code()),
    }
}

//! The data of a command of firmware update.

ghost use Rattle.std.specs.Prelude.{◌≡◌};
ghost use Rattle.pldm_update.specs.Commands.{IsUpdateCommand, UpdateCommandFields, command_data, number_of};

use crate::field::{Field, data_of};
use crate::{Component, TablePart, UpdateCommand, UpdateData, VersionString};

/// The data of this command, which follows a request's header: its fields one after another, numbers with their lowest
/// byte first (DSP0267).
pub fn update_command_data(command: &UpdateCommand) -> UpdateData
    ensures spelled { result.items ≡ command_data command.now }
    ensures fields { UpdateCommandFields command.now (number_of command.now) result.items }
    ensures range { IsUpdateCommand command.now }
{
    spelled(command)
}

/// The same, field by field.
fn spelled(command: &UpdateCommand) -> UpdateData
    ensures items { result.items ≡ command_data command.now }
    ensures range { IsUpdateCommand command.now }
{
    match command {
        UpdateCommand::QueryDeviceIdentifiers
        | UpdateCommand::GetFirmwareParameters
        | UpdateCommand::GetStatus
        | UpdateCommand::CancelUpdateComponent
        | UpdateCommand::CancelUpdate => UpdateData::new(),
        UpdateCommand::RequestUpdate {
            max_transfer_bytes,
            components,
            outstanding_requests,
            package_data_bytes,
            version,
        } => request_update_data(
            *max_transfer_bytes,
            *components,
            *outstanding_requests,
            *package_data_bytes,
            version,
        ),
        UpdateCommand::PassComponentTable {
            part,
            component,
            comparison_stamp,
            version,
        } => pass_component_table_data(*part, *component, *comparison_stamp, version),
        UpdateCommand::UpdateComponent {
            component,
            comparison_stamp,
            image_bytes,
            option_flags,
            version,
        } => update_component_data(
            *component,
            *comparison_stamp,
            *image_bytes,
            *option_flags,
            version,
        ),
        UpdateCommand::RequestFirmwareData { offset, length } => {
            data_of(&[Field::U32(*offset), Field::U32(*length)])
        }
        UpdateCommand::TransferComplete { result } => data_of(&[Field::U8(*result)]),
        UpdateCommand::VerifyComplete { result } => data_of(&[Field::U8(*result)]),
        UpdateCommand::ApplyComplete {
            result,
            activation_methods,
        } => data_of(&[Field::U8(*result), Field::U16(*activation_methods)]),
        UpdateCommand::ActivateFirmware { self_contained } => {
            data_of(&[Field::U8(*self_contained)])
        }
    }
}

/// RequestUpdate: maximum transfer size, components, outstanding requests, package data length, version.
fn request_update_data(
    max_transfer_bytes: u32,
    components: u16,
    outstanding_requests: u8,
    package_data_bytes: u16,
    version: &VersionString,
) -> UpdateData
    ensures items { result.items
        ≡ command_data (UpdateCommand.RequestUpdate max_transfer_bytes components outstanding_requests
        package_data_bytes version.now) }
    ensures range { IsUpdateCommand
        (UpdateCommand.RequestUpdate max_transfer_bytes components outstanding_requests package_data_bytes
        version.now) }
{
    data_of(&[
        Field::U32(max_transfer_bytes),
        Field::U16(components),
        Field::U8(outstanding_requests),
        Field::U16(package_data_bytes),
        Field::U8(version.string_type()),
        Field::U8(version.length_byte()),
        Field::Bytes(version.text()),
    ])
}

/// PassComponentTable: transfer flag, classification, identifier, index, comparison stamp, version.
fn pass_component_table_data(
    part: TablePart,
    component: Component,
    comparison_stamp: u32,
    version: &VersionString,
) -> UpdateData
    ensures items { result.items
        ≡ command_data (UpdateCommand.PassComponentTable part component comparison_stamp version.now) }
    ensures range { IsUpdateCommand
        (UpdateCommand.PassComponentTable part component comparison_stamp version.now) }
{
    data_of(&[
        Field::U8(part.number()),
        Field::U16(component.classification),
        Field::U16(component.identifier),
        Field::U8(component.index),
        Field::U32(comparison_stamp),
        Field::U8(version.string_type()),
        Field::U8(version.length_byte()),
        Field::Bytes(version.text()),
    ])
}

/// UpdateComponent: classification, identifier, index, comparison stamp, image size, option flags, version.
fn update_component_data(
    component: Component,
    comparison_stamp: u32,
    image_bytes: u32,
    option_flags: u32,
    version: &VersionString,
) -> UpdateData
    ensures items { result.items
        ≡ command_data (UpdateCommand.UpdateComponent component comparison_stamp image_bytes option_flags version.now) }
    ensures range { IsUpdateCommand
        (UpdateCommand.UpdateComponent component comparison_stamp image_bytes option_flags version.now) }
{
    data_of(&[
        Field::U16(component.classification),
        Field::U16(component.identifier),
        Field::U8(component.index),
        Field::U32(comparison_stamp),
        Field::U32(image_bytes),
        Field::U32(option_flags),
        Field::U8(version.string_type()),
        Field::U8(version.length_byte()),
        Field::Bytes(version.text()),
    ])
}

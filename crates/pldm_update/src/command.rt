//! The commands of firmware update with their fields.

ghost use Rattle.std.specs.Prelude.{◌≡◌};
ghost use Rattle.pldm_update.specs.Commands.{number_of};

use crate::assigned::{
    ACTIVATE_FIRMWARE, APPLY_COMPLETE, CANCEL_UPDATE, CANCEL_UPDATE_COMPONENT,
    GET_FIRMWARE_PARAMETERS, GET_STATUS, PASS_COMPONENT_TABLE, QUERY_DEVICE_IDENTIFIERS,
    REQUEST_FIRMWARE_DATA, REQUEST_UPDATE, TRANSFER_COMPLETE, UPDATE_COMPONENT, VERIFY_COMPLETE,
};
use crate::{Component, TablePart, VersionString};

/// A command of firmware update with its fields as they came (DSP0267). RequestFirmwareData, TransferComplete,
/// VerifyComplete and ApplyComplete come from the firmware device, and the update agent answers them; the others come
/// from the agent, and the device answers.
#[derive(Debug, PartialEq, Eq, Drop)]
pub enum UpdateCommand {
    /// Asks what identifies the device (DSP0267, "QueryDeviceIdentifiers command").
    QueryDeviceIdentifiers,
    /// Asks which firmware the device has (DSP0267, "GetFirmwareParameters command").
    GetFirmwareParameters,
    /// Begins an update (DSP0267, "RequestUpdate command").
    RequestUpdate {
        /// The most bytes that the device may ask for at once. Any number is read; see `MIN_TRANSFER_BYTES`.
        max_transfer_bytes: u32,
        /// How many components the update has.
        components: u16,
        /// How many requests of RequestFirmwareData may be open at once.
        outstanding_requests: u8,
        /// The bytes of the package data that the agent has for the device.
        package_data_bytes: u16,
        /// The version of the set of components.
        version: VersionString,
    },
    /// Passes a component of the update (DSP0267, "PassComponentTable command").
    PassComponentTable {
        /// Which part of the table it is.
        part: TablePart,
        /// The component.
        component: Component,
        /// A number by which versions of the component are compared.
        comparison_stamp: u32,
        /// The component's version.
        version: VersionString,
    },
    /// Begins the transfer of a component (DSP0267, "UpdateComponent command").
    UpdateComponent {
        /// The component.
        component: Component,
        /// A number by which versions of the component are compared.
        comparison_stamp: u32,
        /// The bytes of the image.
        image_bytes: u32,
        /// Which options are asked for, a bit each.
        option_flags: u32,
        /// The component's version.
        version: VersionString,
    },
    /// Asks for a piece of the image (DSP0267, "RequestFirmwareData command").
    RequestFirmwareData {
        /// Where the piece begins, in bytes from the image's begin.
        offset: u32,
        /// How many bytes it has.
        length: u32,
    },
    /// The device has the whole image, or gives up (DSP0267, "TransferComplete command").
    TransferComplete {
        /// 0 for a success. Any byte is read.
        result: u8,
    },
    /// The device has verified the image (DSP0267, "VerifyComplete command").
    VerifyComplete {
        /// 0 for a success. Any byte is read.
        result: u8,
    },
    /// The device has applied the image (DSP0267, "ApplyComplete command").
    ApplyComplete {
        /// 0 for a success, 1 for a success with another activation method. Any byte is read.
        result: u8,
        /// How the image may be activated, a bit for each method.
        activation_methods: u16,
    },
    /// Activates what was applied (DSP0267, "ActivateFirmware command").
    ActivateFirmware {
        /// 1 to activate at once what needs no reset. Any byte is read.
        self_contained: u8,
    },
    /// Asks for the device's state (DSP0267, "GetStatus command").
    GetStatus,
    /// Ends the transfer of a component (DSP0267, "CancelUpdateComponent command").
    CancelUpdateComponent,
    /// Ends the update (DSP0267, "CancelUpdate command").
    CancelUpdate,
}

impl UpdateCommand {
    /// Its number among the commands of firmware update.
    pub fn number(&self) -> u8
        ensures { result ≡ number_of self.now }
    {
        match self {
            UpdateCommand::QueryDeviceIdentifiers => QUERY_DEVICE_IDENTIFIERS,
            UpdateCommand::GetFirmwareParameters => GET_FIRMWARE_PARAMETERS,
            UpdateCommand::RequestUpdate { .. } => REQUEST_UPDATE,
            UpdateCommand::PassComponentTable { .. } => PASS_COMPONENT_TABLE,
            UpdateCommand::UpdateComponent { .. } => UPDATE_COMPONENT,
            UpdateCommand::RequestFirmwareData { .. } => REQUEST_FIRMWARE_DATA,
            UpdateCommand::TransferComplete { .. } => TRANSFER_COMPLETE,
            UpdateCommand::VerifyComplete { .. } => VERIFY_COMPLETE,
            UpdateCommand::ApplyComplete { .. } => APPLY_COMPLETE,
            UpdateCommand::ActivateFirmware { .. } => ACTIVATE_FIRMWARE,
            UpdateCommand::GetStatus => GET_STATUS,
            UpdateCommand::CancelUpdateComponent => CANCEL_UPDATE_COMPONENT,
            UpdateCommand::CancelUpdate => CANCEL_UPDATE,
        }
    }
}

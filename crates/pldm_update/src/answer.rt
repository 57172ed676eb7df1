//! The answers to the commands of firmware update with their fields.

ghost use Rattle.std.specs.Prelude.{◌≡◌};
ghost use Rattle.pldm_update.specs.Answers.{answered_number, code_of};

use crate::assigned::{
    ACTIVATE_FIRMWARE, APPLY_COMPLETE, CANCEL_UPDATE, CANCEL_UPDATE_COMPONENT,
    GET_FIRMWARE_PARAMETERS, GET_STATUS, PASS_COMPONENT_TABLE, QUERY_DEVICE_IDENTIFIERS,
    REQUEST_FIRMWARE_DATA, REQUEST_UPDATE, TRANSFER_COMPLETE, UPDATE_COMPONENT, VERIFY_COMPLETE,
};
use crate::{DeviceIdentifiers, FirmwareParameters, Piece, UpdateState};
use pldm_wire::{Code, SUCCESS};

/// An answer to a command of firmware update with its fields, and the refusal of any (DSP0267).
#[derive(Debug, PartialEq, Eq, Drop)]
pub enum UpdateAnswer {
    /// The command was refused: this completion code and no data.
    Refused(Code),
    /// What identifies the device (DSP0267, "QueryDeviceIdentifiers command").
    QueryDeviceIdentifiers {
        /// Its descriptors.
        identifiers: DeviceIdentifiers,
    },
    /// Which firmware the device has (DSP0267, "GetFirmwareParameters command").
    GetFirmwareParameters {
        /// Its set of components, and each of them.
        parameters: FirmwareParameters,
    },
    /// The update begins (DSP0267, "RequestUpdate command").
    RequestUpdate {
        /// The bytes of the meta data that the device has for the agent.
        meta_data_bytes: u16,
        /// 1 where the device will ask for the package data. Any byte is read.
        sends_package_data: u8,
    },
    /// What the device thinks of a component (DSP0267, "PassComponentTable command").
    PassComponentTable {
        /// 0 where the component can be updated, 1 where it may not be. Any byte is read.
        response: u8,
        /// Why.
        response_code: u8,
    },
    /// The transfer of a component begins (DSP0267, "UpdateComponent command").
    UpdateComponent {
        /// 0 where the component can be updated, 1 where it can't. Any byte is read.
        compatibility: u8,
        /// Why.
        compatibility_code: u8,
        /// Which options the device has taken, a bit each.
        enabled_flags: u32,
        /// For how long the device may wait before it asks for the first piece, in seconds.
        seconds_before_first_piece: u16,
    },
    /// A piece of the image (DSP0267, "RequestFirmwareData command").
    RequestFirmwareData {
        /// The piece. Which one it is, the request alone says.
        piece: Piece,
    },
    /// The agent knows that the transfer is over (DSP0267, "TransferComplete command").
    TransferComplete,
    /// The agent knows that the verification is over (DSP0267, "VerifyComplete command").
    VerifyComplete,
    /// The agent knows that the image was applied or not (DSP0267, "ApplyComplete command").
    ApplyComplete,
    /// The activation begins (DSP0267, "ActivateFirmware command").
    ActivateFirmware {
        /// How long it will take, in seconds.
        estimated_seconds: u16,
    },
    /// The device's state (DSP0267, "GetStatus command").
    GetStatus {
        /// The state.
        state: UpdateState,
        /// The state before it.
        previous: UpdateState,
        /// How far the state's own work is. Any byte is read.
        auxiliary_state: u8,
        /// What went wrong in it. Any byte is read.
        auxiliary_status: u8,
        /// How much of it is done in percent, or 0x65. Any byte is read.
        progress: u8,
        /// Why the device became idle. Any byte is read.
        reason: u8,
        /// Which options the device has taken, a bit each.
        enabled_flags: u32,
    },
    /// The transfer of the component has ended (DSP0267, "CancelUpdateComponent command").
    CancelUpdateComponent,
    /// The update has ended (DSP0267, "CancelUpdate command").
    CancelUpdate {
        /// 1 where a component doesn't function now. Any byte is read.
        not_functioning: u8,
        /// Which ones, a bit each.
        components: u64,
    },
}

impl UpdateAnswer {
    /// The number of the one command that this answers; `None` for a refusal, which answers any.
    pub fn number(&self) -> Option<u8>
        ensures { result ≡ answered_number self.now }
    {
        let number = match self {
            UpdateAnswer::Refused(_) => return None,
            UpdateAnswer::QueryDeviceIdentifiers { .. } => QUERY_DEVICE_IDENTIFIERS,
            UpdateAnswer::GetFirmwareParameters { .. } => GET_FIRMWARE_PARAMETERS,
            UpdateAnswer::RequestUpdate { .. } => REQUEST_UPDATE,
            UpdateAnswer::PassComponentTable { .. } => PASS_COMPONENT_TABLE,
            UpdateAnswer::UpdateComponent { .. } => UPDATE_COMPONENT,
            UpdateAnswer::RequestFirmwareData { .. } => REQUEST_FIRMWARE_DATA,
            UpdateAnswer::TransferComplete => TRANSFER_COMPLETE,
            UpdateAnswer::VerifyComplete => VERIFY_COMPLETE,
            UpdateAnswer::ApplyComplete => APPLY_COMPLETE,
            UpdateAnswer::ActivateFirmware { .. } => ACTIVATE_FIRMWARE,
            UpdateAnswer::GetStatus { .. } => GET_STATUS,
            UpdateAnswer::CancelUpdateComponent => CANCEL_UPDATE_COMPONENT,
            UpdateAnswer::CancelUpdate { .. } => CANCEL_UPDATE,
        };
        Some(number)
    }

    /// The completion code that it is sent with: SUCCESS, or that of the refusal.
    pub fn code(&self) -> u8
        ensures { result ≡ code_of self.now }
    {
        match self {
            UpdateAnswer::Refused(code) => code.get(),
            _ => SUCCESS,
        }
    }
}

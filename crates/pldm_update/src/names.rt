//! The names of the commands of firmware update.

ghost use Rattle.std.specs.Prelude.{◌≡◌, option_map};
ghost use Rattle.pldm_update.specs.CommandNames.{name_of};

use crate::assigned::{
    ACTIVATE_FIRMWARE, APPLY_COMPLETE, CANCEL_UPDATE, CANCEL_UPDATE_COMPONENT,
    GET_FIRMWARE_PARAMETERS, GET_STATUS, PASS_COMPONENT_TABLE, QUERY_DEVICE_IDENTIFIERS,
    REQUEST_FIRMWARE_DATA, REQUEST_UPDATE, TRANSFER_COMPLETE, UPDATE_COMPONENT, VERIFY_COMPLETE,
};

/// The name of the command of firmware update of this number, as DSP0267 spells it; `None` for a command that isn't
/// read here.
pub fn update_command_name(command: u8) -> Option<&'static str>
    ensures { option_map (λ name. name.now) result ≡ name_of command }
{
    match command {
        QUERY_DEVICE_IDENTIFIERS => Some("QueryDeviceIdentifiers"),
        GET_FIRMWARE_PARAMETERS => Some("GetFirmwareParameters"),
        REQUEST_UPDATE => Some("RequestUpdate"),
        PASS_COMPONENT_TABLE => Some("PassComponentTable"),
        UPDATE_COMPONENT => Some("UpdateComponent"),
        REQUEST_FIRMWARE_DATA => Some("RequestFirmwareData"),
        TRANSFER_COMPLETE => Some("TransferComplete"),
        VERIFY_COMPLETE => Some("VerifyComplete"),
        APPLY_COMPLETE => Some("ApplyComplete"),
        ACTIVATE_FIRMWARE => Some("ActivateFirmware"),
        GET_STATUS => Some("GetStatus"),
        CANCEL_UPDATE_COMPONENT => Some("CancelUpdateComponent"),
        CANCEL_UPDATE => Some("CancelUpdate"),
        _ => None,
    }
}

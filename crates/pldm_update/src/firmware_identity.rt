//! What a firmware device says of itself.

ghost use Rattle.std.specs.Prelude.{◌≡◌};
ghost use Rattle.pldm_update.specs.DeviceIdentity.{identity_answer};

use crate::{DeviceIdentifiers, FirmwareParameters, UpdateAnswer, UpdateCommand};

/// What a firmware device says of itself: what identifies it, and the firmware that it has. Whoever holds it changes
/// the parameters where an update changes the firmware.
#[derive(Debug, PartialEq, Eq, Drop)]
pub struct FirmwareIdentity {
    /// What identifies the device.
    pub identifiers: DeviceIdentifiers,
    /// The firmware that it has.
    pub parameters: FirmwareParameters,
}

impl FirmwareIdentity {
    /// The answer to QueryDeviceIdentifiers and GetFirmwareParameters, which may be asked in every state, and which
    /// [`receive`](crate::FirmwareDevice::receive) leaves to this; `None` for another command (DSP0267).
    pub fn answer(&self, command: &UpdateCommand) -> Option<UpdateAnswer>
        ensures { result ≡ identity_answer self.now.identifiers self.now.parameters command.now }
    {
        match command {
            UpdateCommand::QueryDeviceIdentifiers => Some(UpdateAnswer::QueryDeviceIdentifiers {
                identifiers: self.identifiers.again(),
            }),
            UpdateCommand::GetFirmwareParameters => Some(UpdateAnswer::GetFirmwareParameters {
                parameters: self.parameters.again(),
            }),
            _ => None,
        }
    }
}

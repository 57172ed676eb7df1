//! Refusals by the completion codes that the standards give to single commands.

ghost use Rattle.std.specs.Prelude.{◌≡◌};
ghost use Rattle.pldm_wire.specs.Codes.{IsCode};

use pldm_wire::{Answer, Code};

/// A sensor ID that the device doesn't have (DSP0248, "GetSensorReading command").
pub const INVALID_SENSOR_ID: u8 = 0x80;

/// An effecter ID that the device doesn't have (DSP0248, "SetNumericEffecterValue command").
pub const INVALID_EFFECTER_ID: u8 = 0x80;

/// A state that the effecter doesn't have; the number is this profile's.
pub const INVALID_STATE_VALUE: u8 = 0x81;

/// A part that the device doesn't have (DSP0240, "GetPLDMVersion command"; DSP0248, "GetPDR
/// command").
pub const INVALID_DATA_TRANSFER_HANDLE: u8 = 0x80;

/// A transfer operation that there isn't (DSP0240, "GetPLDMVersion command"; DSP0248, "GetPDR
/// command").
pub const INVALID_TRANSFER_OPERATION: u8 = 0x81;

/// A record handle that no record has (DSP0248, "GetPDR command").
pub const INVALID_RECORD_HANDLE: u8 = 0x82;

/// A PLDM type that the device doesn't have (DSP0240, "GetPLDMVersion command").
pub const INVALID_PLDM_TYPE: u8 = 0x83;

/// The completion code of this number: 1 to 255 (DSP0240, "PLDM completion codes").
pub fn code(number: u8) -> Code
    requires { IsCode number }
    ensures { result ≡ number }
{
    Code::new(number).unwrap()
}

/// The refusal with the completion code of this number.
pub fn refused(number: u8) -> Answer
    requires { IsCode number }
    ensures { result ≡ Answer.Refused number }
{
    Answer::Refused(code(number))
}

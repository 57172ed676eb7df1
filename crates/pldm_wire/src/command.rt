//! The commands with their fields, a variant for each command of DSP0240 and DSP0248 that is read here.

ghost use Rattle.std.specs.Prelude.{◌≡◌};
ghost use Rattle.pldm_wire.specs.Commands.{kind_of, sets};

use crate::{
    BASE, GET_NUMERIC_EFFECTER_VALUE, GET_PDR, GET_PDR_REPOSITORY_INFO, GET_PLDM_COMMANDS,
    GET_PLDM_TYPES, GET_PLDM_VERSION, GET_SENSOR_READING, GET_STATE_EFFECTER_STATES,
    GET_STATE_SENSOR_READINGS, GET_TID, Kind, Number, PLATFORM, SET_NUMERIC_EFFECTER_VALUE,
    SET_STATE_EFFECTER_STATES, SET_TID, SetStateField, StateFields, VERSION_BYTES,
};

/// A command with its fields as they came, one variant for each command of DSP0240 and DSP0248
/// that this profile reads.
#[derive(Debug, PartialEq, Eq, Drop)]
pub enum Command {
    /// Gives the terminus its ID (DSP0240, "SetTID command").
    SetTid {
        /// The terminus ID, any byte.
        tid: u8,
    },
    /// Asks for the terminus ID (DSP0240, "GetTID command").
    GetTid,
    /// Asks for the versions of a PLDM type (DSP0240, "GetPLDMVersion command").
    GetPldmVersion {
        /// Which part is asked for, as the last answer gave it.
        data_transfer_handle: u32,
        /// 0 GetNextPart, 1 GetFirstPart. Any byte is read.
        transfer_operation_flag: u8,
        /// The PLDM type.
        pldm_type: u8,
    },
    /// Asks for the PLDM types that the terminus has (DSP0240, "GetPLDMTypes command").
    GetPldmTypes,
    /// Asks for the commands of a PLDM type (DSP0240, "GetPLDMCommands command").
    GetPldmCommands {
        /// The PLDM type.
        pldm_type: u8,
        /// The version of the type, as GetPLDMVersion returns it.
        version: [u8; VERSION_BYTES],
    },
    /// Asks for a numeric sensor's reading (DSP0248, "GetSensorReading command").
    GetSensorReading {
        /// The sensor ID.
        sensor: u16,
        /// Whether the sensor's event state is to be rearmed, any byte.
        rearm: u8,
    },
    /// Asks for a state sensor's states (DSP0248, "GetStateSensorReadings command").
    GetStateSensorReadings {
        /// The sensor ID.
        sensor: u16,
        /// Which fields are to be rearmed, a bit each.
        rearm: u8,
    },
    /// Sets a numeric effecter (DSP0248, "SetNumericEffecterValue command").
    SetNumericEffecterValue {
        /// The effecter ID.
        effecter: u16,
        /// The value with its data size.
        value: Number,
    },
    /// Asks for a numeric effecter's values (DSP0248, "GetNumericEffecterValue command").
    GetNumericEffecterValue {
        /// The effecter ID.
        effecter: u16,
    },
    /// Sets the states of a state effecter (DSP0248, "SetStateEffecterStates command").
    SetStateEffecterStates {
        /// The effecter ID.
        effecter: u16,
        /// What is asked of each field.
        fields: StateFields<SetStateField>,
    },
    /// Asks for a state effecter's states (DSP0248, "GetStateEffecterStates command").
    GetStateEffecterStates {
        /// The effecter ID.
        effecter: u16,
    },
    /// Asks about the PDR repository (DSP0248, "GetPDRRepositoryInfo command").
    GetPdrRepositoryInfo,
    /// Asks for a part of a record of the PDR repository (DSP0248, "GetPDR command").
    GetPdr {
        /// The record's handle; 0 asks for the first record.
        record_handle: u32,
        /// Which part is asked for, as the last answer gave it.
        data_transfer_handle: u32,
        /// 0 GetNextPart, 1 GetFirstPart. Any byte is read.
        transfer_operation_flag: u8,
        /// The most bytes of the record that are asked for.
        request_count: u16,
        /// The record's change number, or 0 for the first part.
        record_change_number: u16,
    },
}

impl Command {
    /// Its PLDM type and its number in that type.
    pub fn kind(&self) -> Kind
        ensures { result ≡ kind_of self.now }
    {
        let (pldm_type, command) = match self {
            Command::SetTid { .. } => (BASE, SET_TID),
            Command::GetTid => (BASE, GET_TID),
            Command::GetPldmVersion { .. } => (BASE, GET_PLDM_VERSION),
            Command::GetPldmTypes => (BASE, GET_PLDM_TYPES),
            Command::GetPldmCommands { .. } => (BASE, GET_PLDM_COMMANDS),
            Command::GetSensorReading { .. } => (PLATFORM, GET_SENSOR_READING),
            Command::GetStateSensorReadings { .. } => (PLATFORM, GET_STATE_SENSOR_READINGS),
            Command::SetNumericEffecterValue { .. } => (PLATFORM, SET_NUMERIC_EFFECTER_VALUE),
            Command::GetNumericEffecterValue { .. } => (PLATFORM, GET_NUMERIC_EFFECTER_VALUE),
            Command::SetStateEffecterStates { .. } => (PLATFORM, SET_STATE_EFFECTER_STATES),
            Command::GetStateEffecterStates { .. } => (PLATFORM, GET_STATE_EFFECTER_STATES),
            Command::GetPdrRepositoryInfo => (PLATFORM, GET_PDR_REPOSITORY_INFO),
            Command::GetPdr { .. } => (PLATFORM, GET_PDR),
        };
        Kind { pldm_type, command }
    }

    /// Whether it sets something in the terminus; the others only ask.
    pub fn sets(&self) -> bool
        ensures { result ≡ sets self.now }
    {
        matches!(
            self,
            Command::SetTid { .. }
                | Command::SetNumericEffecterValue { .. }
                | Command::SetStateEffecterStates { .. }
        )
    }
}

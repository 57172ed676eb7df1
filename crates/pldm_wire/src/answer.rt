//! An answer to a command, with its fields.

ghost use Rattle.std.specs.Prelude.{◌≡◌, ◌==◌};
ghost use Rattle.pldm_wire.specs.Answers.{answered_kind, code_of};
ghost use Rattle.pldm_wire.specs.declared.assigned.TheConstants.{SUCCESS};

use crate::assigned::{
    BASE, GET_NUMERIC_EFFECTER_VALUE, GET_PDR, GET_PDR_REPOSITORY_INFO, GET_PLDM_COMMANDS,
    GET_PLDM_TYPES, GET_PLDM_VERSION, GET_SENSOR_READING, GET_STATE_EFFECTER_STATES,
    GET_STATE_SENSOR_READINGS, GET_TID, PLATFORM, SET_NUMERIC_EFFECTER_VALUE,
    SET_STATE_EFFECTER_STATES, SET_TID,
};
use crate::{
    COMMANDS_BYTES, Code, EffecterStateField, EffecterValues, Kind, Number, RecordPart,
    SensorStateField, StateFields, TIME_BYTES, TYPES_BYTES, VersionData,
};

/// An answer with its fields, one variant for each command, and the refusal of any.
#[derive(Debug, PartialEq, Eq, Drop)]
pub enum Answer {
    /// The command was refused: this completion code and no data.
    Refused(Code),
    /// The terminus has taken its ID (DSP0240, "SetTID command").
    SetTid,
    /// The terminus returns its ID (DSP0240, "GetTID command").
    GetTid {
        /// The terminus ID.
        tid: u8,
    },
    /// The versions of a PLDM type, in one part: the transfer flag is StartAndEnd (DSP0240,
    /// "GetPLDMVersion command").
    GetPldmVersion {
        /// Which part would come next.
        next_data_transfer_handle: u32,
        /// The versions.
        versions: VersionData,
    },
    /// The PLDM types that the terminus has (DSP0240, "GetPLDMTypes command").
    GetPldmTypes {
        /// Type t is bit t mod 8 of byte t / 8.
        types: [u8; TYPES_BYTES],
    },
    /// The commands of a PLDM type (DSP0240, "GetPLDMCommands command").
    GetPldmCommands {
        /// Command c is bit c mod 8 of byte c / 8.
        commands: [u8; COMMANDS_BYTES],
    },
    /// A numeric sensor's reading (DSP0248, "GetSensorReading command").
    GetSensorReading {
        /// The sensor's operational state.
        operational: u8,
        /// Which of its events are enabled.
        sensor_event_message_enable: u8,
        /// The state that it reports now.
        present: u8,
        /// The state before that one.
        previous: u8,
        /// The state of its latest event.
        event: u8,
        /// The reading with its data size.
        reading: Number,
    },
    /// A state sensor's states (DSP0248, "GetStateSensorReadings command").
    GetStateSensorReadings {
        /// The states, a field for each sensor of a composite one.
        fields: StateFields<SensorStateField>,
    },
    /// The numeric effecter was set (DSP0248, "SetNumericEffecterValue command").
    SetNumericEffecterValue,
    /// A numeric effecter's values (DSP0248, "GetNumericEffecterValue command").
    GetNumericEffecterValue {
        /// The effecter's operational state.
        operational: u8,
        /// The pending and the present value.
        values: EffecterValues,
    },
    /// The state effecter was set (DSP0248, "SetStateEffecterStates command").
    SetStateEffecterStates,
    /// A state effecter's states (DSP0248, "GetStateEffecterStates command").
    GetStateEffecterStates {
        /// The states, a field for each effecter of a composite one.
        fields: StateFields<EffecterStateField>,
    },
    /// The PDR repository (DSP0248, "GetPDRRepositoryInfo command").
    GetPdrRepositoryInfo {
        /// The repository's state: 0 available.
        state: u8,
        /// When it was last changed.
        update_time: [u8; TIME_BYTES],
        /// When its OEM records were last changed.
        oem_update_time: [u8; TIME_BYTES],
        /// How many records it has.
        record_count: u32,
        /// Its size in bytes.
        repository_size: u32,
        /// The size of its largest record in bytes.
        largest_record_size: u32,
        /// For how long a transfer may pause, as a code.
        timeout: u8,
    },
    /// A part of a record (DSP0248, "GetPDR command").
    GetPdr {
        /// The handle of the record after this one, or 0.
        next_record_handle: u32,
        /// Which part comes next, or 0.
        next_data_transfer_handle: u32,
        /// The part.
        part: RecordPart,
    },
}

impl Answer {
    /// The kind of the one command that this answers; `None` for a refusal, which answers any.
    pub fn kind(&self) -> Option<Kind>
        ensures { result ≡ answered_kind self.now }
    {
        let (pldm_type, command) = match self {
            Answer::Refused(_) => return None,
            Answer::SetTid => (BASE, SET_TID),
            Answer::GetTid { .. } => (BASE, GET_TID),
            Answer::GetPldmVersion { .. } => (BASE, GET_PLDM_VERSION),
            Answer::GetPldmTypes { .. } => (BASE, GET_PLDM_TYPES),
            Answer::GetPldmCommands { .. } => (BASE, GET_PLDM_COMMANDS),
            Answer::GetSensorReading { .. } => (PLATFORM, GET_SENSOR_READING),
            Answer::GetStateSensorReadings { .. } => (PLATFORM, GET_STATE_SENSOR_READINGS),
            Answer::SetNumericEffecterValue => (PLATFORM, SET_NUMERIC_EFFECTER_VALUE),
            Answer::GetNumericEffecterValue { .. } => (PLATFORM, GET_NUMERIC_EFFECTER_VALUE),
            Answer::SetStateEffecterStates => (PLATFORM, SET_STATE_EFFECTER_STATES),
            Answer::GetStateEffecterStates { .. } => (PLATFORM, GET_STATE_EFFECTER_STATES),
            Answer::GetPdrRepositoryInfo { .. } => (PLATFORM, GET_PDR_REPOSITORY_INFO),
            Answer::GetPdr { .. } => (PLATFORM, GET_PDR),
        };
        Some(Kind { pldm_type, command })
    }

    /// Whether its completion code is SUCCESS.
    pub fn is_success(&self) -> bool
        ensures { result ≡ (code_of self.now == SUCCESS) }
    {
        match self {
            Answer::Refused(code) => {
                let _range = code.get(); // for the proof: not SUCCESS
                false
            }
            _ => true,
        }
    }
}

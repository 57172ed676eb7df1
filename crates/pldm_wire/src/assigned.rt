//! The numbers that the standards assign.

/// The message type of PLDM over MCTP (DSP0239, "MCTP message types").
pub const MESSAGE_TYPE: u8 = 1;

/// How many instance IDs there are: they are counted modulo this (DSP0240, "PLDM message fields").
pub const INSTANCE_IDS: u8 = 32;

/// The bytes of a request before its data: message type, flags and instance ID, PLDM type,
/// command (DSP0240, "PLDM message fields").
pub const REQUEST_HEADER: usize = 4;

/// The bytes of a response before its data: a request's, and the completion code.
pub const RESPONSE_HEADER: usize = 5;

/// The PLDM type of messaging control and discovery (DSP0240).
pub const BASE: u8 = 0;

/// The PLDM type of platform monitoring and control (DSP0248).
pub const PLATFORM: u8 = 2;

/// The command SetTID of type [`BASE`] (DSP0240, "SetTID command").
pub const SET_TID: u8 = 0x01;

/// The command GetTID of type [`BASE`] (DSP0240, "GetTID command").
pub const GET_TID: u8 = 0x02;

/// The command GetPLDMVersion of type [`BASE`] (DSP0240, "GetPLDMVersion command").
pub const GET_PLDM_VERSION: u8 = 0x03;

/// The command GetPLDMTypes of type [`BASE`] (DSP0240, "GetPLDMTypes command").
pub const GET_PLDM_TYPES: u8 = 0x04;

/// The command GetPLDMCommands of type [`BASE`] (DSP0240, "GetPLDMCommands command").
pub const GET_PLDM_COMMANDS: u8 = 0x05;

/// The command GetSensorReading of type [`PLATFORM`] (DSP0248, "GetSensorReading command").
pub const GET_SENSOR_READING: u8 = 0x11;

/// The command GetStateSensorReadings of type [`PLATFORM`] (DSP0248, "GetStateSensorReadings
/// command").
pub const GET_STATE_SENSOR_READINGS: u8 = 0x21;

/// The command SetNumericEffecterValue of type [`PLATFORM`] (DSP0248, "SetNumericEffecterValue
/// command").
pub const SET_NUMERIC_EFFECTER_VALUE: u8 = 0x31;

/// The command GetNumericEffecterValue of type [`PLATFORM`] (DSP0248, "GetNumericEffecterValue
/// command").
pub const GET_NUMERIC_EFFECTER_VALUE: u8 = 0x32;

/// The command SetStateEffecterStates of type [`PLATFORM`] (DSP0248, "SetStateEffecterStates
/// command").
pub const SET_STATE_EFFECTER_STATES: u8 = 0x39;

/// The command GetStateEffecterStates of type [`PLATFORM`] (DSP0248, "GetStateEffecterStates
/// command").
pub const GET_STATE_EFFECTER_STATES: u8 = 0x3a;

/// The command GetPDRRepositoryInfo of type [`PLATFORM`] (DSP0248, "GetPDRRepositoryInfo
/// command").
pub const GET_PDR_REPOSITORY_INFO: u8 = 0x50;

/// The command GetPDR of type [`PLATFORM`] (DSP0248, "GetPDR command").
pub const GET_PDR: u8 = 0x51;

/// The transfer flag of data that comes whole in one part (DSP0240, "GetPLDMVersion command").
pub const START_AND_END: u8 = 0x05;

/// The completion code of a command that was carried out (DSP0240, "Generic PLDM completion codes").
pub const SUCCESS: u8 = 0x00;

/// The completion code of a fault for which there is no other code.
pub const ERROR: u8 = 0x01;

/// The completion code of a field with a value that it may not have.
pub const ERROR_INVALID_DATA: u8 = 0x02;

/// The completion code of more or fewer bytes of data than the command has.
pub const ERROR_INVALID_LENGTH: u8 = 0x03;

/// The completion code of a terminus that can't carry out the command now.
pub const ERROR_NOT_READY: u8 = 0x04;

/// The completion code of a command that the terminus doesn't have.
pub const ERROR_UNSUPPORTED_PLDM_CMD: u8 = 0x05;

/// The completion code of a PLDM type that the terminus doesn't have.
pub const ERROR_INVALID_PLDM_TYPE: u8 = 0x20;

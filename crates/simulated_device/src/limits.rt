//! Numbers that the standards give for what a simulated device answers.

/// The operational state `enabled` of a sensor (DSP0248, "sensorOperationalState").
pub const SENSOR_ENABLED: u8 = 0;

/// No event generation (DSP0248, "sensorEventMessageEnable").
pub const NO_EVENTS: u8 = 0;

/// The operational state `enabled-noUpdatePending` of an effecter (DSP0248,
/// "effecterOperationalState").
pub const EFFECTER_ENABLED: u8 = 1;

/// The set request `requestSet` (DSP0248, "SetStateEffecterStates command").
pub const REQUEST_SET: u8 = 1;

/// The terminus ID of a device that was given none (DSP0240, "GetTID").
pub const UNASSIGNED_TID: u8 = 0;

/// The terminus ID that is reserved (DSP0240, "SetTID").
pub const RESERVED_TID: u8 = 255;

//! The names of states and operations, as the standards spell them.

ghost use Rattle.std.specs.Prelude.{◌≡◌, option_map};
ghost use Rattle.mctpctl_decode.specs.StateNames.{effecter_state_name, events_name, operation_name, repository_state_name, sensor_operation_name, sensor_state_name};

/// The state that a numeric sensor reports (DSP0248, "GetSensorReading command", presentState).
pub fn sensor_state_name(state: u8) -> Option<&'static str>
    ensures { option_map (λ name. name.now) result ≡ sensor_state_name state }
{
    match state {
        0 => Some("unknown"),
        1 => Some("normal"),
        2 => Some("warning"),
        3 => Some("critical"),
        4 => Some("fatal"),
        5 => Some("lowerWarning"),
        6 => Some("lowerCritical"),
        7 => Some("lowerFatal"),
        8 => Some("upperWarning"),
        9 => Some("upperCritical"),
        10 => Some("upperFatal"),
        _ => None,
    }
}

/// The operational state of a sensor (DSP0248, "GetSensorReading command", sensorOperationalState).
pub fn sensor_operation_name(state: u8) -> Option<&'static str>
    ensures { option_map (λ name. name.now) result ≡ sensor_operation_name state }
{
    match state {
        0 => Some("enabled"),
        1 => Some("disabled"),
        2 => Some("unavailable"),
        3 => Some("statusUnknown"),
        4 => Some("failed"),
        5 => Some("initializing"),
        6 => Some("shuttingDown"),
        7 => Some("inTest"),
        _ => None,
    }
}

/// Which events of a sensor are enabled (DSP0248, "GetSensorReading command", sensorEventMessageEnable).
pub fn events_name(enable: u8) -> Option<&'static str>
    ensures { option_map (λ name. name.now) result ≡ events_name enable }
{
    match enable {
        0 => Some("noEventGeneration"),
        1 => Some("eventsDisabled"),
        2 => Some("eventsEnabled"),
        3 => Some("opEventsOnlyEnabled"),
        4 => Some("stateEventsOnlyEnabled"),
        _ => None,
    }
}

/// The operational state of an effecter (DSP0248, "GetNumericEffecterValue command",
/// effecterOperationalState).
pub fn effecter_state_name(state: u8) -> Option<&'static str>
    ensures { option_map (λ name. name.now) result ≡ effecter_state_name state }
{
    match state {
        0 => Some("enabled-updatePending"),
        1 => Some("enabled-noUpdatePending"),
        2 => Some("disabled"),
        3 => Some("unavailable"),
        4 => Some("statusUnknown"),
        5 => Some("failed"),
        6 => Some("initializing"),
        7 => Some("shuttingDown"),
        8 => Some("inTest"),
        _ => None,
    }
}

/// The state of a repository (DSP0248, "GetPDRRepositoryInfo command", repositoryState).
pub fn repository_state_name(state: u8) -> Option<&'static str>
    ensures { option_map (λ name. name.now) result ≡ repository_state_name state }
{
    match state {
        0 => Some("available"),
        1 => Some("updateInProgress"),
        2 => Some("failed"),
        _ => None,
    }
}

/// Which part is asked for (DSP0240, "GetPLDMVersion command"; DSP0248, "GetPDR command",
/// transferOperationFlag).
pub fn operation_name(flag: u8) -> Option<&'static str>
    ensures { option_map (λ name. name.now) result ≡ operation_name flag }
{
    match flag {
        0 => Some("GetNextPart"),
        1 => Some("GetFirstPart"),
        _ => None,
    }
}

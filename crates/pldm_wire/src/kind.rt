//! Which command a message is of: its PLDM type and the command's number (DSP0240, "PLDM message fields").

ghost use Rattle.pldm_wire.specs.CommandTable.{base_rows, platform_rows};
ghost use Rattle.std.specs.Prelude.{◌≡◌, option_map};
ghost use Rattle.pldm_wire.specs.CommandNames.{name_by, name_of_kind};

use crate::{
    BASE, GET_NUMERIC_EFFECTER_VALUE, GET_PDR, GET_PDR_REPOSITORY_INFO, GET_PLDM_COMMANDS,
    GET_PLDM_TYPES, GET_PLDM_VERSION, GET_SENSOR_READING, GET_STATE_EFFECTER_STATES,
    GET_STATE_SENSOR_READINGS, GET_TID, PLATFORM, SET_NUMERIC_EFFECTER_VALUE,
    SET_STATE_EFFECTER_STATES, SET_TID,
};
use std::marker::Model;

/// Which command a message is of (DSP0240, "PLDM message fields").
#[derive(Clone, Copy, Debug, PartialEq, Eq)]
pub struct Kind {
    /// The PLDM type, 0 to 63.
    pub pldm_type: u8,
    /// The command's number in that type.
    pub command: u8,
}

impl Model for Kind {
    ghost use Rattle.std.specs.Prelude.{◌<◌};
    ghost use Rattle.pldm_wire.specs.Kinds.{TypeAndCommand};

    ghost Value = { TypeAndCommand };

    ghost view = { λ kind. record { pldm_type = kind.pldm_type; command = kind.command } };

    ghost invariant = { λ kind. kind.pldm_type < 64 };

    ghost inverse = { λ kind. record { pldm_type = kind.pldm_type; command = kind.command } };
}

impl Kind {
    /// The command's name, as DSP0240 and DSP0248 spell it; `None` for a command that this profile
    /// does not read.
    #[tactic(auto, unfolding(crate::specs::CommandNames::name_of_kind))]
    pub fn name(&self) -> Option<&'static str>
        ensures { option_map (λ name. name.now) result ≡ name_of_kind self.now }
    {
        match self.pldm_type {
            BASE => base_name(self.command),
            PLATFORM => platform_name(self.command),
            _ => None,
        }
    }
}

/// The name of a command of messaging control and discovery (DSP0240).
fn base_name(command: u8) -> Option<&'static str>
    ensures { option_map (λ name. name.now) result ≡ name_by base_rows command }
{
    match command {
        SET_TID => Some("SetTID"),
        GET_TID => Some("GetTID"),
        GET_PLDM_VERSION => Some("GetPLDMVersion"),
        GET_PLDM_TYPES => Some("GetPLDMTypes"),
        GET_PLDM_COMMANDS => Some("GetPLDMCommands"),
        _ => None,
    }
}

/// The name of a command of platform monitoring and control (DSP0248).
fn platform_name(command: u8) -> Option<&'static str>
    ensures { option_map (λ name. name.now) result ≡ name_by platform_rows command }
{
    match command {
        GET_SENSOR_READING => Some("GetSensorReading"),
        GET_STATE_SENSOR_READINGS => Some("GetStateSensorReadings"),
        SET_NUMERIC_EFFECTER_VALUE => Some("SetNumericEffecterValue"),
        GET_NUMERIC_EFFECTER_VALUE => Some("GetNumericEffecterValue"),
        SET_STATE_EFFECTER_STATES => Some("SetStateEffecterStates"),
        GET_STATE_EFFECTER_STATES => Some("GetStateEffecterStates"),
        GET_PDR_REPOSITORY_INFO => Some("GetPDRRepositoryInfo"),
        GET_PDR => Some("GetPDR"),
        _ => None,
    }
}

//! A sensor or an effecter by its terminus and its ID, and the command that reads it.

ghost use Rattle.std.specs.Prelude.{◌≡◌, ◌++◌, OnOk};
ghost use Rattle.pldm_wire.specs.Commands.{kind_of};
ghost use Rattle.mctpctl_table.specs.States.{numeric_kind, state_kind, what_text};

use crate::text::{push_number, push_text};
use mctp_packet::Memory;
use pldm_wire::Command;

/// A sensor or an effecter, by the handle of the terminus that has it, and its ID there.
#[derive(Clone, Copy, Debug)]
pub(crate) enum Identifier {
    Sensor { terminus: u16, id: u16 },
    Effecter { terminus: u16, id: u16 },
}

impl Identifier {
    /// The command that asks a numeric one.
    pub(crate) fn numeric_command(&self) -> Command
        ensures { kind_of result ≡ numeric_kind self.now }
    {
        match self {
            Identifier::Sensor { id, .. } => Command::GetSensorReading {
                sensor: *id,
                rearm: 0,
            },
            Identifier::Effecter { id, .. } => Command::GetNumericEffecterValue { effecter: *id },
        }
    }

    /// The command that asks a state sensor or effecter.
    pub(crate) fn state_command(&self) -> Command
        ensures { kind_of result ≡ state_kind self.now }
    {
        match self {
            Identifier::Sensor { id, .. } => Command::GetStateSensorReadings {
                sensor: *id,
                rearm: 0,
            },
            Identifier::Effecter { id, .. } => Command::GetStateEffecterStates { effecter: *id },
        }
    }

    /// Adds what it is.
    pub(crate) fn push_what(&self, out: &mut Vec<u8>) -> Result<(), Memory>
        ensures { OnOk result (out.new.items ≡ out.old.items ++ what_text self.now) }
    {
        match self {
            Identifier::Sensor { id, .. } => {
                push_text(out, "sensor ")?;
                push_number(out, (*id).into())
            }
            Identifier::Effecter { id, .. } => {
                push_text(out, "effecter ")?;
                push_number(out, (*id).into())
            }
        }
    }
}

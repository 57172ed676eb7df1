//! What an answer says of a sensor or an effecter.

ghost use Rattle.std.specs.Prelude.{◌≡◌};
ghost use Rattle.mctpctl_table.specs.Replies.{field_at, numeric_reading, of_effecter, of_sensor, state_reading};

use crate::reply::Reply;
use pldm_wire::{Answer, EffecterStateField, SensorStateField};

/// What an answer says of a numeric sensor or effecter.
#[derive(Clone, Copy, Debug)]
pub(crate) struct NumericReading {
    /// The present value.
    pub(crate) value: i64,
    /// The present state, of a sensor.
    pub(crate) state: Option<u8>,
    /// The operational state.
    pub(crate) operational: u8,
}

/// What one field of an answer says of a state sensor or effecter.
#[derive(Clone, Copy, Debug)]
pub(crate) struct StateReading {
    /// The present state.
    pub(crate) state: u8,
    /// The operational state.
    pub(crate) operational: u8,
}

/// What an answer says of a numeric sensor or effecter.
pub(crate) fn numeric_reading(reply: &Reply) -> Option<NumericReading>
    ensures { result ≡ numeric_reading reply.now }
{
    match reply {
        Reply::Answered(
            Answer::GetSensorReading {
                operational,
                present,
                reading,
                ..
            },
        ) => Some(NumericReading {
            value: reading.value(),
            state: Some(*present),
            operational: *operational,
        }),
        Reply::Answered(
            Answer::GetNumericEffecterValue {
                operational,
                values,
            },
        ) => Some(NumericReading {
            value: values.present().value(),
            state: None,
            operational: *operational,
        }),
        _ => None,
    }
}

/// What the field at a place says, where there are so many fields.
pub(crate) fn state_reading(count: usize, place: usize, reply: &Reply) -> Option<StateReading>
    ensures { result ≡ state_reading count place reply.now }
{
    match reply {
        Reply::Answered(Answer::GetStateSensorReadings { fields }) => {
            sensor_field(count, place, fields.as_slice())
        }
        Reply::Answered(Answer::GetStateEffecterStates { fields }) => {
            effecter_field(count, place, fields.as_slice())
        }
        _ => None,
    }
}

fn sensor_field(count: usize, place: usize, fields: &[SensorStateField]) -> Option<StateReading>
    ensures { result ≡ field_at of_sensor count place fields.now }
{
    if fields.len() != count {
        return None;
    }
    let field = fields.get(place)?;
    Some(StateReading {
        state: field.present,
        operational: field.operational,
    })
}

fn effecter_field(count: usize, place: usize, fields: &[EffecterStateField]) -> Option<StateReading>
    ensures { result ≡ field_at of_effecter count place fields.now }
{
    if fields.len() != count {
        return None;
    }
    let field = fields.get(place)?;
    Some(StateReading {
        state: field.present,
        operational: field.operational,
    })
}

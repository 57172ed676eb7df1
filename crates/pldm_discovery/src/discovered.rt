//! The sensors and effecters that records describe.

ghost use Rattle.std.specs.Prelude.{◌≡◌};
ghost use Rattle.pldm_discovery.specs.Subjects.{found_as, found_in, found_of, question};

use crate::limits::NO_REARM;
use pldm_pdr::{RecordData, read};
use pldm_wire::Command;

/// A sensor or an effecter, by its ID.
#[derive(Clone, Copy, Debug, PartialEq, Eq)]
pub enum SensorOrEffecter {
    /// A numeric sensor (DSP0248, "Numeric sensor PDR").
    NumericSensor(u16),
    /// A state sensor (DSP0248, "State sensor PDR").
    StateSensor(u16),
    /// A numeric effecter (DSP0248, "Numeric effecter PDR").
    NumericEffecter(u16),
    /// A state effecter (DSP0248, "State effecter PDR").
    StateEffecter(u16),
}

impl SensorOrEffecter {
    /// The command that asks for its reading, value or states. No event state is rearmed.
    pub fn question(self) -> Command
        ensures { result ≡ question self }
    {
        match self {
            SensorOrEffecter::NumericSensor(sensor) => Command::GetSensorReading {
                sensor,
                rearm: NO_REARM,
            },
            SensorOrEffecter::StateSensor(sensor) => Command::GetStateSensorReadings {
                sensor,
                rearm: NO_REARM,
            },
            SensorOrEffecter::NumericEffecter(effecter) => Command::GetNumericEffecterValue {
                effecter,
            },
            SensorOrEffecter::StateEffecter(effecter) => Command::GetStateEffecterStates {
                effecter,
            },
        }
    }
}

/// A sensor or an effecter, and the record that describes it.
#[derive(Clone, Copy, Debug, PartialEq, Eq)]
pub struct Discovered {
    /// What the record describes.
    pub subject: SensorOrEffecter,
    /// The handle of the terminus that has it, as the record gives it.
    pub terminus: u16,
    /// The record's place among those of the walk.
    pub place: usize,
}

/// The sensor or effecter that the record at a place describes, if it is read as the record of one.
#[tactic(auto, unfolding(crate::specs::Subjects::found_of))]
pub(crate) fn found_of(place: usize, pdr: &[u8]) -> Option<Discovered>
    ensures { result ≡ found_of place pdr.now }
{
    match read(pdr) {
        Ok(record) => found_in(place, record.contents()),
        Err(_) => None,
    }
}

/// The sensor or effecter of the record at a place with this data, if it is the data of one.
fn found_in(place: usize, contents: &RecordData) -> Option<Discovered>
    ensures { result ≡ found_in place contents.now }
{
    let (subject, terminus) = match contents {
        RecordData::NumericSensor(sensor) => (
            SensorOrEffecter::NumericSensor(sensor.sensor_id),
            sensor.terminus_handle,
        ),
        RecordData::StateSensor(sensor) => (
            SensorOrEffecter::StateSensor(sensor.sensor_id),
            sensor.terminus_handle,
        ),
        RecordData::NumericEffecter(effecter) => (
            SensorOrEffecter::NumericEffecter(effecter.effecter_id),
            effecter.terminus_handle,
        ),
        RecordData::StateEffecter(effecter) => (
            SensorOrEffecter::StateEffecter(effecter.effecter_id),
            effecter.terminus_handle,
        ),
        _ => return None,
    };
    Some(Discovered {
        subject,
        terminus,
        place,
    })
}

//! Numeric sensors and effecters of the simulated device.

ghost use Rattle.std.specs.Prelude.{◌≡◌, Some};
ghost use Rattle.pldm_platform.specs.Changes.{Changes};
ghost use Rattle.simulated_device.specs.SensorAnswers.{numeric_sensor_answered, sense};
ghost use Rattle.simulated_device.specs.EffecterAnswers.{set_number};

use crate::limits::{NO_EVENTS, SENSOR_ENABLED};
use pldm_platform::ReadingFault;
use pldm_wire::{Answer, Code, Number};

/// A numeric sensor: its states, 0 to 10, and its reading with its data size.
#[derive(Debug, PartialEq, Eq, Drop)]
pub struct NumericSensor {
    /// The state that it reports now.
    pub present: u8,
    /// The state before that one.
    pub previous: u8,
    /// The state of its latest event.
    pub event: u8,
    /// The reading.
    pub reading: Number,
}

impl NumericSensor {
    /// Puts the answer to GetSensorReading into `given`. In the place of another answer to that command, as where
    /// sensors are asked one after another, its fields alone are written, and the room of the longest is not cleared.
    pub(crate) fn put_answer(&self, given: &mut Answer)
        ensures { given.new ≡ numeric_sensor_answered (Some self.now) }
    {
        if let Answer::GetSensorReading {
            operational,
            sensor_event_message_enable,
            present,
            previous,
            event,
            reading,
        } = given
        {
            *operational = SENSOR_ENABLED;
            *sensor_event_message_enable = NO_EVENTS;
            *present = self.present;
            *previous = self.previous;
            *event = self.event;
            *reading = self.reading;
            return;
        }
        *given = Answer::GetSensorReading {
            operational: SENSOR_ENABLED,
            sensor_event_message_enable: NO_EVENTS,
            present: self.present,
            previous: self.previous,
            event: self.event,
            reading: self.reading,
        };
    }

    /// Gives the sensor this reading, where it fits the sensor's data size.
    pub(crate) fn sense(&mut self, value: i64) -> Result<(), ReadingFault>
        ensures { Changes (sense value self.old) self.old result self.new }
    {
        match Number::new(self.reading.size(), value) {
            Some(reading) => {
                self.reading = reading;
                Ok(())
            }
            None => Err(ReadingFault::OutOfSize),
        }
    }
}

/// A numeric effecter: the values that it takes, and the one that it has with its data size.
#[derive(Debug, PartialEq, Eq, Drop)]
pub struct NumericEffecter {
    /// The least value that it takes.
    pub min: i64,
    /// The greatest value that it takes.
    pub max: i64,
    /// Its value.
    pub value: Number,
}

impl NumericEffecter {
    /// Sets the value: `ERROR_INVALID_DATA` for another data size than its own, and for a value that
    /// it doesn't take.
    pub(crate) fn set(&mut self, value: Number) -> Result<(), Code>
        ensures { Changes (set_number value self.old) self.old result self.new }
    {
        let number = value.value();
        if value.size() != self.value.size() || number < self.min || self.max < number {
            return Err(Code::ERROR_INVALID_DATA);
        }
        self.value = value;
        Ok(())
    }
}

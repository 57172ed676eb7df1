//! The simulated device.

ghost use Rattle.std.specs.Prelude.{◌≡◌, option_copied, option_map, slice_get};
ghost use Rattle.simulated_device.specs.Getters.{AscendingIds, reading_of, shown, states_of, value_of};
ghost use Rattle.simulated_device.specs.BaseAnswers.{base_commands, commands_answer, platform_commands, tid_set, types, version_answer};
ghost use Rattle.pldm_records.specs.ById.{change_at, with_id};
ghost use Rattle.pldm_platform.specs.Changes.{Changes};
ghost use Rattle.simulated_device.specs.EffecterAnswers.{number_set, numeric_effecter_answered, set_number, set_states, state_effecter_answered, states_set};
ghost use Rattle.simulated_device.specs.Devices.{recorded};
ghost use Rattle.simulated_device.specs.SensorAnswers.{numeric_sensor_answered, sense, sensed, state_sensor_answered};

use crate::limits::{EFFECTER_ENABLED, RESERVED_TID, UNASSIGNED_TID};
use crate::{NumericEffecter, NumericSensor, StateEffecter};
use pldm_platform::{
    INVALID_DATA_TRANSFER_HANDLE, INVALID_EFFECTER_ID, INVALID_PLDM_TYPE, INVALID_SENSOR_ID,
    INVALID_TRANSFER_OPERATION, ReadingFault, code, refused,
};
use pldm_records::Repository;
use pldm_wire::{
    Answer, BASE, COMMANDS_BYTES, Code, EffecterValues, GET_FIRST_PART, GET_NEXT_PART, Number,
    PLATFORM, SensorStateField, SetStateField, StateFields, TIME_BYTES, TYPES_BYTES, VersionData,
};
use std::collections::BTreeMap;
use std::marker::Model;
use std::mem::replace;

/// A simulated device: a terminus ID, sensors and effecters by their ID, platform data records, and
/// what it reports of itself.
#[derive(Debug, Drop)]
pub struct SimDevice {
    /// The terminus ID.
    pub tid: u8,
    /// What it reports as the versions of PLDM type 0 (DSP0240, "GetPLDMVersion command").
    pub base_versions: VersionData,
    /// The same of type 2.
    pub platform_versions: VersionData,
    /// When its records were last changed (DSP0248, "GetPDRRepositoryInfo command").
    pub update_time: [u8; TIME_BYTES],
    /// The same of its OEM records.
    pub oem_update_time: [u8; TIME_BYTES],
    /// The numeric sensors by ID.
    pub numeric_sensors: BTreeMap<u16, NumericSensor>,
    /// The fields of the state sensors by ID.
    pub state_sensors: BTreeMap<u16, StateFields<SensorStateField>>,
    /// The numeric effecters by ID.
    pub numeric_effecters: BTreeMap<u16, NumericEffecter>,
    /// The state effecters by ID.
    pub state_effecters: BTreeMap<u16, StateEffecter>,
    /// The platform data records.
    pub records: Repository,
}

impl Model for SimDevice {
    ghost use Rattle.simulated_device.specs.Devices.{Device};

    ghost Value = { Device };

    ghost view = { λ d. record {
      tid = d.tid;
      base_versions = d.base_versions;
      platform_versions = d.platform_versions;
      update_time = d.update_time;
      oem_update_time = d.oem_update_time;
      numeric_sensors = d.numeric_sensors.entries;
      state_sensors = d.state_sensors.entries;
      numeric_effecters = d.numeric_effecters.entries;
      state_effecters = d.state_effecters.entries;
      records = d.records;
    } };
}

impl SimDevice {
    /// The terminus ID.
    pub fn tid(&self) -> u8
        ensures { result ≡ self.now.tid }
    {
        self.tid
    }

    /// The ID and the reading of the numeric sensor at this position, in ascending order of ID.
    pub fn sensor(&self, position: usize) -> Option<(u16, i64)>
        ensures value { result ≡ option_map reading_of (slice_get self.now.numeric_sensors position) }
        ensures ascending { AscendingIds self.now.numeric_sensors }
    {
        match self.numeric_sensors.iter().nth(position) {
            Some((id, sensor)) => Some((*id, sensor.reading.value())),
            None => None,
        }
    }

    /// The ID and the value of the numeric effecter at this position, in ascending order of ID.
    pub fn numeric(&self, position: usize) -> Option<(u16, i64)>
        ensures value { result ≡ option_map value_of (slice_get self.now.numeric_effecters position) }
        ensures ascending { AscendingIds self.now.numeric_effecters }
    {
        match self.numeric_effecters.iter().nth(position) {
            Some((id, effecter)) => Some((*id, effecter.value.value())),
            None => None,
        }
    }

    /// The ID and the states of the state effecter at this position, in ascending order of ID.
    pub fn state(&self, position: usize) -> Option<(u16, &[u8])>
        ensures value { option_map shown result ≡ option_map states_of (slice_get self.now.state_effecters position) }
        ensures ascending { AscendingIds self.now.state_effecters }
    {
        match self.state_effecters.iter().nth(position) {
            Some((id, effecter)) => Some((*id, effecter.states())),
            None => None,
        }
    }

    /// The bytes of the record at this position, in the order of the repository.
    pub fn record(&self, position: usize) -> Option<&[u8]>
        ensures { option_copied result ≡ slice_get self.now.records position }
    {
        match self.records.get(position) {
            Some(record) => Some(record.as_slice()),
            None => None,
        }
    }

    /// Puts these records in the place of the device's, which are returned.
    pub fn replace_records(&mut self, records: Repository) -> Repository
        ensures given { result ≡ self.old.records }
        ensures after { self.new ≡ recorded self.old records }
    {
        replace(&mut self.records, records)
    }

    // Sets the terminus ID; `ERROR_INVALID_DATA` for one that no terminus has.
    pub(crate) fn set_tid(&mut self, tid: u8) -> Result<(), Code>
        ensures { Changes (tid_set tid self.old) self.old result self.new }
    {
        if tid == UNASSIGNED_TID || tid == RESERVED_TID {
            return Err(Code::ERROR_INVALID_DATA);
        }
        self.tid = tid;
        Ok(())
    }

    // Puts the answer to GetPLDMVersion into `given`.
    // Not inlined: the longest answer's room is then on the stack for this command alone.
    #[inline(never)]
    pub(crate) fn put_versions(
        &self,
        transfer_operation_flag: u8,
        pldm_type: u8,
        given: &mut Answer,
    )
        ensures { given.new ≡ version_answer transfer_operation_flag pldm_type self.now }
    {
        if transfer_operation_flag > GET_FIRST_PART {
            *given = refused(INVALID_TRANSFER_OPERATION);
            return;
        }
        if transfer_operation_flag == GET_NEXT_PART {
            *given = refused(INVALID_DATA_TRANSFER_HANDLE);
            return;
        }
        let versions = match pldm_type {
            BASE => &self.base_versions,
            PLATFORM => &self.platform_versions,
            _ => {
                *given = refused(INVALID_PLDM_TYPE);
                return;
            }
        };
        *given = Answer::GetPldmVersion {
            next_data_transfer_handle: 0,
            versions: VersionData::new(versions.as_slice()).unwrap(),
        };
    }

    // Puts the answer to GetSensorReading into `given`.
    pub(crate) fn put_reading(&self, sensor: u16, given: &mut Answer)
        ensures { given.new ≡ numeric_sensor_answered (with_id sensor self.now.numeric_sensors) }
    {
        match self.numeric_sensors.get(&sensor) {
            Some(sensor) => sensor.put_answer(given),
            None => *given = refused(INVALID_SENSOR_ID),
        }
    }

    // Puts the answer to GetStateSensorReadings into `given`.
    pub(crate) fn put_sensor_states(&self, sensor: u16, given: &mut Answer)
        ensures { given.new ≡ state_sensor_answered (with_id sensor self.now.state_sensors) }
    {
        match self.state_sensors.get(&sensor) {
            Some(fields) => {
                *given = Answer::GetStateSensorReadings {
                    fields: StateFields::new(fields.as_slice()).unwrap(),
                }
            }
            None => *given = refused(INVALID_SENSOR_ID),
        }
    }

    // Puts the answer to GetNumericEffecterValue into `given`.
    pub(crate) fn put_value(&self, effecter: u16, given: &mut Answer)
        ensures { given.new ≡ numeric_effecter_answered (with_id effecter self.now.numeric_effecters) }
    {
        match self.numeric_effecters.get(&effecter) {
            Some(effecter) => {
                *given = Answer::GetNumericEffecterValue {
                    operational: EFFECTER_ENABLED,
                    values: EffecterValues::new(effecter.value, effecter.value).unwrap(),
                }
            }
            None => *given = refused(INVALID_EFFECTER_ID),
        }
    }

    // Puts the answer to GetStateEffecterStates into `given`.
    pub(crate) fn put_effecter_states(&self, effecter: u16, given: &mut Answer)
        ensures { given.new ≡ state_effecter_answered (with_id effecter self.now.state_effecters) }
    {
        match self.state_effecters.get(&effecter) {
            Some(effecter) => {
                *given = Answer::GetStateEffecterStates {
                    fields: effecter.fields(),
                }
            }
            None => *given = refused(INVALID_EFFECTER_ID),
        }
    }

    // Sets a numeric effecter.
    pub(crate) fn set_number(&mut self, effecter: u16, value: Number) -> Result<(), Code>
        ensures { Changes (number_set effecter value self.old) self.old result self.new }
    {
        set_number_in(&mut self.numeric_effecters, effecter, value)
    }

    // Sets a state effecter.
    pub(crate) fn set_states(
        &mut self,
        effecter: u16,
        fields: &StateFields<SetStateField>,
    ) -> Result<(), Code>
        ensures { Changes (states_set effecter fields.now self.old) self.old result self.new }
    {
        set_states_in(&mut self.state_effecters, effecter, fields)
    }

    // Gives a numeric sensor its reading.
    pub(crate) fn sense(&mut self, sensor: u16, value: i64) -> Result<(), ReadingFault>
        ensures { Changes (sensed self.old sensor value) self.old result self.new }
    {
        sense_in(&mut self.numeric_sensors, sensor, value)
    }
}

/// The answer to GetPLDMTypes.
#[tactic(auto, unfolding(crate::specs::BaseAnswers::types))]
pub(crate) fn types_answer() -> Answer
    ensures { result ≡ Answer.GetPldmTypes types }
{
    let mut types = [0; TYPES_BYTES];
    types[0] = 0x05;
    Answer::GetPldmTypes { types }
}

/// Puts the answer to GetPLDMCommands into `given`.
#[tactic(auto, unfolding(crate::specs::BaseAnswers::base_commands, crate::specs::BaseAnswers::platform_commands))]
pub(crate) fn put_commands(pldm_type: u8, given: &mut Answer)
    ensures { given.new ≡ commands_answer pldm_type }
{
    let mut commands = [0; COMMANDS_BYTES];
    match pldm_type {
        BASE => commands[0] = 0x3e,
        PLATFORM => {
            commands[2] = 0x02;
            commands[4] = 0x02;
            commands[6] = 0x06;
            commands[7] = 0x06;
            commands[10] = 0x03;
        }
        _ => {
            *given = refused(INVALID_PLDM_TYPE);
            return;
        }
    }
    *given = Answer::GetPldmCommands { commands };
}

// Sets the numeric effecter with this ID.
fn set_number_in(
    effecters: &mut BTreeMap<u16, NumericEffecter>,
    id: u16,
    value: Number,
) -> Result<(), Code>
    ensures { Changes (change_at INVALID_EFFECTER_ID (set_number value) id effecters.old.entries)
        effecters.old.entries result effecters.new.entries }
{
    match effecters.get_mut(&id) {
        Some(effecter) => effecter.set(value),
        None => Err(code(INVALID_EFFECTER_ID)),
    }
}

// Sets the state effecter with this ID.
fn set_states_in(
    effecters: &mut BTreeMap<u16, StateEffecter>,
    id: u16,
    fields: &StateFields<SetStateField>,
) -> Result<(), Code>
    ensures { Changes (change_at INVALID_EFFECTER_ID (set_states fields.now) id effecters.old.entries)
        effecters.old.entries result effecters.new.entries }
{
    match effecters.get_mut(&id) {
        Some(effecter) => effecter.set(fields),
        None => Err(code(INVALID_EFFECTER_ID)),
    }
}

// Gives the numeric sensor with this ID its reading.
fn sense_in(
    sensors: &mut BTreeMap<u16, NumericSensor>,
    id: u16,
    value: i64,
) -> Result<(), ReadingFault>
    ensures { Changes (change_at ReadingFault.NoSuchSensor (sense value) id sensors.old.entries) sensors.old.entries
        result sensors.new.entries }
{
    match sensors.get_mut(&id) {
        Some(sensor) => sensor.sense(value),
        None => Err(ReadingFault::NoSuchSensor),
    }
}

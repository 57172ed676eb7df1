//! The platform data records of a device (DSP0248), as they cross to C: a struct for each type.

use pldm_wire::MAX_STATES;

/// The most bytes in which the possible states of one set are stated (DSP0248, "possibleStatesSize").
pub const STATE_BYTES: usize = 32;

/// The most code units of UTF-16 of a name: its 256 bytes have its end too (DSP0240, "PLDM data types", strUTF-16BE).
pub const NAME_UNITS: usize = 127;

/// The entity that a record belongs to (DSP0248, "Entity identification information").
#[repr(C)]
#[derive(Clone, Copy)]
pub struct EntityFields {
    /// Its type, a number of DSP0249.
    pub entity_type: u16,
    /// Which of its type it is.
    pub instance: u16,
    /// The entity that contains it.
    pub container_id: u16,
}

/// What a numeric sensor or effecter measures or is set in (DSP0248, "Sensor units").
#[repr(C)]
#[derive(Clone, Copy)]
pub struct UnitsFields {
    /// The unit, a number of the standard's list: 2 degrees C, 5 volts, 19 RPM.
    pub base_unit: u8,
    /// The power of ten that values are multiplied by.
    pub unit_modifier: i8,
    /// The time that the unit is taken per: 0 none.
    pub rate_unit: u8,
    /// The OEM unit that stands for the base unit, or 0.
    pub base_oem_unit_handle: u8,
    /// A second unit, by the same list: 0 none.
    pub auxiliary_unit: u8,
    /// The power of ten of the second unit.
    pub auxiliary_unit_modifier: i8,
    /// The time that the second unit is taken per.
    pub auxiliary_rate_unit: u8,
}

/// How the numbers of a numeric sensor or effecter become values: (number * resolution + offset) * 10 ^ unit modifier.
#[repr(C)]
#[derive(Clone, Copy)]
pub struct ConversionFields {
    /// The resolution, the bits of a real32.
    pub resolution: u32,
    /// The offset, the bits of a real32.
    pub offset: u32,
    /// The accuracy, in hundredths of a percent.
    pub accuracy: u16,
    /// How far a value may be above what is measured, in steps.
    pub plus_tolerance: u8,
    /// How far a value may be below what is measured, in steps.
    pub minus_tolerance: u8,
    /// Whether values go with numbers by that rule: 0 no, 1 yes.
    pub is_linear: u8,
    /// The data size of its numbers, 0 to 5 as in `CommandFields`.
    pub size: u8,
}

/// The normal range and the thresholds of a numeric sensor. Each number fits the format.
#[repr(C)]
#[derive(Clone, Copy)]
pub struct SensorRangeFields {
    /// The format of the fields after `support`: 0 to 5 a data size, 6 real32, whose bits are given.
    pub format: u8,
    /// Which fields mean something: bit 0 nominal, 1 normal max, 2 normal min, 3 critical high, 4 critical low, 5 fatal
    /// high, 6 fatal low.
    pub support: u8,
    /// The value that is wanted.
    pub nominal: i64,
    /// The greatest value of the normal range.
    pub normal_max: i64,
    /// The least value of the normal range.
    pub normal_min: i64,
    /// From here on the upper warning state.
    pub warning_high: i64,
    /// From here down the lower warning state.
    pub warning_low: i64,
    /// From here on the upper critical state.
    pub critical_high: i64,
    /// From here down the lower critical state.
    pub critical_low: i64,
    /// From here on the upper fatal state.
    pub fatal_high: i64,
    /// From here down the lower fatal state.
    pub fatal_low: i64,
}

/// The normal and the rated range of a numeric effecter. Each number fits the format.
#[repr(C)]
#[derive(Clone, Copy)]
pub struct EffecterRangeFields {
    /// The format of the fields after `support`: 0 to 5 a data size, 6 real32, whose bits are given.
    pub format: u8,
    /// Which fields mean something: bit 0 nominal, 1 normal max, 2 normal min, 3 rated max, 4 rated min.
    pub support: u8,
    /// The value that is wanted.
    pub nominal: i64,
    /// The greatest value of the normal range.
    pub normal_max: i64,
    /// The least value of the normal range.
    pub normal_min: i64,
    /// The greatest value that is rated.
    pub rated_max: i64,
    /// The least value that is rated.
    pub rated_min: i64,
}

/// The states that one sensor or effecter of a composite one can have (DSP0248, "possibleStates").
#[repr(C)]
#[derive(Clone, Copy)]
pub struct PossibleStatesFields {
    /// The state set, a number of DSP0249.
    pub state_set: u16,
    /// How many bytes of `states` there are, 1 to [`STATE_BYTES`].
    pub size: u8,
    /// State s is bit s mod 8 of byte s / 8.
    pub states: [u8; STATE_BYTES],
}

/// A terminus locator record, for an MCTP endpoint ID (DSP0248, "Terminus locator PDR").
#[repr(C)]
#[derive(Clone, Copy)]
pub struct TerminusLocatorFields {
    /// The record's handle, not 0.
    pub record_handle: u32,
    /// The record's change number.
    pub change_number: u16,
    /// The handle by which other records name the terminus.
    pub terminus_handle: u16,
    /// The entity that contains the terminus.
    pub container_id: u16,
    /// Whether the record is valid: 0 no, 1 yes.
    pub is_valid: u8,
    /// The terminus ID.
    pub tid: u8,
    /// The MCTP endpoint ID of the terminus.
    pub eid: u8,
}

/// A numeric sensor record (DSP0248, "Numeric sensor PDR").
#[repr(C)]
#[derive(Clone, Copy)]
pub struct NumericSensorFields {
    /// The record's handle, not 0.
    pub record_handle: u32,
    /// The record's change number.
    pub change_number: u16,
    /// The terminus that has the sensor.
    pub terminus_handle: u16,
    /// The sensor's ID.
    pub sensor_id: u16,
    /// The entity that it measures.
    pub entity: EntityFields,
    /// How it is made ready: 0 it needs nothing.
    pub init: u8,
    /// Whether a record of auxiliary names goes with it: 0 no, 1 yes.
    pub has_auxiliary_names: u8,
    /// How the second unit goes with the first: 0 divided by it, 1 multiplied.
    pub rel: u8,
    /// The OEM unit that stands for the second unit, or 0.
    pub auxiliary_oem_unit_handle: u8,
    /// The thresholds that can be set: bit 0 upper warning, 1 upper critical, 2 upper fatal, 3 to 5 the lower ones.
    pub supported_thresholds: u8,
    /// When thresholds and hysteresis are lost.
    pub threshold_and_hysteresis_volatility: u8,
    /// What it measures in.
    pub units: UnitsFields,
    /// How its numbers become values.
    pub conversion: ConversionFields,
    /// The longest time that a change of state takes, in seconds, the bits of a real32.
    pub state_transition_interval: u32,
    /// The time between two readings, in seconds, the bits of a real32.
    pub update_interval: u32,
    /// How far a number has to go back before a threshold is left.
    pub hysteresis: i64,
    /// The greatest number that it can report.
    pub max_readable: i64,
    /// The least number that it can report.
    pub min_readable: i64,
    /// Its normal range and its thresholds.
    pub range: SensorRangeFields,
}

/// A numeric effecter record (DSP0248, "Numeric effecter PDR").
#[repr(C)]
#[derive(Clone, Copy)]
pub struct NumericEffecterFields {
    /// The record's handle, not 0.
    pub record_handle: u32,
    /// The record's change number.
    pub change_number: u16,
    /// The terminus that has the effecter.
    pub terminus_handle: u16,
    /// The effecter's ID.
    pub effecter_id: u16,
    /// The entity that it sets.
    pub entity: EntityFields,
    /// What setting it means, a number of the standard's list, or 0.
    pub semantic_id: u16,
    /// How it is made ready: 0 it needs nothing.
    pub init: u8,
    /// Whether a record of auxiliary names goes with it: 0 no, 1 yes.
    pub has_auxiliary_names: u8,
    /// The OEM unit that stands for the second unit, or 0.
    pub auxiliary_oem_unit_handle: u8,
    /// What it is set in.
    pub units: UnitsFields,
    /// How its numbers become values.
    pub conversion: ConversionFields,
    /// The longest time that a change of state takes, in seconds, the bits of a real32.
    pub state_transition_interval: u32,
    /// The longest time that a change of value takes, in seconds, the bits of a real32.
    pub transition_interval: u32,
    /// The greatest number that it can be set to.
    pub max_settable: i64,
    /// The least number that it can be set to.
    pub min_settable: i64,
    /// Its normal and its rated range.
    pub range: EffecterRangeFields,
}

/// A state sensor record (DSP0248, "State sensor PDR").
#[repr(C)]
#[derive(Clone, Copy)]
pub struct StateSensorFields {
    /// The record's handle, not 0.
    pub record_handle: u32,
    /// The record's change number.
    pub change_number: u16,
    /// The terminus that has the sensor.
    pub terminus_handle: u16,
    /// The sensor's ID.
    pub sensor_id: u16,
    /// The entity that it reports on.
    pub entity: EntityFields,
    /// How it is made ready: 0 it needs nothing.
    pub init: u8,
    /// Whether a record of auxiliary names goes with it: 0 no, 1 yes.
    pub has_auxiliary_names: u8,
    /// How many of `sets` there are, 1 to [`MAX_STATES`].
    pub count: u8,
    /// The possible states of each sensor of a composite one.
    pub sets: [PossibleStatesFields; MAX_STATES],
}

/// A state effecter record (DSP0248, "State effecter PDR").
#[repr(C)]
#[derive(Clone, Copy)]
pub struct StateEffecterFields {
    /// The record's handle, not 0.
    pub record_handle: u32,
    /// The record's change number.
    pub change_number: u16,
    /// The terminus that has the effecter.
    pub terminus_handle: u16,
    /// The effecter's ID.
    pub effecter_id: u16,
    /// The entity that it sets.
    pub entity: EntityFields,
    /// What setting it means, a number of the standard's list, or 0.
    pub semantic_id: u16,
    /// How it is made ready: 0 it needs nothing.
    pub init: u8,
    /// Whether a record that describes it goes with it: 0 no, 1 yes.
    pub has_description: u8,
    /// How many of `sets` there are, 1 to [`MAX_STATES`].
    pub count: u8,
    /// The possible states of each effecter of a composite one.
    pub sets: [PossibleStatesFields; MAX_STATES],
}

/// A record of the name of a sensor that is not composite, in English (DSP0248, "Sensor auxiliary names PDR").
#[repr(C)]
#[derive(Clone, Copy)]
pub struct SensorNameFields {
    /// The record's handle, not 0.
    pub record_handle: u32,
    /// How many code units of `text` there are, at most [`NAME_UNITS`].
    pub length: u32,
    /// The record's change number.
    pub change_number: u16,
    /// The terminus that has the sensor.
    pub terminus_handle: u16,
    /// The sensor's ID.
    pub sensor_id: u16,
    /// The name in code units of UTF-16, none of them 0.
    pub text: [u16; NAME_UNITS],
}

/// A record of the name of an effecter that is not composite, in English (DSP0248, "Effecter auxiliary names PDR").
#[repr(C)]
#[derive(Clone, Copy)]
pub struct EffecterNameFields {
    /// The record's handle, not 0.
    pub record_handle: u32,
    /// How many code units of `text` there are, at most [`NAME_UNITS`].
    pub length: u32,
    /// The record's change number.
    pub change_number: u16,
    /// The terminus that has the effecter.
    pub terminus_handle: u16,
    /// The effecter's ID.
    pub effecter_id: u16,
    /// The name in code units of UTF-16, none of them 0.
    pub text: [u16; NAME_UNITS],
}

/// A record of the name of an entity, in English (DSP0248, "Entity auxiliary names PDR").
#[repr(C)]
#[derive(Clone, Copy)]
pub struct EntityNameFields {
    /// The record's handle, not 0.
    pub record_handle: u32,
    /// How many code units of `text` there are, at most [`NAME_UNITS`].
    pub length: u32,
    /// The record's change number.
    pub change_number: u16,
    /// The entity.
    pub entity: EntityFields,
    /// The name in code units of UTF-16, none of them 0.
    pub text: [u16; NAME_UNITS],
}

// As in `include/needleoat.h`.
const _: () = prove!(size_of::<TerminusLocatorFields>() == 16);

const _: () = prove!(size_of::<NumericSensorFields>() == 160);

const _: () = prove!(size_of::<NumericEffecterFields>() == 120);

const _: () = prove!(size_of::<PossibleStatesFields>() == 36);

const _: () = prove!(size_of::<StateSensorFields>() == 308);

const _: () = prove!(size_of::<StateEffecterFields>() == 312);

const _: () = prove!(size_of::<SensorNameFields>() == 268);

const _: () = prove!(size_of::<EffecterNameFields>() == 268);

const _: () = prove!(size_of::<EntityNameFields>() == 272);

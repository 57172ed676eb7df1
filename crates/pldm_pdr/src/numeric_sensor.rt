//! The fields of a numeric sensor record (DSP0248, "Numeric sensor PDR").

use crate::{Conversion, Entity, SensorRange, Units};

/// A numeric sensor record (DSP0248, "Numeric sensor PDR"). Numbers of the sensor are of the data size that
/// `conversion` has.
#[derive(Clone, Copy, Debug, PartialEq, Eq)]
pub struct NumericSensor {
    /// The terminus that has the sensor.
    pub terminus_handle: u16,
    /// The sensor's ID.
    pub sensor_id: u16,
    /// The entity that it measures.
    pub entity: Entity,
    /// How it is made ready: 0 it needs nothing. Any byte is read.
    pub init: u8,
    /// Whether a record of auxiliary names goes with it.
    pub has_auxiliary_names: bool,
    /// What it measures in.
    pub units: Units,
    /// How the second unit goes with the first: 0 divided by it, 1 multiplied.
    pub rel: u8,
    /// The OEM unit that stands for the second unit, or 0.
    pub auxiliary_oem_unit_handle: u8,
    /// How its numbers become values.
    pub conversion: Conversion,
    /// How far a number has to go back before a threshold is left.
    pub hysteresis: i64,
    /// The thresholds that can be set: bit 0 upper warning, 1 upper critical, 2 upper fatal, 3 to 5 the lower ones.
    pub supported_thresholds: u8,
    /// When thresholds and hysteresis are lost.
    pub threshold_and_hysteresis_volatility: u8,
    /// The longest time that a change of state takes, in seconds, the bits of a real32.
    pub state_transition_interval: u32,
    /// The time between two readings, in seconds, the bits of a real32.
    pub update_interval: u32,
    /// The greatest number that it can return.
    pub max_readable: i64,
    /// The least number that it can return.
    pub min_readable: i64,
    /// Its normal range and its thresholds.
    pub range: SensorRange,
}

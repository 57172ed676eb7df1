//! The records of the auxiliary names of sensors, effecters and entities (DSP0248, "Sensor auxiliary names PDR").

use crate::{Entity, MAX_NAME_BYTES};
use arrayvec::ArrayVec;

/// A record of the auxiliary names of a sensor (DSP0248, "Sensor auxiliary names PDR").
#[derive(Debug, PartialEq, Eq, Drop)]
pub struct SensorNames {
    /// The terminus that has the sensor.
    pub terminus_handle: u16,
    /// The sensor's ID.
    pub sensor_id: u16,
    /// The names as the record has them: how many sensors the composite one has; for each how many names; for each name
    /// its language tag in ASCII, a zero byte, its text in UTF-16 with the higher byte first, and two zero bytes. A
    /// record has whole names.
    pub names: ArrayVec<u8, MAX_NAME_BYTES>,
}

/// A record of the auxiliary names of an effecter (DSP0248, "Effecter auxiliary names PDR").
#[derive(Debug, PartialEq, Eq, Drop)]
pub struct EffecterNames {
    /// The terminus that has the effecter.
    pub terminus_handle: u16,
    /// The effecter's ID.
    pub effecter_id: u16,
    /// The names, as [`SensorNames::names`] are.
    pub names: ArrayVec<u8, MAX_NAME_BYTES>,
}

/// A record of the auxiliary names of an entity (DSP0248, "Entity auxiliary names PDR"). No names are shared.
#[derive(Debug, PartialEq, Eq, Drop)]
pub struct EntityNames {
    /// The entity.
    pub entity: Entity,
    /// The names as the record has them: how many there are, and each as in [`SensorNames::names`]. A record has whole
    /// names.
    pub names: ArrayVec<u8, MAX_NAME_BYTES>,
}

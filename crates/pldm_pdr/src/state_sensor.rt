//! The fields of a state sensor record (DSP0248, "State sensor PDR").

use crate::{Entity, PossibleStates};
use arrayvec::ArrayVec;
use pldm_wire::MAX_STATES;

/// A state sensor record (DSP0248, "State sensor PDR").
#[derive(Debug, PartialEq, Eq, Drop)]
pub struct StateSensor {
    /// The terminus that has the sensor.
    pub terminus_handle: u16,
    /// The sensor's ID.
    pub sensor_id: u16,
    /// The entity whose state it reports.
    pub entity: Entity,
    /// How it is made ready: 0 it needs nothing. Any byte is read.
    pub init: u8,
    /// Whether a record of auxiliary names goes with it.
    pub has_auxiliary_names: bool,
    /// The possible states of each sensor of a composite one. A record has 1 to [`MAX_STATES`].
    pub sets: ArrayVec<PossibleStates, MAX_STATES>,
}

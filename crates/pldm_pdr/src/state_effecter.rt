//! The fields of a state effecter record (DSP0248, "State effecter PDR").

use crate::{Entity, PossibleStates};
use arrayvec::ArrayVec;
use pldm_wire::MAX_STATES;

/// A state effecter record (DSP0248, "State effecter PDR").
#[derive(Debug, PartialEq, Eq, Drop)]
pub struct StateEffecter {
    /// The terminus that has the effecter.
    pub terminus_handle: u16,
    /// The effecter's ID.
    pub effecter_id: u16,
    /// The entity that it sets.
    pub entity: Entity,
    /// What setting it means, a number of the standard's list, or 0.
    pub semantic_id: u16,
    /// How it is made ready: 0 it needs nothing. Any byte is read.
    pub init: u8,
    /// Whether a record that describes it goes with it.
    pub has_description: bool,
    /// The possible states of each effecter of a composite one. A record has 1 to [`MAX_STATES`].
    pub sets: ArrayVec<PossibleStates, MAX_STATES>,
}

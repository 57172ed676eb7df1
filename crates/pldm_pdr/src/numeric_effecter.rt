//! The fields of a numeric effecter record (DSP0248, "Numeric effecter PDR").

use crate::{Conversion, EffecterRange, Entity, Units};

/// A numeric effecter record (DSP0248, "Numeric effecter PDR"). Numbers of the effecter are of the data size that
/// `conversion` has.
#[derive(Clone, Copy, Debug, PartialEq, Eq)]
pub struct NumericEffecter {
    /// The terminus that has the effecter.
    pub terminus_handle: u16,
    /// The effecter's ID.
    pub effecter_id: u16,
    /// The entity that it sets.
    pub entity: Entity,
    /// What setting it means, a number of the standard's list, or 0.
    pub semantic_id: u16,
    /// How it is made ready: 0 it needs nothing. Any byte is read.
    pub init: u8,
    /// Whether a record of auxiliary names goes with it.
    pub has_auxiliary_names: bool,
    /// What it is set in.
    pub units: Units,
    /// The OEM unit that stands for the second unit, or 0.
    pub auxiliary_oem_unit_handle: u8,
    /// How its numbers become values.
    pub conversion: Conversion,
    /// The longest time that a change of state takes, in seconds, the bits of a real32.
    pub state_transition_interval: u32,
    /// The longest time that a change of value takes, in seconds, the bits of a real32.
    pub transition_interval: u32,
    /// The greatest number that it can be set to.
    pub max_settable: i64,
    /// The least number that it can be set to.
    pub min_settable: i64,
    /// Its normal and its rated range.
    pub range: EffecterRange,
}

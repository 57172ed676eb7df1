//! Two examples of a platform: a lamp whose level is set and read, and a dimmer, the same lamp with memory that may
//! be refused. A device that is a function of its state is put behind `pldm_platform::Platform` in this way.
#![tactic(auto)]

mod dimmer;
mod lamp;
mod lighting;

pub use crate::dimmer::Dimmer;
pub use crate::lamp::Lamp;
pub use crate::lighting::{EFFECTER, FULL_LEVEL, SENSOR, TID, level_of};

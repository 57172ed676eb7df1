//! What a device is asked when it is found, by the answers so far (DSP0240, DSP0248).
#![tactic(auto)]

mod answers;
mod discovered;
mod handles;
pub mod laws;
mod limits;
mod message;
mod stage;
mod terminus;
mod types;
mod versions;
mod walk;
mod whole_record;

pub use discovered::{Discovered, SensorOrEffecter};
pub use limits::MAX_COMMANDS;
pub use walk::Walk;

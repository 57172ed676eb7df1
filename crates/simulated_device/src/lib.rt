//! A simulated device behind a PLDM terminus: its sensors, its effecters and its records.
#![tactic(auto)]

mod device;
mod limits;
mod numeric;
mod performing;
mod state_effecter;

pub use device::SimDevice;
pub use numeric::{NumericEffecter, NumericSensor};
pub use state_effecter::{AllowedStates, StateEffecter};

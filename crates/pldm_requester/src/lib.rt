//! The requesting end of PLDM over MCTP: commands are opened as requests to one device, sent again until
//! they are answered or given up, and answers are taken from packets. The instance ID says which
//! request an answer is for (DSP0240, "PLDM message fields").
#![tactic(auto)]

mod ask;
pub mod laws;
mod numbering;
mod openings;
mod pace;
mod remembered;
mod requester;
mod results;
mod resuming;
mod slots;
mod timing;

pub use openings::{Openings, ResumeFault};
pub use pace::{Pace, PaceFault, SettingFault};
pub use requester::{MAX_OPEN, MAX_REMEMBERED, Requester};
pub use results::{Due, Got, OpenFault, Opened, Status};
pub use timing::{MAX_TRIES, Timing, TimingFault};

//! What is kept between the runs of `mctpctl ask`, `walk` and `watch`: when the last request with each instance ID was
//! opened (DSP0240, "PLDM message fields"), on the clock that runs since the system's start. A run that goes on with it
//! need not wait until answers to earlier requests can no longer come.
#![tactic(auto)]

mod boot_clock;
mod kept;
mod lock;
mod place;
mod state_file;

pub use boot_clock::{BootMoment, boot_moment};
pub use kept::{Kept, Known, Queries, Unknown, kept_before_next, push_state, read_state};
pub use place::{state_folder, state_name};
pub use state_file::{Begun, Earlier, StateFault, StateFile};

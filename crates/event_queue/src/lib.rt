//! Events of a device, each taken once and in order (DSP0248, "PLDM event messages"): the queue of the device, and the
//! event receiver that polls it.
#![tactic(auto)]

mod event;
pub mod laws;
mod queue;
mod receiver;

pub use event::{EVENT_IDS, Event, MAX_EVENT_DATA};
pub use queue::{EventQueue, PostFault, StartFault};
pub use receiver::{EventReceiver, EventRequest};

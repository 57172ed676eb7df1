//! The two ends of a firmware update (DSP0267) on a serial line (DSP0253): a device that takes an update into its flash,
//! beside all that it answers else, and an update agent that brings images. Each end has no input or output of its own;
//! a turn of the line reads once, hands it the packets that came, and writes what it sends.
#![tactic(auto)]

mod agent_end;
mod exchanges;
mod firmware_end;
mod flash;
mod offer;
mod parameters;
mod question_end;
mod turn;
mod type_answers;
mod update_end;

pub use agent_end::{AgentEnd, MOST_BYTES, Refusal};
pub use firmware_end::{FirmwareEnd, FirmwareSettings};
pub use flash::Flash;
pub use offer::Offer;
pub use question_end::QuestionEnd;
pub use turn::{UpdateLine, UpdateLineFault, take_turn};
pub use update_end::{Reply, Sending, UpdateEnd};

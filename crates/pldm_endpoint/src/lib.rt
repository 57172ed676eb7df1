//! The responding end over a device that answers in its own time: a packet's command is handed out to the device, and
//! its answer is handed back.
#![tactic(auto)]

mod command_list;
mod endpoint;
pub mod laws;
mod pending_commands;
mod request_bytes;
mod step;

pub use endpoint::Endpoint;
pub use pending_commands::{PendingCommand, RequestKey};
pub use request_bytes::RequestBytes;
pub use step::{AnswerRefusal, CommandHandle, MessageStep, ReceiveRefusal, Step};

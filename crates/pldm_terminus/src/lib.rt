//! An end of a link that answers and asks: a packet with TO 1 goes to what answers, one with TO 0 to its requester.
#![tactic(auto)]

mod asking;
mod direction;
pub mod laws;
mod terminus;

pub use asking::AskFault;
pub use direction::is_answer;
pub use terminus::{Terminus, TerminusStep};

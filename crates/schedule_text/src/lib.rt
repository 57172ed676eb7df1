//! A schedule of both ends of a link, read from text: its requesters, and what happens at each step.
#![tactic(auto)]

mod command_words;
mod last_number;
pub mod laws;
mod line;
mod line_fault;
mod moments;
mod refusal;
mod requesters;
mod schedule;
mod step;
mod steps;
mod word;
mod words;

pub use command_words::command_in;
pub use line::refusal_of;
pub use line_fault::{LineFault, LineFaultKind};
pub use moments::MomentsIter;
pub use refusal::{Expected, Refusal};
pub use schedule::Schedule;
pub use step::{Action, ActionRef, RequesterLine, Step, StepRef};
pub use steps::{Steps, StepsIter};
pub use word::{MAX_BYTE, MAX_HANDLE, MAX_ID, MAX_TIMEOUT};

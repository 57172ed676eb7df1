//! The two ends of a serial line (DSP0253) between a reader and a writer. One serves a device: frames come in, and
//! those of the answers go out. The other asks: commands go out as requests, and each is followed until it was answered
//! or given up; control queries go out beside them. There is no waiting: each read that gives nothing is a tick.
#![tactic(auto)]

mod answers;
mod ask_fault;
mod asking_line;
mod control;
mod events;
pub mod laws;
mod log;
mod quiet;
mod serve_fault;
mod served_line;
mod texts;
mod ticks;
mod tries;
mod turn;
mod wanted;

use arrayvec::ArrayVec;
pub use ask_fault::{AskFault, BeginFault};
pub use asking_line::{Asked, AskingLine, Ended, ask, begin, begin_after, listen, resume};
pub use control::ask_control;
pub use events::{Event, Unwatched, Watch};
pub use log::Log;
use mctp_packet::MAX_PACKETS;
use mctp_serial::MAX_FRAME_BYTES;
pub use mctpctl_input::Port;
pub use quiet::{END_MS, END_READS, Quiet};
pub use serve_fault::ServeFault;
pub use served_line::{ServedLine, serve};
pub use ticks::{LaterTicks, ListTicks, SystemTicks, Ticks, moment_after};

/// The most bytes of the frames of one answer.
pub const MAX_ANSWER_BYTES: usize = MAX_PACKETS * MAX_FRAME_BYTES;

/// The bytes of the frames of one answer, at most [`MAX_ANSWER_BYTES`].
pub type AnswerBytes = ArrayVec<u8, MAX_ANSWER_BYTES>;

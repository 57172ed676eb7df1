//! Input: ports, limits, lines, packets in the frames of a bus, and the faults that end a run before its time.
#![tactic(auto)]

mod binding;
mod block_write;
mod capture;
mod faults;
mod frame_fault;
mod framed_packet;
mod hex_digits;
pub mod laws;
mod limits;
mod lines;
mod packet_word;
mod port;
mod refused_capture;
mod serial_frame;
mod tee_reader;

pub use binding::Binding;
pub use capture::{CaptureFault, CaptureLine, read_capture_line};
pub use faults::{DescriptionFault, EngineFault, LineKind, fault_line, status_of};
pub use frame_fault::FrameFault;
pub use framed_packet::{PacketBytes, packet_of};
pub use hex_digits::HexDigits;
pub use limits::{MAX_CAPTURE_LINE, MAX_DESCRIPTION, MAX_DIVIDER, MAX_INPUT};
pub use lines::is_divider;
pub use packet_word::looks_like_packet;
pub use port::Port;
pub use refused_capture::{CaptureRefusal, capture_refusal};
pub use tee_reader::TeeReader;

//! The texts that `mctpctl` writes: the outcome of a packet, a packet and a message that are shown, and the report of
//! a run.
#![tactic(auto)]

mod decimal;
mod device_lines;
mod digits;
mod entry_text;
mod gathering;
mod hex_digits;
mod hex_pairs;
mod message_line;
mod outcome;
mod packet_line;
mod page;
mod parts;
mod phrases;
mod report_text;
mod text_writer;

pub use hex_pairs::HexPairs;
pub use message_line::{is_shown_as_response, write_command, write_data, write_message_line};
pub use outcome::push_outcome;
pub use packet_line::{write_no_frame_line, write_no_packet_line, write_packet_line};
pub use parts::{write_number, write_signed, write_text};
pub use report_text::write_report;
pub use text_writer::{NotWritten, TextWriter};

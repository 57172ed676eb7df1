//! The plain structs in which packets (DSP0236), messages, commands and answers (DSP0240, DSP0248)
//! cross to C, and the calls that fill and read them. No call takes memory.
#![tactic(auto)]

mod answer;
mod answer_reading;
mod answer_writing;
mod command;
mod command_reading;
mod command_writing;
mod message;
mod packet;
mod room;
mod states;

pub use answer::AnswerFields;
pub use answer_reading::{answer_check, answer_read};
pub use answer_writing::{answer_write, put_answer_of, record_checksum};
pub use command::CommandFields;
pub use command_reading::{CommandReading, command_read};
pub use command_writing::command_write;
pub use message::{MessageFields, request_read, response_read};
pub use packet::{NOT_AN_ENDPOINT, PacketFields, packet_count, packet_read, packet_write};
pub use states::{EffecterState, SensorState, SetState};

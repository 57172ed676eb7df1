//! `mctpctl show --decode`: a capture shown with the fields of its commands and answers by name.
#![tactic(auto)]

mod answer_text;
mod answer_to_command;
mod code_names;
mod command_text;
mod control_line;
mod control_names;
mod control_text;
mod decode;
mod field_text;
mod label;
pub mod laws;
mod measure_text;
mod message_line;
mod name_text;
mod numeric_effecter_text;
mod numeric_sensor_text;
mod record_field;
mod record_names;
mod record_text;
mod shared_codes;
mod state_names;
mod state_record_text;
mod transfer;
mod transfers;
mod unit_names;

pub use answer_to_command::push_answer_to;
pub use code_names::code_name;
pub use decode::{ByName, decode_all};
pub use field_text::push_code;
pub use message_line::push_decoded_line;
pub use record_text::push_record;
pub use state_names::{effecter_state_name, sensor_operation_name, sensor_state_name};
pub use unit_names::unit_name;

//! PLDM messages (DSP0240, DSP0248): headers, commands and answers as bytes, and the checksums of a
//! record and of versions.
#![tactic(auto)]

mod answer;
mod answer_reading;
mod answer_writing;
mod assigned;
mod base;
mod code;
mod command;
mod command_reading;
mod command_writing;
mod crc;
mod effecter_values;
mod effecters;
mod header;
mod kind;
pub mod laws;
mod limits;
mod number;
mod pass_through;
mod places;
mod pushes;
mod record_part;
mod repository;
mod request;
mod request_writing;
mod response;
mod restart_policy;
mod sensors;
mod size;
mod state_fields;
mod transfer_flag;
mod version_crc;
mod version_data;
mod window;

pub use answer::Answer;
pub use answer_reading::{AnswerFault, read_answer, read_answer_of};
pub use answer_writing::{put_answer, put_response, write_answer};
pub use assigned::{
    BASE, ERROR, ERROR_INVALID_DATA, ERROR_INVALID_LENGTH, ERROR_INVALID_PLDM_TYPE,
    ERROR_NOT_READY, ERROR_UNSUPPORTED_PLDM_CMD, GET_NUMERIC_EFFECTER_VALUE, GET_PDR,
    GET_PDR_REPOSITORY_INFO, GET_PLDM_COMMANDS, GET_PLDM_TYPES, GET_PLDM_VERSION,
    GET_SENSOR_READING, GET_STATE_EFFECTER_STATES, GET_STATE_SENSOR_READINGS, GET_TID,
    INSTANCE_IDS, MESSAGE_TYPE, PLATFORM, REQUEST_HEADER, RESPONSE_HEADER,
    SET_NUMERIC_EFFECTER_VALUE, SET_STATE_EFFECTER_STATES, SET_TID, START_AND_END, SUCCESS,
};
pub use code::Code;
pub use command::Command;
pub use command_reading::read_command;
pub use command_writing::{put_command, write_command};
pub use crc::crc8;
pub use effecter_values::EffecterValues;
pub use kind::Kind;
pub use limits::{
    ALL_FIELDS_FORM, COMMANDS_BYTES, GET_FIRST_PART, GET_NEXT_PART, MAX_PART_BYTES,
    MAX_REQUEST_BYTES, MAX_REQUEST_DATA, MAX_RESPONSE_DATA, MAX_STATES, MAX_VERSION_BYTES,
    MIN_VERSION_BYTES, TIME_BYTES, TYPES_BYTES, VERSION_BYTES,
};
pub use number::Number;
pub use pass_through::PassThrough;
pub use record_part::RecordPart;
pub use request::{RequestRef, read_request};
pub use request_writing::put_request;
pub use response::{ResponseRef, read_response};
pub use restart_policy::RestartPolicy;
pub use size::Size;
pub use state_fields::{EffecterStateField, SensorStateField, SetStateField, StateFields};
pub use transfer_flag::TransferFlag;
pub use version_crc::crc32;
pub use version_data::VersionData;
pub use window::Window;

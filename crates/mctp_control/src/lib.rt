//! MCTP control messages (DSP0236, "MCTP control protocol") of a simple endpoint: commands and answers, read and
//! written, what such an endpoint answers, which has a static endpoint ID or is assigned one, and what asks it.
#![tactic(auto)]

mod answer;
mod answer_reading;
mod answer_writing;
mod any_query;
mod assigned;
mod code;
mod command;
mod command_reading;
mod command_writing;
mod control_responder;
mod dropped;
mod kept_assignments;
pub mod laws;
mod link_query;
mod message;
mod message_types;
mod packet_header;
mod query;
mod versions;

pub use answer::{Answer, Assignment, EidKind, EndpointKind};
pub use answer_reading::read_answer;
pub use answer_writing::write_answer;
pub use any_query::AnyQuery;
pub use assigned::{
    BASE_SPECIFICATION, CONTROL, GET_ENDPOINT_ID, GET_ENDPOINT_UUID, GET_MESSAGE_TYPE_SUPPORT,
    GET_VERSION_SUPPORT, INSTANCE_IDS, MAX_DATA, MAX_MESSAGE_TYPES, MAX_VERSION_BYTES,
    MAX_VERSIONS, PLDM, REQUEST_HEADER, RESPONSE_HEADER, SET_ENDPOINT_ID, SET_MESSAGE_BYTES,
    SUCCESS, UUID_BYTES, VERSION_BYTES,
};
pub(crate) use assigned::{DATAGRAM, RQ};
pub use code::CompletionCode;
pub use command::{Command, EidOperation};
pub use command_reading::read_command;
pub use command_writing::write_command;
pub use control_responder::{ControlPacket, ControlResponder};
pub use kept_assignments::{KEPT_ASSIGNMENTS, KeptAssignment, KeptAssignments};
pub use link_query::LinkQuery;
pub use message::{RequestRef, ResponseRef, read_request, read_response};
pub use message_types::MessageTypes;
pub use query::Query;
pub use versions::Versions;

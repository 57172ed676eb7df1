//! The responding end of PLDM over MCTP: packets in, each fresh request performed once, and answers out. The
//! instance ID distinguishes a new request from a retry (DSP0240, "PLDM message fields").
#![tactic(auto)]

mod answering_end;
mod arriving;
mod bounds;
mod kept_answer;
mod kept_answers;
pub mod laws;
mod open_order;
mod order;
mod outcome;
mod performing;
mod responder;
mod responder_settings;
mod routes;
mod row;
mod slot_table;
mod slots;

pub use answering_end::{AnsweringEnd, MAX_KEPT, MAX_PENDING};
pub use arriving::{Disposition, Intake, Request, RequestClass, RoomRefusal};
pub use bounds::Bounds;
pub use kept_answers::Reserved;
pub use outcome::{MessageOutcome, Outcome};
pub use performing::refuse;
pub use responder::Responder;
pub use responder_settings::ResponderSettings;
pub use routes::{not_performed, performed};

//! Both ends of a link: requesters and a device over one schedule of what is delivered between them.
#![tactic(auto)]

mod arrivals;
mod askers;
mod both_ends;
mod delivery;
mod delivery_place;
mod due_requests;
mod entries;
mod entry;
mod journal;
pub mod laws;
mod opened_request;
mod places;
mod run_fault;
mod stored_message;

pub use both_ends::{Report, Setup, run};
pub use delivery::Delivery;
pub use due_requests::DueRequests;
pub use entries::{Entries, EntriesIter};
pub use entry::{Entry, EntryRef};
pub use opened_request::OpenedRequest;
pub use run_fault::RunFault;
pub use schedule_text::{
    Action, ActionRef, LineFault, LineFaultKind, RequesterLine, Schedule, Step, StepRef, Steps,
    StepsIter,
};

//! Both ends of PLDM over MCTP for C, one that answers and asks, and the machine of a firmware device, each behind a
//! handle of two words: `include/needleoat.h` declares these calls.
#![tactic(auto)]

mod endpoint;
mod endpoint_calls;
mod endpoint_handle;
mod firmware;
mod firmware_calls;
mod firmware_handle;
mod firmware_reports;
mod kinds;
mod parts;
mod refusals;
mod reports;
mod requester;
mod requester_calls;
mod requester_handle;
mod settings;
mod terminus;
mod terminus_calls;
mod terminus_handle;

pub use endpoint_calls::{
    needleoat_endpoint_answer, needleoat_endpoint_answer_bytes, needleoat_endpoint_eid,
    needleoat_endpoint_free, needleoat_endpoint_new, needleoat_endpoint_receive,
    needleoat_endpoint_request, needleoat_endpoint_restart,
};
pub use endpoint_handle::{EndpointForC, EndpointHandle, HiddenEndpoint};
pub use firmware_calls::{
    needleoat_firmware_answered, needleoat_firmware_component, needleoat_firmware_done,
    needleoat_firmware_free, needleoat_firmware_gave_up, needleoat_firmware_new,
    needleoat_firmware_opened, needleoat_firmware_receive, needleoat_firmware_stage,
    needleoat_firmware_tick, needleoat_firmware_wish,
};
pub use firmware_handle::{FirmwareForC, FirmwareHandle, HiddenFirmware};
pub use firmware_reports::{ComponentFields, FirmwareAnswer, FlashReport, StageReport};
pub use reports::{
    ComingReport, DueReport, HandleFields, OpeningReport, PacketReport, RequestFields,
    StatusReport, StepReport,
};
pub use requester_calls::{
    needleoat_requester_free, needleoat_requester_new, needleoat_requester_next_deadline,
    needleoat_requester_open, needleoat_requester_open_request, needleoat_requester_packet,
    needleoat_requester_packet_at, needleoat_requester_receive, needleoat_requester_status,
    needleoat_requester_tick,
};
pub use requester_handle::{HiddenRequester, RequesterForC, RequesterHandle};
pub use settings::{EndpointSettings, PeerSettings, RequesterSettings};
pub use terminus_calls::{
    needleoat_terminus_answer, needleoat_terminus_answer_bytes, needleoat_terminus_free,
    needleoat_terminus_new, needleoat_terminus_next_deadline, needleoat_terminus_open,
    needleoat_terminus_open_request, needleoat_terminus_packet, needleoat_terminus_receive,
    needleoat_terminus_request, needleoat_terminus_restart, needleoat_terminus_status,
    needleoat_terminus_tick,
};
pub use terminus_handle::{HiddenTerminus, TerminusForC, TerminusHandle};

//! A device's endpoint as a bus owner sees it: it answers messages of PLDM and control messages, under one endpoint ID.
#![tactic(auto)]

mod bus_endpoint;
mod step;

pub use bus_endpoint::BusEndpoint;
pub use step::BusStep;

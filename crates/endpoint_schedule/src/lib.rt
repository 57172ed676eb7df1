//! Both ends of a link, whatever is lost, repeated or reordered. The requesters are those of `pldm_requester`. Of a
//! device that answers in its own time, or not at all, behind an `Endpoint`: what holds of both ends together. Of one
//! that keeps events, behind a `Responder`: that each event is taken once and in order. Of one that takes a firmware
//! update: that it verifies its agent's file.
#![tactic(auto)]

pub mod laws;

//! What a schedule tells both ends to do.

use mctp_packet::{Eid, Moment};
use pldm_wire::Command;

/// A requester of a schedule, with what it takes for its retries.
#[derive(Clone, Copy, Debug, PartialEq, Eq)]
pub struct RequesterLine {
    /// Its endpoint ID.
    pub eid: Eid,
    /// How long it waits for an answer before it sends a request again, 0 to 60,000 milliseconds.
    pub timeout: u32,
    /// How often it sends a request at most.
    pub tries: u8,
}

/// One step of a schedule.
#[derive(Debug, PartialEq, Eq, Drop)]
pub struct Step {
    /// When it happens.
    pub moment: Moment,
    /// What happens.
    pub action: Action,
}

/// What happens at a step.
#[derive(Debug, PartialEq, Eq, Drop)]
pub enum Action {
    /// A requester opens a request.
    Open {
        /// The requester's endpoint ID.
        requester: Eid,
        /// The command that it asks for.
        command: Command,
    },
    /// A requester sends again and gives up what is due.
    Tick {
        /// The requester's endpoint ID.
        requester: Eid,
    },
    /// The packet of a request comes to the device.
    Request {
        /// The request's number, counted from 0 over all accepted requests.
        number: u64,
    },
    /// A packet of the latest reply to a request comes to its requester.
    Reply {
        /// The packet's number in the reply, from 0 on.
        packet: u8,
        /// The request's number.
        number: u64,
    },
    /// A sensor of the device gets a reading.
    Sense {
        /// The sensor's ID.
        sensor: u16,
        /// The reading.
        value: i64,
    },
    /// The device's end restarts.
    Restart,
    /// The latest busy answer to a request comes to its requester.
    Busy {
        /// The request's number.
        number: u64,
    },
}

/// One step of a schedule, as it stands among its steps.
#[derive(Clone, Copy, Debug)]
pub struct StepRef<'a> {
    /// When it happens.
    pub moment: Moment,
    /// What happens.
    pub action: ActionRef<'a>,
}

/// What happens at a step, as it stands among the steps of a schedule.
#[derive(Clone, Copy, Debug)]
pub enum ActionRef<'a> {
    /// A requester opens a request.
    Open {
        /// The requester's endpoint ID.
        requester: Eid,
        /// The command that it asks for.
        command: &'a Command,
    },
    /// A requester sends again and gives up what is due.
    Tick {
        /// The requester's endpoint ID.
        requester: Eid,
    },
    /// The packet of a request comes to the device.
    Request {
        /// The request's number, counted from 0 over all accepted requests.
        number: u64,
    },
    /// A packet of the latest reply to a request comes to its requester.
    Reply {
        /// The packet's number in the reply, from 0 on.
        packet: u8,
        /// The request's number.
        number: u64,
    },
    /// A sensor of the device gets a reading.
    Sense {
        /// The sensor's ID.
        sensor: u16,
        /// The reading.
        value: i64,
    },
    /// The device's end restarts.
    Restart,
    /// The latest busy answer to a request comes to its requester.
    Busy {
        /// The request's number.
        number: u64,
    },
}

//! What came of one step of a run: a request opened, a packet delivered, a tick.

use crate::{Delivery, DueRequests};
use pldm_platform::ReadingFault;
use pldm_requester::{Got, OpenFault};

/// What came of a step.
#[derive(Debug, Drop)]
pub enum Entry<'a> {
    /// Nothing: no such request was opened, or no such packet was sent.
    Nothing,
    /// A request was opened, with this number, counted from 0 over the opened requests of all
    /// requesters.
    Opened(u64),
    /// No request was opened. The fault is never `Memory`.
    NotOpened(OpenFault),
    /// What a tick found due. The numbers count the opened requests of all requesters.
    Due(DueRequests<'a>),
    /// The packet of a request came to the device.
    Delivered {
        /// Whether the device's end was busy after a restart, so that the outcome is a busy answer.
        busy: bool,
        /// What became of the packet.
        delivery: Delivery<'a>,
    },
    /// A packet of an answer came to its requester. The number of an answered request counts the
    /// opened requests of that requester alone.
    Received(Got),
    /// A sensor was to get a reading.
    Sensed(Result<(), ReadingFault>),
    /// The device's end restarted.
    Restarted,
}

/// What came of a step, as it stands among the entries of a run.
#[derive(Clone, Copy, Debug)]
pub enum EntryRef<'a> {
    /// Nothing: no such request was opened, or no such packet was sent.
    Nothing,
    /// A request was opened, with this number, counted from 0 over the opened requests of all
    /// requesters.
    Opened(u64),
    /// No request was opened. The fault is never `Memory`.
    NotOpened(OpenFault),
    /// What a tick found due. The numbers count the opened requests of all requesters.
    Due {
        /// The requests whose packets are sent again.
        again: &'a [u64],
        /// The requests that are given up.
        given_up: &'a [u64],
    },
    /// The packet of a request came to the device.
    Delivered {
        /// Whether the device's end was busy after a restart, so that the outcome is a busy answer.
        busy: bool,
        /// What became of the packet.
        delivery: &'a Delivery<'a>,
    },
    /// A packet of an answer came to its requester. The number of an answered request counts the
    /// opened requests of that requester alone.
    Received(Got),
    /// A sensor was to get a reading.
    Sensed(Result<(), ReadingFault>),
    /// The device's end restarted.
    Restarted,
}

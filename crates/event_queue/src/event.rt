//! An event that a device keeps until it is acknowledged.

ghost use Rattle.std.specs.Prelude.{◌≡◌};

use arrayvec::ArrayVec;
use std::marker::Model;

/// How many event IDs there are, 1 to 0xFFFE: 0 says that there is no event, and 0xFFFF that a further part of one is
/// asked for (DSP0248, "PollForPlatformEventMessage command").
pub const EVENT_IDS: u16 = 0xFFFE;

/// The most bytes of an event's data.
pub const MAX_EVENT_DATA: usize = 256;

/// An event, with the ID under which it is polled and acknowledged.
#[derive(Debug, Drop)]
pub struct Event {
    pub(crate) id: u16,
    pub(crate) class: u8,
    pub(crate) data: ArrayVec<u8, MAX_EVENT_DATA>,
}

impl Model for Event {
    ghost use Rattle.event_queue.specs.Queues.{PlatformEvent, coded_event};

    ghost Value = { PlatformEvent };

    ghost coded = { coded_event };

    ghost view = { λ e. record { id = e.id; class = e.class; contents = e.data.items } };
}

impl Event {
    /// Its ID, 1 to 0xFFFE.
    pub fn id(&self) -> u16
        ensures { result ≡ self.now.id }
    {
        self.id
    }

    /// Its class, as it was posted (DSP0248, "Event message classes").
    pub fn class(&self) -> u8
        ensures { result ≡ self.now.class }
    {
        self.class
    }

    /// Its data, as it was posted: at most [`MAX_EVENT_DATA`] bytes, laid out as its class says.
    pub fn data(&self) -> &[u8]
        ensures { result.now ≡ self.now.contents }
    {
        &self.data
    }
}

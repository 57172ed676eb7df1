//! The queue of a device's events.

ghost use Rattle.std.specs.Prelude.{◌≡◌, ◌≤◌, IfOk, IfErr, OnOk, length, option_map, true};
ghost use Rattle.event_queue.specs.Queues.{IsNext, IsWhyNotBegun, IsWhyNotPosted, acknowledged, after_refusal, begun, has_room, head, is_head, one_refused, posted};

use crate::event::{EVENT_IDS, Event, MAX_EVENT_DATA};
use arrayvec::ArrayVec;
use mctp_packet::Memory;
use std::alloc::Global;
use std::collections::VecDeque;
use std::marker::Model;
use thiserror::Error;

/// Why an event was not posted.
#[derive(Clone, Copy, Debug, PartialEq, Eq, Error)]
pub enum PostFault {
    /// It has more than [`MAX_EVENT_DATA`] bytes of data.
    #[error("the event has too much data")]
    Long,
    /// The queue is full: as many events as it has room for were not acknowledged yet.
    #[error("the event queue is full")]
    Full,
}

/// Why a queue was not made.
#[derive(Clone, Copy, Debug, PartialEq, Eq, Error)]
pub enum StartFault {
    /// The first event ID is 0 or 0xFFFF.
    #[error("the first event ID is not 1 to 0xFFFE")]
    FirstId,
    /// Its memory was refused.
    #[error("out of memory")]
    Memory,
}

/// The events of a device that were not acknowledged yet, the oldest first. What is posted to a full queue is refused
/// and counted: it never takes the place of an older event.
///
/// The queue is to outlive a restart of the device. One that is lost takes its events along, and a new one begins its
/// IDs at 1 again. Then a new event may have the ID of the last one that the receiver took: it is acknowledged and
/// never handed up; and a late acknowledgement may drop an event that was not taken. So a device that loses its queue
/// has to begin where no ID is in use, by [`EventQueue::starting_at`].
#[derive(Debug, Drop)]
pub struct EventQueue {
    most: usize,
    next: u16,
    events: VecDeque<Event>,
    refused: u64,
}

impl Model for EventQueue {
    ghost use Rattle.std.specs.Prelude.{◌≤◌};
    ghost use Rattle.std.specs.VecDeque.{deque_capacity};
    ghost use Rattle.event_queue.specs.Queues.{IsNext, QueueView, coded_queue};

    ghost Value = { QueueView };

    ghost coded = { coded_queue };

    ghost view = { λ q. record { most = q.most; next = q.next; events = q.events.items; refused = q.refused } };

    ghost invariant = { λ q. IsNext q.next × (q.most ≤ deque_capacity q.events) };
}

impl EventQueue {
    /// An empty queue with room for `most` events, whose first one gets the ID 1. All its memory is taken here.
    ///
    /// # Errors
    ///
    /// Where that memory was refused.
    pub fn new(alloc: Global, most: usize) -> Result<EventQueue, Memory>
        ensures { IfOk result (λ queue. queue ≡ begun most 1) }
    {
        Ok(EventQueue {
            most,
            next: 1,
            events: VecDeque::with_capacity(alloc, most)?,
            refused: 0,
        })
    }

    /// A queue as from [`EventQueue::new`], whose first event gets this ID.
    ///
    /// # Errors
    ///
    /// `FirstId` exactly where `first_id` is not 1 to 0xFFFE; else `Memory`, where that was refused.
    pub fn starting_at(alloc: Global, most: usize, first_id: u16) -> Result<EventQueue, StartFault>
        ensures begun { IfOk result (λ queue. queue ≡ begun most first_id) }
        ensures id { OnOk result (IsNext first_id) }
        ensures fault { IfErr result (IsWhyNotBegun first_id) }
    {
        if first_id < 1 || first_id > EVENT_IDS {
            return Err(StartFault::FirstId);
        }
        match EventQueue::new(alloc, most) {
            Ok(mut queue) => {
                queue.next = first_id;
                Ok(queue)
            }
            Err(_) => Err(StartFault::Memory),
        }
    }

    /// Puts an event at the end, and returns its ID: that after the last one's, with 1 after 0xFFFE.
    ///
    /// # Errors
    ///
    /// The first fault of `Long`, which changes nothing, and `Full`, which [`EventQueue::refused`] counts.
    pub fn post(&mut self, class: u8, contents: &[u8]) -> Result<u16, PostFault>
        ensures id { IfOk result (λ id. id ≡ self.old.next) }
        ensures posted { OnOk result (self.new ≡ posted self.old class contents.now) }
        ensures room { OnOk result (has_room self.old ≡ true) }
        ensures few { OnOk result (length contents.now ≤ MAX_EVENT_DATA) }
        ensures fault { IfErr result (IsWhyNotPosted self.old contents.now) }
        ensures err { IfErr result (λ fault. self.new ≡ after_refusal self.old fault) }
    {
        let mut kept = ArrayVec::new();
        if kept.try_extend_from_slice(contents).is_err() {
            return Err(PostFault::Long);
        }
        if self.events.len() >= self.most {
            self.count_refused();
            return Err(PostFault::Full);
        }
        let id = self.next;
        let event = Event {
            id,
            class,
            data: kept,
        };
        self.events.push_back(event).unwrap();
        self.next = id % EVENT_IDS + 1;
        Ok(id)
    }

    /// One more event was refused because the queue was full.
    fn count_refused(&mut self)
        ensures { self.new ≡ one_refused self.old }
    {
        let count = &mut self.refused;
        if *count < u64::MAX {
            *count += 1;
        }
    }

    /// How many events were refused because the queue was full, since it was made: at most 2^64 - 1, where the count
    /// stops.
    pub fn refused(&self) -> u64
        ensures { result ≡ self.now.refused }
    {
        self.refused
    }

    /// The oldest event, which a poll gets (DSP0248, "PollForPlatformEventMessage command").
    pub fn head(&self) -> Option<&Event>
        ensures { option_map (λ event. event.now) result ≡ head self.now.events }
    {
        self.events.front()
    }

    /// Drops the oldest event where it has this ID, and returns whether it did. Any other ID, that of a later event
    /// among them, changes nothing: so a copy of an acknowledgement drops no second event.
    pub fn acknowledge(&mut self, id: u16) -> bool
        ensures queue { self.new ≡ acknowledged self.old id }
        ensures result { result ≡ is_head id self.old.events }
    {
        let is_head = match self.events.front() {
            Some(event) => event.id == id,
            None => false,
        };
        if is_head {
            self.events.pop_front();
        }
        is_head
    }
}

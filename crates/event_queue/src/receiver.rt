//! The event receiver, which polls a device for its events.

ghost use Rattle.std.specs.Prelude.{◌≡◌};
ghost use Rattle.event_queue.specs.Receivers.{after_answer, after_giving_up, first_receiver, is_new};

use std::marker::Model;

/// What the receiver's next request asks of the device (DSP0248, "PollForPlatformEventMessage command").
#[derive(Clone, Copy, Debug, PartialEq, Eq)]
pub enum EventRequest {
    /// Its oldest event (GetFirstPart).
    Poll,
    /// To drop the event with this ID (AcknowledgementOnly).
    Acknowledge(u16),
}

/// What an event receiver remembers: the ID of the last event that it took, and what it asks next. It is to have one
/// request of its own open at a time. One that begins anew remembers no event: it may take the queue's head again.
#[derive(Debug, Drop)]
pub struct EventReceiver {
    last: u16,
    request: EventRequest,
}

impl Model for EventReceiver {
    ghost use Rattle.event_queue.specs.Receivers.{ReceiverView, coded_receiver};

    ghost Value = { ReceiverView };

    ghost coded = { coded_receiver };

    ghost view = { λ r. record { last = r.last; request = r.request } };
}

impl EventReceiver {
    /// A receiver that took no event yet. It polls first.
    pub fn new() -> EventReceiver
        ensures { result ≡ first_receiver }
    {
        EventReceiver {
            last: 0,
            request: EventRequest::Poll,
        }
    }

    /// What the next request asks; while one is open, what that one asked.
    pub fn request(&self) -> EventRequest
        ensures { result ≡ self.now.request }
    {
        self.request
    }

    /// Takes the answer to the open request: the ID of the event in it, 1 to 0xFFFE, where there is one. Returns
    /// whether that event is to be handed up: it answers a poll, and it is not the last one that was. Either way the
    /// next request acknowledges it.
    pub fn take(&mut self, event: Option<u16>) -> bool
        ensures receiver { self.new ≡ after_answer self.old event }
        ensures result { result ≡ is_new self.old event }
    {
        match (self.request, event) {
            (EventRequest::Poll, Some(id)) => {
                let is_new = id != self.last;
                self.last = id;
                self.request = EventRequest::Acknowledge(id);
                is_new
            }
            _ => {
                self.request = EventRequest::Poll;
                false
            }
        }
    }

    /// The open request was given up, or its answer refuses it: the next one polls, whatever this one asked. So the
    /// device says what it still has.
    pub fn give_up(&mut self)
        ensures { self.new ≡ after_giving_up self.old }
    {
        self.request = EventRequest::Poll;
    }
}

//! What happens on a line, for one who watches it.

ghost use Rattle.std.specs.Prelude.{◌≡◌};
ghost use Rattle.pldm_line.specs.Events.{Seen, seen_of};

use mctp_packet::{Moment, Reason, Route};
use mctp_serial::SerialFault;

/// What happened on the line.
#[derive(Debug, Drop)]
pub enum Event<'a> {
    /// Bytes after a flag were no frame.
    NoFrame(SerialFault),
    /// A packet of these bytes came at this moment.
    Came(Moment, &'a [u8]),
    /// The packet that just came was dropped.
    Dropped(Reason),
    /// The packets of this message were sent on this route, at this moment.
    Sent(Moment, Route, &'a [u8]),
    /// The packet of these bytes was sent at this moment. It answers a control message, which the responder dropped.
    SentControl(Moment, &'a [u8]),
}

/// Sees what happens on the line. Nothing that it does changes what is answered. `sees` says what it makes of an
/// event, and [`crate::serve`] which events those of its input are, in order.
pub trait Watch {
    // seeing this, the one watcher becomes the other
    ghost sees: { Self → Seen → Self → Type 0 };

    /// Takes what happened.
    fn saw(&mut self, event: &Event<'_>)
        ensures { sees self.old (seen_of event.now) self.new };
}

/// Watches nothing.
#[derive(Clone, Copy, Debug)]
pub struct Unwatched;

impl Watch for Unwatched {
    ghost sees = { λ old _ new. new ≡ old };

    fn saw(&mut self, _event: &Event<'_>) {}
}

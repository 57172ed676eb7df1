//! Laws of events, over the definitions alone: each function does nothing and ensures its law.

ghost use Rattle.event_queue.specs.Laws.{ComesBeforeItsIdIsUsed, EventsOnce};

/// In every timely run, whatever is lost, repeated, given up or comes late, from whichever first ID: what was posted is
/// what was acknowledged, and then what is in the queue; what was taken is what was acknowledged, or that and the
/// queue's head. So each event is taken once and in order, and none is dropped that was not taken.
///
/// A run is timely where the device performs no request after its instance ID was used again. It may perform one
/// several times, and restart, where it keeps its queue.
pub fn events_once()
    ensures { EventsOnce }
{}

/// Where moments never go back, a request that comes to the device less than twice the pace's lifetime after it was
/// opened does so before its instance ID is used again: at the default pace, less than twice the keeping time. So a run
/// whose requests come that soon is a timely one of [`events_once`].
pub fn requests_come_before_their_ids_are_used()
    ensures { ComesBeforeItsIdIsUsed }
{
    pldm_requester::laws::instance_ids_are_apart();
}

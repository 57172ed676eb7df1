//! Laws of both ends, over the definitions alone: each function does nothing and ensures its law.

ghost use Rattle.pldm_responder.specs.Performing.{Rules};
ghost use Rattle.mctp_schedule.specs.BothWays.{EachWayIsInOrder, EachWayPerformsOnce, EachWayTakesTheOneReply};
ghost use Rattle.mctp_schedule.specs.InWindow.{InWindowByTheRule};
ghost use Rattle.mctp_schedule.specs.PacedHeadline.{HeadlineAtEveryPace};
ghost use Rattle.mctp_schedule.specs.Laws.{AllIdsAreInTime, AllIdsAreNoWindow, LogIsTimely, PacedLogIsTimely, TimelyIsTested};
ghost use Rattle.mctp_schedule.specs.Worlds.{BothEnds};
ghost use Rattle.mctp_schedule.specs.RequesterHalf.{AnsweredWasPerformed, AnsweredWhereTaken, BusyIsExpected, OwnAssembly, OwnDeliveries, ReplyIsExpected, TakenOnce};
ghost use Rattle.mctp_schedule.specs.DeviceHalf.{DeliveryIsExpected, FreshInOrderOfFirsts, FreshWhereFirst, GivenIsTheReply, NoneOpenedSince, NotPerformedAgain, StateIsOnce, TheReplyFits};

use pldm_platform::Platform;
pub use schedule_text::laws::lines_are_read_as_spelled;

/// Over a timely log a request's deliveries end before its instance ID is used again, each is fresh
/// exactly where it is the first, and the fresh ones come in the order of first arrivals.
pub fn fresh_deliveries_are_first<P: Platform>()
    ensures none_since { NoneOpenedSince P.State }
    ensures fresh { FreshWhereFirst P.State }
    ensures order { FreshInOrderOfFirsts P.State }
{}

/// Over a timely log the responder's state is that of performing each request once, at its first
/// arrival, and all deliveries of a request while the responder serves get its one reply; also of a device to which
/// requests are handed on as bytes.
pub fn performs_once<P: Platform>()
    ensures state { (device : Rules P.State) → StateIsOnce device }
    ensures not_again { (device : Rules P.State) → NotPerformedAgain device }
    ensures delivery { (device : Rules P.State) → DeliveryIsExpected device }
    ensures given { (device : Rules P.State) → GivenIsTheReply device }
    ensures fits { (device : Rules P.State) → TheReplyFits device }
{}

/// Over a timely schedule whose requesters go by the keeping time the log of what happened on the link is timely, so the
/// laws of [`fresh_deliveries_are_first`] and [`performs_once`] hold of it; and the test of a timely schedule says exactly
/// whether the schedule is timely.
pub fn logs_are_timely<P: Platform>()
    ensures log { (setting : BothEnds P.State) → LogIsTimely setting }
    ensures tested { (setting : BothEnds P.State) → TimelyIsTested setting }
{
    pldm_requester::laws::instance_ids_are_apart();
}

/// The same at every pace that suits the device, where the requests can be read and the replies fit packets: an instance
/// ID that is used again before twice the keeping time is out of the device's window.
pub fn paced_logs_are_timely<P: Platform>()
    ensures { (setting : BothEnds P.State) → PacedLogIsTimely setting }
{
    mctp_packet::laws::split_packets_read_back();
    pldm_wire::laws::messages_are_told_apart();
    pldm_requester::laws::one_open_on_each_tag();
    pldm_requester::laws::instance_ids_are_apart();
}

/// With a window of all instance IDs, the same schedules are timely as where the device keeps an answer for each
/// instance ID of a source.
pub fn all_ids_are_in_time<P: Platform>()
    ensures logs { AllIdsAreInTime P.State }
    ensures schedules { (setting : BothEnds P.State) → AllIdsAreNoWindow setting }
{}

/// A request that has arrived is in the window where, since its own first arrival, fewer other instance IDs of its
/// source had a first arrival than the window counts.
pub fn in_window_by_the_rule<P: Platform>()
    ensures { InWindowByTheRule P.State }
{}

/// Over a timely schedule an open request is fed the packets of its one reply and its busy answers alone,
/// each packet of an answer gives what is expected to it, and a request is answered exactly where it was
/// taken, by its one reply, which performing it exactly once gave.
pub fn requesters_take_the_one_reply<P: Platform>()
    ensures deliveries { (setting : BothEnds P.State) → OwnDeliveries setting }
    ensures assembly { (setting : BothEnds P.State) → OwnAssembly setting }
    ensures reply { (setting : BothEnds P.State) → ReplyIsExpected setting }
    ensures busy { (setting : BothEnds P.State) → BusyIsExpected setting }
    ensures answered { (setting : BothEnds P.State) → AnsweredWhereTaken setting }
    ensures once { (setting : BothEnds P.State) → TakenOnce setting }
    ensures performed { (setting : BothEnds P.State) → AnsweredWasPerformed setting }
{
    mctp_packet::laws::split_packets_read_back();
    pldm_wire::laws::messages_are_told_apart();
    pldm_requester::laws::one_open_on_each_tag();
    pldm_requester::laws::instance_ids_are_apart();
}

/// The headline at every pace that suits the device: a lifetime no longer than the keeping time, and a window no smaller
/// than the device's. Over a timely schedule what both ends do is the headline, also where an instance ID was used again
/// before twice the keeping time had passed.
pub fn headline_at_every_pace<P: Platform>()
    ensures { (setting : BothEnds P.State) → HeadlineAtEveryPace setting }
{
    mctp_packet::laws::split_packets_read_back();
    pldm_wire::laws::messages_are_told_apart();
    pldm_requester::laws::one_open_on_each_tag();
    pldm_requester::laws::instance_ids_are_apart();
}

/// Of a link whose two ends both answer and ask: where moments never go back over both directions, they do not in
/// either.
pub fn each_way_is_in_order()
    ensures { EachWayIsInOrder }
{}

/// Over a schedule that is timely in each direction, in each each answer that a requester took is the one reply of its
/// own request, which its peer performed exactly once.
pub fn each_way_takes_the_one_reply<P: Platform, Q: Platform>()
    ensures { EachWayTakesTheOneReply P.State Q.State }
{
    requesters_take_the_one_reply::<P>();
    requesters_take_the_one_reply::<Q>();
}

/// Over such a schedule the state of each end is that of performing once each the requests that arrived there.
pub fn each_way_performs_once<P: Platform, Q: Platform>()
    ensures { (near : Rules P.State) (far : Rules Q.State) → EachWayPerformsOnce near far }
{
    paced_logs_are_timely::<P>();
    paced_logs_are_timely::<Q>();
    performs_once::<P>();
    performs_once::<Q>();
}

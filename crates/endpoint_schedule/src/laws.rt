//! Laws of both ends, over the definitions alone: each function does nothing and ensures its law.

ghost use Rattle.endpoint_schedule.specs.OverTime.{BothEndsOverTime, LinksAreSchedules};
ghost use Rattle.endpoint_schedule.specs.EventLaws.{EventsOverSchedules};
ghost use Rattle.endpoint_schedule.specs.RecentDeliveries.{ComesWhileRecent};
ghost use Rattle.endpoint_schedule.specs.UpdatesOverLinks.{ImageOverLinks};
ghost use Rattle.endpoint_schedule.specs.UpdatesOverSchedules.{ImageOverSchedules};
ghost use Rattle.mctp_schedule.specs.Worlds.{BothEnds};

use pldm_platform::Platform;

/// In every timely run of requesters and an endpoint whose device answers when it likes and whatever it likes, or
/// never: what is handed out, as a command or, so made, as bytes, is, in order and once each, the requests that
/// arrived, each at its first arrival, but for those that are refused by their code; all that goes out to a request is
/// the one message made of what the device gave for that very request, or of the code that refuses it; and each answer
/// that a requester took is that message, of its own request. What a bound refuses counts as lost.
pub fn both_ends_over_time()
    ensures { BothEndsOverTime }
{
    mctp_packet::laws::bytes_spell_one_packet();
    mctp_packet::laws::reading_is_spelling();
    mctp_packet::laws::split_packets_read_back();
    mctp_assembly::laws::looks_back();
    pldm_wire::laws::messages_are_told_apart();
    pldm_requester::laws::one_open_on_each_tag();
    pldm_requester::laws::instance_ids_are_apart();
}

/// In every such run the requesters' calls and what happened on the link are those of a timely schedule of them and of
/// a device that answers at once with what this one gives for each number. So laws of schedules, as
/// [`images_are_offered`] and those of `mctp_schedule`, are laws of such runs.
pub fn links_are_schedules()
    ensures { LinksAreSchedules }
{
    mctp_packet::laws::bytes_spell_one_packet();
    mctp_packet::laws::reading_is_spelling();
    mctp_packet::laws::split_packets_read_back();
    mctp_assembly::laws::looks_back();
    pldm_wire::laws::messages_are_told_apart();
    pldm_requester::laws::one_open_on_each_tag();
    pldm_requester::laws::instance_ids_are_apart();
}

/// Over a timely schedule, at every pace that suits the device, a request is delivered before its instance ID is used
/// again: its requester opened at most 31 after it.
pub fn deliveries_are_recent<P: Platform>()
    ensures { (setting : BothEnds P.State) → ComesWhileRecent setting }
{
    mctp_schedule::laws::paced_logs_are_timely::<P>();
    pldm_requester::laws::instance_ids_are_apart();
    event_queue::laws::requests_come_before_their_ids_are_used();
}

/// Over a timely schedule of a device that keeps its events by the calls of an `EventQueue`, and of a requester that
/// asks for them as an `EventReceiver` says, each event is taken once and in order: what was posted is what was
/// dropped, and then what is in the queue; what was taken is what was dropped, or that and the queue's head.
///
/// The device's state is that of performing each request once, at its first arrival, which is the state of a
/// `Responder` (`mctp_schedule::laws::performs_once`); a restart leaves it. Nobody else asks for events.
pub fn events_over_schedules<P: Platform>()
    ensures { (setting : BothEnds P.State) → EventsOverSchedules setting }
{
    deliveries_are_recent::<P>();
    mctp_schedule::laws::paced_logs_are_timely::<P>();
    mctp_schedule::laws::requesters_take_the_one_reply::<P>();
    pldm_requester::laws::instance_ids_are_apart();
    event_queue::laws::events_once();
}

/// Over a timely schedule what a firmware device has its flash verify is its agent's file, byte for byte, where the
/// transfer began with the file's size (DSP0267): whatever is lost, repeated or reordered, where the agent's end
/// restarts, and where the device began anew before, with a requester that rested for twice the keeping time.
///
/// The device's machine asks for pieces by a requester of the schedule, and is told as the answer to a request what
/// that has as the answer to this very request. The agent's end hands such requests on; where it responds with SUCCESS
/// to one that arrives, it gives the piece of its file. That nothing is activated that was not verified and applied,
/// well, is `pldm_update::laws::flash_is_in_order`.
pub fn images_are_offered<P: Platform>()
    ensures { (setting : BothEnds P.State) → ImageOverSchedules setting }
{
    pldm_wire::laws::messages_are_told_apart();
    mctp_schedule::laws::requesters_take_the_one_reply::<P>();
    pldm_update::laws::verified_is_whole();
}

/// The same over a timely run of a link whose agent's end is an `Endpoint`, which gives its answers when it likes, and
/// in any order: what it gives with SUCCESS for a request for a piece that was handed out to it is the piece of its
/// file.
pub fn images_are_offered_over_time()
    ensures { ImageOverLinks }
{
    mctp_packet::laws::split_packets_read_back();
    pldm_wire::laws::messages_are_told_apart();
    pldm_requester::laws::one_open_on_each_tag();
    pldm_requester::laws::instance_ids_are_apart();
    both_ends_over_time();
    links_are_schedules();
    pldm_update::laws::verified_is_whole();
}

//! Laws of a responder, over the definitions alone: each function does nothing and ensures its law.

ghost use Rattle.pldm_responder.specs.Asked.{AnswerDecides, NoneIsAsked};
ghost use Rattle.pldm_responder.specs.Askings.{AskedApart, CommandsLookBack, SetsAfterBusyTime, TasksLookBack};
ghost use Rattle.pldm_responder.specs.Laws.{AllIdsAreNoWindow, AllIdsPerformAlike, AssignedLooksBack, BusyAnswersAreOnePacket, DropsWithoutEid, EndedLooksBack, KeptWhereFresh, NewLooksBack, OneCount, PutIsUpdated, ReceivedLooksBack, RestartedLooksBack, SameIsLeft, SensedLooksBack, UpdatedLooksBack};
ghost use Rattle.pldm_responder.specs.Performing.{rules_of};
ghost use Rattle.pldm_responder.specs.TheRule.{CopiesByTheRule, FreshPastTheWindow};

use pldm_platform::Platform;

/// What a responder holds after any list of calls, and what it answers then, is read by looking back
/// over the list.
pub fn looks_back<P: Platform>()
    ensures received { ReceivedLooksBack (rules_of P.answer P.after P.sensed) }
    ensures sensed { SensedLooksBack (rules_of P.answer P.after P.sensed) }
    ensures updated { UpdatedLooksBack (rules_of P.answer P.after P.sensed) }
    ensures put { PutIsUpdated P.state }
    ensures restarted { RestartedLooksBack (rules_of P.answer P.after P.sensed) }
    ensures assigned { AssignedLooksBack (rules_of P.answer P.after P.sensed) }
    ensures ended { EndedLooksBack (rules_of P.answer P.after P.sensed) }
    ensures new { NewLooksBack (rules_of P.answer P.after P.sensed) }
    ensures same { SameIsLeft (rules_of P.answer P.after P.sensed) }
    ensures kept { KeptWhereFresh (rules_of P.answer P.after P.sensed) }
{
    mctp_assembly::laws::looks_back();
}

/// The pairs of a source and an instance ID that pass a test are counted in one way only.
pub fn one_count()
    ensures { OneCount }
{}

/// The answer to a request while the responder is busy is one packet.
pub fn busy_answers_are_one_packet()
    ensures { BusyAnswersAreOnePacket }
{}

/// While it has no endpoint ID, each packet is dropped as one that is for nobody, and nothing is performed.
pub fn nothing_is_for_an_end_without_an_id<P: Platform>()
    ensures { DropsWithoutEid (rules_of P.answer P.after P.sensed) }
{}

/// Where bytes ask something of the platform, the platform's answer decides what they give and what they leave, and the
/// request is fresh. Where they ask nothing, no answer of the platform decides anything.
pub fn answers_come_from_outside<P: Platform>()
    ensures asked { AnswerDecides (rules_of P.answer P.after P.sensed) }
    ensures none { NoneIsAsked (rules_of P.answer P.after P.sensed) }
{}

/// With a window of all instance IDs none falls out: what is a copy, what is fresh, what is kept, performed and
/// answered is the same as where an answer is kept for each instance ID.
pub fn no_id_falls_out<P: Platform>()
    ensures same { AllIdsAreNoWindow P.State }
    ensures alike { AllIdsPerformAlike (rules_of P.answer P.after P.sensed) }
{}

/// A request is a copy exactly where it repeats the latest fresh one of its source and instance ID within the keeping
/// time, and since then fewer other instance IDs of that source had a fresh request than the window counts. Where that
/// many or more had one, it is performed or refused anew, whatever its source.
pub fn copies_by_the_rule<P: Platform>()
    ensures rule { CopiesByTheRule P.State }
    ensures past { FreshPastTheWindow P.State }
{}

/// Which commands the platform is asked to perform is read by looking back over the list of calls: those of the fresh
/// requests. Between two askings of one source, instance ID and bytes there is a keeping time, a restart, another fresh
/// request of that source and instance ID, or a window of others. A request that sets something is performed or refused
/// a keeping time after the last restart, whatever is served in the busy time; and so is one that is handed on as
/// bytes.
pub fn commands_are_asked_once<P: Platform>()
    ensures looks_back { CommandsLookBack (rules_of P.answer P.after P.sensed) }
    ensures tasks { TasksLookBack (rules_of P.answer P.after P.sensed) }
    ensures apart { AskedApart P.State }
    ensures settings { SetsAfterBusyTime P.State }
{
    mctp_assembly::laws::looks_back();
}

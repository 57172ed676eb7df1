//! Laws of an endpoint over any list of its calls: each function does nothing and ensures its law.

ghost use Rattle.pldm_endpoint.specs.Histories.{AnsweredInTurn, AssignedInTurn, NewInTurn, ReceivedInTurn, RefusedInTurn, RestartedInTurn, StepLooksBack, TwoStepsAreOne};
ghost use Rattle.pldm_endpoint.specs.RoundRobin.{NewInTurnIsFresh};
ghost use Rattle.pldm_endpoint.specs.Turns.{AnswersItsOrigin, CopiesAreAnsweredAgain, CountsAskings, IsAskedInTurn};

use pldm_platform::Platform;

/// After any list of calls an endpoint returns and holds what a responder would, by looking back over the list, if its
/// platform gave the answers that the device gave, each to the command that it was asked for. Only the answers to what
/// the device still performs are missing from what is held. Each law says of a call, by its contract, what it leaves.
pub fn answers_come_in_turn()
    ensures new { NewInTurn }
    ensures received { ReceivedInTurn }
    ensures returned { StepLooksBack }
    ensures answered { AnsweredInTurn }
    ensures restarted { RestartedInTurn }
    ensures assigned { AssignedInTurn }
    ensures refused { RefusedInTurn }
    ensures at_once { TwoStepsAreOne }
{
    mctp_assembly::laws::looks_back();
}

/// The answers go one to one with the askings: the device is asked the command of each fresh request, and each
/// asking has the number of those before it, since no call of an endpoint changes it from outside. What goes out is
/// the reply of the request that it was asked for. A copy is
/// answered with the answer that the device gave when its request was asked.
pub fn each_answer_is_to_its_asking()
    ensures asked { IsAskedInTurn }
    ensures counted { CountsAskings }
    ensures origin { AnswersItsOrigin }
    ensures copies { CopiesAreAnsweredAgain }
{
    mctp_assembly::laws::looks_back();
}

/// A requester that uses the instance IDs in turn, so that request number n has the instance ID n modulo 32, never gets
/// for a new request the answer to an earlier one with its instance ID, where at most 31 less the window of the 31
/// requests before it were lost: the new one is performed, or refused by its code, or refused in the busy time.
pub fn new_requests_in_turn_are_fresh<P: Platform>()
    ensures { NewInTurnIsFresh P.State }
{}

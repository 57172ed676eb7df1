//! What a responding end says of a message that is answered: whether it was performed now, and the answer's route.

ghost use Rattle.std.specs.Prelude.{◌≡◌, true, false};
ghost use Rattle.pldm_responder.specs.Answering.{outcome_on};
ghost use Rattle.pldm_responder.specs.declared.outcome.MessageOutcome.TheVariants.{Answered};

use crate::outcome::MessageOutcome;
use mctp_packet::Route;

/// What becomes of a message that is answered on this route and not performed.
pub fn not_performed(route: Route) -> MessageOutcome
    ensures { result ≡ Answered false false route }
{
    MessageOutcome::Answered {
        fresh: false,
        changed: false,
        route,
    }
}

/// What becomes of a message that is performed and answered on this route.
pub fn performed(changed: bool, route: Route) -> MessageOutcome
    ensures { result ≡ Answered true changed route }
{
    MessageOutcome::Answered {
        fresh: true,
        changed,
        route,
    }
}

/// What becomes of a message that is answered on this route: `changed` is `None` where it is not performed.
#[inline(always)]
pub(crate) fn outcome_on(route: Route, changed: Option<bool>) -> MessageOutcome
    ensures { result ≡ outcome_on route changed }
{
    match changed {
        None => not_performed(route),
        Some(changed) => performed(changed, route),
    }
}

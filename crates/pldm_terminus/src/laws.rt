//! Laws of an end that answers and asks, over the definitions alone: each function does nothing and ensures its law.

ghost use Rattle.pldm_terminus.specs.Laws.{ApartOverRestarts, AskingLooksBack, AsksNothing, BringsNoAnswer};

/// A packet of one direction means nothing to the half of the other: the requester would drop a packet with TO 1 and
/// the answering end one with TO 0, and hold what it held. So each half's laws hold of the packets that it saw, and of
/// all that came.
pub fn directions_are_apart()
    ensures asking { BringsNoAnswer }
    ensures answering { AsksNothing }
{}

/// What the requester of a terminus holds is what looking back over the calls that it saw says.
pub fn asking_looks_back()
    ensures { AskingLooksBack }
{
    pldm_requester::laws::looks_back();
}

/// Where each requester that begins anew opens nothing before twice the keeping time has passed, as
/// [`crate::Terminus::open`] sees to, two requests with one instance ID are apart over restarts too.
pub fn ids_are_apart_over_restarts()
    ensures { ApartOverRestarts }
{
    pldm_requester::laws::instance_ids_are_apart();
}

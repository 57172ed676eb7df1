//! Laws of a requester, over the definitions alone: each function does nothing and ensures its law.

ghost use Rattle.pldm_requester.specs.Laws.{OpenLooksBack, TickLooksBack, ReceiveLooksBack, NewLooksBack, SameIsLeft, OpenAreRecent, FewAreOpen, OpenAreOpened, OneOnEachTag, FoundOnItsTag, FedSinceItsOpening, BeginsWithNone, OpenedBefore, IdsApart, FreedEarly, SpreadOut, DefaultPaceGoesByTime};
ghost use Rattle.pldm_requester.specs.Processes.{IdsApartOverProcesses, PassedOn};
ghost use Rattle.pldm_requester.specs.Deadlines.{SleepMissesNothing};

/// What a requester holds after any list of calls, and what it answers then, is read by looking back
/// over the list.
pub fn looks_back()
    ensures open { OpenLooksBack }
    ensures tick { TickLooksBack }
    ensures receive { ReceiveLooksBack }
    ensures new { NewLooksBack }
    ensures same { SameIsLeft }
{
    mctp_assembly::laws::looks_back();
}

/// Only the last eight requests can be open, each on a tag of its own, and a packet of a tag comes to
/// the request that is open on it. It begins with no packets.
pub fn one_open_on_each_tag()
    ensures recent { OpenAreRecent }
    ensures few { FewAreOpen }
    ensures opened { OpenAreOpened }
    ensures one { OneOnEachTag }
    ensures found { FoundOnItsTag }
    ensures fed { FedSinceItsOpening }
    ensures begins { BeginsWithNone }
{}

/// Where moments never go back, requests with one instance ID are opened at least twice the lifetime apart. The next
/// one with it is opened less than twice the keeping time after only where as many as the window counts were answered
/// of those that were opened at least the lifetime after the first. Where requests are spread, no more than the stride
/// are opened in a lifetime.
pub fn instance_ids_are_apart()
    ensures before { OpenedBefore }
    ensures apart { IdsApart }
    ensures early { FreedEarly }
    ensures spread { SpreadOut }
{}

/// At the default pace the opening of the last request with an instance ID decides alone when the instance ID is free:
/// once twice the keeping time has passed.
pub fn default_pace_goes_by_time()
    ensures { DefaultPaceGoesByTime }
{}

/// So are they over the requesters of several processes, each of which goes on with the openings that those before it
/// left: what a requester leaves knows all that it was given and all that it opened.
#[tactic(auto, using(crate::proofs::Processes::ids_apart_over_processes, crate::proofs::Processes::passed_on))]
pub fn instance_ids_are_apart_over_processes()
    ensures apart { IdsApartOverProcesses }
    ensures passed_on { PassedOn }
{}

/// An end that sleeps until [`crate::Requester::next_deadline`] misses nothing: a tick before it may be left out. It
/// finds nothing due and changes no request, and the deadline stays the same.
pub fn sleep_misses_nothing()
    ensures { SleepMissesNothing }
{}

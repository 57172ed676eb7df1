//! The asking half of an end: its requester, while it has one, and when it may ask.

ghost use Rattle.std.specs.Prelude.{◌≡◌, ◌≤◌, None, IfOk, IfErr, IfSome, OnOk, OnErr, is_some, length, option_map, true};
ghost use Rattle.pldm_responder.specs.Ends.{eid_or_null};
ghost use Rattle.pldm_wire.specs.Commands.{IsCommand};
ghost use Rattle.pldm_wire.specs.declared.limits.TheConstants.{MAX_REQUEST_DATA};
ghost use Rattle.pldm_requester.specs.Asks.{ask_for};
ghost use Rattle.pldm_terminus.specs.Askings.{CameBefore, HasBegun, HasOpened, HasOpenedFor, HasTicked, IsBegunAt, IsGot, IsNextDeadline, IsNotGot, IsSameAsking, IsWhyNotOpened};

use arrayvec::ArrayVec;
use mctp_packet::{Eid, Memory, Moment, Reason};
use pldm_requester::{Due, Got, OpenFault, Opened, Pace, Requester, Timing};
use pldm_wire::{Command, Kind};
use std::alloc::Global;
use std::marker::Model;
use thiserror::Error;

/// Why a request was not opened.
#[derive(Clone, Copy, Debug, PartialEq, Eq, Error)]
pub enum AskFault {
    /// The end has no endpoint ID yet, or that of its peer.
    #[error("there is no endpoint ID to ask from")]
    NoEid,
    /// Twice the keeping time has not passed yet since the requester began: a request of before may still come.
    #[error("the requester began too short a time ago")]
    Resting,
    /// The requester did not open it.
    #[error("the request was not opened")]
    Open(OpenFault),
}

/// A requester to one peer that begins anew with each endpoint ID and at each restart.
#[derive(Drop)]
pub(crate) struct AskingHalf {
    alloc: Global,
    peer: Eid,
    timing: Timing,
    pace: Pace,
    requester: Option<Requester>,
    rest: u64,
}

impl Model for AskingHalf {
    ghost use Rattle.pldm_terminus.specs.Askings.{AskingView, coded_asking};

    ghost Value = { AskingView };

    ghost coded = { coded_asking };

    ghost view = { λ a. record {
      peer = a.peer;
      timing = a.timing;
      pace = a.pace;
      requester = a.requester;
      rest = a.rest;
    } };
}

/// A requester at this endpoint ID, where there is one that it can have.
fn begun(
    alloc: Global,
    own: Option<Eid>,
    peer: Eid,
    timing: &Timing,
    pace: &Pace,
) -> Option<Requester>
    ensures { IsBegunAt (eid_or_null own) peer timing.now pace.now result }
{
    match Requester::with_pace(alloc, own?, peer, *timing, *pace) {
        Ok(requester) => Some(requester),
        Err(_) => None,
    }
}

impl AskingHalf {
    /// A requester begins at this endpoint ID, and opens nothing before the moment `rest`.
    pub(crate) fn new(
        alloc: Global,
        own: Option<Eid>,
        peer: Eid,
        timing: Timing,
        pace: Pace,
        rest: Moment,
    ) -> AskingHalf
        ensures requester { IsBegunAt (eid_or_null own) peer timing pace result.requester }
        ensures peer { result.peer ≡ peer }
        ensures timing { result.timing ≡ timing }
        ensures pace { result.pace ≡ pace }
        ensures rest { result.rest ≡ rest }
    {
        let requester = begun(alloc, own, peer, &timing, &pace);
        AskingHalf {
            alloc,
            peer,
            timing,
            pace,
            requester,
            rest: rest.get(),
        }
    }

    /// The requester begins anew at this endpoint ID, and opens nothing until twice the keeping time has passed.
    pub(crate) fn begin(&mut self, own: Option<Eid>, now: Moment)
        ensures { HasBegun (eid_or_null own) now self.old self.new }
    {
        self.requester = begun(self.alloc, own, self.peer, &self.timing, &self.pace);
        self.rest = now.get() + 2 * u64::from(self.timing.keep.get());
    }

    /// Whether there is a requester.
    pub(crate) fn is_some(&self) -> bool
        ensures { result ≡ is_some self.now.requester }
    {
        self.requester.is_some()
    }

    /// The requester, where there is one.
    pub(crate) fn requester(&self) -> Option<&Requester>
        ensures { option_map (λ requester. requester.now) result ≡ self.now.requester }
    {
        self.requester.as_ref()
    }

    /// Takes the bytes of a packet, as [`Requester::receive`] does.
    pub(crate) fn receive(&mut self, now: Moment, bytes: &[u8]) -> Result<Got, Memory>
        requires { CameBefore self.old.requester now }
        ensures got { is_some self.old.requester ≡ true → IfOk result (IsGot self.old now bytes.now self.new) }
        ensures refused { OnErr result (IsNotGot self.old bytes.now self.new) }
    {
        match &mut self.requester {
            Some(requester) => requester.receive(now, bytes),
            None => Ok(Got::Dropped(Reason::BadTag)),
        }
    }

    /// Why nothing is opened now, whatever is asked.
    fn refusal(&self, now: Moment) -> Option<AskFault>
        ensures why { IfSome result (IsWhyNotOpened self.now now) }
        ensures rested { result ≡ None → self.now.rest ≤ now }
    {
        if self.requester.is_none() {
            return Some(AskFault::NoEid);
        }
        if now.get() < self.rest {
            return Some(AskFault::Resting);
        }
        None
    }

    /// Opens a request, as [`Requester::open`] does, where it may.
    pub(crate) fn open(&mut self, now: Moment, command: &Command) -> Result<Opened, AskFault>
        requires { CameBefore self.old.requester now }
        ensures rested { OnOk result (self.old.rest ≤ now) }
        ensures opened { IfOk result (HasOpened self.old now command.now self.new) }
        ensures why { IfErr result (IsWhyNotOpened self.old now) }
        ensures readable { OnOk result (IsCommand command.now) }
        ensures err { OnErr result (IsSameAsking self.old self.new) }
    {
        if let Some(fault) = self.refusal(now) {
            return Err(fault);
        }
        let Some(requester) = &mut self.requester else {
            return Err(AskFault::NoEid);
        };
        match requester.open(now, command) {
            Ok(opened) => Ok(opened),
            Err(fault) => Err(AskFault::Open(fault)),
        }
    }

    /// Opens a request of any PLDM type, as [`Requester::open_request`] does, where it may.
    pub(crate) fn open_request(
        &mut self,
        now: Moment,
        kind: Kind,
        data: &[u8],
    ) -> Result<Opened, AskFault>
        requires moment { CameBefore self.old.requester now }
        requires few { length data.now ≤ MAX_REQUEST_DATA }
        ensures rested { OnOk result (self.old.rest ≤ now) }
        ensures opened { IfOk result (HasOpenedFor self.old now (ask_for kind data.now) self.new) }
        ensures why { IfErr result (IsWhyNotOpened self.old now) }
        ensures err { OnErr result (IsSameAsking self.old self.new) }
    {
        if let Some(fault) = self.refusal(now) {
            return Err(fault);
        }
        let Some(requester) = &mut self.requester else {
            return Err(AskFault::NoEid);
        };
        match requester.open_request(now, kind, data) {
            Ok(opened) => Ok(opened),
            Err(fault) => Err(AskFault::Open(fault)),
        }
    }

    /// Says which requests are due, as [`Requester::tick`] does; none are where there is no requester.
    pub(crate) fn tick(&mut self, now: Moment) -> Due
        requires { CameBefore self.old.requester now }
        ensures { HasTicked self.old now self.new result.again.items result.given_up.items }
    {
        match &mut self.requester {
            Some(requester) => requester.tick(now),
            None => Due {
                again: ArrayVec::new(),
                given_up: ArrayVec::new(),
            },
        }
    }

    /// From which moment on a tick finds something due, as [`Requester::next_deadline`] says.
    pub(crate) fn next_deadline(&self) -> Option<Moment>
        ensures { IsNextDeadline self.now.requester result }
    {
        match &self.requester {
            Some(requester) => requester.next_deadline(),
            None => None,
        }
    }
}

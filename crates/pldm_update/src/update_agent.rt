//! The machine of an update agent: its own requests.

ghost use Rattle.std.specs.Prelude.{◌≡◌};
ghost use Rattle.pldm_update.specs.Agents.{answered, begun, cancelled, given_up, opened, passed_on, tried, wish};

use crate::{AgentRequest, AgentStage, DeviceReply, MAX_ATTEMPTS, RETRY_TIME};
use mctp_packet::Moment;
use std::marker::Model;

/// An update agent in one update of one device: it asks the device for each step in turn, and answers its requests for
/// the image. It has no input or output of its own: what is to be asked is [`UpdateAgent::wish`].
#[derive(Debug, Drop)]
pub struct UpdateAgent {
    pub(crate) stage: AgentStage,
    pub(crate) total: u16,
    pub(crate) asked: Option<u64>,
    pub(crate) attempts: u8,
    pub(crate) heard: Moment,
    pub(crate) rest: u64,
}

impl Model for UpdateAgent {
    ghost use Rattle.pldm_update.specs.Agents.{Agent, IsAgent, coded_agent};

    ghost Value = { Agent };

    ghost coded = { coded_agent };

    ghost view = { λ a. record {
      stage = a.stage;
      total = a.total;
      asked = a.asked;
      attempts = a.attempts;
      heard = a.heard;
      rest = a.rest;
    } };

    ghost invariant = { λ a. IsAgent (record {
      stage = a.stage;
      total = a.total;
      asked = a.asked;
      attempts = a.attempts;
      heard = a.heard;
      rest = a.rest;
    }) };
}

impl UpdateAgent {
    /// An agent that brings so many components, at least one, to a device. `None` for none.
    pub fn new(now: Moment, total: u16) -> Option<UpdateAgent>
        ensures { result ≡ begun now total }
    {
        if total == 0 {
            return None;
        }
        Some(UpdateAgent {
            stage: AgentStage::Requesting,
            total,
            asked: None,
            attempts: 0,
            heard: now,
            rest: 0,
        })
    }

    /// Where it is in the update.
    pub fn stage(&self) -> AgentStage
        ensures { result ≡ self.now.stage }
    {
        self.stage
    }

    /// What it asks of the device at the moment `now`; `None` while a request of it is open, for [`RETRY_TIME`] after the
    /// device had not come so far, and where the device has the next move. [`UpdateAgent::opened`] says that it was
    /// opened.
    pub fn wish(&self, now: Moment) -> Option<AgentRequest>
        ensures { result ≡ wish self.now now }
    {
        if self.asked.is_some() || now.get() < self.rest {
            return None;
        }
        match self.stage {
            AgentStage::Requesting => Some(AgentRequest::RequestUpdate),
            AgentStage::Passing(component) => Some(AgentRequest::PassComponent(component)),
            AgentStage::Offering(component) => Some(AgentRequest::UpdateComponent(component)),
            AgentStage::Activating => Some(AgentRequest::ActivateFirmware),
            AgentStage::Cancelling => Some(AgentRequest::CancelUpdate),
            _ => None,
        }
    }

    /// The request that [`UpdateAgent::wish`] returns at this moment was opened, under this number of its requester.
    /// Where nothing is wished for, nothing changes.
    pub fn opened(&mut self, number: u64, now: Moment)
        ensures { self.new ≡ opened self.old number now }
    {
        if self.wish(now).is_some() {
            self.asked = Some(number);
        }
    }

    /// The request with this number was answered so. Where the device had not come so far, the same is asked again, not
    /// before [`RETRY_TIME`] has passed; after [`MAX_ATTEMPTS`] tries in vain, and where it refuses, the update ends. An
    /// answer to any other request than the open one changes nothing.
    pub fn answered(&mut self, number: u64, now: Moment, reply: DeviceReply)
        ensures { self.new ≡ answered self.old number now reply }
    {
        if self.asked != Some(number) {
            return;
        }
        self.asked = None;
        self.heard = now;
        match reply {
            DeviceReply::Taken => self.go_on(),
            DeviceReply::NotYet => self.try_again(now.get() + RETRY_TIME),
            DeviceReply::Refused => self.cancel(),
        }
    }

    /// A request was answered in vain, or not at all. It is asked again, not before the moment `rest`.
    fn try_again(&mut self, rest: u64)
        ensures { self.new ≡ tried self.old rest }
    {
        if self.attempts < MAX_ATTEMPTS - 1 {
            self.attempts += 1;
            self.rest = rest;
        } else {
            self.cancel();
        }
    }

    /// What comes after an answer that was good.
    fn go_on(&mut self)
        ensures { self.new ≡ passed_on self.old }
    {
        self.attempts = 0;
        self.stage = match self.stage {
            AgentStage::Requesting => AgentStage::Passing(0),
            AgentStage::Passing(component) if self.total - component > 1 => {
                AgentStage::Passing(component + 1)
            }
            AgentStage::Passing(_) => AgentStage::Offering(0),
            AgentStage::Offering(component) => AgentStage::Serving(component),
            AgentStage::Activating => AgentStage::Over(true),
            AgentStage::Cancelling => AgentStage::Over(false),
            other => other,
        };
    }

    /// The update ends: the device is told so, where it has taken the update and not been told yet.
    pub(crate) fn cancel(&mut self)
        ensures { self.new ≡ cancelled self.old }
    {
        self.stage = match self.stage {
            AgentStage::Requesting | AgentStage::Cancelling => AgentStage::Over(false),
            AgentStage::Over(well) => AgentStage::Over(well),
            _ => AgentStage::Cancelling,
        };
        self.asked = None;
        self.attempts = 0;
    }

    /// The request with this number was given up by its requester. Where it is the open one, the same is asked again;
    /// after [`MAX_ATTEMPTS`] tries in vain the update ends. Any other changes nothing.
    pub fn gave_up(&mut self, number: u64)
        ensures { self.new ≡ given_up self.old number }
    {
        if self.asked != Some(number) {
            return;
        }
        self.asked = None;
        self.try_again(0);
    }
}

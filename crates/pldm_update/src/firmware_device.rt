//! The machine of a firmware device.

ghost use Rattle.std.specs.Prelude.{◌≡◌, ℕ, ◌<◌, if◌then◌else◌, option_map};
ghost use Rattle.pldm_update.specs.Machines.{first_machine, is_agent, next_number, piece_length, refusal, wish};

use crate::{
    COMMAND_NOT_EXPECTED, DeviceRequest, FlashAction, FlashStep, INVALID_STATE_FOR_COMMAND,
    NOT_IN_UPDATE_MODE, Stage, UpdateState,
};
use mctp_packet::{Eid, Moment};
use pldm_wire::Code;
use std::marker::Model;

/// The most bytes of a piece that the device asks for. This profile's own number.
pub const PIECE_BYTES: u32 = 256;

/// A firmware device in an update: it takes the commands of one update agent, asks it for the image piece by piece, and
/// hands each piece to the flash at its place. It has no input or output of its own: what the flash is to do is returned,
/// and what is to be asked is [`FirmwareDevice::wish`].
#[derive(Debug, Drop)]
pub struct FirmwareDevice {
    pub(crate) stage: Stage,
    pub(crate) previous: UpdateState,
    pub(crate) agent: Option<Eid>,
    pub(crate) total: u16,
    pub(crate) left: u16,
    pub(crate) most: u32,
    pub(crate) size: u32,
    pub(crate) stored: u32,
    pub(crate) is_applied: bool,
    pub(crate) asked: Option<u64>,
    pub(crate) attempts: u8,
    pub(crate) latest: u64,
    pub(crate) heard: Moment,
    pub(crate) rest: u64,
}

impl Model for FirmwareDevice {
    ghost use Rattle.pldm_update.specs.Machines.{Machine, IsMachine, coded_machine};

    ghost Value = { Machine };

    ghost coded = { coded_machine };

    ghost view = { λ d. record {
      stage = d.stage;
      previous = d.previous;
      agent = d.agent;
      total = d.total;
      left = d.left;
      most = d.most;
      size = d.size;
      stored = d.stored;
      is_applied = d.is_applied;
      asked = d.asked;
      attempts = d.attempts;
      latest = d.latest;
      heard = d.heard;
      rest = d.rest;
    } };

    ghost invariant = { λ d. IsMachine (record {
      stage = d.stage;
      previous = d.previous;
      agent = d.agent;
      total = d.total;
      left = d.left;
      most = d.most;
      size = d.size;
      stored = d.stored;
      is_applied = d.is_applied;
      asked = d.asked;
      attempts = d.attempts;
      latest = d.latest;
      heard = d.heard;
      rest = d.rest;
    }) };
}

impl FirmwareDevice {
    /// A device with no update under way, as it is after each restart. An image that was begun before and not activated
    /// counts for nothing; step numbers begin after `latest`, so that a report from before is not taken for a new one.
    pub fn new(latest: u64) -> FirmwareDevice
        ensures { result ≡ first_machine latest }
    {
        FirmwareDevice {
            stage: Stage::Idle,
            previous: UpdateState::Idle,
            agent: None,
            total: 0,
            left: 0,
            most: 0,
            size: 0,
            stored: 0,
            is_applied: false,
            asked: None,
            attempts: 0,
            latest,
            heard: Moment::new(0).unwrap(),
            rest: 0,
        }
    }

    /// Where it is in the update.
    pub fn stage(&self) -> Stage
        ensures { result ≡ self.now.stage }
    {
        self.stage
    }

    /// The state before the present one.
    pub fn previous(&self) -> UpdateState
        ensures { result ≡ self.now.previous }
    {
        self.previous
    }

    /// How many bytes of the image are stored.
    pub fn stored(&self) -> u32
        ensures { result ≡ self.now.stored }
    {
        self.stored
    }

    /// What it asks of the update agent at the moment `now`; `None` while a request of it is open, for [`RETRY_TIME`]
    /// after one that was not answered as it has to be, and where the agent or the flash has the next move.
    /// [`FirmwareDevice::opened`] says that it was opened.
    pub fn wish(&self, now: Moment) -> Option<DeviceRequest>
        ensures { result ≡ wish self.now now }
    {
        if self.asked.is_some() || now.get() < self.rest {
            return None;
        }
        match self.stage {
            Stage::Fetching => Some(DeviceRequest::Piece {
                offset: self.stored,
                length: self.piece_length(),
            }),
            Stage::Fetched => Some(DeviceRequest::TransferComplete(true)),
            Stage::Failed => Some(DeviceRequest::TransferComplete(false)),
            Stage::Verified(good) => Some(DeviceRequest::VerifyComplete(good)),
            Stage::Applied(done) => Some(DeviceRequest::ApplyComplete(done)),
            _ => None,
        }
    }

    /// The length of the next piece: the least of what the agent allows, what the device takes, and what is left.
    pub(crate) fn piece_length(&self) -> u32
        ensures { result ≡ piece_length self.now }
    {
        self.most.min(PIECE_BYTES).min(self.size - self.stored)
    }

    /// Why a command of this sender is refused, where it comes at a stage that fits it or not.
    pub(crate) fn refusal(&self, source: Eid, fits: bool) -> Option<Code>
        ensures { result ≡ refusal self.now source fits }
    {
        if self.stage == Stage::Idle {
            Code::new(NOT_IN_UPDATE_MODE)
        } else if self.agent != Some(source) {
            Code::new(COMMAND_NOT_EXPECTED)
        } else if !fits {
            Code::new(INVALID_STATE_FOR_COMMAND)
        } else {
            None
        }
    }

    /// Hands out a step of the flash.
    pub(crate) fn hand(&mut self, action: FlashAction) -> FlashStep
        ensures device { self.new ≡ record self.old { latest = next_number self.old.latest } }
        ensures number { result.number ≡ next_number self.old.latest }
        ensures action { result.action ≡ action }
    {
        self.latest = self.latest.wrapping_add(1);
        FlashStep {
            number: self.latest,
            action,
        }
    }
}

//! Answers to the device's own requests, reports of the flash, and time.

ghost use Rattle.std.specs.Prelude.{◌≡◌, ◌+◌, ◌≤◌, IfSome, Some, length, option_map};
ghost use Rattle.pldm_update.specs.DeviceAnswers.{answered, answered_at, done, given_up, given_up_transfer, kept, opened, taken_piece, ticked, tried, went_on};
ghost use Rattle.pldm_update.specs.Machines.{IsNumbered, bytes_at};

use crate::{FirmwareDevice, FlashAction, FlashStep, IDLE_TIME, MAX_ATTEMPTS, RETRY_TIME, Stage};
use mctp_packet::Moment;
use pldm_wire::SUCCESS;

impl FirmwareDevice {
    /// The request that [`FirmwareDevice::wish`] returns at this moment was opened, under this number of its requester.
    /// Where nothing is wished for, nothing changes.
    pub fn opened(&mut self, number: u64, now: Moment)
        ensures { self.new ≡ opened self.old number now }
    {
        if self.wish(now).is_some() {
            self.asked = Some(number);
        }
    }

    /// The request with this number was answered, by this completion code and these bytes of data. Returns the step of
    /// the flash that comes of it; the bytes of a piece that is to be stored are just these.
    ///
    /// An answer to any other request than the open one changes nothing. A piece of another length, and a code other
    /// than SUCCESS, is a try in vain: after [`MAX_ATTEMPTS`] of them the transfer is given up.
    pub fn answered(&mut self, number: u64, now: Moment, code: u8, data: &[u8]) -> Option<FlashStep>
        ensures device { self.new ≡ (answered self.old number now code (length data.now)).machine }
        ensures action { option_map (λ step. step.action) result
            ≡ (answered self.old number now code (length data.now)).action }
        ensures number { IfSome result (IsNumbered self.new) }
    {
        if self.asked != Some(number) {
            return None;
        }
        self.asked = None;
        self.heard = now;
        self.take(code, data)
    }

    /// What an answer to the request that was open brings.
    fn take(&mut self, code: u8, data: &[u8]) -> Option<FlashStep>
        ensures device { self.new ≡ (answered_at self.old.stage self.old code (length data.now)).machine }
        ensures action { option_map (λ step. step.action) result
            ≡ (answered_at self.old.stage self.old code (length data.now)).action }
        ensures number { IfSome result (IsNumbered self.new) }
    {
        let is_success = code == SUCCESS;
        match self.stage {
            Stage::Fetching => self.take_piece(is_success, data),
            Stage::Fetched if is_success => self.go_on(Stage::Verifying, FlashAction::Verify),
            Stage::Verified(true) if is_success => self.go_on(Stage::Applying, FlashAction::Apply),
            Stage::Failed | Stage::Verified(false) => self.give_up_transfer(),
            Stage::Applied(done) if is_success => {
                self.settle(Stage::Ready);
                self.is_applied = self.is_applied || done;
                None
            }
            Stage::Fetched | Stage::Verified(true) | Stage::Applied(_) => {
                self.try_again(self.heard.get() + RETRY_TIME)
            }
            _ => None,
        }
    }

    /// What the answer to the request for a piece brings: its bytes are stored at the offset that was asked for.
    fn take_piece(&mut self, is_success: bool, data: &[u8]) -> Option<FlashStep>
        ensures device { self.new ≡ (taken_piece self.old is_success (length data.now)).machine }
        ensures action { option_map (λ step. step.action) result
            ≡ (taken_piece self.old is_success (length data.now)).action }
        ensures number { IfSome result (IsNumbered self.new) }
    {
        let length = self.piece_length();
        if !is_success || data.len() != length as usize {
            return self.try_again(self.heard.get() + RETRY_TIME);
        }
        self.stage = Stage::Storing(length);
        Some(self.hand(FlashAction::Store {
            offset: self.stored,
        }))
    }

    /// The flash has to do the next thing.
    fn go_on(&mut self, stage: Stage, action: FlashAction) -> Option<FlashStep>
        requires { bytes_at stage ≡ 0 }
        ensures device { self.new ≡ went_on self.old stage }
        ensures action { option_map (λ step. step.action) result ≡ Some action }
        ensures number { IfSome result (IsNumbered self.new) }
    {
        self.previous = self.stage.state();
        self.stage = stage;
        self.attempts = 0;
        Some(self.hand(action))
    }

    /// The transfer is over: the image is forgotten.
    fn give_up_transfer(&mut self) -> Option<FlashStep>
        ensures device { self.new ≡ (given_up_transfer self.old).machine }
        ensures action { option_map (λ step. step.action) result ≡ (given_up_transfer self.old).action }
        ensures number { IfSome result (IsNumbered self.new) }
    {
        self.settle(Stage::Ready);
        Some(self.hand(FlashAction::Abandon))
    }

    /// A request was not answered as it has to be. It is asked again, not before the moment `rest`.
    fn try_again(&mut self, rest: u64) -> Option<FlashStep>
        ensures device { self.new ≡ (tried self.old rest).machine }
        ensures action { option_map (λ step. step.action) result ≡ (tried self.old rest).action }
        ensures number { IfSome result (IsNumbered self.new) }
    {
        if self.attempts < MAX_ATTEMPTS - 1 {
            self.attempts += 1;
            self.rest = rest;
            return None;
        }
        self.give_up_transfer()
    }

    /// The request with this number was given up by its requester. Where it is the open one, the same is asked again;
    /// after [`MAX_ATTEMPTS`] tries in vain the transfer is given up. Any other changes nothing.
    pub fn gave_up(&mut self, number: u64) -> Option<FlashStep>
        ensures device { self.new ≡ (given_up self.old number).machine }
        ensures action { option_map (λ step. step.action) result ≡ (given_up self.old number).action }
        ensures number { IfSome result (IsNumbered self.new) }
    {
        if self.asked != Some(number) {
            return None;
        }
        self.asked = None;
        self.try_again(0)
    }

    /// The flash is done with the step of this number, well or not. A report of any step but the last one changes
    /// nothing.
    pub fn done(&mut self, number: u64, well: bool)
        ensures { self.new ≡ done self.old number well }
    {
        if number != self.latest {
            return;
        }
        match self.stage {
            Stage::Beginning if well => self.stage = Stage::Fetching,
            Stage::Storing(bytes) if well => self.keep(bytes),
            Stage::Beginning | Stage::Storing(_) => self.stage = Stage::Failed,
            Stage::Verifying => self.stage = Stage::Verified(well),
            Stage::Applying => self.stage = Stage::Applied(well),
            Stage::Activating => self.close(),
            _ => {}
        }
    }

    /// A piece of so many bytes is stored.
    fn keep(&mut self, bytes: u32)
        requires { self.old.stored + bytes ≤ self.old.size }
        ensures { self.new ≡ kept self.old bytes }
    {
        self.stored += bytes;
        self.attempts = 0;
        self.stage = if self.stored == self.size {
            Stage::Fetched
        } else {
            Stage::Fetching
        };
    }

    /// Time passes: where the agent has the next move and was not heard for [`IDLE_TIME`], the update ends, and all that
    /// is not active is forgotten.
    pub fn tick(&mut self, now: Moment) -> Option<FlashStep>
        ensures device { self.new ≡ (ticked self.old now).machine }
        ensures action { option_map (λ step. step.action) result ≡ (ticked self.old now).action }
        ensures number { IfSome result (IsNumbered self.new) }
    {
        let is_between = matches!(self.stage, Stage::Learning | Stage::Ready);
        if !is_between || now.get() < self.heard.get() + IDLE_TIME {
            return None;
        }
        self.close();
        Some(self.hand(FlashAction::AbandonUpdate))
    }
}

//! The requests of the device, and time.

ghost use Rattle.std.specs.Prelude.{◌≡◌, IfErr, None, Ok, OnErr, OnOk, Some};
ghost use Rattle.pldm_update.specs.Agents.{IsOfUpdate};
ghost use Rattle.pldm_update.specs.DeviceRequests.{applied, apply_fault, fetch_fault, heard_at, reported, ticked, transfer_fault, transferred, verified, verify_fault};

use crate::{
    AgentStage, COMMAND_NOT_EXPECTED, DATA_OUT_OF_RANGE, INVALID_TRANSFER_LENGTH, SILENCE,
    UpdateAgent,
};
use mctp_packet::Moment;
use pldm_wire::Code;

impl UpdateAgent {
    /// RequestFirmwareData: the device asks for so many bytes of an image of `size` bytes, `most` at a time. Where it
    /// gets them, they are those of [`piece_of`](crate::piece_of).
    ///
    /// # Errors
    ///
    /// COMMAND_NOT_EXPECTED where the device does not fetch an image; else INVALID_TRANSFER_LENGTH for no bytes or more
    /// than `most`; else DATA_OUT_OF_RANGE where they end more than `most` bytes behind the image (own). The agent is
    /// then as before.
    pub fn fetch(
        &mut self,
        now: Moment,
        size: u32,
        most: u32,
        offset: u32,
        length: u32,
    ) -> Result<(), Code>
        ensures agent { OnOk result (self.new ≡ heard_at self.old now) }
        ensures ok { OnOk result (fetch_fault self.old size most offset length ≡ None) }
        ensures fault { IfErr result (λ code. fetch_fault self.old size most offset length ≡ Some code) }
        ensures err { OnErr result (self.new ≡ self.old) }
    {
        if !matches!(self.stage, AgentStage::Serving(_)) {
            return Err(Code::new(COMMAND_NOT_EXPECTED).unwrap());
        }
        if length == 0 || most < length {
            return Err(Code::new(INVALID_TRANSFER_LENGTH).unwrap());
        }
        if u64::from(size) + u64::from(most) < u64::from(offset) + u64::from(length) {
            return Err(Code::new(DATA_OUT_OF_RANGE).unwrap());
        }
        self.heard = now;
        Ok(())
    }

    /// TransferComplete: the device has stored the whole image, or not. Where it has not, the update ends. Said again, it
    /// changes nothing.
    ///
    /// # Errors
    ///
    /// COMMAND_NOT_EXPECTED where the device neither fetches nor verifies an image. The agent is then as before.
    pub fn transfer_complete(&mut self, now: Moment, well: bool) -> Result<(), Code>
        ensures agent { OnOk result (self.new ≡ transferred self.old now well) }
        ensures ok { OnOk result (transfer_fault self.old ≡ None) }
        ensures fault { IfErr result (λ code. transfer_fault self.old ≡ Some code) }
        ensures err { OnErr result (self.new ≡ self.old) }
    {
        match self.stage {
            AgentStage::Serving(component) => {
                self.report(now, well, AgentStage::Verifying(component))
            }
            AgentStage::Verifying(_) => {
                self.heard = now;
                Ok(())
            }
            _ => Err(Code::new(COMMAND_NOT_EXPECTED).unwrap()),
        }
    }

    /// VerifyComplete: the image is good, or not. Where it is not, the update ends. Said again, it changes nothing.
    ///
    /// # Errors
    ///
    /// COMMAND_NOT_EXPECTED where the device neither verifies nor applies an image. The agent is then as before.
    pub fn verify_complete(&mut self, now: Moment, well: bool) -> Result<(), Code>
        ensures agent { OnOk result (self.new ≡ verified self.old now well) }
        ensures ok { OnOk result (verify_fault self.old ≡ None) }
        ensures fault { IfErr result (λ code. verify_fault self.old ≡ Some code) }
        ensures err { OnErr result (self.new ≡ self.old) }
    {
        match self.stage {
            AgentStage::Verifying(component) => {
                self.report(now, well, AgentStage::Applying(component))
            }
            AgentStage::Applying(_) => {
                self.heard = now;
                Ok(())
            }
            _ => Err(Code::new(COMMAND_NOT_EXPECTED).unwrap()),
        }
    }

    /// ApplyComplete: the image was applied, or not. Where it was not, the update ends; else the next component comes, and
    /// after the last one the activation. Said again, it changes nothing.
    ///
    /// # Errors
    ///
    /// COMMAND_NOT_EXPECTED where the device does not apply an image, and has not just said that it did. The agent is then
    /// as before.
    pub fn apply_complete(&mut self, now: Moment, well: bool) -> Result<(), Code>
        ensures agent { OnOk result (self.new ≡ applied self.old now well) }
        ensures ok { OnOk result (apply_fault self.old ≡ None) }
        ensures fault { IfErr result (λ code. apply_fault self.old ≡ Some code) }
        ensures err { OnErr result (self.new ≡ self.old) }
    {
        match self.stage {
            AgentStage::Applying(component) if self.total - component > 1 => {
                self.report(now, well, AgentStage::Offering(component + 1))
            }
            AgentStage::Applying(_) => self.report(now, well, AgentStage::Activating),
            AgentStage::Offering(component) if component > 0 => {
                self.heard = now;
                Ok(())
            }
            AgentStage::Activating => {
                self.heard = now;
                Ok(())
            }
            _ => Err(Code::new(COMMAND_NOT_EXPECTED).unwrap()),
        }
    }

    /// The device has done what it was to do, or not.
    fn report(&mut self, now: Moment, well: bool, next: AgentStage) -> Result<(), Code>
        requires { IsOfUpdate next self.old.total }
        ensures agent { self.new ≡ reported self.old now well next }
        ensures result { result ≡ Ok tt }
    {
        self.heard = now;
        if well {
            self.stage = next;
        } else {
            self.cancel();
        }
        Ok(())
    }

    /// Time passes: where the device fetches, verifies or applies and was not heard for [`SILENCE`], the update ends.
    pub fn tick(&mut self, now: Moment)
        ensures { self.new ≡ ticked self.old now }
    {
        let is_awaited = matches!(
            self.stage,
            AgentStage::Serving(_) | AgentStage::Verifying(_) | AgentStage::Applying(_)
        );
        if is_awaited && self.heard.get() + SILENCE <= now.get() {
            self.cancel();
        }
    }
}

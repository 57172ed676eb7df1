//! The commands of the update agent.

ghost use Rattle.std.specs.Prelude.{◌≡◌, IfErr, IfOk, None, OnErr, OnOk, Some, option_map};
ghost use Rattle.pldm_update.specs.DeviceCommands.{activating, activation_fault, begun, between, cancel_component_fault, cancel_update_fault, closed, component_cancelled, pass_fault, passed, part_due, size_fault, transfer_fault, transferring, update_cancelled, update_fault};
ghost use Rattle.pldm_update.specs.Machines.{IsStep, bytes_at};
ghost use Rattle.pldm_update.specs.TableParts.{part_number};
ghost use Rattle.pldm_update.specs.declared.flash.FlashAction.TheVariants.{Abandon, AbandonUpdate, Activate, Begin};

use crate::{
    ALREADY_IN_UPDATE_MODE, DATA_OUT_OF_RANGE, FirmwareDevice, FlashAction, FlashStep,
    INCOMPLETE_UPDATE, INVALID_TRANSFER_LENGTH, MIN_TRANSFER_BYTES, Stage, TablePart,
};
use mctp_packet::{Eid, Moment};
use pldm_wire::Code;

impl FirmwareDevice {
    /// RequestUpdate: an update of so many components begins, and this sender is its agent. A piece has at most `most`
    /// bytes.
    ///
    /// # Errors
    ///
    /// ALREADY_IN_UPDATE_MODE; else INVALID_TRANSFER_LENGTH for fewer than 32 bytes; else ERROR_INVALID_DATA for no
    /// component (own). The device is then as before.
    pub fn request_update(
        &mut self,
        source: Eid,
        now: Moment,
        most: u32,
        total: u16,
    ) -> Result<(), Code>
        ensures device { OnOk result (self.new ≡ begun self.old source now most total) }
        ensures ok { OnOk result (update_fault self.old most total ≡ None) }
        ensures fault { IfErr result (λ code. update_fault self.old most total ≡ Some code) }
        ensures err { OnErr result (self.new ≡ self.old) }
    {
        if let Some(code) = self.update_fault(most, total) {
            return Err(code);
        }
        self.settle(Stage::Learning);
        self.agent = Some(source);
        self.total = total;
        self.left = total;
        self.most = most;
        self.is_applied = false;
        self.heard = now;
        Ok(())
    }

    /// Why no update begins.
    fn update_fault(&self, most: u32, total: u16) -> Option<Code>
        ensures { result ≡ update_fault self.now most total }
    {
        if self.stage != Stage::Idle {
            Code::new(ALREADY_IN_UPDATE_MODE)
        } else if most < MIN_TRANSFER_BYTES {
            Code::new(INVALID_TRANSFER_LENGTH)
        } else if total == 0 {
            Some(Code::ERROR_INVALID_DATA)
        } else {
            None
        }
    }

    /// PassComponentTable: one more component of the update. After the last one, components may be transferred.
    ///
    /// # Errors
    ///
    /// As of [`FirmwareDevice::update_component`], where the table is not being passed; else ERROR_INVALID_DATA where
    /// another part of the table is due (own). The device is then as before.
    pub fn pass_component(&mut self, source: Eid, now: Moment, part: TablePart) -> Result<(), Code>
        ensures device { OnOk result (self.new ≡ passed self.old now) }
        ensures ok { OnOk result (pass_fault self.old source (part_number part) ≡ None) }
        ensures fault { IfErr result (λ code. pass_fault self.old source (part_number part) ≡ Some code) }
        ensures err { OnErr result (self.new ≡ self.old) }
    {
        if let Some(code) = self.refusal(source, self.stage == Stage::Learning) {
            return Err(code);
        }
        if part.number() != self.part_due() {
            return Err(Code::ERROR_INVALID_DATA);
        }
        if self.left == 1 {
            self.previous = self.stage.state();
            self.stage = Stage::Ready;
        }
        self.left = self.left.saturating_sub(1);
        self.heard = now;
        Ok(())
    }

    /// The number of the part of the table that comes next.
    fn part_due(&self) -> u8
        ensures { result ≡ part_due self.now }
    {
        match (self.left == self.total, self.left == 1) {
            (true, true) => 5,
            (true, false) => 1,
            (false, true) => 4,
            (false, false) => 2,
        }
    }

    /// UpdateComponent: the transfer of a component's image begins, which has so many bytes. `room` is the most bytes
    /// that its image may have, `None` where the device has no such component. The flash makes room for it.
    ///
    /// # Errors
    ///
    /// NOT_IN_UPDATE_MODE; else COMMAND_NOT_EXPECTED where another endpoint is the update's agent; else
    /// INVALID_STATE_FOR_COMMAND; else ERROR_INVALID_DATA without such a component, and DATA_OUT_OF_RANGE for 0 bytes
    /// or more than there is room for (own). The device is then as before.
    pub fn update_component(
        &mut self,
        source: Eid,
        now: Moment,
        size: u32,
        room: Option<u32>,
    ) -> Result<FlashStep, Code>
        ensures step { IfOk result (IsStep self.new (Begin size)) }
        ensures device { OnOk result (self.new ≡ transferring self.old now size) }
        ensures ok { OnOk result (transfer_fault self.old source room size ≡ None) }
        ensures fault { IfErr result (λ code. transfer_fault self.old source room size ≡ Some code) }
        ensures err { OnErr result (self.new ≡ self.old) }
    {
        if let Some(code) = self.refusal(source, self.stage == Stage::Ready) {
            return Err(code);
        }
        if let Some(code) = size_fault(room, size) {
            return Err(code);
        }
        self.settle(Stage::Beginning);
        self.size = size;
        self.heard = now;
        Ok(self.hand(FlashAction::Begin { size }))
    }

    /// ActivateFirmware: what was applied is to be active.
    ///
    /// # Errors
    ///
    /// As of [`FirmwareDevice::update_component`]; else INCOMPLETE_UPDATE where no component was applied. The device is
    /// then as before.
    pub fn activate_firmware(&mut self, source: Eid, now: Moment) -> Result<FlashStep, Code>
        ensures step { IfOk result (IsStep self.new Activate) }
        ensures device { OnOk result (self.new ≡ activating self.old now) }
        ensures ok { OnOk result (activation_fault self.old source ≡ None) }
        ensures fault { IfErr result (λ code. activation_fault self.old source ≡ Some code) }
        ensures err { OnErr result (self.new ≡ self.old) }
    {
        if let Some(code) = self.refusal(source, self.stage == Stage::Ready) {
            return Err(code);
        }
        if !self.is_applied {
            return Err(Code::new(INCOMPLETE_UPDATE).unwrap());
        }
        self.previous = self.stage.state();
        self.stage = Stage::Activating;
        self.is_applied = false;
        self.heard = now;
        Ok(self.hand(FlashAction::Activate))
    }

    /// CancelUpdateComponent: the transfer of the component ends, and its image is forgotten.
    ///
    /// # Errors
    ///
    /// As of [`FirmwareDevice::update_component`], where no component is transferred, verified or applied. The device is
    /// then as before.
    pub fn cancel_component(&mut self, source: Eid, now: Moment) -> Result<FlashStep, Code>
        ensures step { IfOk result (IsStep self.new Abandon) }
        ensures device { OnOk result (self.new ≡ component_cancelled self.old now) }
        ensures ok { OnOk result (cancel_component_fault self.old source ≡ None) }
        ensures fault { IfErr result (λ code. cancel_component_fault self.old source ≡ Some code) }
        ensures err { OnErr result (self.new ≡ self.old) }
    {
        if let Some(code) = self.refusal(source, self.stage.is_in_transfer()) {
            return Err(code);
        }
        self.settle(Stage::Ready);
        self.heard = now;
        Ok(self.hand(FlashAction::Abandon))
    }

    /// CancelUpdate: the update ends, and all that is not active is forgotten.
    ///
    /// # Errors
    ///
    /// As of [`FirmwareDevice::update_component`], where the flash activates what was applied. The device is then as
    /// before.
    pub fn cancel_update(&mut self, source: Eid) -> Result<FlashStep, Code>
        ensures step { IfOk result (IsStep self.new AbandonUpdate) }
        ensures device { OnOk result (self.new ≡ update_cancelled self.old) }
        ensures ok { OnOk result (cancel_update_fault self.old source ≡ None) }
        ensures fault { IfErr result (λ code. cancel_update_fault self.old source ≡ Some code) }
        ensures err { OnErr result (self.new ≡ self.old) }
    {
        if let Some(code) = self.refusal(source, self.stage != Stage::Activating) {
            return Err(code);
        }
        self.close();
        Ok(self.hand(FlashAction::AbandonUpdate))
    }

    /// Nothing is transferred any more, and no request is open.
    pub(crate) fn settle(&mut self, stage: Stage)
        requires { bytes_at stage ≡ 0 }
        ensures { self.new ≡ between stage self.old }
    {
        self.previous = self.stage.state();
        self.stage = stage;
        self.size = 0;
        self.stored = 0;
        self.asked = None;
        self.attempts = 0;
    }

    /// The update is over.
    pub(crate) fn close(&mut self)
        ensures { self.new ≡ closed self.old }
    {
        self.settle(Stage::Idle);
        self.agent = None;
        self.is_applied = false;
    }
}

/// Why an image of this size is not taken.
fn size_fault(room: Option<u32>, size: u32) -> Option<Code>
    ensures { result ≡ size_fault room size }
{
    match room {
        None => Some(Code::ERROR_INVALID_DATA),
        Some(room) if size == 0 || room < size => Code::new(DATA_OUT_OF_RANGE),
        Some(_) => None,
    }
}

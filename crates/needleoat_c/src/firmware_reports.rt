//! What the calls on a firmware device's machine return to C.

ghost use Rattle.std.specs.Prelude.{◌≡◌};
ghost use Rattle.needleoat_c.specs.Firmware.{AnswerFields, no_step, plain_step, step_of};

use crate::kinds::{
    FLASH_ABANDON, FLASH_ABANDON_UPDATE, FLASH_ACTIVATE, FLASH_APPLY, FLASH_BEGIN, FLASH_NONE,
    FLASH_STORE, FLASH_VERIFY,
};
use pldm_update::{FlashAction, FlashStep, MAX_UPDATE_DATA, UpdateAnswer, update_answer_data};

/// A step of the flash, or none.
#[repr(C)]
#[derive(Drop)]
pub struct FlashReport {
    /// Its number, by which it is reported as done.
    pub number: u64,
    /// Of `FLASH_BEGIN`: the image's size in bytes, else 0.
    pub size: u32,
    /// Of `FLASH_STORE`: where in the image the bytes begin, else 0.
    pub offset: u32,
    /// 0, or why the call was refused. Then there is no step.
    pub refusal: u8,
    /// One of the kinds `FLASH_*`.
    pub action: u8,
}

// As in `include/needleoat.h`.
const _: () = prove!(size_of::<FlashReport>() == 24);

impl FlashReport {
    /// No step.
    pub(crate) fn none(refusal: u8) -> FlashReport
        ensures { result ≡ no_step refusal }
    {
        FlashReport {
            number: 0,
            size: 0,
            offset: 0,
            refusal,
            action: FLASH_NONE,
        }
    }

    /// A step with no field of its own.
    fn plain(number: u64, action: u8) -> FlashReport
        ensures { result ≡ plain_step number action }
    {
        FlashReport {
            number,
            size: 0,
            offset: 0,
            refusal: 0,
            action,
        }
    }

    /// This step.
    pub(crate) fn of(step: FlashStep) -> FlashReport
        ensures { result ≡ step_of step.number step.action }
    {
        match step.action {
            FlashAction::Begin { size } => FlashReport {
                size,
                ..FlashReport::plain(step.number, FLASH_BEGIN)
            },
            FlashAction::Store { offset } => FlashReport {
                offset,
                ..FlashReport::plain(step.number, FLASH_STORE)
            },
            FlashAction::Verify => FlashReport::plain(step.number, FLASH_VERIFY),
            FlashAction::Apply => FlashReport::plain(step.number, FLASH_APPLY),
            FlashAction::Activate => FlashReport::plain(step.number, FLASH_ACTIVATE),
            FlashAction::Abandon => FlashReport::plain(step.number, FLASH_ABANDON),
            FlashAction::AbandonUpdate => FlashReport::plain(step.number, FLASH_ABANDON_UPDATE),
        }
    }
}

/// Which component of a device is meant.
#[repr(C)]
#[derive(Drop)]
pub struct ComponentFields {
    /// Its classification.
    pub classification: u16,
    /// Its identifier, which the vendor chooses.
    pub identifier: u16,
    /// Which of several components with this classification and identifier it is.
    pub index: u8,
}

// As in `include/needleoat.h`.
const _: () = prove!(size_of::<ComponentFields>() == 6);

/// The answer to a command of firmware update.
#[repr(C)]
#[derive(Drop)]
pub struct FirmwareAnswer {
    /// Its completion code.
    pub code: u8,
    /// How many bytes of data follow the code, at most [`MAX_UPDATE_DATA`].
    pub length: u32,
    /// Its data: the first of these.
    pub data: [u8; MAX_UPDATE_DATA],
}

// As in `include/needleoat.h`.
const _: () = prove!(size_of::<FirmwareAnswer>() == 324);

impl FirmwareAnswer {
    /// Takes the completion code and the data of this answer. What follows the data is as it was.
    pub(crate) fn set(&mut self, answer: &UpdateAnswer)
        ensures { AnswerFields answer.now self.old self.new }
    {
        let data = update_answer_data(answer);
        self.code = answer.code();
        self.length = data.len() as u32;
        self.data[..data.len()].copy_from_slice(&data);
    }
}

/// Where a firmware device is in an update.
#[repr(C)]
#[derive(Drop)]
pub struct StageReport {
    /// One of the kinds `UPDATE_*`.
    pub stage: u8,
    /// How many bytes of the image are stored.
    pub stored: u32,
}

// As in `include/needleoat.h`.
const _: () = prove!(size_of::<StageReport>() == 8);

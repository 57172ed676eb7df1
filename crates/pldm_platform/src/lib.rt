//! The platform behind a PLDM terminus: the trait that a device is put behind, and its refusals.
#![tactic(auto)]

mod platform;
mod refusals;

pub use platform::{Platform, ReadingFault};
pub use refusals::{
    INVALID_DATA_TRANSFER_HANDLE, INVALID_EFFECTER_ID, INVALID_PLDM_TYPE, INVALID_RECORD_HANDLE,
    INVALID_SENSOR_ID, INVALID_STATE_VALUE, INVALID_TRANSFER_OPERATION, code, refused,
};

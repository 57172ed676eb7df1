//! Numbers that DSP0267 assigns.

/// The PLDM type of firmware update (DSP0245, "PLDM Type codes").
pub const FIRMWARE_UPDATE: u8 = 5;

/// QueryDeviceIdentifiers: what identifies the firmware device.
pub const QUERY_DEVICE_IDENTIFIERS: u8 = 0x01;
/// GetFirmwareParameters: the firmware that the device has.
pub const GET_FIRMWARE_PARAMETERS: u8 = 0x02;
/// RequestUpdate: an update begins.
pub const REQUEST_UPDATE: u8 = 0x10;
/// PassComponentTable: a component of the update.
pub const PASS_COMPONENT_TABLE: u8 = 0x13;
/// UpdateComponent: the transfer of a component begins.
pub const UPDATE_COMPONENT: u8 = 0x14;
/// RequestFirmwareData: the device asks for a piece of the image.
pub const REQUEST_FIRMWARE_DATA: u8 = 0x15;
/// TransferComplete: the device has the whole image, or gives up.
pub const TRANSFER_COMPLETE: u8 = 0x16;
/// VerifyComplete: the device has verified the image.
pub const VERIFY_COMPLETE: u8 = 0x17;
/// ApplyComplete: the device has applied the image.
pub const APPLY_COMPLETE: u8 = 0x18;
/// ActivateFirmware: the applied images are to be used.
pub const ACTIVATE_FIRMWARE: u8 = 0x1A;
/// GetStatus: the state of the device.
pub const GET_STATUS: u8 = 0x1B;
/// CancelUpdateComponent: the transfer of a component ends.
pub const CANCEL_UPDATE_COMPONENT: u8 = 0x1C;
/// CancelUpdate: the update ends.
pub const CANCEL_UPDATE: u8 = 0x1D;

/// The least maximum transfer size that an update agent may state, in bytes (DSP0267, "RequestUpdate command").
pub const MIN_TRANSFER_BYTES: u32 = 32;

/// No update is under way (DSP0267, "PLDM completion codes for firmware update").
pub const NOT_IN_UPDATE_MODE: u8 = 0x80;
/// An update is under way.
pub const ALREADY_IN_UPDATE_MODE: u8 = 0x81;
/// An offset or a length lies outside the image.
pub const DATA_OUT_OF_RANGE: u8 = 0x82;
/// A length that may not be asked for.
pub const INVALID_TRANSFER_LENGTH: u8 = 0x83;
/// The device's state doesn't allow the command.
pub const INVALID_STATE_FOR_COMMAND: u8 = 0x84;
/// No component was applied.
pub const INCOMPLETE_UPDATE: u8 = 0x85;
/// The device can't stop what it does.
pub const BUSY_IN_BACKGROUND: u8 = 0x86;
/// The update agent has sent a cancel.
pub const CANCEL_PENDING: u8 = 0x87;
/// The sender isn't the agent of the update, or doesn't expect this.
pub const COMMAND_NOT_EXPECTED: u8 = 0x88;
/// The update agent can't give the piece now.
pub const RETRY_REQUEST_FW_DATA: u8 = 0x89;
/// The device can't begin an update.
pub const UNABLE_TO_INITIATE_UPDATE: u8 = 0x8A;
/// Nothing was applied that needs an activation.
pub const ACTIVATION_NOT_REQUIRED: u8 = 0x8B;
/// The device can't activate its components by itself.
pub const SELF_CONTAINED_ACTIVATION_NOT_PERMITTED: u8 = 0x8C;

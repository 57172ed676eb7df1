//! PLDM firmware update (DSP0267): the commands of an update and their answers as bytes; the firmware device, which takes
//! an update, and the update agent, which brings it, both without input or output of their own.
#![tactic(auto)]

mod agent_stage;
mod answer;
mod answer_reading;
mod answer_writing;
mod assigned;
mod command;
mod command_reading;
mod command_writing;
mod component;
mod component_parameters;
mod component_version;
mod device_answers;
mod device_commands;
mod device_identifiers;
mod device_requests;
mod device_stage;
mod fault;
mod field;
mod firmware_device;
mod firmware_identity;
mod firmware_parameters;
mod flash;
mod image_piece;
pub mod laws;
mod limits;
mod names;
mod package;
mod package_descriptor;
mod package_device;
mod package_fault;
mod package_fields;
mod package_image;
mod package_text;
mod piece;
mod places;
mod receiving;
mod table_part;
mod times;
mod update_agent;
mod update_state;
mod version_string;

pub use agent_stage::{AgentRequest, AgentStage, DeviceReply};
pub use answer::UpdateAnswer;
pub use answer_reading::read_update_answer;
pub use answer_writing::update_answer_data;
pub use assigned::{
    ACTIVATE_FIRMWARE, ACTIVATION_NOT_REQUIRED, ALREADY_IN_UPDATE_MODE, APPLY_COMPLETE,
    BUSY_IN_BACKGROUND, CANCEL_PENDING, CANCEL_UPDATE, CANCEL_UPDATE_COMPONENT,
    COMMAND_NOT_EXPECTED, DATA_OUT_OF_RANGE, FIRMWARE_UPDATE, GET_FIRMWARE_PARAMETERS, GET_STATUS,
    INCOMPLETE_UPDATE, INVALID_STATE_FOR_COMMAND, INVALID_TRANSFER_LENGTH, MIN_TRANSFER_BYTES,
    NOT_IN_UPDATE_MODE, PASS_COMPONENT_TABLE, QUERY_DEVICE_IDENTIFIERS, REQUEST_FIRMWARE_DATA,
    REQUEST_UPDATE, RETRY_REQUEST_FW_DATA, SELF_CONTAINED_ACTIVATION_NOT_PERMITTED,
    TRANSFER_COMPLETE, UNABLE_TO_INITIATE_UPDATE, UPDATE_COMPONENT, VERIFY_COMPLETE,
};
pub use command::UpdateCommand;
pub use command_reading::read_update_command;
pub use command_writing::update_command_data;
pub use component::Component;
pub use component_parameters::{ComponentParameters, FirmwareComponents};
pub use component_version::ComponentVersion;
pub use device_identifiers::DeviceIdentifiers;
pub use device_stage::{DeviceRequest, Stage};
pub use fault::UpdateFault;
pub use field::UpdateData;
pub use firmware_device::{FirmwareDevice, PIECE_BYTES};
pub use firmware_identity::FirmwareIdentity;
pub use firmware_parameters::FirmwareParameters;
pub use flash::{FlashAction, FlashStep};
pub use image_piece::piece_of;
pub use limits::{MAX_PIECE_BYTES, MAX_TEXT_BYTES, MAX_UPDATE_DATA, RELEASE_BYTES};
pub use names::update_command_name;
pub use package::Package;
pub use package_descriptor::{Descriptor, Descriptors};
pub use package_device::{DeviceRecord, DeviceRecords};
pub use package_fault::PackageFault;
pub use package_image::{ImageRecord, ImageRecords};
pub use package_text::PackageText;
pub use piece::Piece;
pub use receiving::Received;
pub use table_part::TablePart;
pub use times::{IDLE_TIME, MAX_ATTEMPTS, RETRY_TIME, SILENCE};
pub use update_agent::UpdateAgent;
pub use update_state::UpdateState;
pub use version_string::VersionString;

//! The description of a simulated device behind a PLDM terminus, and the records that it has made.
#![tactic(auto)]

mod allowed;
mod control_table;
mod description;
mod description_fault;
mod document;
mod effecter_entries;
mod effecter_records;
mod endpoint_settings;
mod entries;
mod hex_values;
mod keys;
mod limits;
mod made_records;
mod number_lists;
mod path;
mod record_entries;
mod record_keys;
pub mod record_laws;
mod record_names;
mod record_table;
mod refusal;
mod sensor_entries;
mod sensor_records;
mod size_names;
mod unit_names;
mod version_checksum;

pub use allowed::{Allowed, RecordFlaw};
pub use control_table::ControlTable;
pub use description::Description;
pub use description_fault::FileFault;
pub use path::Path;
pub use pldm_platform::{Platform, ReadingFault};
pub use pldm_records::{Fetch, FetchFault, FetchState, MAX_RECORD_BYTES, RECORD_HEADER, laws};
pub use refusal::Refusal;
pub use simulated_device::{
    AllowedStates, NumericEffecter, NumericSensor, SimDevice, StateEffecter,
};

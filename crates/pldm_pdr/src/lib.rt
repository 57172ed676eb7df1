//! Platform data records (DSP0248) that a BMC reads, as types: each is written as bytes and read from them.
#![tactic(auto)]

mod conversion;
mod data;
mod effecter_range;
mod entity;
mod fault;
mod fields;
mod fitting;
pub mod laws;
mod limits;
mod locator;
mod locator_reading;
mod locator_writing;
mod measures_reading;
mod measures_writing;
mod name_fields;
mod name_text;
mod names;
mod numeric_effecter;
mod numeric_effecter_fields;
mod numeric_sensor;
mod numeric_sensor_reading;
mod numeric_sensor_writing;
mod possible_states;
mod pushes;
mod range_format;
mod reading;
mod record;
mod sensor_range;
mod state_effecter;
mod state_effecter_fields;
mod state_sensor;
mod state_sensor_fields;
mod state_sets;
mod units;
mod writing;

pub use conversion::Conversion;
pub use data::RecordData;
pub use effecter_range::EffecterRange;
pub use entity::Entity;
pub use fault::RecordFault;
pub use limits::{MAX_NAME_BYTES, MAX_RECORD_BYTES, MAX_STATE_BYTES, RECORD_HEADER};
pub use locator::TerminusLocator;
pub use names::{EffecterNames, EntityNames, SensorNames};
pub use numeric_effecter::NumericEffecter;
pub use numeric_sensor::NumericSensor;
pub use possible_states::PossibleStates;
pub use range_format::RangeFormat;
pub use reading::read;
pub use record::Record;
pub use sensor_range::SensorRange;
pub use state_effecter::StateEffecter;
pub use state_sensor::StateSensor;
pub use units::Units;
pub use writing::write;

/// The bytes of a record.
pub type RecordBytes = arrayvec::ArrayVec<u8, MAX_RECORD_BYTES>;

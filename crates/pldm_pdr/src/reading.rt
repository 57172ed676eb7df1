//! A platform data record read from its bytes (DSP0248, "Common PDR format").

ghost use Rattle.std.specs.Prelude.{◌≡◌, IfOk, IsTrue, Ok};
ghost use Rattle.pldm_pdr.specs.Fields.{Gives};
ghost use Rattle.pldm_pdr.specs.Records.{IsRead, PlatformRecord, data_at, data_fits, names_data_at, record_of, whole};

use crate::fields::{byte_in, u16_in, u32_in};
use crate::limits::{
    EFFECTER_NAMES, ENTITY_NAMES, HEADER_VERSION, NUMERIC_EFFECTER, NUMERIC_SENSOR, SENSOR_NAMES,
    STATE_EFFECTER, STATE_SENSOR, TERMINUS_LOCATOR,
};
use crate::locator_reading::terminus_locator_in;
use crate::name_fields::{effecter_names_in, entity_names_in, sensor_names_in};
use crate::numeric_effecter_fields::numeric_effecter_in;
use crate::numeric_sensor_reading::numeric_sensor_in;
use crate::state_effecter_fields::state_effecter_in;
use crate::state_sensor_fields::state_sensor_in;
use crate::{RECORD_HEADER, Record, RecordData, RecordFault};

/// The record that the bytes spell: Length for fewer bytes than a header's, or a header that counts fewer or more after
/// it; else Version and OtherType; else the first fault of the fields in their order; else LeftOver for bytes after the
/// last field (DSP0248, "Common PDR format"; the order is this profile's own).
pub fn read(bytes: &[u8]) -> Result<Record, RecordFault>
    ensures exact { result ≡ record_of bytes.now }
    ensures found { IfOk result (λ r. IsRead bytes.now r) }
    ensures only { (r : PlatformRecord) → IsRead bytes.now r → result ≡ Ok r }
{
    record_in(bytes)
}

/// As `read`, by its definition.
#[tactic(auto, unfolding(crate::specs::Fields::and_then, crate::specs::Fields::refused))]
fn record_in(bytes: &[u8]) -> Result<Record, RecordFault>
    ensures { result ≡ record_of bytes.now }
{
    if bytes.len() < RECORD_HEADER {
        return Err(RecordFault::Length);
    }
    let (handle, rest) = u32_in(bytes)?;
    let (version, rest) = byte_in(rest)?;
    let (type_number, rest) = byte_in(rest)?;
    let (change_number, rest) = u16_in(rest)?;
    let (count, rest) = u16_in(rest)?;
    if rest.len() != usize::from(count) {
        return Err(RecordFault::Length);
    }
    if version != HEADER_VERSION {
        return Err(RecordFault::Version);
    }
    let contents = whole_data_in(type_number, rest)?;
    Ok(Record::of(handle, change_number, contents))
}

/// The data of a record of this type, all of the bytes.
#[tactic(auto, unfolding(crate::specs::Fields::and_then, crate::specs::Fields::refused))]
fn whole_data_in(type_number: u8, bytes: &[u8]) -> Result<RecordData, RecordFault>
    ensures exact { result ≡ whole (data_at type_number bytes.now) }
    ensures fits { IfOk result (λ contents. IsTrue (data_fits contents)) }
{
    let (contents, rest) = data_in(type_number, bytes)?;
    if rest.is_empty() {
        Ok(contents)
    } else {
        Err(RecordFault::LeftOver)
    }
}

/// The data of a record of this type, and the bytes after it.
#[tactic(auto, unfolding(crate::specs::Fields::and_then))]
fn data_in(type_number: u8, bytes: &[u8]) -> Result<(RecordData, &[u8]), RecordFault>
    ensures exact { Gives (λ x. (x.0, x.1.now)) result (data_at type_number bytes.now) }
    ensures fits { IfOk result (λ x. IsTrue (data_fits x.0)) }
{
    match type_number {
        TERMINUS_LOCATOR => {
            let (locator, rest) = terminus_locator_in(bytes)?;
            Ok((RecordData::TerminusLocator(locator), rest))
        }
        NUMERIC_SENSOR => {
            let (sensor, rest) = numeric_sensor_in(bytes)?;
            Ok((RecordData::NumericSensor(sensor), rest))
        }
        STATE_SENSOR => {
            let (sensor, rest) = state_sensor_in(bytes)?;
            Ok((RecordData::StateSensor(sensor), rest))
        }
        NUMERIC_EFFECTER => {
            let (effecter, rest) = numeric_effecter_in(bytes)?;
            Ok((RecordData::NumericEffecter(effecter), rest))
        }
        STATE_EFFECTER => {
            let (effecter, rest) = state_effecter_in(bytes)?;
            Ok((RecordData::StateEffecter(effecter), rest))
        }
        _ => names_data_in(type_number, bytes),
    }
}

/// The names of a record of this type, and the bytes after them.
#[tactic(auto, unfolding(crate::specs::Fields::and_then))]
fn names_data_in(type_number: u8, bytes: &[u8]) -> Result<(RecordData, &[u8]), RecordFault>
    ensures exact { Gives (λ x. (x.0, x.1.now)) result (names_data_at type_number bytes.now) }
    ensures fits { IfOk result (λ x. IsTrue (data_fits x.0)) }
{
    match type_number {
        SENSOR_NAMES => {
            let (names, rest) = sensor_names_in(bytes)?;
            Ok((RecordData::SensorNames(names), rest))
        }
        EFFECTER_NAMES => {
            let (names, rest) = effecter_names_in(bytes)?;
            Ok((RecordData::EffecterNames(names), rest))
        }
        ENTITY_NAMES => {
            let (names, rest) = entity_names_in(bytes)?;
            Ok((RecordData::EntityNames(names), rest))
        }
        _ => Err(RecordFault::OtherType),
    }
}

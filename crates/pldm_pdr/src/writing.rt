//! A platform data record written as bytes (DSP0248, "Common PDR format").

ghost use Rattle.std.specs.Prelude.{◌≡◌, ◌+◌, ◌<◌, ◌≤◌, IsTrue, length};
ghost use Rattle.arrayvec.specs.ArrayVec.{array_vec_len};
ghost use Rattle.pldm_wire.specs.Numbers.{IsU16, IsU32};
ghost use Rattle.pldm_pdr.specs.Records.{IsData, IsRead, bytes_of, data_bytes, data_fits, header_bytes, type_of};
ghost use Rattle.pldm_pdr.specs.Fields.{Adds};

use crate::limits::{
    EFFECTER_NAMES, ENTITY_NAMES, HEADER_VERSION, MAX_DATA_BYTES, NUMERIC_EFFECTER, NUMERIC_SENSOR,
    SENSOR_NAMES, STATE_EFFECTER, STATE_SENSOR, TERMINUS_LOCATOR,
};
use crate::locator_writing::push_terminus_locator;
use crate::name_fields::{push_effecter_names, push_entity_names, push_sensor_names};
use crate::numeric_effecter_fields::push_numeric_effecter;
use crate::numeric_sensor_writing::push_numeric_sensor;
use crate::pushes::{push_byte, push_bytes, push_u16, push_u32};
use crate::state_effecter_fields::push_state_effecter;
use crate::state_sensor_fields::push_state_sensor;
use crate::{MAX_RECORD_BYTES, RECORD_HEADER, Record, RecordBytes, RecordData};

/// The bytes of the record: its header, with the length of its data, and its data (DSP0248, "Common PDR format").
pub fn write(pdr: &Record) -> RecordBytes
    ensures spelled { result.items ≡ bytes_of pdr.now }
    ensures read { IsRead result.items pdr.now }
    ensures length { length result.items ≤ MAX_RECORD_BYTES }
{
    let contents = pdr.contents();
    let bytes = data_of(contents);
    let mut out = RecordBytes::new();
    push_header(
        &mut out,
        pdr.handle(),
        type_of(contents),
        pdr.change_number(),
        bytes.len(),
    );
    push_bytes(&mut out, &bytes);
    out
}

/// The type of a record with this data.
fn type_of(contents: &RecordData) -> u8
    ensures { result ≡ type_of contents.now }
{
    match contents {
        RecordData::TerminusLocator(_) => TERMINUS_LOCATOR,
        RecordData::NumericSensor(_) => NUMERIC_SENSOR,
        RecordData::StateSensor(_) => STATE_SENSOR,
        RecordData::NumericEffecter(_) => NUMERIC_EFFECTER,
        RecordData::StateEffecter(_) => STATE_EFFECTER,
        RecordData::SensorNames(_) => SENSOR_NAMES,
        RecordData::EffecterNames(_) => EFFECTER_NAMES,
        RecordData::EntityNames(_) => ENTITY_NAMES,
    }
}

/// The bytes of the data.
fn data_of(contents: &RecordData) -> RecordBytes
    requires { IsTrue (data_fits contents.now) }
    ensures items { result.items ≡ data_bytes contents.now }
    ensures len { array_vec_len result ≤ MAX_DATA_BYTES }
    ensures range { IsData contents.now }
{
    let mut out = RecordBytes::new();
    match contents {
        RecordData::TerminusLocator(locator) => push_terminus_locator(&mut out, locator),
        RecordData::NumericSensor(sensor) => push_numeric_sensor(&mut out, sensor),
        RecordData::StateSensor(sensor) => push_state_sensor(&mut out, sensor),
        RecordData::NumericEffecter(effecter) => push_numeric_effecter(&mut out, effecter),
        RecordData::StateEffecter(effecter) => push_state_effecter(&mut out, effecter),
        RecordData::SensorNames(names) => push_sensor_names(&mut out, names),
        RecordData::EffecterNames(names) => push_effecter_names(&mut out, names),
        RecordData::EntityNames(names) => push_entity_names(&mut out, names),
    }
    out
}

/// Adds a header.
fn push_header(
    out: &mut RecordBytes,
    handle: u32,
    type_number: u8,
    change_number: u16,
    count: usize,
)
    requires room { array_vec_len out.old + RECORD_HEADER ≤ MAX_RECORD_BYTES }
    requires count { count ≤ MAX_DATA_BYTES }
    ensures added { Adds out.old.items out.new.items (header_bytes handle type_number change_number count) }
    ensures len { array_vec_len out.new ≡ array_vec_len out.old + RECORD_HEADER }
    ensures handle { IsU32 handle }
    ensures change_number { IsU16 change_number }
{
    push_u32(out, handle);
    push_byte(out, HEADER_VERSION);
    push_byte(out, type_number);
    push_u16(out, change_number);
    push_u16(out, count as u16);
}

//! The sensors of a description.

ghost use Rattle.std.specs.Prelude.{◌≡◌, ◌≤◌, [], length};
ghost use Rattle.pldm_device.specs.FileFaults.{IsOrMemory};
ghost use Rattle.pldm_device.specs.KeyValues.{map_ok};
ghost use Rattle.pldm_device.specs.SensorEntries.{field_in, fields_after, fields_in, numeric_sensor_in, numeric_sensor_of, numeric_sensors_after, numeric_sensors_in, state_sensor_in, state_sensor_of, state_sensors_after, state_sensors_in, three_states_in};
ghost use Rattle.toml.specs.View.{items_view, table_view, view};

use crate::NumericSensor;
use crate::allowed::Allowed;
use crate::description_fault::FileFault;
use crate::entries::{entries_at, id_at, id_taken};
use crate::keys::{table_in, value_at};
use crate::limits::{MAX_BYTE, MAX_SENSOR_STATE};
use crate::number_lists::{few_lists, few_numbers};
use crate::path::Path;
use crate::refusal::Refusal;
use crate::size_names::{integers_of, size_in, sized_in};
use arrayvec::ArrayVec;
use pldm_wire::{MAX_STATES, SensorStateField, StateFields};
use std::alloc::Global;
use std::collections::BTreeMap;
use toml::{Table, Value};

/// The numeric sensors of a description by their ID.
pub(crate) fn numeric_sensors_in(
    alloc: Global,
    table: &Table,
) -> Result<BTreeMap<u16, NumericSensor>, Refusal>
    ensures { IsOrMemory (map_ok (λ sensors. sensors.entries) result) (numeric_sensors_in (table_view table.now)) }
{
    numeric_sensors_of(alloc, table, entries_at(table, "numeric_sensor")?)
}

fn numeric_sensors_of(
    alloc: Global,
    document: &Table,
    entries: &[Value],
) -> Result<BTreeMap<u16, NumericSensor>, Refusal>
    ensures { IsOrMemory (map_ok (λ sensors. sensors.entries) result) (numeric_sensors_after []
        (items_view entries.now)) }
{
    let mut sensors = BTreeMap::new(alloc);
    for (place, entry) in entries.iter().enumerate() {
        let at = Path::entry("numeric_sensor", place);
        let (id, sensor) = numeric_sensor_of(entry, at)?;
        if sensors.contains_key(&id) {
            return Err(id_taken(document, "numeric_sensor", id, at));
        }
        sensors.insert(id, sensor)?;
    }
    Ok(sensors)
}

fn numeric_sensor_of(entry: &Value, at: Path<'static>) -> Result<(u16, NumericSensor), Refusal>
    ensures { result ≡ numeric_sensor_of (view entry.now) }
{
    numeric_sensor_in(table_in(entry, at)?, at)
}

/// A numeric sensor and its ID.
fn numeric_sensor_in(entry: &Table, at: Path<'static>) -> Result<(u16, NumericSensor), Refusal>
    ensures { result ≡ numeric_sensor_in (table_view entry.now) }
{
    let id = id_at(entry, at)?;
    let named = value_at(entry, "size", at, Allowed::SizeName)?;
    let size = size_in(named, at.key("size"))?;
    let states = value_at(entry, "states", at, Allowed::SensorStates)?;
    let (present, previous, event) = three_states_in(states, at.key("states"))?;
    let value = value_at(entry, "value", at, Allowed::SizedInteger)?;
    let reading = sized_in(size, value, at.key("value"), integers_of(size))?;
    let sensor = NumericSensor {
        present,
        previous,
        event,
        reading,
    };
    Ok((id, sensor))
}

/// The present, the previous and the event state of a numeric sensor.
fn three_states_in(value: &Value, at: Path<'static>) -> Result<(u8, u8, u8), Refusal>
    ensures { result ≡ three_states_in (view value.now) }
{
    let allowed = Allowed::Numbers {
        least: 3,
        most: 3,
        high: MAX_SENSOR_STATE,
    };
    let states = few_numbers(value, MAX_SENSOR_STATE, at, allowed)?;
    match states.as_slice() {
        [present, previous, event] => Ok((*present, *previous, *event)),
        _ => Err(Refusal::new(FileFault::OutOfRange, at, allowed)),
    }
}

/// The state sensors of a description by their ID, which is none of a numeric sensor.
pub(crate) fn state_sensors_in(
    alloc: Global,
    table: &Table,
    numeric: &BTreeMap<u16, NumericSensor>,
) -> Result<BTreeMap<u16, StateFields<SensorStateField>>, Refusal>
    ensures { IsOrMemory (map_ok (λ sensors. sensors.entries) result) (state_sensors_in numeric.now.entries
        (table_view table.now)) }
{
    state_sensors_of(alloc, table, entries_at(table, "state_sensor")?, numeric)
}

fn state_sensors_of(
    alloc: Global,
    document: &Table,
    entries: &[Value],
    numeric: &BTreeMap<u16, NumericSensor>,
) -> Result<BTreeMap<u16, StateFields<SensorStateField>>, Refusal>
    ensures { IsOrMemory (map_ok (λ sensors. sensors.entries) result) (state_sensors_after numeric.now.entries []
        (items_view entries.now)) }
{
    let mut sensors = BTreeMap::new(alloc);
    for (place, entry) in entries.iter().enumerate() {
        let at = Path::entry("state_sensor", place);
        let (id, fields) = state_sensor_of(entry, at)?;
        if numeric.contains_key(&id) {
            return Err(id_taken(document, "numeric_sensor", id, at));
        }
        if sensors.contains_key(&id) {
            return Err(id_taken(document, "state_sensor", id, at));
        }
        sensors.insert(id, fields)?;
    }
    Ok(sensors)
}

fn state_sensor_of(
    entry: &Value,
    at: Path<'static>,
) -> Result<(u16, StateFields<SensorStateField>), Refusal>
    ensures { result ≡ state_sensor_of (view entry.now) }
{
    state_sensor_in(table_in(entry, at)?, at)
}

/// A state sensor's fields and its ID.
fn state_sensor_in(
    entry: &Table,
    at: Path<'static>,
) -> Result<(u16, StateFields<SensorStateField>), Refusal>
    ensures { result ≡ state_sensor_in (table_view entry.now) }
{
    let id = id_at(entry, at)?;
    let value = value_at(entry, "fields", at, Allowed::SensorFields)?;
    let fields = fields_in(value, at.key("fields"))?;
    Ok((id, fields))
}

/// The fields of a state sensor.
fn fields_in(value: &Value, at: Path<'static>) -> Result<StateFields<SensorStateField>, Refusal>
    ensures { result ≡ fields_in (view value.now) }
{
    let fields = fields_of(few_lists(value, at)?, at)?;
    if fields.is_empty() {
        return Err(Refusal::new(FileFault::OutOfRange, at, Allowed::SensorFields));
    }
    Ok(StateFields::new(fields.as_slice()).unwrap())
}

fn fields_of(
    lists: &[Value],
    at: Path<'static>,
) -> Result<ArrayVec<SensorStateField, MAX_STATES>, Refusal>
    requires { length lists.now ≤ MAX_STATES }
    ensures { map_ok (λ fields. fields.items) result ≡ fields_after [] (items_view lists.now) }
{
    let mut fields = ArrayVec::new();
    for (place, list) in lists.iter().enumerate() {
        fields.push(field_in(list, at.item(place))?);
    }
    Ok(fields)
}

/// The operational, the present, the previous and the event state of a field.
fn field_in(value: &Value, at: Path<'static>) -> Result<SensorStateField, Refusal>
    ensures { result ≡ field_in (view value.now) }
{
    let allowed = Allowed::Numbers {
        least: 4,
        most: 4,
        high: MAX_BYTE,
    };
    let states = few_numbers(value, MAX_BYTE, at, allowed)?;
    match states.as_slice() {
        [operational, present, previous, event] => Ok(SensorStateField {
            operational: *operational,
            present: *present,
            previous: *previous,
            event: *event,
        }),
        _ => Err(Refusal::new(FileFault::OutOfRange, at, allowed)),
    }
}

//! The records of sensors, made from the device and the keys of their entries.

ghost use Rattle.std.specs.Prelude.{◌≡◌, ◌≤◌, length, map, pos};
ghost use Rattle.pldm_device.specs.FileFaults.{IsOrMemory};
ghost use Rattle.pldm_device.specs.RecordKeys.{number_or};
ghost use Rattle.pldm_device.specs.SensorRecords.{bit_if, conversion_of, normal_support, numeric_sensor_data, numeric_sensor_made, numeric_sensor_of, possible, range_support, sensor_named, sensor_range, state_sensor_data, state_sensor_made, states_of_field, supported_thresholds};
ghost use Rattle.toml.specs.View.{table_view};

use crate::NumericSensor;
use crate::description_fault::FileFault;
use crate::entries::id_at;
use crate::limits::{ONE, TERMINUS_HANDLE};
use crate::made_records::{MadeRecords, with_made};
use crate::path::Path;
use crate::record_keys::{
    NormalRange, Thresholds, entity_at, name_at, normal_range_at, state_set_at, thresholds_at,
    units_at,
};
use crate::record_names::Name;
use crate::refusal::Refusal;
use crate::size_names::limits;
use arrayvec::ArrayVec;
use pldm_pdr::{
    Conversion, Entity, PossibleStates, RangeFormat, RecordData, SensorNames, SensorRange,
    StateSensor, Units,
};
use pldm_wire::{MAX_STATES, SensorStateField, Size, StateFields};
use std::alloc::Global;
use std::collections::BTreeMap;
use toml::Table;

/// The records of a numeric sensor's entry: of the sensor with its ID, and of its name.
pub(crate) fn numeric_sensor_made(
    alloc: Global,
    sensors: &BTreeMap<u16, NumericSensor>,
    default: Entity,
    entry: &Table,
    made: MadeRecords,
    at: Path<'static>,
) -> Result<MadeRecords, Refusal>
    ensures { IsOrMemory result (numeric_sensor_made sensors.now.entries default (table_view entry.now) made) }
{
    let id = id_at(entry, at)?;
    let Some(sensor) = sensors.get(&id) else {
        return Err(FileFault::MissingKey.into());
    };
    let name = name_at(entry, at)?;
    let entity = entity_at(entry, default, at)?;
    let size = sensor.reading.size();
    let contents = numeric_sensor_data(entry, id, size, entity, name.is_some(), at)?;
    let more = with_made(alloc, made, contents)?;
    sensor_named(alloc, id, 1, name, more)
}

/// The record of a numeric sensor with this ID and data size.
fn numeric_sensor_data(
    entry: &Table,
    id: u16,
    size: Size,
    entity: Entity,
    has_name: bool,
    at: Path<'static>,
) -> Result<RecordData, Refusal>
    ensures { result ≡ numeric_sensor_data id size entity has_name (table_view entry.now) }
{
    let units = units_at(entry, at)?;
    let thresholds = thresholds_at(entry, size, at)?;
    let normal = normal_range_at(entry, size, at)?;
    Ok(RecordData::NumericSensor(numeric_sensor_of(
        id, size, entity, has_name, units, thresholds, normal,
    )))
}

/// The record of a numeric sensor, from what its entry says.
fn numeric_sensor_of(
    id: u16,
    size: Size,
    entity: Entity,
    has_name: bool,
    units: Units,
    thresholds: Thresholds,
    normal: NormalRange,
) -> pldm_pdr::NumericSensor
    ensures { result ≡ numeric_sensor_of id size entity has_name units thresholds normal }
{
    let (min_readable, max_readable) = limits(size);
    pldm_pdr::NumericSensor {
        terminus_handle: TERMINUS_HANDLE,
        sensor_id: id,
        entity,
        init: 0,
        has_auxiliary_names: has_name,
        units,
        rel: 0,
        auxiliary_oem_unit_handle: 0,
        conversion: conversion_of(size),
        hysteresis: 0,
        supported_thresholds: supported_thresholds(thresholds),
        threshold_and_hysteresis_volatility: 0,
        state_transition_interval: 0,
        update_interval: ONE,
        max_readable,
        min_readable,
        range: sensor_range(size, thresholds, normal),
    }
}

/// Numbers of the size, each the value itself but for the units' power of ten.
pub(crate) fn conversion_of(size: Size) -> Conversion
    ensures { result ≡ conversion_of size }
{
    Conversion {
        is_linear: true,
        size,
        resolution: ONE,
        offset: 0,
        accuracy: 0,
        plus_tolerance: 0,
        minus_tolerance: 0,
    }
}

/// The bit, where there is a number.
fn bit_if(bit: u8, number: Option<i64>) -> u8
    ensures value { result ≡ bit_if bit number }
    ensures range { result ≤ bit }
{
    if number.is_some() { bit } else { 0 }
}

/// Which thresholds there are (DSP0248, "supportedThresholds").
fn supported_thresholds(thresholds: Thresholds) -> u8
    ensures { result ≡ supported_thresholds thresholds }
{
    bit_if(1, thresholds.warning_high)
        + bit_if(2, thresholds.critical_high)
        + bit_if(4, thresholds.fatal_high)
        + bit_if(8, thresholds.warning_low)
        + bit_if(16, thresholds.critical_low)
        + bit_if(32, thresholds.fatal_low)
}

/// Which fields of the normal range mean something (DSP0248, "rangeFieldSupport").
pub(crate) fn normal_support(normal: NormalRange) -> u8
    ensures value { result ≡ normal_support normal }
    ensures range { result ≤ 7 }
{
    bit_if(1, normal.nominal) + bit_if(2, normal.normal_max) + bit_if(4, normal.normal_min)
}

/// Which range fields of a sensor mean something; the warning thresholds have no bit.
fn range_support(thresholds: Thresholds, normal: NormalRange) -> u8
    ensures { result ≡ range_support thresholds normal }
{
    normal_support(normal)
        + bit_if(8, thresholds.critical_high)
        + bit_if(16, thresholds.critical_low)
        + bit_if(32, thresholds.fatal_high)
        + bit_if(64, thresholds.fatal_low)
}

/// The number, or 0 where there is none.
pub(crate) fn number_or_zero(number: Option<i64>) -> i64
    ensures { result ≡ number_or (pos 0) number }
{
    number.unwrap_or(0)
}

/// The range of a sensor in its data size; 0 where nothing is said.
fn sensor_range(size: Size, thresholds: Thresholds, normal: NormalRange) -> SensorRange
    ensures { result ≡ sensor_range size thresholds normal }
{
    SensorRange {
        format: RangeFormat::Number(size),
        support: range_support(thresholds, normal),
        nominal: number_or_zero(normal.nominal),
        normal_max: number_or_zero(normal.normal_max),
        normal_min: number_or_zero(normal.normal_min),
        warning_high: number_or_zero(thresholds.warning_high),
        warning_low: number_or_zero(thresholds.warning_low),
        critical_high: number_or_zero(thresholds.critical_high),
        critical_low: number_or_zero(thresholds.critical_low),
        fatal_high: number_or_zero(thresholds.fatal_high),
        fatal_low: number_or_zero(thresholds.fatal_low),
    }
}

/// The record of a sensor's name, where it has one, after these.
fn sensor_named(
    alloc: Global,
    id: u16,
    count: u8,
    name: Option<Name>,
    made: MadeRecords,
) -> Result<MadeRecords, Refusal>
    requires least { 1 ≤ count }
    requires most { count ≤ MAX_STATES }
    ensures { IsOrMemory result (sensor_named id count name made) }
{
    match name {
        Some(name) => {
            let names = SensorNames {
                terminus_handle: TERMINUS_HANDLE,
                sensor_id: id,
                names: name.of_first(count),
            };
            with_made(alloc, made, RecordData::SensorNames(names))
        }
        None => Ok(made),
    }
}

/// The records of a state sensor's entry: of the sensor with its ID, and of its name.
pub(crate) fn state_sensor_made(
    alloc: Global,
    sensors: &BTreeMap<u16, StateFields<SensorStateField>>,
    default: Entity,
    entry: &Table,
    made: MadeRecords,
    at: Path<'static>,
) -> Result<MadeRecords, Refusal>
    ensures { IsOrMemory result (state_sensor_made sensors.now.entries default (table_view entry.now) made) }
{
    let id = id_at(entry, at)?;
    let Some(fields) = sensors.get(&id) else {
        return Err(FileFault::MissingKey.into());
    };
    let fields = fields.as_slice();
    let name = name_at(entry, at)?;
    let entity = entity_at(entry, default, at)?;
    let contents = state_sensor_data(entry, id, fields, entity, name.is_some(), at)?;
    let more = with_made(alloc, made, contents)?;
    sensor_named(alloc, id, fields.len() as u8, name, more)
}

/// The record of a state sensor with this ID: its possible states are those that its fields report.
fn state_sensor_data(
    entry: &Table,
    id: u16,
    fields: &[SensorStateField],
    entity: Entity,
    has_name: bool,
    at: Path<'static>,
) -> Result<RecordData, Refusal>
    requires { length fields.now ≤ MAX_STATES }
    ensures { result ≡ state_sensor_data id fields.now entity has_name (table_view entry.now) }
{
    let state_set = state_set_at(entry, at)?;
    Ok(RecordData::StateSensor(StateSensor {
        terminus_handle: TERMINUS_HANDLE,
        sensor_id: id,
        entity,
        init: 0,
        has_auxiliary_names: has_name,
        sets: sets_of_fields(state_set, fields),
    }))
}

/// For each field the states that it reports.
fn sets_of_fields(
    state_set: u16,
    fields: &[SensorStateField],
) -> ArrayVec<PossibleStates, MAX_STATES>
    requires { length fields.now ≤ MAX_STATES }
    ensures { result.items ≡ map (λ field. possible state_set (states_of_field field)) fields.now }
{
    let mut sets = ArrayVec::new();
    for field in fields {
        sets.push(possible(state_set, &[field.present, field.previous, field.event]));
    }
    sets
}

/// These states of the state set.
pub(crate) fn possible(state_set: u16, states: &[u8]) -> PossibleStates
    ensures { result ≡ possible state_set states.now }
{
    PossibleStates::of(state_set, states)
}

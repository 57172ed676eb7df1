//! The records of terminus locators, sensors and effecters, made from the structs of their fields for C.

ghost use Rattle.std.specs.Prelude.{◌≡◌, ◌≤◌, None, length, map, take};
ghost use Rattle.std.specs.Bool.{OnTrue};
ghost use Rattle.needleoat_wire_c.specs.RecordForms.{are_sets, conversion_in, effecter_range_in, entity_in, flag_in, format_in, locator_in, numeric_effecter_in, numeric_effecter_record, numeric_sensor_in, numeric_sensor_record, sensor_range_in, sizes_fit, state_effecter_record, state_sensor_record, states_in, terminus_locator_record, units_in};

use crate::record_forms::{
    ConversionFields, EffecterRangeFields, EntityFields, NumericEffecterFields,
    NumericSensorFields, PossibleStatesFields, STATE_BYTES, SensorRangeFields, StateEffecterFields,
    StateSensorFields, TerminusLocatorFields, UnitsFields,
};
use crate::record_writing::record_of;
use arrayvec::ArrayVec;
use pldm_pdr::{
    Conversion, EffecterRange, Entity, NumericEffecter, NumericSensor, PossibleStates, RangeFormat,
    Record, RecordData, SensorRange, StateEffecter, StateSensor, TerminusLocator, Units,
};
use pldm_wire::{MAX_STATES, Size};

/// The record of a terminus locator that a struct is.
// Not inlined, as those of the other types: what a record is made of is not on the stack when it is written.
#[inline(never)]
pub(crate) fn terminus_locator_record(fields: &TerminusLocatorFields) -> Option<Record>
    ensures { result ≡ terminus_locator_record fields.now }
{
    let contents = RecordData::TerminusLocator(locator_of(fields)?);
    record_of(fields.record_handle, fields.change_number, contents)
}

/// The record of a numeric sensor that a struct is.
#[inline(never)]
pub(crate) fn numeric_sensor_record(fields: &NumericSensorFields) -> Option<Record>
    ensures { result ≡ numeric_sensor_record fields.now }
{
    let contents = RecordData::NumericSensor(numeric_sensor_of(fields)?);
    record_of(fields.record_handle, fields.change_number, contents)
}

/// The record of a numeric effecter that a struct is.
#[inline(never)]
pub(crate) fn numeric_effecter_record(fields: &NumericEffecterFields) -> Option<Record>
    ensures { result ≡ numeric_effecter_record fields.now }
{
    let contents = RecordData::NumericEffecter(numeric_effecter_of(fields)?);
    record_of(fields.record_handle, fields.change_number, contents)
}

/// Puts the record of a state sensor that a struct is in the place of none: the longest ones are not moved.
#[inline(never)]
pub(crate) fn put_state_sensor(fields: &StateSensorFields, pdr: &mut Option<Record>)
    requires { pdr.old ≡ None }
    ensures { pdr.new ≡ state_sensor_record fields.now }
{
    let Some(has_auxiliary_names) = flag_of(fields.has_auxiliary_names) else {
        return;
    };
    if !are_sets(fields.count, &fields.sets) {
        return;
    }
    let contents = RecordData::StateSensor(StateSensor {
        terminus_handle: fields.terminus_handle,
        sensor_id: fields.sensor_id,
        entity: entity_of(&fields.entity),
        init: fields.init,
        has_auxiliary_names,
        sets: first_sets(fields.count, &fields.sets),
    });
    *pdr = record_of(fields.record_handle, fields.change_number, contents);
}

/// Puts the record of a state effecter that a struct is in the place of none: the longest ones are not moved.
#[inline(never)]
pub(crate) fn put_state_effecter(fields: &StateEffecterFields, pdr: &mut Option<Record>)
    requires { pdr.old ≡ None }
    ensures { pdr.new ≡ state_effecter_record fields.now }
{
    let Some(has_description) = flag_of(fields.has_description) else {
        return;
    };
    if !are_sets(fields.count, &fields.sets) {
        return;
    }
    let contents = RecordData::StateEffecter(StateEffecter {
        terminus_handle: fields.terminus_handle,
        effecter_id: fields.effecter_id,
        entity: entity_of(&fields.entity),
        semantic_id: fields.semantic_id,
        init: fields.init,
        has_description,
        sets: first_sets(fields.count, &fields.sets),
    });
    *pdr = record_of(fields.record_handle, fields.change_number, contents);
}

/// The terminus locator that a struct is.
fn locator_of(fields: &TerminusLocatorFields) -> Option<TerminusLocator>
    ensures { result ≡ locator_in fields.now }
{
    Some(TerminusLocator {
        terminus_handle: fields.terminus_handle,
        is_valid: flag_of(fields.is_valid)?,
        tid: fields.tid,
        container_id: fields.container_id,
        eid: fields.eid,
    })
}

/// The numeric sensor that a struct is.
fn numeric_sensor_of(fields: &NumericSensorFields) -> Option<NumericSensor>
    ensures { result ≡ numeric_sensor_in fields.now }
{
    Some(NumericSensor {
        terminus_handle: fields.terminus_handle,
        sensor_id: fields.sensor_id,
        entity: entity_of(&fields.entity),
        init: fields.init,
        has_auxiliary_names: flag_of(fields.has_auxiliary_names)?,
        units: units_of(&fields.units),
        rel: fields.rel,
        auxiliary_oem_unit_handle: fields.auxiliary_oem_unit_handle,
        conversion: conversion_of(&fields.conversion)?,
        hysteresis: fields.hysteresis,
        supported_thresholds: fields.supported_thresholds,
        threshold_and_hysteresis_volatility: fields.threshold_and_hysteresis_volatility,
        state_transition_interval: fields.state_transition_interval,
        update_interval: fields.update_interval,
        max_readable: fields.max_readable,
        min_readable: fields.min_readable,
        range: sensor_range_of(&fields.range)?,
    })
}

/// The numeric effecter that a struct is.
fn numeric_effecter_of(fields: &NumericEffecterFields) -> Option<NumericEffecter>
    ensures { result ≡ numeric_effecter_in fields.now }
{
    Some(NumericEffecter {
        terminus_handle: fields.terminus_handle,
        effecter_id: fields.effecter_id,
        entity: entity_of(&fields.entity),
        semantic_id: fields.semantic_id,
        init: fields.init,
        has_auxiliary_names: flag_of(fields.has_auxiliary_names)?,
        units: units_of(&fields.units),
        auxiliary_oem_unit_handle: fields.auxiliary_oem_unit_handle,
        conversion: conversion_of(&fields.conversion)?,
        state_transition_interval: fields.state_transition_interval,
        transition_interval: fields.transition_interval,
        max_settable: fields.max_settable,
        min_settable: fields.min_settable,
        range: effecter_range_of(&fields.range)?,
    })
}

/// The truth value of a byte that says no or yes.
fn flag_of(flag: u8) -> Option<bool>
    ensures { result ≡ flag_in flag }
{
    match flag {
        0 => Some(false),
        1 => Some(true),
        _ => None,
    }
}

/// The entity that a struct is.
pub(crate) fn entity_of(fields: &EntityFields) -> Entity
    ensures { result ≡ entity_in fields.now }
{
    Entity {
        entity_type: fields.entity_type,
        instance: fields.instance,
        container_id: fields.container_id,
    }
}

/// The units that a struct is.
fn units_of(fields: &UnitsFields) -> Units
    ensures { result ≡ units_in fields.now }
{
    Units {
        base_unit: fields.base_unit,
        unit_modifier: fields.unit_modifier,
        rate_unit: fields.rate_unit,
        base_oem_unit_handle: fields.base_oem_unit_handle,
        auxiliary_unit: fields.auxiliary_unit,
        auxiliary_unit_modifier: fields.auxiliary_unit_modifier,
        auxiliary_rate_unit: fields.auxiliary_rate_unit,
    }
}

/// The conversion that a struct is.
fn conversion_of(fields: &ConversionFields) -> Option<Conversion>
    ensures { result ≡ conversion_in fields.now }
{
    Some(Conversion {
        is_linear: flag_of(fields.is_linear)?,
        size: Size::from_code(fields.size)?,
        resolution: fields.resolution,
        offset: fields.offset,
        accuracy: fields.accuracy,
        plus_tolerance: fields.plus_tolerance,
        minus_tolerance: fields.minus_tolerance,
    })
}

/// The range field format of this number.
fn format_of(code: u8) -> Option<RangeFormat>
    ensures { result ≡ format_in code }
{
    if code == 6 {
        return Some(RangeFormat::Real32);
    }
    Some(RangeFormat::Number(Size::from_code(code)?))
}

/// The range of a sensor that a struct is.
fn sensor_range_of(fields: &SensorRangeFields) -> Option<SensorRange>
    ensures { result ≡ sensor_range_in fields.now }
{
    Some(SensorRange {
        format: format_of(fields.format)?,
        support: fields.support,
        nominal: fields.nominal,
        normal_max: fields.normal_max,
        normal_min: fields.normal_min,
        warning_high: fields.warning_high,
        warning_low: fields.warning_low,
        critical_high: fields.critical_high,
        critical_low: fields.critical_low,
        fatal_high: fields.fatal_high,
        fatal_low: fields.fatal_low,
    })
}

/// The range of an effecter that a struct is.
fn effecter_range_of(fields: &EffecterRangeFields) -> Option<EffecterRange>
    ensures { result ≡ effecter_range_in fields.now }
{
    Some(EffecterRange {
        format: format_of(fields.format)?,
        support: fields.support,
        nominal: fields.nominal,
        normal_max: fields.normal_max,
        normal_min: fields.normal_min,
        rated_max: fields.rated_max,
        rated_min: fields.rated_min,
    })
}

/// Whether there are 1 to [`MAX_STATES`] sets, each in at most [`STATE_BYTES`] bytes.
fn are_sets(count: u8, sets: &[PossibleStatesFields; MAX_STATES]) -> bool
    ensures result { result ≡ are_sets count sets.now }
    ensures few { OnTrue result (count ≤ MAX_STATES) }
{
    let count = usize::from(count);
    count != 0 && count <= MAX_STATES && sizes_fit(&sets[..count])
}

/// The possible states of the first sets.
#[inline(never)]
fn first_sets(
    count: u8,
    sets: &[PossibleStatesFields; MAX_STATES],
) -> ArrayVec<PossibleStates, MAX_STATES>
    requires { count ≤ MAX_STATES }
    ensures { result.items ≡ map states_in (take count sets.now) }
{
    sets_from(&sets[..usize::from(count)])
}

/// Whether each is in at most [`STATE_BYTES`] bytes.
fn sizes_fit(sets: &[PossibleStatesFields]) -> bool
    ensures { result ≡ sizes_fit sets.now }
{
    match sets {
        [] => true,
        [first, rest @ ..] => usize::from(first.size) <= STATE_BYTES && sizes_fit(rest),
    }
}

/// The possible states of each.
fn sets_from(sets: &[PossibleStatesFields]) -> ArrayVec<PossibleStates, MAX_STATES>
    requires { length sets.now ≤ MAX_STATES }
    ensures { result.items ≡ map states_in sets.now }
{
    let mut made = ArrayVec::<PossibleStates, MAX_STATES>::new();
    for fields in sets {
        made.push(states_of(fields));
    }
    made
}

/// The possible states of one set.
fn states_of(fields: &PossibleStatesFields) -> PossibleStates
    ensures { result ≡ states_in fields.now }
{
    let size = usize::from(fields.size).min(STATE_BYTES);
    let mut bits = ArrayVec::new();
    let _ = bits.try_extend_from_slice(&fields.states[..size]); // they fit
    PossibleStates {
        state_set: fields.state_set,
        bits,
    }
}

//! The records of effecters, made from the device and the keys of their entries.

ghost use Rattle.std.specs.Prelude.{◌≡◌, ◌≤◌, length, map};
ghost use Rattle.pldm_device.specs.EffecterRecords.{effecter_named, effecter_range, numeric_effecter_data, numeric_effecter_made, numeric_effecter_of, state_effecter_data, state_effecter_made};
ghost use Rattle.pldm_device.specs.FileFaults.{IsOrMemory};
ghost use Rattle.pldm_device.specs.SensorRecords.{possible};
ghost use Rattle.toml.specs.View.{table_view};

use crate::allowed::Allowed;
use crate::description_fault::FileFault;
use crate::entries::id_at;
use crate::limits::TERMINUS_HANDLE;
use crate::made_records::{MadeRecords, with_made};
use crate::path::Path;
use crate::record_keys::{
    NormalRange, entity_at, name_at, normal_range_at, state_set_at, units_at,
};
use crate::record_names::Name;
use crate::refusal::Refusal;
use crate::sensor_records::{conversion_of, normal_support, number_or_zero, possible};
use crate::{AllowedStates, NumericEffecter, StateEffecter};
use arrayvec::ArrayVec;
use pldm_pdr::{
    EffecterNames, EffecterRange, Entity, PossibleStates, RangeFormat, RecordData, Units,
};
use pldm_wire::{MAX_STATES, Size};
use std::alloc::Global;
use std::collections::BTreeMap;
use toml::Table;

/// The records of a numeric effecter's entry: of the effecter with its ID, and of its name.
pub(crate) fn numeric_effecter_made(
    alloc: Global,
    effecters: &BTreeMap<u16, NumericEffecter>,
    default: Entity,
    entry: &Table,
    made: MadeRecords,
    at: Path<'static>,
) -> Result<MadeRecords, Refusal>
    ensures { IsOrMemory result (numeric_effecter_made effecters.now.entries default (table_view entry.now) made) }
{
    let id = id_at(entry, at)?;
    let Some(effecter) = effecters.get(&id) else {
        return Err(FileFault::MissingKey.into());
    };
    let name = name_at(entry, at)?;
    let entity = entity_at(entry, default, at)?;
    let contents = numeric_effecter_data(entry, id, effecter, entity, name.is_some(), at)?;
    let more = with_made(alloc, made, contents)?;
    effecter_named(alloc, id, 1, name, more)
}

/// The record of a numeric effecter with this ID.
fn numeric_effecter_data(
    entry: &Table,
    id: u16,
    effecter: &NumericEffecter,
    entity: Entity,
    has_name: bool,
    at: Path<'static>,
) -> Result<RecordData, Refusal>
    ensures { result ≡ numeric_effecter_data id effecter.now entity has_name (table_view entry.now) }
{
    let units = units_at(entry, at)?;
    let normal = normal_range_at(entry, effecter.value.size(), at)?;
    Ok(RecordData::NumericEffecter(numeric_effecter_of(
        id, effecter, entity, has_name, units, normal,
    )))
}

/// The record of a numeric effecter, from what its entry says.
fn numeric_effecter_of(
    id: u16,
    effecter: &NumericEffecter,
    entity: Entity,
    has_name: bool,
    units: Units,
    normal: NormalRange,
) -> pldm_pdr::NumericEffecter
    ensures { result ≡ numeric_effecter_of id effecter.now entity has_name units normal }
{
    let size = effecter.value.size();
    pldm_pdr::NumericEffecter {
        terminus_handle: TERMINUS_HANDLE,
        effecter_id: id,
        entity,
        semantic_id: 0,
        init: 0,
        has_auxiliary_names: has_name,
        units,
        auxiliary_oem_unit_handle: 0,
        conversion: conversion_of(size),
        state_transition_interval: 0,
        transition_interval: 0,
        max_settable: effecter.max,
        min_settable: effecter.min,
        range: effecter_range(size, normal),
    }
}

/// The range of an effecter in its data size; 0 where nothing is said. No range is rated.
fn effecter_range(size: Size, normal: NormalRange) -> EffecterRange
    ensures { result ≡ effecter_range size normal }
{
    EffecterRange {
        format: RangeFormat::Number(size),
        support: normal_support(normal),
        nominal: number_or_zero(normal.nominal),
        normal_max: number_or_zero(normal.normal_max),
        normal_min: number_or_zero(normal.normal_min),
        rated_max: 0,
        rated_min: 0,
    }
}

/// The record of an effecter's name, where it has one, after these.
fn effecter_named(
    alloc: Global,
    id: u16,
    count: u8,
    name: Option<Name>,
    made: MadeRecords,
) -> Result<MadeRecords, Refusal>
    requires least { 1 ≤ count }
    requires most { count ≤ MAX_STATES }
    ensures { IsOrMemory result (effecter_named id count name made) }
{
    match name {
        Some(name) => {
            let names = EffecterNames {
                terminus_handle: TERMINUS_HANDLE,
                effecter_id: id,
                names: name.of_first(count),
            };
            with_made(alloc, made, RecordData::EffecterNames(names))
        }
        None => Ok(made),
    }
}

/// The records of a state effecter's entry: of the effecter with its ID, and of its name. `OutOfRange` where it has
/// more fields than a record can hold.
pub(crate) fn state_effecter_made(
    alloc: Global,
    effecters: &BTreeMap<u16, StateEffecter>,
    default: Entity,
    entry: &Table,
    made: MadeRecords,
    at: Path<'static>,
) -> Result<MadeRecords, Refusal>
    ensures { IsOrMemory result (state_effecter_made effecters.now.entries default (table_view entry.now) made) }
{
    let id = id_at(entry, at)?;
    let Some(effecter) = effecters.get(&id) else {
        return Err(FileFault::MissingKey.into());
    };
    let name = name_at(entry, at)?;
    let entity = entity_at(entry, default, at)?;
    let allowed = effecter.allowed();
    let contents = state_effecter_data(entry, id, allowed, entity, name.is_some(), at)?;
    let more = with_made(alloc, made, contents)?;
    effecter_named(alloc, id, effecter.states().len() as u8, name, more)
}

/// The record of a state effecter with this ID: its possible states are those that its fields can take.
fn state_effecter_data(
    entry: &Table,
    id: u16,
    allowed: &[AllowedStates],
    entity: Entity,
    has_name: bool,
    at: Path<'static>,
) -> Result<RecordData, Refusal>
    ensures { result ≡ state_effecter_data id allowed.now entity has_name (table_view entry.now) }
{
    let state_set = state_set_at(entry, at)?;
    if allowed.len() > MAX_STATES {
        let at = at.key("allowed");
        return Err(Refusal::new(FileFault::OutOfRange, at, Allowed::FieldStates));
    }
    Ok(RecordData::StateEffecter(pldm_pdr::StateEffecter {
        terminus_handle: TERMINUS_HANDLE,
        effecter_id: id,
        entity,
        semantic_id: 0,
        init: 0,
        has_description: has_name,
        sets: sets_allowed(state_set, allowed),
    }))
}

/// For each field the states that it can take.
fn sets_allowed(state_set: u16, allowed: &[AllowedStates]) -> ArrayVec<PossibleStates, MAX_STATES>
    requires { length allowed.now ≤ MAX_STATES }
    ensures { result.items ≡ map (possible state_set) allowed.now }
{
    let mut sets = ArrayVec::new();
    for states in allowed {
        sets.push(possible(state_set, states.as_slice()));
    }
    sets
}

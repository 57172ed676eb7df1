//! What the keys of an entry say of its record.

ghost use Rattle.std.specs.Prelude.{◌≡◌, codes};
ghost use Rattle.pldm_device.specs.KeyValues.{number_in};
ghost use Rattle.pldm_device.specs.RecordKeys.{entity_at, entity_in, entity_of, name_at, name_in, normal_range_at, number_or, sized_if_any, state_set_at, thresholds_at, unit_if_there, unit_in, units_at, units_of};
ghost use Rattle.toml.specs.Data.{get_member};
ghost use Rattle.toml.specs.View.{items_view, table_view, view};

use crate::allowed::Allowed;
use crate::description_fault::FileFault;
use crate::keys::{number_in, text_in, value_if_any};
use crate::limits::{MAX_BYTE, MAX_NAME, MAX_NUMBER};
use crate::number_lists::integers_in;
use crate::path::Path;
use crate::record_names::Name;
use crate::refusal::Refusal;
use crate::size_names::{integers_of, sized_in};
use crate::unit_names::unit_named;
use pldm_pdr::{Entity, Units};
use pldm_wire::Size;
use toml::{Table, Value};

/// The thresholds of a numeric sensor (DSP0248, "Numeric sensor PDR"), in its data size.
#[derive(Clone, Copy, Debug)]
pub(crate) struct Thresholds {
    pub(crate) warning_high: Option<i64>,
    pub(crate) critical_high: Option<i64>,
    pub(crate) fatal_high: Option<i64>,
    pub(crate) warning_low: Option<i64>,
    pub(crate) critical_low: Option<i64>,
    pub(crate) fatal_low: Option<i64>,
}

/// The normal range of a numeric sensor or effecter, in its data size.
#[derive(Clone, Copy, Debug)]
pub(crate) struct NormalRange {
    pub(crate) normal_max: Option<i64>,
    pub(crate) normal_min: Option<i64>,
    pub(crate) nominal: Option<i64>,
}

/// The name, if there is one.
#[tactic(auto, unfolding(crate::specs::RecordKeys::name_at))]
pub(crate) fn name_at(entry: &Table, at: Path<'static>) -> Result<Option<Name>, Refusal>
    ensures { result ≡ name_at (table_view entry.now) }
{
    match value_if_any(entry, "name") {
        Some(value) => Ok(Some(name_in(value, at.key("name"))?)),
        None => Ok(None),
    }
}

/// A name; `OutOfRange` where the text is none.
fn name_in(value: &Value, at: Path<'static>) -> Result<Name, Refusal>
    ensures { result ≡ name_in (view value.now) }
{
    let allowed = Allowed::Name(MAX_NAME);
    match Name::new(text_in(value, at, allowed)?) {
        Some(name) => Ok(name),
        None => Err(Refusal::new(FileFault::OutOfRange, at, allowed)),
    }
}

/// The entity, or the default where the key is missing.
#[tactic(auto, unfolding(crate::specs::RecordKeys::entity_at))]
pub(crate) fn entity_at(
    entry: &Table,
    default: Entity,
    at: Path<'static>,
) -> Result<Entity, Refusal>
    ensures { result ≡ entity_at default (table_view entry.now) }
{
    match value_if_any(entry, "entity") {
        Some(value) => {
            let at = at.key("entity");
            entity_of(integers_in(value, at)?, at)
        }
        None => Ok(default),
    }
}

/// The numbers of an entity.
const ENTITY: Allowed = Allowed::Numbers {
    least: 3,
    most: 3,
    high: MAX_NUMBER,
};

/// The entity of three numbers: its type, which of its type it is, and the entity that contains it.
#[tactic(auto, using(crate::proofs::EntityNumbers::of_other))]
fn entity_of(items: &[Value], at: Path<'static>) -> Result<Entity, Refusal>
    ensures { result ≡ entity_of (items_view items.now) }
{
    if items.len() != 3 {
        return Err(Refusal::new(FileFault::OutOfRange, at, ENTITY));
    }
    let [first, second, third] = items else {
        unreachable!();
    };
    let entity_type = number_in(first, 0, MAX_NUMBER, at.item(0))?;
    let instance = number_in(second, 0, MAX_NUMBER, at.item(1))?;
    let container_id = number_in(third, 0, MAX_NUMBER, at.item(2))?;
    Ok(Entity {
        entity_type: entity_type as u16,
        instance: instance as u16,
        container_id: container_id as u16,
    })
}

/// What a numeric thing measures in, from the keys `unit` and `modifier`.
#[tactic(auto, unfolding(crate::specs::RecordKeys::units_at))]
pub(crate) fn units_at(entry: &Table, at: Path<'static>) -> Result<Units, Refusal>
    ensures { result ≡ units_at (table_view entry.now) }
{
    let unit = unit_at(entry, at)?;
    let modifier = sized_if_any(entry, "modifier", Size::Sint8, at)?;
    Ok(units_of(unit, modifier.unwrap_or(0) as i8))
}

/// The number of the unit; 0, for none, where the key is missing.
fn unit_at(entry: &Table, at: Path<'static>) -> Result<u8, Refusal>
    ensures { result ≡ unit_if_there (get_member (codes "unit") (table_view entry.now)) }
{
    match value_if_any(entry, "unit") {
        Some(value) => unit_in(value, at.key("unit")),
        None => Ok(0),
    }
}

/// A unit by its name or its number.
fn unit_in(value: &Value, at: Path<'static>) -> Result<u8, Refusal>
    ensures { result ≡ unit_in (view value.now) }
{
    let Some(name) = value.as_str() else {
        return unit_numbered(value, at);
    };
    unit_named(name).ok_or(Refusal::new(FileFault::OutOfRange, at, Allowed::Unit))
}

/// A unit by its number.
fn unit_numbered(value: &Value, at: Path<'static>) -> Result<u8, Refusal>
    ensures { result ≡ number_in 0 255 (view value.now) }
{
    match number_in(value, 0, MAX_BYTE, at) {
        Ok(number) => Ok(number as u8),
        Err(refusal) => Err(Refusal::new(refusal.fault(), at, Allowed::Unit)),
    }
}

/// Units of this base unit alone.
fn units_of(base_unit: u8, unit_modifier: i8) -> Units
    ensures { result ≡ units_of base_unit unit_modifier }
{
    Units {
        base_unit,
        unit_modifier,
        rate_unit: 0,
        base_oem_unit_handle: 0,
        auxiliary_unit: 0,
        auxiliary_unit_modifier: 0,
        auxiliary_rate_unit: 0,
    }
}

/// The number of the size at the key, if there is one.
fn sized_if_any(
    entry: &Table,
    key: &'static str,
    size: Size,
    at: Path<'static>,
) -> Result<Option<i64>, Refusal>
    ensures { result ≡ sized_if_any key.now size (table_view entry.now) }
{
    match value_if_any(entry, key) {
        Some(value) => {
            let number = sized_in(size, value, at.key(key), integers_of(size))?;
            Ok(Some(number.value()))
        }
        None => Ok(None),
    }
}

/// The thresholds of a sensor of this size.
#[tactic(auto, unfolding(crate::specs::RecordKeys::thresholds_at))]
pub(crate) fn thresholds_at(
    entry: &Table,
    size: Size,
    at: Path<'static>,
) -> Result<Thresholds, Refusal>
    ensures { result ≡ thresholds_at size (table_view entry.now) }
{
    let warning_high = sized_if_any(entry, "warning_high", size, at)?;
    let critical_high = sized_if_any(entry, "critical_high", size, at)?;
    let fatal_high = sized_if_any(entry, "fatal_high", size, at)?;
    let warning_low = sized_if_any(entry, "warning_low", size, at)?;
    let critical_low = sized_if_any(entry, "critical_low", size, at)?;
    let fatal_low = sized_if_any(entry, "fatal_low", size, at)?;
    Ok(Thresholds {
        warning_high,
        critical_high,
        fatal_high,
        warning_low,
        critical_low,
        fatal_low,
    })
}

/// The normal range of a thing of this size.
#[tactic(auto, unfolding(crate::specs::RecordKeys::normal_range_at))]
pub(crate) fn normal_range_at(
    entry: &Table,
    size: Size,
    at: Path<'static>,
) -> Result<NormalRange, Refusal>
    ensures { result ≡ normal_range_at size (table_view entry.now) }
{
    let normal_max = sized_if_any(entry, "normal_max", size, at)?;
    let normal_min = sized_if_any(entry, "normal_min", size, at)?;
    let nominal = sized_if_any(entry, "nominal", size, at)?;
    Ok(NormalRange {
        normal_max,
        normal_min,
        nominal,
    })
}

/// The state set of a thing of states; 0 where the key is missing.
#[tactic(auto, unfolding(crate::specs::RecordKeys::state_set_at))]
pub(crate) fn state_set_at(entry: &Table, at: Path<'static>) -> Result<u16, Refusal>
    ensures { result ≡ state_set_at (table_view entry.now) }
{
    match value_if_any(entry, "state_set") {
        Some(value) => {
            let number = number_in(value, 0, MAX_NUMBER, at.key("state_set"))?;
            Ok(number as u16)
        }
        None => Ok(0),
    }
}

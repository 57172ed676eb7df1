//! The effecters of a description.

ghost use Rattle.std.specs.Prelude.{◌≡◌, ◌≤◌, [], is_none, length};
ghost use Rattle.pldm_device.specs.EffecterEntries.{allowed_after, allowed_in, are_in, not_above, not_below, number_from, numeric_effecter_in, numeric_effecter_of, numeric_effecters_after, numeric_effecters_in, state_effecter_in, state_effecter_of, state_effecters_after, state_effecters_in, states_in, states_among, value_between};
ghost use Rattle.pldm_device.specs.FileFaults.{IsOrMemory};
ghost use Rattle.pldm_device.specs.KeyValues.{map_ok};
ghost use Rattle.pldm_device.specs.NumberLists.{numbers_after, numbers_upto};
ghost use Rattle.toml.specs.View.{items_view, table_view, view};

use crate::allowed::Allowed;
use crate::description_fault::FileFault;
use crate::entries::{entries_at, id_at, id_taken};
use crate::keys::{number_in, table_in, value_at};
use crate::limits::{MAX_ALLOWED, MAX_BYTE};
use crate::number_lists::{few_lists, few_numbers, integers_in};
use crate::path::Path;
use crate::refusal::Refusal;
use crate::size_names::{integers_of, limits, size_in, sized_in};
use crate::{AllowedStates, NumericEffecter, StateEffecter};
use pldm_wire::{MAX_STATES, Number, Size, StateFields};
use std::alloc::Global;
use std::collections::BTreeMap;
use toml::{Table, Value};

/// The numeric effecters of a description by their ID.
pub(crate) fn numeric_effecters_in(
    alloc: Global,
    table: &Table,
) -> Result<BTreeMap<u16, NumericEffecter>, Refusal>
    ensures { IsOrMemory (map_ok (λ effecters. effecters.entries) result) (numeric_effecters_in
        (table_view table.now)) }
{
    numeric_effecters_of(alloc, table, entries_at(table, "numeric_effecter")?)
}

fn numeric_effecters_of(
    alloc: Global,
    document: &Table,
    entries: &[Value],
) -> Result<BTreeMap<u16, NumericEffecter>, Refusal>
    ensures { IsOrMemory (map_ok (λ effecters. effecters.entries) result) (numeric_effecters_after []
        (items_view entries.now)) }
{
    let mut effecters = BTreeMap::new(alloc);
    for (place, entry) in entries.iter().enumerate() {
        let at = Path::entry("numeric_effecter", place);
        let (id, effecter) = numeric_effecter_of(entry, at)?;
        if effecters.contains_key(&id) {
            return Err(id_taken(document, "numeric_effecter", id, at));
        }
        effecters.insert(id, effecter)?;
    }
    Ok(effecters)
}

fn numeric_effecter_of(entry: &Value, at: Path<'static>) -> Result<(u16, NumericEffecter), Refusal>
    ensures { result ≡ numeric_effecter_of (view entry.now) }
{
    numeric_effecter_in(table_in(entry, at)?, at)
}

/// A numeric effecter and its ID.
fn numeric_effecter_in(entry: &Table, at: Path<'static>) -> Result<(u16, NumericEffecter), Refusal>
    ensures { result ≡ numeric_effecter_in (table_view entry.now) }
{
    let id = id_at(entry, at)?;
    let named = value_at(entry, "size", at, Allowed::SizeName)?;
    let size = size_in(named, at.key("size"))?;
    let least = value_at(entry, "min", at, Allowed::SizedInteger)?;
    let min = sized_in(size, least, at.key("min"), integers_of(size))?.value();
    let (_, high) = limits(size);
    let from_min = Allowed::Integer { low: min, high };
    let greatest = value_at(entry, "max", at, Allowed::FromMin)?;
    let max = number_from(greatest, size, min, at.key("max"), from_min)?.value();
    let value = value_in(entry, size, min, max, at)?;
    Ok((id, NumericEffecter { min, max, value }))
}

/// The value that an effecter of this size and these limits has.
fn value_in(
    entry: &Table,
    size: Size,
    min: i64,
    max: i64,
    at: Path<'static>,
) -> Result<Number, Refusal>
    ensures { result ≡ value_between size min max (table_view entry.now) }
{
    let value = value_at(entry, "value", at, Allowed::MinToMax)?;
    let at = at.key("value");
    let between = Allowed::Integer {
        low: min,
        high: max,
    };
    not_above(
        max,
        number_from(value, size, min, at, between)?,
        at,
        between,
    )
}

/// A number of the size that is not below `min`.
fn number_from(
    value: &Value,
    size: Size,
    min: i64,
    at: Path<'static>,
    allowed: Allowed,
) -> Result<Number, Refusal>
    ensures { result ≡ number_from size min (view value.now) }
{
    not_below(min, sized_in(size, value, at, allowed)?, at, allowed)
}

/// A number that is not below `min`.
fn not_below(
    min: i64,
    number: Number,
    at: Path<'static>,
    allowed: Allowed,
) -> Result<Number, Refusal>
    ensures { result ≡ not_below min number }
{
    if min <= number.value() {
        Ok(number)
    } else {
        Err(Refusal::new(FileFault::OutOfRange, at, allowed))
    }
}

/// A number that is not above `max`.
fn not_above(
    max: i64,
    number: Number,
    at: Path<'static>,
    allowed: Allowed,
) -> Result<Number, Refusal>
    ensures { result ≡ not_above max number }
{
    if number.value() <= max {
        Ok(number)
    } else {
        Err(Refusal::new(FileFault::OutOfRange, at, allowed))
    }
}

/// The state effecters of a description by their ID, which is none of a numeric effecter.
pub(crate) fn state_effecters_in(
    alloc: Global,
    table: &Table,
    numeric: &BTreeMap<u16, NumericEffecter>,
) -> Result<BTreeMap<u16, StateEffecter>, Refusal>
    ensures { IsOrMemory (map_ok (λ effecters. effecters.entries) result) (state_effecters_in numeric.now.entries
        (table_view table.now)) }
{
    state_effecters_of(alloc, table, entries_at(table, "state_effecter")?, numeric)
}

fn state_effecters_of(
    alloc: Global,
    document: &Table,
    entries: &[Value],
    numeric: &BTreeMap<u16, NumericEffecter>,
) -> Result<BTreeMap<u16, StateEffecter>, Refusal>
    ensures { IsOrMemory (map_ok (λ effecters. effecters.entries) result) (state_effecters_after numeric.now.entries
        [] (items_view entries.now)) }
{
    let mut effecters = BTreeMap::new(alloc);
    for (place, entry) in entries.iter().enumerate() {
        let at = Path::entry("state_effecter", place);
        let (id, effecter) = state_effecter_of(alloc, entry, at)?;
        if numeric.contains_key(&id) {
            return Err(id_taken(document, "numeric_effecter", id, at));
        }
        if effecters.contains_key(&id) {
            return Err(id_taken(document, "state_effecter", id, at));
        }
        effecters.insert(id, effecter)?;
    }
    Ok(effecters)
}

fn state_effecter_of(
    alloc: Global,
    entry: &Value,
    at: Path<'static>,
) -> Result<(u16, StateEffecter), Refusal>
    ensures { IsOrMemory result (state_effecter_of (view entry.now)) }
{
    state_effecter_in(alloc, table_in(entry, at)?, at)
}

/// A state effecter and its ID.
fn state_effecter_in(
    alloc: Global,
    entry: &Table,
    at: Path<'static>,
) -> Result<(u16, StateEffecter), Refusal>
    ensures { IsOrMemory result (state_effecter_in (table_view entry.now)) }
{
    let id = id_at(entry, at)?;
    let lists = value_at(entry, "allowed", at, Allowed::FieldStates)?;
    let allowed = allowed_in(alloc, lists, at.key("allowed"))?;
    let value = value_at(entry, "values", at, Allowed::StateOfEach)?;
    let at = at.key("values");
    let few = Allowed::Numbers {
        least: 0,
        most: MAX_STATES,
        high: MAX_BYTE,
    };
    let states = few_numbers(value, MAX_BYTE, at, few)?;
    let states = states_among(allowed.as_slice(), states.as_slice(), at)?;
    Ok((id, StateEffecter::new(allowed, states)))
}

/// The states that each field can take.
fn allowed_in(
    alloc: Global,
    value: &Value,
    at: Path<'static>,
) -> Result<Vec<AllowedStates>, Refusal>
    ensures { IsOrMemory (map_ok (λ allowed. allowed.items) result) (allowed_in (view value.now)) }
{
    let allowed = allowed_of(alloc, few_lists(value, at)?, at)?;
    if allowed.is_empty() {
        return Err(Refusal::new(FileFault::OutOfRange, at, Allowed::FieldStates));
    }
    Ok(allowed)
}

fn allowed_of(
    alloc: Global,
    lists: &[Value],
    at: Path<'static>,
) -> Result<Vec<AllowedStates>, Refusal>
    ensures { IsOrMemory (map_ok (λ allowed. allowed.items) result) (allowed_after [] (items_view lists.now)) }
{
    let mut allowed = Vec::new(alloc);
    for (place, list) in lists.iter().enumerate() {
        let states = AllowedStates::new(states_in(alloc, list, at.item(place))?);
        allowed.push(states)?;
    }
    Ok(allowed)
}

/// The states that a field can take, as an array has them.
const STATES: Allowed = Allowed::Numbers {
    least: 1,
    most: MAX_ALLOWED,
    high: MAX_BYTE,
};

/// The states that a field can take.
fn states_in(alloc: Global, value: &Value, at: Path<'static>) -> Result<Vec<u8>, Refusal>
    ensures { IsOrMemory (map_ok (λ states. states.items) result) (states_in (view value.now)) }
{
    let states = numbers_upto(alloc, integers_in(value, at)?, at)?;
    if states.is_empty() {
        return Err(Refusal::new(FileFault::OutOfRange, at, STATES));
    }
    Ok(states)
}

#[tactic(auto, using(crate::proofs::Counts::counted))]
fn numbers_upto(alloc: Global, items: &[Value], at: Path<'static>) -> Result<Vec<u8>, Refusal>
    ensures { IsOrMemory (map_ok (λ numbers. numbers.items) result) (numbers_upto MAX_ALLOWED MAX_BYTE
        (items_view items.now)) }
{
    if items.len() > MAX_ALLOWED {
        Err(Refusal::new(FileFault::OutOfRange, at, STATES))
    } else {
        numbers_of(alloc, items, at)
    }
}

fn numbers_of(alloc: Global, items: &[Value], at: Path<'static>) -> Result<Vec<u8>, Refusal>
    ensures { IsOrMemory (map_ok (λ numbers. numbers.items) result) (numbers_after MAX_BYTE [] (items_view items.now)) }
{
    let mut numbers = Vec::new(alloc);
    for (place, item) in items.iter().enumerate() {
        let number = number_in(item, 0, MAX_BYTE, at.item(place))? as u8;
        numbers.push(number)?;
    }
    Ok(numbers)
}

/// The state of each field, which is one that the field can take.
fn states_among(
    allowed: &[AllowedStates],
    states: &[u8],
    at: Path<'static>,
) -> Result<StateFields<u8>, Refusal>
    requires { length states.now ≤ MAX_STATES }
    ensures { result ≡ states_among allowed.now states.now }
{
    if states.len() != allowed.len() || states.is_empty() {
        return Err(Refusal::new(FileFault::OutOfRange, at, Allowed::AsManyStates));
    }
    if let Some(place) = first_outside(states, allowed) {
        let at = at.item(place);
        return Err(Refusal::new(FileFault::OutOfRange, at, Allowed::AllowedState));
    }
    Ok(StateFields::new(states).unwrap())
}

/// The first state that its field can't take.
fn first_outside(states: &[u8], allowed: &[AllowedStates]) -> Option<usize>
    ensures { is_none result ≡ are_in states.now allowed.now }
{
    let count = states.len();
    let mut states = states;
    let mut allowed = allowed;
    while let [state, more_states @ ..] = states {
        let [list, more_allowed @ ..] = allowed else {
            return None;
        };
        if !list.as_slice().contains(state) {
            return Some(count.saturating_sub(states.len()));
        }
        states = more_states;
        allowed = more_allowed;
    }
    None
}

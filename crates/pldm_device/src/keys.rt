//! What stands at a key of a TOML table.

ghost use Rattle.std.specs.Prelude.{◌≡◌, ◌≤◌, IfOk, option_map};
ghost use Rattle.pldm_device.specs.KeyValues.{array_in, flag_at, map_ok, number_at, number_in, table_in, text_in, value_at};
ghost use Rattle.toml.specs.Data.{get_member};
ghost use Rattle.toml.specs.View.{items_view, table_view, view};

use crate::allowed::Allowed;
use crate::description_fault::FileFault;
use crate::path::Path;
use crate::refusal::Refusal;
use toml::{Table, Value};

/// The value at the key, if there is one.
pub(crate) fn value_if_any<'a>(table: &'a Table, key: &str) -> Option<&'a Value>
    ensures { option_map (λ value. view value.now) result ≡ get_member key.now (table_view table.now) }
{
    table.get(key)
}

/// The truth value at the key of the table at this path, which may be missing and is false then; `WrongKind` where it
/// is none.
pub(crate) fn flag_at(table: &Table, key: &'static str, at: Path<'static>) -> Result<bool, Refusal>
    ensures { result ≡ flag_at key.now (table_view table.now) }
{
    match value_if_any(table, key) {
        Some(value) => {
            let refusal = Refusal::new(FileFault::WrongKind, at.key(key), Allowed::Flag);
            value.as_bool().ok_or(refusal)
        }
        None => Ok(false),
    }
}

/// The value at the key of the table at this path; `MissingKey` where there is none.
pub(crate) fn value_at<'a>(
    table: &'a Table,
    key: &'static str,
    at: Path<'static>,
    needed: Allowed,
) -> Result<&'a Value, Refusal>
    ensures { map_ok (λ value. view value.now) result ≡ value_at key.now (table_view table.now) }
{
    table
        .get(key)
        .ok_or(Refusal::new(FileFault::MissingKey, at.key(key), needed))
}

/// The value as an integer from `low` to `high`; `WrongKind` where it is none, `OutOfRange` where it
/// is less or more.
pub(crate) fn number_in(
    value: &Value,
    low: u32,
    high: u32,
    at: Path<'static>,
) -> Result<u32, Refusal>
    ensures number { result ≡ number_in low high (view value.now) }
    ensures range { IfOk result (λ number. (low ≤ number) × (number ≤ high)) }
{
    let Some(integer) = value.as_integer() else {
        return Err(Refusal::new(FileFault::WrongKind, at, integers_from(low, high)));
    };
    match u32::try_from(integer) {
        Ok(number) if low <= number && number <= high => Ok(number),
        _ => Err(Refusal::new(FileFault::OutOfRange, at, integers_from(low, high))),
    }
}

/// The integers from `low` to `high`.
fn integers_from(low: u32, high: u32) -> Allowed {
    Allowed::Integer {
        low: low.into(),
        high: high.into(),
    }
}

/// The integer at the key of the table at this path, from `low` to `high`.
pub(crate) fn number_at(
    table: &Table,
    key: &'static str,
    low: u32,
    high: u32,
    at: Path<'static>,
) -> Result<u32, Refusal>
    ensures number { result ≡ number_at key.now low high (table_view table.now) }
    ensures range { IfOk result (λ number. (low ≤ number) × (number ≤ high)) }
{
    let value = value_at(table, key, at, integers_from(low, high))?;
    number_in(value, low, high, at.key(key))
}

/// The items of an array; `WrongKind` where the value is none.
pub(crate) fn array_in<'a>(
    value: &'a Value,
    at: Path<'static>,
    allowed: Allowed,
) -> Result<&'a [Value], Refusal>
    ensures { map_ok (λ items. items_view items.now) result ≡ array_in (view value.now) }
{
    match value.as_array() {
        Some(items) => Ok(items.as_slice()),
        None => Err(Refusal::new(FileFault::WrongKind, at, allowed)),
    }
}

/// A table; `WrongKind` where the value is none.
pub(crate) fn table_in<'a>(value: &'a Value, at: Path<'static>) -> Result<&'a Table, Refusal>
    ensures { map_ok (λ table. table_view table.now) result ≡ table_in (view value.now) }
{
    match value.as_table() {
        Some(table) => Ok(table),
        None => Err(Refusal::new(FileFault::WrongKind, at, Allowed::Table)),
    }
}

/// A text; `WrongKind` where the value is none.
pub(crate) fn text_in<'a>(
    value: &'a Value,
    at: Path<'static>,
    allowed: Allowed,
) -> Result<&'a str, Refusal>
    ensures { map_ok (λ text. text.now) result ≡ text_in (view value.now) }
{
    match value.as_str() {
        Some(text) => Ok(text),
        None => Err(Refusal::new(FileFault::WrongKind, at, allowed)),
    }
}

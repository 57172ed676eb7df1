//! Lists of numbers in a description.

ghost use Rattle.std.specs.Prelude.{◌≡◌, ◌≤◌, [], IfErr, IfOk, is_none, length};
ghost use Rattle.pldm_device.specs.KeyValues.{map_ok};
ghost use Rattle.pldm_device.specs.NumberLists.{are_integers, few_lists, few_numbers, integers_in, not_too_many_fields, number_lists_in, number_lists_of, numbers_after, numbers_upto};
ghost use Rattle.toml.specs.View.{items_view, view};

use crate::allowed::Allowed;
use crate::description_fault::FileFault;
use crate::keys::{array_in, number_in};
use crate::path::Path;
use crate::refusal::Refusal;
use arrayvec::ArrayVec;
use pldm_wire::MAX_STATES;
use toml::Value;

/// The first item that is no integer.
fn first_other(items: &[Value]) -> Option<usize>
    ensures { is_none result ≡ are_integers (items_view items.now) }
{
    for (place, item) in items.iter().enumerate() {
        if !item.is_integer() {
            return Some(place);
        }
    }
    None
}

/// The items of an array of integers; `WrongKind` where the value is none.
pub(crate) fn integers_in<'a>(value: &'a Value, at: Path<'static>) -> Result<&'a [Value], Refusal>
    ensures value { map_ok (λ items. items_view items.now) result ≡ integers_in (view value.now) }
    ensures kind { IfErr result (λ fault. fault ≡ FileFault.WrongKind) }
{
    let items = array_in(value, at, Allowed::Integers)?;
    match first_other(items) {
        Some(place) => {
            let at = at.item(place);
            Err(Refusal::new(FileFault::WrongKind, at, Allowed::AnyInteger))
        }
        None => Ok(items),
    }
}

/// At most [`MAX_STATES`] numbers, each from 0 to `high`, which is at most 255.
pub(crate) fn few_numbers(
    value: &Value,
    high: u32,
    at: Path<'static>,
    allowed: Allowed,
) -> Result<ArrayVec<u8, MAX_STATES>, Refusal>
    requires { high ≤ 255 }
    ensures { map_ok (λ numbers. numbers.items) result ≡ few_numbers high (view value.now) }
{
    few_in(integers_in(value, at)?, high, at, allowed)
}

/// The same of the items of an array.
#[tactic(auto, using(crate::proofs::Counts::counted))]
fn few_in(
    items: &[Value],
    high: u32,
    at: Path<'static>,
    allowed: Allowed,
) -> Result<ArrayVec<u8, MAX_STATES>, Refusal>
    requires { high ≤ 255 }
    ensures { map_ok (λ numbers. numbers.items) result ≡ numbers_upto MAX_STATES high (items_view items.now) }
{
    if items.len() > MAX_STATES {
        Err(Refusal::new(FileFault::OutOfRange, at, allowed))
    } else {
        numbers_in(items, high, at)
    }
}

/// The numbers, each from 0 to `high`.
fn numbers_in(
    items: &[Value],
    high: u32,
    at: Path<'static>,
) -> Result<ArrayVec<u8, MAX_STATES>, Refusal>
    requires count { length items.now ≤ MAX_STATES }
    requires byte { high ≤ 255 }
    ensures { map_ok (λ numbers. numbers.items) result ≡ numbers_after high [] (items_view items.now) }
{
    let mut numbers = ArrayVec::new();
    for (place, item) in items.iter().enumerate() {
        numbers.push(number_in(item, 0, high, at.item(place))? as u8);
    }
    Ok(numbers)
}

/// The items, all of which have to be arrays of integers; `WrongKind` at the first that is none.
fn number_lists_of<'a>(items: &'a [Value], at: Path<'static>) -> Result<&'a [Value], Refusal>
    ensures { map_ok (λ items. items_view items.now) result ≡ number_lists_of (items_view items.now) }
{
    for (place, item) in items.iter().enumerate() {
        integers_in(item, at.item(place))?;
    }
    Ok(items)
}

/// The items of an array of arrays of integers; `WrongKind` where the value is none.
fn number_lists_in<'a>(value: &'a Value, at: Path<'static>) -> Result<&'a [Value], Refusal>
    ensures { map_ok (λ items. items_view items.now) result ≡ number_lists_in (view value.now) }
{
    number_lists_of(array_in(value, at, Allowed::IntegerLists)?, at)
}

/// At most [`MAX_STATES`] arrays of integers.
pub(crate) fn few_lists<'a>(value: &'a Value, at: Path<'static>) -> Result<&'a [Value], Refusal>
    ensures value { map_ok (λ items. items_view items.now) result ≡ few_lists (view value.now) }
    ensures count { IfOk result (λ items. length items.now ≤ MAX_STATES) }
{
    not_too_many_fields(number_lists_in(value, at)?, at)
}

#[tactic(auto, using(crate::proofs::Counts::counted))]
fn not_too_many_fields<'a>(items: &'a [Value], at: Path<'static>) -> Result<&'a [Value], Refusal>
    ensures value { map_ok (λ items. items_view items.now) result ≡ not_too_many_fields (items_view items.now) }
    ensures count { IfOk result (λ items. length items.now ≤ MAX_STATES) }
{
    if items.len() <= MAX_STATES {
        Ok(items)
    } else {
        Err(Refusal::new(FileFault::OutOfRange, at, Allowed::IntegerLists))
    }
}

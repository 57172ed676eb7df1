//! The first auxiliary name of a sensor or an effecter, found in the bytes of a record's names.

ghost use Rattle.std.specs.Prelude.{◌≡◌, ◌++◌, IfOk, OnOk, Some, map, option_map, slice_get};
ghost use Rattle.mctpctl_decode.specs.NameTexts.{after_each, after_name, after_names, after_tag, after_units, all_names_of, each_of, name_of, names_of, units_of};
ghost use Rattle.mctpctl_table.specs.Names.{first_units, name_text, printed, units_text};

use crate::text::push_text;
use mctp_packet::Memory;
use std::alloc::Global;

/// The first name of the sensor or effecter at a place of a composite one, in UTF-8; a dash where there is none.
#[tactic(auto, unfolding(crate::specs::Names::name_text))]
pub(crate) fn name_text(alloc: Global, place: usize, names: &[u8]) -> Result<Vec<u8>, Memory>
    ensures { IfOk result (λ text. text.items ≡ name_text place names.now) }
{
    let mut units = Vec::new(alloc);
    push_name_at(&mut units, place, names)?;
    units_text(alloc, &units)
}

/// Code units of UTF-16 in UTF-8; a dash where there are none.
#[tactic(auto, unfolding(crate::specs::Names::units_text))]
pub(crate) fn units_text(alloc: Global, units: &[u16]) -> Result<Vec<u8>, Memory>
    ensures { IfOk result (λ text. text.items ≡ units_text units.now) }
{
    if units.is_empty() {
        let mut dash = Vec::new(alloc);
        push_text(&mut dash, "-")?;
        return Ok(dash);
    }
    Ok(String::from_utf16_lossy(alloc, units)?.into_bytes())
}

/// Adds the code units of the first name at a place, if there is one.
fn push_name_at(units: &mut Vec<u16>, place: usize, names: &[u8]) -> Result<(), Memory>
    ensures { OnOk result (units.new.items
        ≡ units.old.items ++ map printed (first_units (slice_get (all_names_of names.now) place))) }
{
    match names_at(place, names) {
        Some(names) => push_first_name(units, names),
        None => Ok(()),
    }
}

/// The bytes from the names at a place on.
fn names_at(place: usize, bytes: &[u8]) -> Option<&[u8]>
    ensures { option_map (λ names. names_of names.now) result ≡ slice_get (all_names_of bytes.now) place }
{
    match bytes {
        [] => None,
        [count, rest @ ..] => names_among(place, *count, rest),
    }
}

/// The bytes from the names at a place on, where there are this many places.
#[tactic(auto, using(crate::proofs::EachPassed::one_at, crate::proofs::EachPassed::none_at))]
fn names_among(place: usize, count: u8, bytes: &[u8]) -> Option<&[u8]>
    ensures { option_map (λ names. names_of names.now) result
        ≡ slice_get (each_of names_of after_names count bytes.now) place }
{
    if place < usize::from(count) {
        Some(after_fields(place, bytes))
    } else {
        None
    }
}

/// Adds the code units of the first of these names, if there is one.
fn push_first_name(units: &mut Vec<u16>, bytes: &[u8]) -> Result<(), Memory>
    ensures { OnOk result (units.new.items
        ≡ units.old.items ++ map printed (first_units (Some (names_of bytes.now)))) }
{
    match bytes {
        [] => Ok(()),
        [count, rest @ ..] => push_first_of(units, *count, rest),
    }
}

/// Adds the code units of the first of so many names, if there is one.
#[tactic(auto, using(crate::proofs::EachPassed::first_name))]
fn push_first_of(units: &mut Vec<u16>, count: u8, bytes: &[u8]) -> Result<(), Memory>
    ensures { OnOk result (units.new.items
        ≡ units.old.items ++ map printed (first_units (Some (each_of name_of after_name count bytes.now)))) }
{
    if count == 0 {
        Ok(())
    } else {
        push_units(units, after_tag(bytes))
    }
}

/// Adds the code units of a text.
fn push_units(units: &mut Vec<u16>, bytes: &[u8]) -> Result<(), Memory>
    ensures { OnOk result (units.new.items ≡ units.old.items ++ map printed (units_of bytes.now)) }
{
    match bytes {
        [] | [_] | [0, 0, ..] => Ok(()),
        [high, low, rest @ ..] => {
            units.push(printed(256 * u16::from(*high) + u16::from(*low)))?;
            push_units(units, rest)
        }
    }
}

/// A code unit as it is shown: U+FFFD for a control character.
fn printed(unit: u16) -> u16
    ensures { result ≡ printed unit }
{
    if unit < 32 || (127 <= unit && unit < 160) {
        0xfffd
    } else {
        unit
    }
}

/// What follows the names of so many sensors or effecters.
fn after_fields(count: usize, bytes: &[u8]) -> &[u8]
    ensures { result.now ≡ after_each after_names count bytes.now }
{
    let mut rest = bytes;
    for _ in 0..count {
        rest = after_names(rest);
    }
    rest
}

/// What follows the names of one sensor or effecter.
fn after_names(bytes: &[u8]) -> &[u8]
    ensures { result.now ≡ after_names bytes.now }
{
    match bytes {
        [] => bytes,
        [count, rest @ ..] => after_each_name(*count, rest),
    }
}

/// What follows so many names.
fn after_each_name(count: u8, bytes: &[u8]) -> &[u8]
    ensures { result.now ≡ after_each after_name count bytes.now }
{
    let mut rest = bytes;
    for _ in 0..count {
        rest = after_units(after_tag(rest));
    }
    rest
}

/// What follows a language tag.
fn after_tag(bytes: &[u8]) -> &[u8]
    ensures { result.now ≡ after_tag bytes.now }
{
    match bytes {
        [] => bytes,
        [0, rest @ ..] => rest,
        [_, rest @ ..] => after_tag(rest),
    }
}

/// What follows a text.
fn after_units(bytes: &[u8]) -> &[u8]
    ensures { result.now ≡ after_units bytes.now }
{
    match bytes {
        [] => bytes,
        [_] => &[],
        [0, 0, rest @ ..] => rest,
        [_, _, rest @ ..] => after_units(rest),
    }
}

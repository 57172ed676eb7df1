//! The decoded lines of auxiliary names: of sensors, effecters and entities (DSP0248).

ghost use Rattle.std.specs.Prelude.{◌≡◌, ◌++◌, IfOk, OnOk};
ghost use Rattle.std.specs.List.{flat_map};
ghost use Rattle.mctpctl_decode.specs.MeasureTexts.{entity_text};
ghost use Rattle.mctpctl_decode.specs.NameTexts.{after_each, after_name, after_names, after_tag, after_units, all_names_of, each_of, effecter_names_lines, effecter_text, entity_names_lines, is_plain, name_of, name_text, names_line, names_of, names_text, sensor_names_lines, sensor_text, tag_of, unit_text, units_of};
ghost use Rattle.mctpctl_decode.specs.RecordFields.{record_line};

use crate::field_text::push_word;
use crate::label::Label;
use crate::measure_text::push_entity;
use crate::record_field::push_number;
use mctp_packet::Memory;
use mctpctl_texts::{TextWriter, write_text};
use pldm_pdr::{EffecterNames, Entity, EntityNames, SensorNames};

/// Adds the lines of a sensor's names (DSP0248, "Sensor auxiliary names PDR").
#[tactic(auto, unfolding(crate::specs::NameTexts::sensor_names_lines))]
pub fn push_sensor_names(out: &mut Vec<u8>, names: &SensorNames) -> Result<(), Memory>
    ensures { OnOk result (out.new.items ≡ out.old.items ++ sensor_names_lines names.now) }
{
    push_sensor_line(out, names)?;
    push_all_names(out, &names.names)
}

/// Adds the line of which sensor it is.
#[tactic(auto, unfolding(crate::specs::RecordFields::record_line))]
fn push_sensor_line(out: &mut Vec<u8>, names: &SensorNames) -> Result<(), Memory>
    ensures { OnOk result (out.new.items ≡ out.old.items ++ record_line (sensor_text names.now)) }
{
    write_text(out, "   ")?;
    push_number(out, Label::Terminus, names.terminus_handle.into())?;
    push_number(out, Label::Sensor, names.sensor_id.into())?;
    write_text(out, "\n")
}

/// Adds the lines of an effecter's names (DSP0248, "Effecter auxiliary names PDR").
#[tactic(auto, unfolding(crate::specs::NameTexts::effecter_names_lines))]
pub fn push_effecter_names(out: &mut Vec<u8>, names: &EffecterNames) -> Result<(), Memory>
    ensures { OnOk result (out.new.items ≡ out.old.items ++ effecter_names_lines names.now) }
{
    push_effecter_line(out, names)?;
    push_all_names(out, &names.names)
}

/// Adds the line of which effecter it is.
#[tactic(auto, unfolding(crate::specs::RecordFields::record_line))]
fn push_effecter_line(out: &mut Vec<u8>, names: &EffecterNames) -> Result<(), Memory>
    ensures { OnOk result (out.new.items ≡ out.old.items ++ record_line (effecter_text names.now)) }
{
    write_text(out, "   ")?;
    push_number(out, Label::Terminus, names.terminus_handle.into())?;
    push_number(out, Label::Effecter, names.effecter_id.into())?;
    write_text(out, "\n")
}

/// Adds the lines of an entity's names (DSP0248, "Entity auxiliary names PDR").
#[tactic(auto, unfolding(crate::specs::NameTexts::entity_names_lines))]
pub fn push_entity_names(out: &mut Vec<u8>, names: &EntityNames) -> Result<(), Memory>
    ensures { OnOk result (out.new.items ≡ out.old.items ++ entity_names_lines names.now) }
{
    push_entity_line(out, &names.entity)?;
    push_names(out, &names.names)?;
    Ok(())
}

/// Adds the line of which entity it is.
#[tactic(auto, unfolding(crate::specs::RecordFields::record_line))]
fn push_entity_line(out: &mut Vec<u8>, entity: &Entity) -> Result<(), Memory>
    ensures { OnOk result (out.new.items ≡ out.old.items ++ record_line (entity_text entity.now)) }
{
    write_text(out, "   ")?;
    push_entity(out, entity)?;
    write_text(out, "\n")
}

/// Adds a line for the names of each sensor or effecter of a composite one.
fn push_all_names(out: &mut Vec<u8>, bytes: &[u8]) -> Result<(), Memory>
    ensures { OnOk result (out.new.items ≡ out.old.items ++ flat_map names_line (all_names_of bytes.now)) }
{
    match bytes {
        [] => Ok(()),
        [count, rest @ ..] => push_each_names(out, *count, rest),
    }
}

/// Adds a line for the names of each of so many sensors or effecters.
fn push_each_names(out: &mut Vec<u8>, count: u8, bytes: &[u8]) -> Result<(), Memory>
    ensures { OnOk result (out.new.items ≡ out.old.items
        ++ flat_map names_line (each_of names_of after_names count bytes.now)) }
{
    let mut rest = bytes;
    for _ in 0..count {
        rest = push_names(out, rest)?;
    }
    Ok(())
}

/// Adds a line of the names of one sensor, effecter or entity, and returns what is after them.
#[tactic(auto, unfolding(crate::specs::RecordFields::record_line))]
fn push_names<'a>(out: &mut Vec<u8>, bytes: &'a [u8]) -> Result<&'a [u8], Memory>
    ensures text { OnOk result (out.new.items ≡ out.old.items ++ names_line (names_of bytes.now)) }
    ensures rest { IfOk result (λ rest. rest.now ≡ after_names bytes.now) }
{
    write_text(out, "   ")?;
    let rest = push_counted_names(out, bytes)?;
    write_text(out, "\n")?;
    Ok(rest)
}

/// Adds the names of one sensor, effecter or entity, and returns what is after them.
#[tactic(auto, unfolding(crate::specs::NameTexts::names_text))]
fn push_counted_names<'a>(out: &mut Vec<u8>, bytes: &'a [u8]) -> Result<&'a [u8], Memory>
    ensures text { OnOk result (out.new.items ≡ out.old.items ++ names_text (names_of bytes.now)) }
    ensures rest { IfOk result (λ rest. rest.now ≡ after_names bytes.now) }
{
    push_word(out, "names")?;
    match bytes {
        [] => Ok(bytes),
        [count, rest @ ..] => push_each_name(out, *count, rest),
    }
}

/// Adds so many names, and returns what is after them.
fn push_each_name<'a>(out: &mut Vec<u8>, count: u8, bytes: &'a [u8]) -> Result<&'a [u8], Memory>
    ensures text { OnOk result (out.new.items ≡ out.old.items
        ++ flat_map name_text (each_of name_of after_name count bytes.now)) }
    ensures rest { IfOk result (λ rest. rest.now ≡ after_each after_name count bytes.now) }
{
    let mut rest = bytes;
    for _ in 0..count {
        rest = push_name(out, rest)?;
    }
    Ok(rest)
}

/// Adds a name, its language tag and its text, and returns what is after it.
#[tactic(auto, unfolding(crate::specs::NameTexts::name_text))]
fn push_name<'a>(out: &mut Vec<u8>, bytes: &'a [u8]) -> Result<&'a [u8], Memory>
    ensures text { OnOk result (out.new.items ≡ out.old.items ++ name_text (name_of bytes.now)) }
    ensures rest { IfOk result (λ rest. rest.now ≡ after_name bytes.now) }
{
    write_text(out, " \"")?;
    let rest = push_tag(out, bytes)?;
    write_text(out, "\" \"")?;
    let rest = push_units(out, rest)?;
    write_text(out, "\"")?;
    Ok(rest)
}

/// Adds a language tag, and returns what is after its zero byte.
fn push_tag<'a>(out: &mut Vec<u8>, bytes: &'a [u8]) -> Result<&'a [u8], Memory>
    ensures text { OnOk result (out.new.items ≡ out.old.items ++ flat_map unit_text (tag_of bytes.now)) }
    ensures rest { IfOk result (λ rest. rest.now ≡ after_tag bytes.now) }
{
    match bytes {
        [] => Ok(bytes),
        [0, rest @ ..] => Ok(rest),
        [byte, rest @ ..] => {
            push_code_unit(out, (*byte).into())?;
            push_tag(out, rest)
        }
    }
}

/// Adds a text, and returns what is after its zero unit.
fn push_units<'a>(out: &mut Vec<u8>, bytes: &'a [u8]) -> Result<&'a [u8], Memory>
    ensures text { OnOk result (out.new.items ≡ out.old.items ++ flat_map unit_text (units_of bytes.now)) }
    ensures rest { IfOk result (λ rest. rest.now ≡ after_units bytes.now) }
{
    match bytes {
        [] => Ok(bytes),
        [_] => Ok(&[]),
        [0, 0, rest @ ..] => Ok(rest),
        [high, low, rest @ ..] => {
            push_code_unit(out, 256 * u16::from(*high) + u16::from(*low))?;
            push_units(out, rest)
        }
    }
}

/// Adds a code unit of UTF-16 in printed ASCII: itself, or `\u` and four hex digits.
#[tactic(auto, unfolding(crate::specs::NameTexts::unit_text))]
fn push_code_unit(out: &mut Vec<u8>, unit: u16) -> Result<(), Memory>
    ensures { OnOk result (out.new.items ≡ out.old.items ++ unit_text unit) }
{
    if is_plain(unit) {
        return out.write_bytes(&[unit as u8]);
    }
    write_text(out, "\\u")?;
    out.write_hex(&unit.to_be_bytes())
}

/// Whether a code unit is a printed character of ASCII, neither the quotation mark nor the backslash.
fn is_plain(unit: u16) -> bool
    ensures { result ≡ is_plain unit }
{
    32 <= unit && unit <= 126 && unit != 34 && unit != 92
}

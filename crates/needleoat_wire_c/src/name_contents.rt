//! The records of the names of sensors, effecters and entities, made from the structs of C.

ghost use Rattle.std.specs.Prelude.{◌≡◌, ◌+◌, ◌++◌, ◌≤◌, length, option_map};
ghost use Rattle.arrayvec.specs.ArrayVec.{array_vec_len};
ghost use Rattle.pldm_pdr.specs.Names.{text_bytes};
ghost use Rattle.needleoat_wire_c.specs.NameForms.{effecter_name_in, effecter_name_record, entity_name_in, entity_name_record, name_in, name_of_one, one_name, sensor_name_in, sensor_name_record};

use crate::record_contents::entity_of;
use crate::record_forms::{EffecterNameFields, EntityNameFields, NAME_UNITS, SensorNameFields};
use crate::record_writing::record_of;
use arrayvec::ArrayVec;
use pldm_pdr::{EffecterNames, EntityNames, MAX_NAME_BYTES, Record, RecordData, SensorNames};

/// The record of a sensor's name that a struct is.
// Not inlined, as the others: what a record is made of is not on the stack when it is written.
#[inline(never)]
pub(crate) fn sensor_name_record(fields: &SensorNameFields) -> Option<Record>
    ensures { result ≡ sensor_name_record fields.now }
{
    let contents = RecordData::SensorNames(sensor_name_of(fields)?);
    record_of(fields.record_handle, fields.change_number, contents)
}

/// The record of an effecter's name that a struct is.
#[inline(never)]
pub(crate) fn effecter_name_record(fields: &EffecterNameFields) -> Option<Record>
    ensures { result ≡ effecter_name_record fields.now }
{
    let contents = RecordData::EffecterNames(effecter_name_of(fields)?);
    record_of(fields.record_handle, fields.change_number, contents)
}

/// The record of an entity's name that a struct is.
#[inline(never)]
pub(crate) fn entity_name_record(fields: &EntityNameFields) -> Option<Record>
    ensures { result ≡ entity_name_record fields.now }
{
    let contents = RecordData::EntityNames(entity_name_of(fields)?);
    record_of(fields.record_handle, fields.change_number, contents)
}

/// The name of a sensor that a struct is.
fn sensor_name_of(fields: &SensorNameFields) -> Option<SensorNames>
    ensures { result ≡ sensor_name_in fields.now }
{
    Some(SensorNames {
        terminus_handle: fields.terminus_handle,
        sensor_id: fields.sensor_id,
        names: name_of_one(fields.length, &fields.text)?,
    })
}

/// The name of an effecter that a struct is.
fn effecter_name_of(fields: &EffecterNameFields) -> Option<EffecterNames>
    ensures { result ≡ effecter_name_in fields.now }
{
    Some(EffecterNames {
        terminus_handle: fields.terminus_handle,
        effecter_id: fields.effecter_id,
        names: name_of_one(fields.length, &fields.text)?,
    })
}

/// The name of an entity that a struct is.
fn entity_name_of(fields: &EntityNameFields) -> Option<EntityNames>
    ensures { result ≡ entity_name_in fields.now }
{
    Some(EntityNames {
        entity: entity_of(&fields.entity),
        names: one_name(fields.length, &fields.text)?,
    })
}

/// The one name of the one sensor or effecter that a record is about.
fn name_of_one(length: u32, text: &[u16; NAME_UNITS]) -> Option<ArrayVec<u8, MAX_NAME_BYTES>>
    ensures { option_map (λ made. made.items) result ≡ option_map name_of_one (name_in length text.now) }
{
    let length = length as usize;
    if length > NAME_UNITS {
        return None;
    }
    let mut made = ArrayVec::<u8, MAX_NAME_BYTES>::new();
    let _ = made.try_extend_from_slice(b"\x01\x01en\0"); // it fits
    push_text(&mut made, &text[..length]);
    Some(made)
}

/// The one name of an entity.
fn one_name(length: u32, text: &[u16; NAME_UNITS]) -> Option<ArrayVec<u8, MAX_NAME_BYTES>>
    ensures { option_map (λ made. made.items) result ≡ option_map one_name (name_in length text.now) }
{
    let length = length as usize;
    if length > NAME_UNITS {
        return None;
    }
    let mut made = ArrayVec::<u8, MAX_NAME_BYTES>::new();
    let _ = made.try_extend_from_slice(b"\x01en\0"); // it fits
    push_text(&mut made, &text[..length]);
    Some(made)
}

/// Adds a text: each code unit, its higher byte first, and a zero unit.
fn push_text(out: &mut ArrayVec<u8, MAX_NAME_BYTES>, units: &[u16])
    requires room { array_vec_len out.old ≤ 5 }
    requires units { length units.now ≤ NAME_UNITS }
    ensures { out.new.items ≡ out.old.items ++ text_bytes units.now }
{
    for unit in units {
        out.push((*unit / 256) as u8);
        out.push((*unit % 256) as u8);
    }
    out.push(0);
    out.push(0);
}

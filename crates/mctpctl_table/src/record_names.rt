//! The name of a sensor or an effecter among records.

ghost use Rattle.std.specs.Prelude.{◌≡◌, ◌≤◌, ◌<◌, ◌+◌, ◌∷◌, [], IfOk, length, map, option_map};
ghost use Rattle.mctpctl_table.specs.NameRecords.{has_header, is_for, is_names_record, names_of, number_at};
ghost use Rattle.mctpctl_table.specs.Names.{name_text};
ghost use Rattle.mctpctl_table.specs.Rows.{name_at, name_cell};

use crate::identifier::Identifier;
use crate::name::name_text;
use crate::text::push_text;
use mctp_packet::Memory;
use pldm_pdr::RECORD_HEADER;
use std::alloc::Global;

/// The version of a record's header (DSP0248, "PDRHeaderVersion").
pub(crate) const HEADER_VERSION: u8 = 1;

/// The type of a record of a sensor's auxiliary names (DSP0248, "PDR type values").
pub(crate) const SENSOR_NAMES: u8 = 6;

/// The type of a record of an effecter's auxiliary names (DSP0248, "PDR type values").
pub(crate) const EFFECTER_NAMES: u8 = 13;

/// Where the names begin in such a record: after the header, the terminus handle and the ID.
pub(crate) const NAMES_PLACE: usize = 14;

/// The name of the sensor or effecter at a place of a composite one: the first of the first record that has its names;
/// a dash where there is none.
pub(crate) fn name_cell(
    alloc: Global,
    identifier: &Identifier,
    place: usize,
    records: &[Vec<u8>],
) -> Result<Vec<u8>, Memory>
    ensures { IfOk result (λ cell. cell.items ≡ name_cell identifier.now place
        (map (λ bytes. bytes.items) records.now)) }
{
    for bytes in records {
        if let Some(cell) = name_in_record(alloc, identifier, place, bytes)? {
            return Ok(cell);
        }
    }
    dash(alloc)
}

/// A copy of the name at this place; an empty text where there is none.
pub(crate) fn name_at(alloc: Global, names: &[Vec<u8>], place: usize) -> Result<Vec<u8>, Memory>
    ensures { IfOk result (λ cell. cell.items ≡ name_at (map (λ name. name.items) names.now) place) }
{
    match names.get(place) {
        Some(name) => Ok(name.clone()?),
        None => Ok(Vec::new(alloc)),
    }
}

/// A dash.
pub(crate) fn dash(alloc: Global) -> Result<Vec<u8>, Memory>
    ensures { IfOk result (λ cell. cell.items ≡ 45 ∷ []) }
{
    let mut cell = Vec::new(alloc);
    push_text(&mut cell, "-")?;
    Ok(cell)
}

/// The name that a record's bytes have.
fn name_in_record(
    alloc: Global,
    identifier: &Identifier,
    place: usize,
    bytes: &[u8],
) -> Result<Option<Vec<u8>>, Memory>
    ensures { IfOk result (λ cell. option_map (λ text. text.items) cell
        ≡ option_map (name_text place) (names_of identifier.now bytes.now)) }
{
    match names_of(identifier, bytes) {
        Some(names) => {
            let text = name_text(alloc, place, names)?;
            Ok(Some(text))
        }
        None => Ok(None),
    }
}

/// The names of a sensor or an effecter, where a record's bytes have them.
#[tactic(auto, unfolding(crate::specs::NameRecords::names_of))]
fn names_of<'a>(identifier: &Identifier, bytes: &'a [u8]) -> Option<&'a [u8]>
    ensures { option_map (λ names. names.now) result ≡ names_of identifier.now bytes.now }
{
    if bytes.len() >= NAMES_PLACE && is_names_record(identifier, bytes) {
        Some(&bytes[NAMES_PLACE..])
    } else {
        None
    }
}

/// Whether this is a record of the names of a sensor or an effecter.
fn is_names_record(identifier: &Identifier, bytes: &[u8]) -> bool
    requires { NAMES_PLACE ≤ length bytes.now }
    ensures { result ≡ is_names_record identifier.now bytes.now }
{
    match identifier {
        Identifier::Sensor { terminus, id } => {
            has_header(SENSOR_NAMES, bytes) && is_for(*terminus, *id, bytes)
        }
        Identifier::Effecter { terminus, id } => {
            has_header(EFFECTER_NAMES, bytes) && is_for(*terminus, *id, bytes)
        }
    }
}

/// Whether a record's header is of this type, and counts the bytes after it.
fn has_header(type_number: u8, bytes: &[u8]) -> bool
    requires { NAMES_PLACE ≤ length bytes.now }
    ensures { result ≡ has_header type_number bytes.now }
{
    bytes[4] == HEADER_VERSION
        && bytes[5] == type_number
        && usize::from(number_at(bytes, 8)) == bytes.len() - RECORD_HEADER
}

/// Whether a record of names is for this terminus and this ID.
fn is_for(terminus: u16, id: u16, bytes: &[u8]) -> bool
    requires { NAMES_PLACE ≤ length bytes.now }
    ensures { result ≡ is_for terminus id bytes.now }
{
    number_at(bytes, 10) == terminus && number_at(bytes, 12) == id
}

/// Two bytes as a number, the lower one first.
fn number_at(bytes: &[u8], place: usize) -> u16
    requires { place + 1 < length bytes.now }
    ensures { result ≡ number_at bytes.now place }
{
    u16::from(bytes[place]) + 256 * u16::from(bytes[place + 1])
}

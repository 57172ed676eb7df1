//! What a record describes, with the names of it that other records have: read once, for many rows.

ghost use Rattle.std.specs.Prelude.{◌≡◌, ◌++◌, IfOk, OnOk, map};
ghost use Rattle.mctpctl_table.specs.Rows.{described_of, first_names, names_for};

use crate::identifier::Identifier;
use crate::record_names::name_cell;
use mctp_packet::Memory;
use pldm_pdr::{Record, RecordData};
use std::alloc::Global;
use std::marker::Model;

/// What a record holds, and the names of the fields of the sensor or effecter that it describes (DSP0248, "Sensor
/// auxiliary names PDR", "Effecter auxiliary names PDR"). A table's rows are made from it, each time that the sensor or
/// effecter was read.
#[derive(Debug, Drop)]
pub struct Described {
    record: Record,
    names: Vec<Vec<u8>>,
}

impl Model for Described {
    ghost use Rattle.std.specs.Prelude.{map};
    ghost use Rattle.mctpctl_table.specs.Rows as rows;

    ghost Value = { rows.Described };

    ghost view = { λ d. record { contents = d.record.contents; names = map (λ name. name.items) d.names.items } };
}

impl Described {
    /// Reads a record's bytes, with its header, and looks for the names of its fields among `records`; `None` where
    /// they are no record.
    #[tactic(auto, unfolding(crate::specs::Rows::described_of))]
    pub fn read(
        alloc: Global,
        bytes: &[u8],
        records: &[Vec<u8>],
    ) -> Result<Option<Described>, Memory>
        ensures { IfOk result (λ described. described ≡ described_of bytes.now (map (λ pdr. pdr.items) records.now)) }
    {
        let Ok(record) = pldm_pdr::read(bytes) else {
            return Ok(None);
        };
        let names = names_for(alloc, record.contents(), records)?;
        Ok(Some(Described { record, names }))
    }

    /// What the record holds.
    pub(crate) fn contents(&self) -> &RecordData
        ensures { result.now ≡ self.now.contents }
    {
        self.record.contents()
    }

    /// The names, one for each field.
    pub(crate) fn names(&self) -> &[Vec<u8>]
        ensures { map (λ name. name.items) result.now ≡ self.now.names }
    {
        &self.names
    }
}

/// The names of the fields of the sensor or effecter that a record describes.
fn names_for(
    alloc: Global,
    contents: &RecordData,
    records: &[Vec<u8>],
) -> Result<Vec<Vec<u8>>, Memory>
    ensures { IfOk result (λ names. map (λ name. name.items) names.items
        ≡ names_for contents.now (map (λ pdr. pdr.items) records.now)) }
{
    match contents {
        RecordData::NumericSensor(sensor) => {
            let identifier = Identifier::Sensor {
                terminus: sensor.terminus_handle,
                id: sensor.sensor_id,
            };
            first_names(alloc, &identifier, 1, records)
        }
        RecordData::NumericEffecter(effecter) => {
            let identifier = Identifier::Effecter {
                terminus: effecter.terminus_handle,
                id: effecter.effecter_id,
            };
            first_names(alloc, &identifier, 1, records)
        }
        RecordData::StateSensor(sensor) => {
            let identifier = Identifier::Sensor {
                terminus: sensor.terminus_handle,
                id: sensor.sensor_id,
            };
            first_names(alloc, &identifier, sensor.sets.len(), records)
        }
        RecordData::StateEffecter(effecter) => {
            let identifier = Identifier::Effecter {
                terminus: effecter.terminus_handle,
                id: effecter.effecter_id,
            };
            first_names(alloc, &identifier, effecter.sets.len(), records)
        }
        _ => Ok(Vec::new(alloc)),
    }
}

/// The names of the first fields of a sensor or an effecter, so many.
fn first_names(
    alloc: Global,
    identifier: &Identifier,
    count: usize,
    records: &[Vec<u8>],
) -> Result<Vec<Vec<u8>>, Memory>
    ensures { IfOk result (λ names. map (λ name. name.items) names.items
        ≡ first_names identifier.now count (map (λ pdr. pdr.items) records.now)) }
{
    let mut names = Vec::new(alloc);
    for place in 0..count {
        let name = name_cell(alloc, identifier, place, records)?;
        names.push(name)?;
    }
    Ok(names)
}

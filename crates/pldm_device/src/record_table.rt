//! The table `records` of a description, and the records that it has made.

ghost use Rattle.std.specs.Prelude.{◌≡◌, Some};
ghost use Rattle.pldm_device.specs.FileFaults.{IsOrMemory};
ghost use Rattle.pldm_device.specs.RecordTables.{all_made, each_made, entity_named, entry_made, key_of, kind_made, records_if_there, table_made, terminus_located, terminus_made, things_made, with_records};
ghost use Rattle.toml.specs.View.{items_view, table_view, view};

use crate::SimDevice;
use crate::effecter_records::{numeric_effecter_made, state_effecter_made};
use crate::entries::entries_at;
use crate::keys::{table_in, value_if_any};
use crate::limits::TERMINUS_HANDLE;
use crate::made_records::{MadeRecords, with_made};
use crate::path::Path;
use crate::record_keys::{entity_at, name_at};
use crate::record_names::Name;
use crate::refusal::Refusal;
use crate::sensor_records::{numeric_sensor_made, state_sensor_made};
use pldm_pdr::{Entity, EntityNames, RecordData, TerminusLocator};
use pldm_records::Repository;
use std::alloc::Global;
use toml::{Table, Value};

/// The entity of a table that has none.
const NO_ENTITY: Entity = Entity {
    entity_type: 0,
    instance: 0,
    container_id: 0,
};

/// The kinds of things that have records.
#[derive(Clone, Copy, Debug)]
pub(crate) enum Kind {
    NumericSensors,
    StateSensors,
    NumericEffecters,
    StateEffecters,
}

/// The device with the records that the document's table has made after its own; without the table the device.
pub(crate) fn with_records(
    alloc: Global,
    document: &Table,
    eid: u8,
    device: SimDevice,
) -> Result<SimDevice, Refusal>
    ensures { IsOrMemory result (with_records eid (table_view document.now) device) }
{
    match value_if_any(document, "records") {
        Some(value) => with_table(alloc, document, eid, device, value),
        None => Ok(device),
    }
}

/// The device with the records that this table has made.
fn with_table(
    alloc: Global,
    document: &Table,
    eid: u8,
    mut device: SimDevice,
    value: &Value,
) -> Result<SimDevice, Refusal>
    ensures { IsOrMemory result (records_if_there eid (table_view document.now) device (Some (view value.now))) }
{
    let table = table_in(value, Path::whole().key("records"))?;
    let before = device.replace_records(Repository::new(alloc));
    let at = Path::table("records");
    let records = table_made(alloc, document, eid, &device, before, table, at)?;
    let _ = device.replace_records(records);
    Ok(device)
}

/// The records that the table has made, after those before: of the terminus, and then of each thing.
#[tactic(auto, unfolding(crate::specs::RecordTables::table_made))]
fn table_made(
    alloc: Global,
    document: &Table,
    eid: u8,
    device: &SimDevice,
    before: Repository,
    table: &Table,
    at: Path<'static>,
) -> Result<Repository, Refusal>
    ensures { IsOrMemory result (table_made eid (table_view document.now) device.now before (table_view table.now)) }
{
    let name = name_at(table, at)?;
    let entity = entity_at(table, NO_ENTITY, at)?;
    all_made(alloc, document, eid, device, entity, name, before)
}

/// The same for a table of this entity and name.
#[tactic(auto, unfolding(crate::specs::RecordTables::all_made))]
fn all_made(
    alloc: Global,
    document: &Table,
    eid: u8,
    device: &SimDevice,
    entity: Entity,
    name: Option<Name>,
    before: Repository,
) -> Result<Repository, Refusal>
    ensures { IsOrMemory result (all_made eid (table_view document.now) device.now entity name before) }
{
    let located = terminus_made(alloc, eid, device.tid(), entity, name, before)?;
    let made = things_made(alloc, device, entity, document, located)?;
    Ok(made.records)
}

/// The records of the terminus, after those before: where it is, and its name.
#[tactic(auto, unfolding(crate::specs::RecordTables::terminus_made))]
fn terminus_made(
    alloc: Global,
    eid: u8,
    tid: u8,
    entity: Entity,
    name: Option<Name>,
    before: Repository,
) -> Result<MadeRecords, Refusal>
    ensures { IsOrMemory result (terminus_made eid tid entity name before) }
{
    let locator = terminus_located(eid, tid, entity);
    let located = with_made(alloc, MadeRecords::after(before), locator)?;
    entity_named(alloc, entity, name, located)
}

/// The records of each thing of the device, after these.
#[tactic(auto, unfolding(crate::specs::RecordTables::things_made))]
fn things_made(
    alloc: Global,
    device: &SimDevice,
    default: Entity,
    document: &Table,
    made: MadeRecords,
) -> Result<MadeRecords, Refusal>
    ensures { IsOrMemory result (things_made device.now default (table_view document.now) made) }
{
    let sensors = kind_made(alloc, Kind::NumericSensors, device, default, document, made)?;
    let sensors = kind_made(
        alloc,
        Kind::StateSensors,
        device,
        default,
        document,
        sensors,
    )?;
    let effecters = kind_made(
        alloc,
        Kind::NumericEffecters,
        device,
        default,
        document,
        sensors,
    )?;
    kind_made(
        alloc,
        Kind::StateEffecters,
        device,
        default,
        document,
        effecters,
    )
}

/// The record of the terminus with this ID, at the endpoint with this ID.
fn terminus_located(eid: u8, tid: u8, entity: Entity) -> RecordData
    ensures { result ≡ terminus_located eid tid entity }
{
    RecordData::TerminusLocator(TerminusLocator {
        terminus_handle: TERMINUS_HANDLE,
        is_valid: true,
        tid,
        container_id: entity.container_id,
        eid,
    })
}

/// The record of the terminus' name, where it has one, after these.
fn entity_named(
    alloc: Global,
    entity: Entity,
    name: Option<Name>,
    made: MadeRecords,
) -> Result<MadeRecords, Refusal>
    ensures { IsOrMemory result (entity_named entity name made) }
{
    match name {
        Some(name) => {
            let names = EntityNames {
                entity,
                names: name.alone(),
            };
            with_made(alloc, made, RecordData::EntityNames(names))
        }
        None => Ok(made),
    }
}

/// The records of each thing of a kind, in the order of its list.
#[tactic(auto, unfolding(crate::specs::RecordTables::kind_made))]
fn kind_made(
    alloc: Global,
    kind: Kind,
    device: &SimDevice,
    default: Entity,
    document: &Table,
    made: MadeRecords,
) -> Result<MadeRecords, Refusal>
    ensures { IsOrMemory result (kind_made kind device.now default (table_view document.now) made) }
{
    let entries = entries_at(document, key_of(kind))?;
    each_made(alloc, kind, device, default, entries, made)
}

/// The list of a kind of things.
fn key_of(kind: Kind) -> &'static str
    ensures { result.now ≡ key_of kind }
{
    match kind {
        Kind::NumericSensors => "numeric_sensor",
        Kind::StateSensors => "state_sensor",
        Kind::NumericEffecters => "numeric_effecter",
        Kind::StateEffecters => "state_effecter",
    }
}

/// The records of each of these entries.
fn each_made(
    alloc: Global,
    kind: Kind,
    device: &SimDevice,
    default: Entity,
    entries: &[Value],
    made: MadeRecords,
) -> Result<MadeRecords, Refusal>
    ensures { IsOrMemory result (each_made kind device.now default made (items_view entries.now)) }
{
    let mut made = made;
    for (place, entry) in entries.iter().enumerate() {
        let at = Path::entry(key_of(kind), place);
        made = entry_made(alloc, kind, device, default, table_in(entry, at)?, made, at)?;
    }
    Ok(made)
}

/// The records of an entry.
fn entry_made(
    alloc: Global,
    kind: Kind,
    device: &SimDevice,
    default: Entity,
    entry: &Table,
    made: MadeRecords,
    at: Path<'static>,
) -> Result<MadeRecords, Refusal>
    ensures { IsOrMemory result (entry_made kind device.now default (table_view entry.now) made) }
{
    match kind {
        Kind::NumericSensors => {
            numeric_sensor_made(alloc, &device.numeric_sensors, default, entry, made, at)
        }
        Kind::StateSensors => state_sensor_made(
            alloc,
            &device.state_sensors,
            default,
            entry,
            made,
            at,
        ),
        Kind::NumericEffecters => {
            numeric_effecter_made(alloc, &device.numeric_effecters, default, entry, made, at)
        }
        Kind::StateEffecters => {
            state_effecter_made(alloc, &device.state_effecters, default, entry, made, at)
        }
    }
}

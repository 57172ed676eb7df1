//! The records of a description.

ghost use Rattle.std.specs.Prelude.{◌≡◌, ◌≤◌, [], is_none, length};
ghost use Rattle.pldm_device.specs.FileFaults.{IsOrMemory};
ghost use Rattle.pldm_device.specs.RecordEntries.{record_in, record_of, records_after, records_in};
ghost use Rattle.pldm_records.specs.Records.{is_record};
ghost use Rattle.toml.specs.View.{items_view, table_view, view};

use crate::allowed::{Allowed, RecordFlaw};
use crate::description_fault::FileFault;
use crate::entries::entries_at;
use crate::hex_values::bytes_in;
use crate::keys::{table_in, value_at};
use crate::limits::MAX_ENTRIES;
use crate::path::Path;
use crate::refusal::Refusal;
use pldm_records::{Record, Repository};
use std::alloc::Global;
use toml::{Table, Value};

/// The records of a description, in the order of its text.
pub(crate) fn records_in(alloc: Global, table: &Table) -> Result<Repository, Refusal>
    ensures { IsOrMemory result (records_in (table_view table.now)) }
{
    records_of(alloc, entries_at(table, "pdr")?)
}

fn records_of(alloc: Global, entries: &[Value]) -> Result<Repository, Refusal>
    requires { length entries.now ≤ MAX_ENTRIES }
    ensures { IsOrMemory result (records_after [] (items_view entries.now)) }
{
    let mut records = Repository::new(alloc);
    for (place, entry) in entries.iter().enumerate() {
        let at = Path::entry("pdr", place);
        let record = record_of(alloc, entry, at)?;
        if let Some(earlier) = records.position_of(record.handle()) {
            let allowed = Allowed::Untaken {
                number: record.handle(),
                list: "pdr",
                entry: earlier,
            };
            return Err(Refusal::new(FileFault::Duplicate, at, allowed));
        }
        records.push(record)?;
    }
    Ok(records)
}

fn record_of(alloc: Global, entry: &Value, at: Path<'static>) -> Result<Record, Refusal>
    ensures { IsOrMemory result (record_of (view entry.now)) }
{
    record_in(alloc, table_in(entry, at)?, at)
}

/// The record of the entry at this path; `BadRecord` where its bytes are none.
fn record_in(alloc: Global, entry: &Table, at: Path<'static>) -> Result<Record, Refusal>
    ensures { IsOrMemory result (record_in (table_view entry.now)) }
{
    let value = value_at(entry, "hex", at, Allowed::RecordText)?;
    let at = at.key("hex");
    let bytes = bytes_in(alloc, value, at, Allowed::HexText)?;
    if let Some(flaw) = flaw_of(bytes.as_slice()) {
        return Err(Refusal::new(FileFault::BadRecord, at, Allowed::Record(flaw)));
    }
    Ok(Record::new(bytes).unwrap())
}

/// Why the bytes are no record; `None` where they are one.
fn flaw_of(bytes: &[u8]) -> Option<RecordFlaw>
    ensures { is_none result ≡ is_record bytes.now }
{
    let [h0, h1, h2, h3, version, _, _, _, l0, l1, data @ ..] = bytes else {
        return Some(RecordFlaw::Short);
    };
    if u32::from_le_bytes([*h0, *h1, *h2, *h3]) == 0 {
        return Some(RecordFlaw::NoHandle);
    }
    if *version != 1 {
        return Some(RecordFlaw::Version);
    }
    if data.len() != usize::from(u16::from_le_bytes([*l0, *l1])) {
        return Some(RecordFlaw::Count);
    }
    None
}

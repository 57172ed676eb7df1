//! The lists of sensors, effecters and records in a description.

ghost use Rattle.std.specs.Prelude.{◌≡◌, ◌≤◌, IfOk, length};
ghost use Rattle.pldm_device.specs.Entries.{entries_at, id_at, not_too_many};
ghost use Rattle.pldm_device.specs.KeyValues.{map_ok};
ghost use Rattle.toml.specs.View.{items_view, table_view};

use crate::allowed::Allowed;
use crate::description_fault::FileFault;
use crate::keys::{array_in, number_at, value_if_any};
use crate::limits::{MAX_ENTRIES, MAX_ID};
use crate::path::Path;
use crate::refusal::Refusal;
use toml::{Table, Value};

/// The entries of the list at the key, none where there is no list; `OutOfRange` where they are too
/// many.
pub(crate) fn entries_at<'a>(table: &'a Table, key: &'static str) -> Result<&'a [Value], Refusal>
    ensures value { map_ok (λ items. items_view items.now) result ≡ entries_at key.now (table_view table.now) }
    ensures count { IfOk result (λ items. length items.now ≤ MAX_ENTRIES) }
{
    match value_if_any(table, key) {
        Some(value) => {
            let at = Path::whole().key(key);
            not_too_many(array_in(value, at, Allowed::Tables(MAX_ENTRIES))?, at)
        }
        None => Ok(&[]),
    }
}

/// The entries; `OutOfRange` where they are too many.
#[tactic(auto, using(crate::proofs::Counts::counted))]
fn not_too_many<'a>(entries: &'a [Value], at: Path<'static>) -> Result<&'a [Value], Refusal>
    ensures value { map_ok (λ items. items_view items.now) result ≡ not_too_many (items_view entries.now) }
    ensures count { IfOk result (λ items. length items.now ≤ MAX_ENTRIES) }
{
    if entries.len() <= MAX_ENTRIES {
        Ok(entries)
    } else {
        Err(Refusal::new(FileFault::OutOfRange, at, Allowed::Tables(MAX_ENTRIES)))
    }
}

/// The ID of the entry at this path.
pub(crate) fn id_at(entry: &Table, at: Path<'static>) -> Result<u16, Refusal>
    ensures { result ≡ id_at (table_view entry.now) }
{
    let id = number_at(entry, "id", 0, MAX_ID, at)?;
    Ok(id as u16)
}

/// Refuses the ID of the entry at this path, since an entry of the list has it.
pub(crate) fn id_taken(document: &Table, list: &'static str, id: u16, at: Path<'static>) -> Refusal
    ensures { result ≡ FileFault.Duplicate }
{
    let number = id.into();
    let entry = first_with_id(document, list, number);
    let allowed = Allowed::Untaken {
        number,
        list,
        entry,
    };
    Refusal::new(FileFault::Duplicate, at, allowed)
}

/// The first entry of a list that has the ID; 0 where none has.
fn first_with_id(document: &Table, list: &'static str, id: u32) -> usize {
    let Ok(entries) = entries_at(document, list) else {
        return 0;
    };
    for (place, entry) in entries.iter().enumerate() {
        if let Some(entry) = entry.as_table()
            && let Some(value) = value_if_any(entry, "id")
            && value.as_integer() == Some(id.into())
        {
            return place;
        }
    }
    0
}

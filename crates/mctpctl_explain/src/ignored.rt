//! What of a description is ignored.

use crate::explanation::Subcommand;
use crate::input_warnings::MAX_WARNINGS;
use crate::known_keys::{CONTROL_KEYS, LISTS, RECORDS_KEYS, SERVED_KEYS, TOP_KEYS, entry_keys};
use crate::paths::path_text;
use crate::places::Places;
use crate::quote::quoted;
use crate::suggest::suggestion;
use mctp_packet::Memory;
use pldm_device::Path;
use std::alloc::{AllocError, Global};
use toml::{Table, Value};

/// What of a description is ignored: keys that it does not have, and in a run a busy time that refuses settings alone.
pub(crate) fn ignored_keys(
    alloc: Global,
    subject: Subcommand,
    description: &[u8],
    found: &mut Vec<String>,
) -> Result<(), Memory> {
    let table = match toml::table_from_slice(alloc, description) {
        Ok(table) => table,
        Err(error) if error.is_memory() => return Err(AllocError.into()),
        Err(_) => return Ok(()),
    };
    let places = Places::read(alloc, description)?;
    if subject == Subcommand::Serve {
        warn_of_keys(alloc, &places, &table, Path::whole(), &SERVED_KEYS, found)?;
        unknown_in_table(alloc, &places, &table, "control", &CONTROL_KEYS, found)?;
    } else {
        warn_of_keys(alloc, &places, &table, Path::whole(), &TOP_KEYS, found)?;
    }
    if subject == Subcommand::Run && sets_alone(&table) {
        warn_of_busy_time(alloc, &places, found)?;
    }
    unknown_in_table(alloc, &places, &table, "records", &RECORDS_KEYS, found)?;
    for list in LISTS.iter() {
        if let Some(value) = table.get(*list)
            && let Some(entries) = value.as_array()
        {
            unknown_in_list(alloc, &places, list, entries.as_slice(), found)?;
        }
    }
    Ok(())
}

/// Whether the key `busy` says that only what sets something is refused in the busy time.
fn sets_alone(table: &Table) -> bool {
    match table.get("busy") {
        Some(value) => value.as_str() == Some("sets"),
        None => false,
    }
}

/// Warns that a run refuses all in the busy time.
fn warn_of_busy_time(
    alloc: Global,
    places: &Places<'_>,
    found: &mut Vec<String>,
) -> Result<(), Memory> {
    if found.len() < MAX_WARNINGS {
        let place = places.front_of(alloc, Path::whole().key("busy"))?;
        found.push(format!(in alloc;
            "{place}`busy = \"sets\"` is ignored: in the busy time a run refuses all requests"
        )?)?;
    }
    Ok(())
}

/// The keys of a table of the description that are ignored: those that are none of the known ones.
fn unknown_in_table(
    alloc: Global,
    places: &Places<'_>,
    description: &Table,
    name: &'static str,
    known: &[&str],
    found: &mut Vec<String>,
) -> Result<(), Memory> {
    let Some(value) = description.get(name) else {
        return Ok(());
    };
    match value.as_table() {
        Some(table) => warn_of_keys(alloc, places, table, Path::table(name), known, found),
        None => Ok(()),
    }
}

/// The keys of the entries of a list that are ignored.
fn unknown_in_list(
    alloc: Global,
    places: &Places<'_>,
    list: &str,
    entries: &[Value],
    found: &mut Vec<String>,
) -> Result<(), Memory> {
    for (place, entry) in entries.iter().enumerate() {
        if let Some(entry) = entry.as_table() {
            let path = Path::entry(list, place);
            warn_of_keys(alloc, places, entry, path, entry_keys(list), found)?;
        }
    }
    Ok(())
}

/// The keys of a table at this path that are ignored: those that are none of the known ones.
fn warn_of_keys(
    alloc: Global,
    places: &Places<'_>,
    table: &Table,
    path: Path<'_>,
    known: &[&str],
    found: &mut Vec<String>,
) -> Result<(), Memory> {
    for key in table.keys() {
        let key = key.as_str();
        if found.len() < MAX_WARNINGS && !known.contains(&key) {
            let path = path.key(key);
            let place = places.front_of(alloc, path)?;
            let name = path_text(alloc, &path)?;
            let name = quoted(alloc, name.as_bytes())?;
            let hint = suggestion(alloc, key.as_bytes(), known)?;
            found.push(format!(in alloc;
                "{place}{name} is no key of a description, and is ignored{hint}"
            )?)?;
        }
    }
    Ok(())
}

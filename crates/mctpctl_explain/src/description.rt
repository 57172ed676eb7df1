//! Why a description was refused, in words.

ghost use Rattle.std.specs.Prelude.{IfOk, string_bytes};
ghost use Rattle.mctpctl_explain.specs.Reasons.{IsReason, Explains};

use crate::allowed::{allowed_text, flaw_text};
use crate::paths::path_text;
use crate::place::Place;
use crate::places::Places;
use crate::quote::quoted;
use mctp_packet::Memory;
use pldm_device::{Allowed, FileFault, Path, Refusal};
use std::alloc::Global;
use toml::{Table, Value};

/// Says why a description was refused: the path, its line and column, what was found there and what is allowed, as its
/// reader returned them; for text that is no TOML the parser's own message.
#[tactic(auto, using(crate::proofs::Explained::explained_at))]
pub(crate) fn explain_description(
    alloc: Global,
    description: &[u8],
    refusal: &Refusal,
) -> Result<String, Memory>
    ensures { IfOk result (λ text. Explains refusal.now (string_bytes text)) }
{
    let document = match toml::table_from_slice(alloc, description) {
        Ok(document) => document,
        Err(error) => {
            return match refusal.fault() {
                FileFault::Toml => explain_toml(alloc, description, &error),
                _ => Ok(String::new(alloc)),
            };
        }
    };
    let reason = reason_text(alloc, value_at(&document, &refusal.path), refusal)?;
    if reason.is_empty() {
        return Ok(String::new(alloc));
    }
    let places = Places::read(alloc, description)?;
    let place = places.front_of(alloc, refusal.path)?;
    let path = path_text(alloc, &refusal.path)?;
    let front = format!(in alloc; "{place}{path}: ")?;
    Ok(format!(in alloc; "{front}{reason}")?)
}

/// Why the value at the refusal's path was refused; nothing where the refusal does not say what is allowed.
#[tactic(auto, using(crate::proofs::Explained::flaw_explained))]
fn reason_text(alloc: Global, value: Option<&Value>, refusal: &Refusal) -> Result<String, Memory>
    ensures { IfOk result (λ text. IsReason refusal.now (string_bytes text)) }
{
    let allowed = refusal.allowed;
    match refusal.fault() {
        FileFault::MissingKey => needed_text(alloc, allowed),
        FileFault::WrongKind => found_text(alloc, value, allowed),
        FileFault::OutOfRange => found_text(alloc, value, allowed),
        FileFault::BadHex => found_text(alloc, value, allowed),
        FileFault::Duplicate => taken_text(alloc, allowed),
        FileFault::BadRecord => Ok(String::from_str(alloc, flaw_text(allowed))?),
        FileFault::Toml | FileFault::Memory(_) => Ok(String::new(alloc)),
    }
}

/// What is needed where a key is missing.
#[tactic(auto, using(crate::proofs::Explained::explained))]
fn needed_text(alloc: Global, needed: Allowed) -> Result<String, Memory>
    ensures { IfOk result (λ text. IsReason FileFault.MissingKey (string_bytes text)) }
{
    let needed = allowed_text(alloc, needed)?;
    if needed.is_empty() {
        return Ok(String::new(alloc));
    }
    Ok(format!(in alloc; "the key is missing, needed is {needed}")?)
}

/// What was found in place of what is allowed.
#[tactic(auto, using(crate::proofs::Explained::explained))]
fn found_text(alloc: Global, value: Option<&Value>, allowed: Allowed) -> Result<String, Memory>
    ensures { IfOk result (λ text. IsReason FileFault.WrongKind (string_bytes text)) }
{
    let Some(value) = value else {
        return Ok(String::new(alloc));
    };
    let found = value_text(alloc, value)?;
    let allowed = allowed_text(alloc, allowed)?;
    Ok(format!(in alloc; "found {found}, allowed is {allowed}")?)
}

/// Which entry has the number of another one.
#[tactic(auto, using(crate::proofs::Explained::explained))]
fn taken_text(alloc: Global, allowed: Allowed) -> Result<String, Memory>
    ensures { IfOk result (λ text. IsReason FileFault.Duplicate (string_bytes text)) }
{
    let Allowed::Untaken {
        number,
        list,
        entry,
    } = allowed
    else {
        return Ok(String::new(alloc));
    };
    Ok(format!(in alloc; "found {number}, which {list}[{entry}] has already")?)
}

/// A value in words.
fn value_text(alloc: Global, value: &Value) -> Result<String, Memory> {
    if let Some(number) = value.as_integer() {
        return Ok(format!(in alloc; "{number}")?);
    }
    if let Some(text) = value.as_str() {
        return quoted(alloc, text.as_bytes());
    }
    if let Some(items) = value.as_array() {
        let count = items.len();
        return Ok(format!(in alloc; "an array of {count}")?);
    }
    let kind = value.type_str();
    Ok(format!(in alloc; "a {kind}")?)
}

/// The parser's own message, and where it stopped.
fn explain_toml(
    alloc: Global,
    description: &[u8],
    error: &toml::de::Error,
) -> Result<String, Memory> {
    let Some(span) = error.span() else {
        return Ok(String::new(alloc));
    };
    let place = Place::at(description, span.start).text(alloc)?;
    let message = error.message();
    Ok(format!(in alloc; "{place}: {message}")?)
}

/// The value at a path of a document; `None` where there is none.
fn value_at<'t>(document: &'t Table, path: &Path<'_>) -> Option<&'t Value> {
    let mut value = match path.list {
        Some(list) => in_list(document.get(list)?, path)?,
        None => document.get(path.key?)?,
    };
    for item in path.items.iter() {
        if let Some(item) = item {
            value = value.as_array()?.as_slice().get(*item)?;
        }
    }
    Some(value)
}

/// The value at the entry and the key of a path, in its list or its table.
fn in_list<'t>(list: &'t Value, path: &Path<'_>) -> Option<&'t Value> {
    let mut value = list;
    if let Some(entry) = path.entry {
        value = value.as_array()?.as_slice().get(entry)?;
    }
    match path.key {
        Some(key) => value.as_table()?.get(key),
        None => Some(value),
    }
}

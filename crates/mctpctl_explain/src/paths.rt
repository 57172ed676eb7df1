//! Paths of values in a description: their text, and what a value is in.

ghost use Rattle.std.specs.Prelude.{◌≡◌, ◌++◌, IfOk, OnOk, string_bytes};
ghost use Rattle.mctpctl_explain.specs.PathTexts.{index_bytes, key_bytes, name_bytes, path_bytes};

use mctp_packet::Memory;
use pldm_device::Path;
use std::alloc::Global;

/// The path as text, as `numeric_effecter[2].max`.
pub(crate) fn path_text(alloc: Global, path: &Path<'_>) -> Result<String, Memory>
    ensures { IfOk result (λ text. string_bytes text ≡ path_bytes path.now) }
{
    let mut text = String::new(alloc);
    push_name(&mut text, path.list)?;
    push_index(alloc, &mut text, path.entry)?;
    push_key(&mut text, path.list, path.key)?;
    let [first, second] = path.items;
    push_index(alloc, &mut text, first)?;
    push_index(alloc, &mut text, second)?;
    Ok(text)
}

/// Adds a name, where there is one.
fn push_name(text: &mut String, name: Option<&str>) -> Result<(), Memory>
    ensures { OnOk result (string_bytes text.new ≡ string_bytes text.old ++ name_bytes name.entry) }
{
    if let Some(name) = name {
        text.push_str(name)?;
    }
    Ok(())
}

/// Adds a key, where there is one, behind a point where it is in a list or a table.
fn push_key(text: &mut String, list: Option<&str>, key: Option<&str>) -> Result<(), Memory>
    ensures { OnOk result (string_bytes text.new ≡ string_bytes text.old ++ key_bytes list.entry key.entry) }
{
    match (list, key) {
        (Some(_), Some(key)) => {
            text.push_str(".")?;
            text.push_str(key)?;
        }
        (None, Some(key)) => text.push_str(key)?,
        (_, None) => {}
    }
    Ok(())
}

/// Adds a number in brackets, where there is one.
fn push_index(alloc: Global, text: &mut String, index: Option<usize>) -> Result<(), Memory>
    ensures { OnOk result (string_bytes text.new ≡ string_bytes text.old ++ index_bytes index) }
{
    if let Some(index) = index {
        text.push_str(format!(in alloc; "[{index}]")?.as_str())?;
    }
    Ok(())
}

/// The path of what this is in; `None` for a key or a list of the whole description.
pub(crate) fn parent_of<'a>(path: Path<'a>) -> Option<Path<'a>> {
    match (path.items, path.list, path.key) {
        ([first, Some(_)], _, _) => Some(Path {
            items: [first, None],
            ..path
        }),
        ([Some(_), None], _, _) => Some(Path {
            items: [None, None],
            ..path
        }),
        (_, Some(_), Some(_)) => Some(Path { key: None, ..path }),
        _ => None,
    }
}

//! Auxiliary names as a record has them: whole names, found and kept.

ghost use Rattle.std.specs.Prelude.{◌≡◌, ◌≤◌, length};
ghost use Rattle.pldm_pdr.specs.Fields.{Gives};
ghost use Rattle.pldm_pdr.specs.StateSets.{kept};
ghost use Rattle.pldm_pdr.specs.Names.{all_names_end, are_all_names, are_names, each_name_end, each_names_end, name_end, names_end, tag_end, text_end, text_to};

use crate::fields::byte_in;
use crate::{MAX_NAME_BYTES, RecordFault};
use arrayvec::ArrayVec;

/// The names of one sensor, effecter or entity, and the bytes after them.
#[tactic(auto, unfolding(crate::specs::Fields::and_then, crate::specs::Fields::refused, crate::specs::Names::text_to))]
pub(crate) fn names_in(bytes: &[u8]) -> Result<(ArrayVec<u8, MAX_NAME_BYTES>, &[u8]), RecordFault>
    ensures { Gives (λ x. (x.0.items, x.1.now)) result (text_to bytes.now (names_end bytes.now)) }
{
    let rest = names_end(bytes)?;
    let (text, rest) = bytes.split_at(bytes.len().saturating_sub(rest.len()));
    if text.len() > MAX_NAME_BYTES {
        return Err(RecordFault::Names);
    }
    Ok((kept(text), rest))
}

/// The names of each sensor or effecter of a composite one, and the bytes after them.
#[tactic(auto, unfolding(crate::specs::Fields::and_then, crate::specs::Fields::refused, crate::specs::Names::text_to))]
pub(crate) fn all_names_in(
    bytes: &[u8],
) -> Result<(ArrayVec<u8, MAX_NAME_BYTES>, &[u8]), RecordFault>
    ensures { Gives (λ x. (x.0.items, x.1.now)) result (text_to bytes.now (all_names_end bytes.now)) }
{
    let rest = all_names_end(bytes)?;
    let (text, rest) = bytes.split_at(bytes.len().saturating_sub(rest.len()));
    if text.len() > MAX_NAME_BYTES {
        return Err(RecordFault::Names);
    }
    Ok((kept(text), rest))
}

/// These bytes, which are not too many.
fn kept(text: &[u8]) -> ArrayVec<u8, MAX_NAME_BYTES>
    requires { length text.now ≤ MAX_NAME_BYTES }
    ensures { result ≡ kept text.now }
{
    let mut names = ArrayVec::new();
    let _ = names.try_extend_from_slice(text); // they fit
    names
}

/// Whether these bytes are the names of one sensor, effecter or entity.
#[tactic(auto, unfolding(crate::specs::Fields::and_then, crate::specs::Names::is_all))]
pub(crate) fn are_names(text: &[u8]) -> bool
    ensures { result ≡ are_names text.now }
{
    match names_end(text) {
        Ok(rest) => rest.is_empty() && text.len() <= MAX_NAME_BYTES,
        Err(_) => false,
    }
}

/// Whether these bytes are the names of each sensor or effecter of a composite one.
#[tactic(auto, unfolding(crate::specs::Fields::and_then, crate::specs::Names::is_all))]
pub(crate) fn are_all_names(text: &[u8]) -> bool
    ensures { result ≡ are_all_names text.now }
{
    match all_names_end(text) {
        Ok(rest) => rest.is_empty() && text.len() <= MAX_NAME_BYTES,
        Err(_) => false,
    }
}

/// What follows the names of each sensor or effecter.
#[tactic(auto, unfolding(crate::specs::Fields::and_then, crate::specs::Names::all_names_end))]
fn all_names_end(bytes: &[u8]) -> Result<&[u8], RecordFault>
    ensures { Gives (λ rest. rest.now) result (all_names_end bytes.now) }
{
    let (count, rest) = byte_in(bytes)?;
    each_names_end(count, rest)
}

/// What follows the names of so many sensors or effecters.
fn each_names_end(count: u8, bytes: &[u8]) -> Result<&[u8], RecordFault>
    ensures { Gives (λ rest. rest.now) result (each_names_end count bytes.now) }
{
    let mut rest = bytes;
    for _ in 0..count {
        rest = names_end(rest)?;
    }
    Ok(rest)
}

/// What follows the names of one sensor, effecter or entity.
#[tactic(auto, unfolding(crate::specs::Fields::and_then, crate::specs::Names::names_end))]
fn names_end(bytes: &[u8]) -> Result<&[u8], RecordFault>
    ensures { Gives (λ rest. rest.now) result (names_end bytes.now) }
{
    let (count, rest) = byte_in(bytes)?;
    each_name_end(count, rest)
}

/// What follows so many names.
fn each_name_end(count: u8, bytes: &[u8]) -> Result<&[u8], RecordFault>
    ensures { Gives (λ rest. rest.now) result (each_name_end count bytes.now) }
{
    let mut rest = bytes;
    for _ in 0..count {
        rest = name_end(rest)?;
    }
    Ok(rest)
}

/// What follows a name: its language tag and its text.
#[tactic(auto, unfolding(crate::specs::Fields::and_then, crate::specs::Names::name_end))]
fn name_end(bytes: &[u8]) -> Result<&[u8], RecordFault>
    ensures { Gives (λ rest. rest.now) result (name_end bytes.now) }
{
    let rest = tag_end(bytes)?;
    text_end(rest)
}

/// What follows a language tag: ASCII, and a zero byte.
#[tactic(auto, unfolding(crate::specs::Names::tag_end))]
fn tag_end(bytes: &[u8]) -> Result<&[u8], RecordFault>
    ensures { Gives (λ rest. rest.now) result (tag_end bytes.now) }
{
    let mut rest = bytes;
    'bytes: while let [byte, after @ ..] = rest {
        if *byte == 0 {
            return Ok(after);
        }
        if *byte >= 128 {
            return Err(RecordFault::Tag);
        }
        rest = after;
    }
    Err(RecordFault::Short)
}

/// What follows a text: code units of UTF-16, and a zero unit.
#[tactic(auto, unfolding(crate::specs::Names::text_end))]
fn text_end(bytes: &[u8]) -> Result<&[u8], RecordFault>
    ensures { Gives (λ rest. rest.now) result (text_end bytes.now) }
{
    let mut rest = bytes;
    'units: while let [high, low, after @ ..] = rest {
        if *high == 0 && *low == 0 {
            return Ok(after);
        }
        rest = after;
    }
    Err(RecordFault::Short)
}

//! Names in a description, and their text in records.

ghost use Rattle.std.specs.List.{list_all};
ghost use Rattle.std.specs.Prelude.{◌≡◌, ◌+◌, ◌*◌, ◌≤◌, ◌++◌, IfSome, is_some, length, replicate};
ghost use Rattle.arrayvec.specs.ArrayVec.{array_vec_len};
ghost use Rattle.pldm_device.specs.RecordNames.{is_name, is_printable, name_of_first, one_name};
ghost use Rattle.pldm_pdr.specs.StateSets.{kept};

use crate::limits::MAX_NAME;
use arrayvec::ArrayVec;
use pldm_pdr::MAX_NAME_BYTES;
use pldm_wire::MAX_STATES;
use std::marker::Model;

/// The text of names, as a record has it.
pub(crate) type NameText = ArrayVec<u8, MAX_NAME_BYTES>;

/// A name: 1 to [`MAX_NAME`] characters of ASCII that are printed.
#[derive(Debug, Drop)]
pub(crate) struct Name {
    text: ArrayVec<u8, MAX_NAME>,
}

impl Model for Name {
    ghost use Rattle.std.specs.Prelude.{List, ℕ};
    ghost use Rattle.pldm_device.specs.RecordNames.{IsShort};

    ghost Value = { List ℕ };

    ghost view = { λ n. n.text.items };

    ghost invariant = { λ n. IsShort n.text.items };
}

impl Name {
    /// The name that the text is, where it is one.
    pub(crate) fn new(text: &str) -> Option<Name>
        ensures test { is_some result ≡ is_name text.now }
        ensures name { IfSome result (λ name. name ≡ text.now) }
    {
        let bytes = text.as_bytes();
        if bytes.is_empty() || bytes.len() > MAX_NAME || !are_printable(bytes) {
            return None;
        }
        let mut kept = ArrayVec::new();
        let _ = kept.try_extend_from_slice(bytes); // they fit
        Some(Name { text: kept })
    }

    /// Its characters.
    fn as_slice(&self) -> &[u8]
        ensures value { result.now ≡ self.now }
        ensures count { length self.now ≤ MAX_NAME }
    {
        self.text.as_slice()
    }

    /// Its text as the only name of a thing, in English.
    pub(crate) fn alone(&self) -> NameText
        ensures { result ≡ kept (one_name self.now) }
    {
        let mut text = ArrayVec::new();
        push_name(&mut text, self.as_slice());
        text
    }

    /// Its text as the name of a thing of so many parts, of which the first has it and the others have none.
    pub(crate) fn of_first(&self, count: u8) -> NameText
        requires least { 1 ≤ count }
        requires most { count ≤ MAX_STATES }
        ensures { result ≡ kept (name_of_first count self.now) }
    {
        let mut text = ArrayVec::new();
        text.push(count);
        push_name(&mut text, self.as_slice());
        push_zeros(&mut text, count - 1);
        text
    }
}

/// Whether all characters are printed ones of ASCII.
fn are_printable(bytes: &[u8]) -> bool
    ensures { result ≡ list_all is_printable bytes.now }
{
    bytes.iter().all(|byte| 32 <= *byte && *byte <= 126)
}

/// Adds how many names there are, one, and that name.
fn push_name(out: &mut NameText, name: &[u8])
    requires count { length name.now ≤ MAX_NAME }
    requires room { array_vec_len out.old ≤ 1 }
    ensures added { out.new.items ≡ out.old.items ++ one_name name.now }
    ensures len { array_vec_len out.new ≡ array_vec_len out.old + 6 + 2 * length name.now }
{
    let _ = out.try_extend_from_slice(&[1, b'e', b'n', 0]); // they fit
    for character in name {
        let unit = u16::from(*character);
        out.push((unit / 256) as u8);
        out.push((unit % 256) as u8);
    }
    out.push(0);
    out.push(0);
}

/// Adds so many zeros.
fn push_zeros(out: &mut NameText, count: u8)
    requires { array_vec_len out.old + count ≤ MAX_NAME_BYTES }
    ensures { out.new.items ≡ out.old.items ++ replicate count 0 }
{
    for _ in 0..count {
        out.push(0);
    }
}

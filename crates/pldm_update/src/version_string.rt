//! A version string of firmware update.

ghost use Rattle.std.specs.Prelude.{◌≡◌, ◌≤◌, ◌↔◌, length, IsSome, IfSome};
ghost use Rattle.pldm_update.specs.VersionTexts.{IsVersionText, version_text};

use crate::MAX_TEXT_BYTES;
use arrayvec::ArrayVec;
use std::marker::Model;

/// A version string: its type, and at most [`MAX_TEXT_BYTES`] bytes in that type's encoding, which aren't looked into
/// (DSP0267, "String types").
#[derive(Debug, PartialEq, Eq, Drop)]
pub struct VersionString {
    string_type: u8,
    text: ArrayVec<u8, MAX_TEXT_BYTES>,
}

impl Model for VersionString {
    ghost use Rattle.pldm_update.specs.VersionTexts.{IsVersionText, VersionText, version_text};

    ghost Value = { VersionText };

    ghost view = { λ v. version_text v.string_type v.text.items };

    ghost invariant = { λ v. IsVersionText (version_text v.string_type v.text.items) };

    ghost inverse = { λ v. record { string_type = v.string_type; text = record { items = v.text } } };
}

impl VersionString {
    /// A string of this type with these bytes, where there are at most [`MAX_TEXT_BYTES`].
    pub fn new(string_type: u8, text: &[u8]) -> Option<VersionString>
        ensures some { IsSome result ↔ IsVersionText (version_text string_type text.now) }
        ensures value { IfSome result (λ made. made ≡ version_text string_type text.now) }
    {
        if text.len() > MAX_TEXT_BYTES {
            return None;
        }
        Some(VersionString::of(string_type, text))
    }

    /// The string of this type with these bytes.
    pub(crate) fn of(string_type: u8, text: &[u8]) -> VersionString
        requires { length text.now ≤ MAX_TEXT_BYTES }
        ensures { result ≡ version_text string_type text.now }
    {
        let mut kept = ArrayVec::new();
        let _ = kept.try_extend_from_slice(text); // they fit
        VersionString {
            string_type,
            text: kept,
        }
    }

    /// Its type: 0 unknown, 1 ASCII, 2 UTF-8, 3 UTF-16, 4 UTF-16LE, 5 UTF-16BE. Any byte is read.
    pub fn string_type(&self) -> u8
        ensures { result ≡ self.now.string_type }
    {
        self.string_type
    }

    /// Its bytes in order.
    pub fn text(&self) -> &[u8]
        ensures value { result.now ≡ self.now.text }
        ensures range { IsVersionText self.now }
    {
        self.text.as_slice()
    }

    /// How many bytes it has, as the byte that states it.
    pub(crate) fn length_byte(&self) -> u8
        ensures { result ≡ length self.now.text }
    {
        self.text.len() as u8
    }
}

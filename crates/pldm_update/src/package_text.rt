//! A version string, borrowed.

ghost use Rattle.std.specs.Prelude.{◌≡◌};
ghost use Rattle.pldm_update.specs.PackageFields.{Gives};
ghost use Rattle.pldm_update.specs.PackageReading.{text_at};
ghost use Rattle.pldm_update.specs.VersionTexts.{version_text};

use crate::PackageFault;
use crate::package_fields::{byte_in, slice_in};
use std::marker::Model;

/// A version string of a package, or of the firmware that a device has, borrowed (DSP0267, "String types").
#[derive(Debug, Drop)]
pub struct PackageText<'a> {
    string_type: u8,
    text: &'a [u8],
}

impl<'a> Model for PackageText<'a> {
    ghost use Rattle.pldm_update.specs.VersionTexts.{VersionText, version_text};

    ghost Value = { VersionText };

    ghost view = { λ v. version_text v.string_type v.text.now };
}

impl<'a> PackageText<'a> {
    /// The string of this type with these bytes.
    pub fn of(string_type: u8, text: &'a [u8]) -> PackageText<'a>
        ensures { result ≡ version_text string_type text.now }
    {
        PackageText { string_type, text }
    }

    /// Its type: 0 unknown, 1 ASCII, 2 UTF-8, 3 UTF-16, 4 UTF-16LE, 5 UTF-16BE. Any byte is read.
    pub fn string_type(&self) -> u8
        ensures { result ≡ self.now.string_type }
    {
        self.string_type
    }

    /// Its bytes in order.
    pub fn text(&self) -> &'a [u8]
        ensures { result.now ≡ self.now.text }
    {
        self.text
    }
}

/// A version string: its type, its length, and as many bytes.
#[tactic(auto, unfolding(crate::specs::PackageFields::and_then, crate::specs::PackageReading::text_at))]
pub(crate) fn text_in(bytes: &[u8]) -> Result<(PackageText<'_>, &[u8]), PackageFault>
    ensures { Gives (λ x. (x.0, x.1.now)) result (text_at bytes.now) }
{
    let (string_type, rest) = byte_in(bytes)?;
    let (count, rest) = byte_in(rest)?;
    let (text, rest) = slice_in(count.into(), rest)?;
    Ok((PackageText::of(string_type, text), rest))
}

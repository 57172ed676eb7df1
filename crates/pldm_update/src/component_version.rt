//! A version of a component, as the firmware device says it.

ghost use Rattle.std.specs.Prelude.{◌≡◌};
ghost use Rattle.pldm_update.specs.PackageFields.{Gives};
ghost use Rattle.pldm_update.specs.Parameters.{component_version};
ghost use Rattle.pldm_update.specs.ParametersReading.{version_at, with_text};

use crate::package_fields::{byte_in, slice_in, u32_in};
use crate::{PackageFault, PackageText, RELEASE_BYTES};
use std::marker::Model;

/// A version of a component of a device, borrowed (DSP0267, "GetFirmwareParameters command").
#[derive(Debug, Drop)]
pub struct ComponentVersion<'a> {
    comparison_stamp: u32,
    version: PackageText<'a>,
    release: &'a [u8],
}

impl<'a> Model for ComponentVersion<'a> {
    ghost use Rattle.pldm_update.specs.Parameters.{ComponentVersion};

    ghost Value = { ComponentVersion };

    ghost view = { λ v. record {
      comparison_stamp = v.comparison_stamp;
      version = v.version;
      release = v.release.now;
    } };
}

impl<'a> ComponentVersion<'a> {
    /// The version with this number by which versions are compared, this string, and this date of its release.
    pub fn new(
        comparison_stamp: u32,
        version: PackageText<'a>,
        release: &'a [u8; RELEASE_BYTES],
    ) -> ComponentVersion<'a>
        ensures { result ≡ component_version comparison_stamp version.entry release.now }
    {
        ComponentVersion {
            comparison_stamp,
            version,
            release: release.as_slice(),
        }
    }

    /// A number by which versions are compared.
    pub fn comparison_stamp(&self) -> u32
        ensures { result ≡ self.now.comparison_stamp }
    {
        self.comparison_stamp
    }

    /// The version's string.
    pub fn version(&self) -> &PackageText<'a>
        ensures { result.now ≡ self.now.version }
    {
        &self.version
    }

    /// The date of its release as eight digits: the year, the month and the day. Any bytes are read.
    pub fn release(&self) -> &'a [u8]
        ensures { result.now ≡ self.now.release }
    {
        self.release
    }
}

/// A version whose string comes later.
#[derive(Debug, Drop)]
pub(crate) struct VersionHead<'a> {
    comparison_stamp: u32,
    string_type: u8,
    count: u8,
    release: &'a [u8],
}

impl<'a> Model for VersionHead<'a> {
    ghost use Rattle.pldm_update.specs.ParametersReading.{VersionHead};

    ghost Value = { VersionHead };

    ghost view = { λ h. record {
      comparison_stamp = h.comparison_stamp;
      string_type = h.string_type;
      count = h.count;
      release = h.release.now;
    } };
}

impl<'a> VersionHead<'a> {
    /// How many bytes the string has.
    pub(crate) fn count(&self) -> usize
        ensures { result ≡ self.now.count }
    {
        self.count.into()
    }

    /// The version with this string.
    pub(crate) fn with_text(&self, text: &'a [u8]) -> ComponentVersion<'a>
        ensures { result ≡ with_text self.now text.now }
    {
        ComponentVersion {
            comparison_stamp: self.comparison_stamp,
            version: PackageText::of(self.string_type, text),
            release: self.release,
        }
    }
}

/// A version whose string comes later.
#[tactic(auto, unfolding(crate::specs::PackageFields::and_then, crate::specs::ParametersReading::version_at))]
pub(crate) fn version_in(bytes: &[u8]) -> Result<(VersionHead<'_>, &[u8]), PackageFault>
    ensures { Gives (λ x. (x.0, x.1.now)) result (version_at bytes.now) }
{
    let (comparison_stamp, rest) = u32_in(bytes)?;
    let (string_type, rest) = byte_in(rest)?;
    let (count, rest) = byte_in(rest)?;
    let (release, rest) = slice_in(RELEASE_BYTES, rest)?;
    let head = VersionHead {
        comparison_stamp,
        string_type,
        count,
        release,
    };
    Ok((head, rest))
}

//! What an update agent offers.

ghost use Rattle.std.specs.Prelude.{◌≡◌, ◌-◌, ◌^◌, length, min};

use pldm_update::{Component, VersionString};

/// An image for a component, as the agent offers it (DSP0267, "UpdateComponent command").
#[derive(Debug, Drop)]
pub struct Offer<'a> {
    /// The component that it is for.
    pub component: Component,
    /// A number by which versions of the component are compared.
    pub comparison_stamp: u32,
    /// Which options are asked for, a bit each.
    pub option_flags: u32,
    /// The image's version.
    pub version: VersionString,
    /// The image.
    pub image: &'a [u8],
}

impl Offer<'_> {
    /// The bytes of the image, as an UpdateComponent states them: at most the largest number of 32 bits.
    pub fn size(&self) -> u32
        ensures { result ≡ min (length self.now.image.now) (2 ^ 32 - 1) }
    {
        u32::try_from(self.image.len()).unwrap_or(u32::MAX)
    }
}

/// The same version once more.
pub(crate) fn again(version: &VersionString) -> VersionString {
    match VersionString::new(version.string_type(), version.text()) {
        Some(version) => version,
        None => VersionString::new(0, &[]).unwrap(),
    }
}

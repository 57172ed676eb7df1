//! The versions that an answer to GetPLDMVersion carries (DSP0240, "GetPLDMVersion command").

ghost use Rattle.std.specs.Prelude.{◌≡◌, ◌↔◌, IsSome, IfSome, is_some};
ghost use Rattle.pldm_wire.specs.Versions.{IsVersionData, is_version_data};

use crate::{MAX_VERSION_BYTES, MIN_VERSION_BYTES, VERSION_BYTES};
use arrayvec::ArrayVec;
use std::marker::Model;

/// Version data of one part: versions of four bytes each, [`MIN_VERSION_BYTES`] to
/// [`MAX_VERSION_BYTES`] bytes in all (DSP0240, "GetPLDMVersion command").
#[derive(Debug, PartialEq, Eq, Drop)]
pub struct VersionData {
    bytes: ArrayVec<u8, MAX_VERSION_BYTES>,
}

impl Model for VersionData {
    ghost use Rattle.std.specs.Prelude.{List, ℕ};
    ghost use Rattle.pldm_wire.specs.Versions.{IsVersionData};

    ghost Value = { List ℕ };

    ghost view = { λ v. v.bytes.items };

    ghost invariant = { λ v. IsVersionData v.bytes.items };

    ghost inverse = { λ xs. record { bytes = record { items = xs } } };
}

impl VersionData {
    /// These bytes, where they are whole versions and not too many.
    pub fn new(bytes: &[u8]) -> Option<VersionData>
        ensures some { IsSome result ↔ IsVersionData bytes.now }
        ensures test { is_some result ≡ is_version_data bytes.now }
        ensures bytes { IfSome result (λ made. made ≡ bytes.now) }
    {
        let few = MIN_VERSION_BYTES <= bytes.len() && bytes.len() <= MAX_VERSION_BYTES;
        if !few || bytes.len() % VERSION_BYTES != 0 {
            return None;
        }
        let mut kept = ArrayVec::new();
        let _ = kept.try_extend_from_slice(bytes); // they fit
        Some(VersionData { bytes: kept })
    }

    /// The bytes in order.
    pub fn as_slice(&self) -> &[u8]
        ensures value { result.now ≡ self.now }
        ensures range { IsVersionData self.now }
    {
        self.bytes.as_slice()
    }
}

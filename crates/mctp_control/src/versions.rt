//! The versions of a message type that an endpoint supports (DSP0236, "Get MCTP Version Support").

ghost use Rattle.std.specs.Prelude.{◌≡◌, ◌↔◌, IsSome, IfSome, is_some};
ghost use Rattle.mctp_control.specs.Lists.{IsVersions, is_versions};

use crate::{MAX_VERSION_BYTES, VERSION_BYTES};
use arrayvec::ArrayVec;
use std::marker::Model;

/// Versions of four bytes each, one to [`crate::MAX_VERSIONS`] of them (DSP0236, "Get MCTP Version Support").
#[derive(Debug, PartialEq, Eq, Drop)]
pub struct Versions {
    bytes: ArrayVec<u8, MAX_VERSION_BYTES>,
}

impl Model for Versions {
    ghost use Rattle.std.specs.Prelude.{List, ℕ};
    ghost use Rattle.mctp_control.specs.Lists.{IsVersions};

    ghost Value = { List ℕ };

    ghost view = { λ v. v.bytes.items };

    ghost invariant = { λ v. IsVersions v.bytes.items };

    ghost inverse = { λ xs. record { bytes = record { items = xs } } };
}

impl Versions {
    /// The versions that these bytes are, where they are whole, one at least and not too many.
    pub fn new(bytes: &[u8]) -> Option<Versions>
        ensures some { IsSome result ↔ IsVersions bytes.now }
        ensures test { is_some result ≡ is_versions bytes.now }
        ensures bytes { IfSome result (λ made. made ≡ bytes.now) }
    {
        let few = VERSION_BYTES <= bytes.len() && bytes.len() <= MAX_VERSION_BYTES;
        if !few || bytes.len() % VERSION_BYTES != 0 {
            return None;
        }
        let mut kept = ArrayVec::new();
        let _ = kept.try_extend_from_slice(bytes); // they fit
        Some(Versions { bytes: kept })
    }

    /// The bytes in order.
    pub fn as_slice(&self) -> &[u8]
        ensures value { result.now ≡ self.now }
        ensures range { IsVersions self.now }
    {
        self.bytes.as_slice()
    }
}

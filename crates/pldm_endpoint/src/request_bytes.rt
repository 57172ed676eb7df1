//! The bytes of a request, kept in a place of their own length.

ghost use Rattle.std.specs.Prelude.{◌≡◌, ◌≤◌, length, IfOk};
ghost use Rattle.mctp_packet.specs.declared.TheConstants.{MAX_MESSAGE_BYTES};

use mctp_packet::Memory;
use std::alloc::Global;
use std::marker::Model;

/// The bytes of a request, at most [`mctp_packet::MAX_MESSAGE_BYTES`].
#[derive(Drop)]
pub struct RequestBytes {
    bytes: Vec<u8>,
}

impl Model for RequestBytes {
    ghost use Rattle.std.specs.Prelude.{List, ℕ, ◌≤◌, length};
    ghost use Rattle.std.specs.Coded.{coded_list, coded_ℕ};
    ghost use Rattle.mctp_packet.specs.declared.TheConstants.{MAX_MESSAGE_BYTES};

    ghost Value = { List ℕ };

    ghost coded = { coded_list coded_ℕ };

    ghost view = { λ r. r.bytes.items };

    ghost invariant = { λ r. length r.bytes.items ≤ MAX_MESSAGE_BYTES };
}

impl RequestBytes {
    /// A copy of these bytes.
    pub(crate) fn copied(alloc: Global, bytes: &[u8]) -> Result<RequestBytes, Memory>
        requires few { length bytes.now ≤ MAX_MESSAGE_BYTES }
        ensures { IfOk result (λ copied. copied ≡ bytes.now) }
    {
        let mut copied = Vec::with_capacity(alloc, bytes.len())?;
        copied.extend_from_slice(bytes)?;
        Ok(RequestBytes { bytes: copied })
    }

    /// The bytes.
    pub(crate) fn as_slice(&self) -> &[u8]
        ensures value { result.now ≡ self.now }
        ensures few { length self.now ≤ MAX_MESSAGE_BYTES }
    {
        &self.bytes
    }
}

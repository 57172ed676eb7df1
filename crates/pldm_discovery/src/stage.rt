//! How far a walk has come: what it asks next.

use pldm_wire::VERSION_BYTES;

/// What is asked next.
#[derive(Clone, Copy, Debug)]
pub(crate) enum Stage {
    /// The terminus ID.
    Tid,
    /// The PLDM types.
    Types,
    /// The versions of this type.
    Versions(u8),
    /// The commands of this type, at this version.
    Commands(u8, [u8; VERSION_BYTES]),
    /// How many records the repository has.
    Repository,
    /// The next part of a record.
    Records,
    /// The reading of the next sensor or effecter, while there is one.
    Readings,
}

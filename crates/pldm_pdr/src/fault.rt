//! Why bytes are no record that is read here.

use thiserror::Error;

/// Why bytes are no record of this crate: the first fault, the header's before the fields' in their order.
#[derive(Clone, Copy, Debug, PartialEq, Eq, Error)]
pub enum RecordFault {
    /// They are fewer than a header's, or the header counts fewer or more after it.
    #[error("the record has the wrong length")]
    Length,
    /// The header's version is not 1.
    #[error("the record's header has another version")]
    Version,
    /// The record's type is none of those that are read here.
    #[error("the record has a type that is not read")]
    OtherType,
    /// The bytes end before a field does.
    #[error("the record ends within a field")]
    Short,
    /// A byte that says no or yes is neither 0 nor 1.
    #[error("a flag of the record is neither 0 nor 1")]
    Flag,
    /// The terminus is not located by an MCTP endpoint ID of one byte.
    #[error("the terminus is located by another address")]
    Locator,
    /// A data size has no such value.
    #[error("the record has a data size with a wrong value")]
    Size,
    /// A range field format has no such value.
    #[error("the record has a range field format with a wrong value")]
    Format,
    /// A composite sensor or effecter has none, or more than eight.
    #[error("the record has a composite count with a wrong value")]
    Count,
    /// The possible states are in no byte, or in more than 32.
    #[error("the record has a size of possible states with a wrong value")]
    States,
    /// Names are shared by several entities.
    #[error("the record has names that several entities share")]
    Shared,
    /// A language tag is not ASCII.
    #[error("the record has a language tag that is not ASCII")]
    Tag,
    /// The names have more bytes than are read here.
    #[error("the record has names that are too long")]
    Names,
    /// There are bytes after the last field.
    #[error("the record has bytes after its last field")]
    LeftOver,
}

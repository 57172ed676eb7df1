//! Why a file is no firmware update package.

use thiserror::Error;

/// Why a file is no firmware update package: the first that applies, of the fields in their order, then of the header's
/// size, its checksum, and the places of the images. The order is this profile's own.
#[derive(Clone, Copy, Debug, PartialEq, Eq, Error)]
pub enum PackageFault {
    /// It begins with another identifier than that of a package.
    #[error("it does not begin with the identifier of a firmware update package")]
    Identifier,
    /// Its header has another format revision than 1.
    #[error("its header has another format revision than 1")]
    Revision,
    /// A field is cut short, or the header or a device's record has another size than it states.
    #[error("it is cut short, or its header or a record has another size than it states")]
    Length,
    /// A field has a value that it may not have: a number of bits that is no multiple of 8, or a device's record with no
    /// descriptor.
    #[error("its header has a field with a wrong value")]
    Value,
    /// The checksum is not that of the header.
    #[error("its header has a wrong checksum")]
    Checksum,
    /// An image would stand in the header, or go past the end of the file.
    #[error("an image does not stand between the header and the end of the file")]
    Image,
}

//! What the machine hands to the flash.

/// What the flash is to do. Each may take its time; [`FirmwareDevice::done`] reports it. They are done in the order in
/// which they are handed out.
///
/// [`FirmwareDevice::done`]: crate::FirmwareDevice::done
#[derive(Clone, Copy, Debug, PartialEq, Eq)]
pub enum FlashAction {
    /// Makes room for an image of so many bytes, beside the active one.
    Begin {
        /// The image's size in bytes.
        size: u32,
    },
    /// Stores the bytes of the piece that has just come, from this offset on.
    Store {
        /// The offset of the first byte, from the image's start.
        offset: u32,
    },
    /// Verifies the stored image.
    Verify,
    /// Applies the verified image: at the next activation it is the active one.
    Apply,
    /// Makes all that was applied active.
    Activate,
    /// Forgets the image that was begun last. What is active stays, and what was applied.
    Abandon,
    /// Forgets all that is not active.
    AbandonUpdate,
}

/// A step of the flash, with its number.
#[derive(Clone, Copy, Debug, PartialEq, Eq)]
pub struct FlashStep {
    /// Its number, by which [`FirmwareDevice::done`] is told of it.
    ///
    /// [`FirmwareDevice::done`]: crate::FirmwareDevice::done
    pub number: u64,
    /// What is to be done.
    pub action: FlashAction,
}

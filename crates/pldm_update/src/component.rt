//! A component of a firmware device: a part of it that has an image of its own.

/// Which component of a firmware device is meant (DSP0267, "PassComponentTable command").
#[derive(Clone, Copy, Debug, PartialEq, Eq)]
pub struct Component {
    /// Its classification: firmware, a boot loader or data, for example.
    pub classification: u16,
    /// Its identifier, which the vendor chooses.
    pub identifier: u16,
    /// Which of several components with this classification and identifier it is.
    pub index: u8,
}

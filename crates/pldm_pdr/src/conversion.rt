//! How the numbers of a numeric sensor or effecter become values in its units (DSP0248, "Numeric sensor PDR").

use pldm_wire::Size;

/// How the numbers of a numeric sensor or effecter become values in its units: the value is
/// (number * resolution + offset) * 10 ^ unit modifier (DSP0248, "Numeric sensor PDR" and "Numeric effecter PDR").
#[derive(Clone, Copy, Debug, PartialEq, Eq)]
pub struct Conversion {
    /// Whether values go with numbers by that rule.
    pub is_linear: bool,
    /// The data size of its numbers.
    pub size: Size,
    /// The resolution, the bits of a real32.
    pub resolution: u32,
    /// The offset, the bits of a real32.
    pub offset: u32,
    /// The accuracy, in hundredths of a percent.
    pub accuracy: u16,
    /// How far a value may be above what is measured, in steps.
    pub plus_tolerance: u8,
    /// How far a value may be below what is measured, in steps.
    pub minus_tolerance: u8,
}

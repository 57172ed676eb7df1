//! The units that a numeric sensor or effecter measures in (DSP0248, "Sensor units").

/// What a numeric sensor or effecter measures in (DSP0248, "Sensor units" and the fields of the numeric sensor PDR).
#[derive(Clone, Copy, Debug, Default, PartialEq, Eq)]
pub struct Units {
    /// The unit, a number of the standard's list: 2 degrees C, 5 volts, 19 RPM.
    pub base_unit: u8,
    /// The power of ten that values are multiplied by.
    pub unit_modifier: i8,
    /// The time that the unit is taken per, a number of the standard's list: 0 none.
    pub rate_unit: u8,
    /// The OEM unit that stands for the base unit, or 0.
    pub base_oem_unit_handle: u8,
    /// A second unit, by the same list: 0 none.
    pub auxiliary_unit: u8,
    /// The power of ten of the second unit.
    pub auxiliary_unit_modifier: i8,
    /// The time that the second unit is taken per.
    pub auxiliary_rate_unit: u8,
}

//! The normal range and the thresholds of a numeric sensor (DSP0248, "Numeric sensor PDR").

use crate::RangeFormat;

/// The normal range and the thresholds of a numeric sensor, numbers in one format (DSP0248, "Numeric sensor PDR").
#[derive(Clone, Copy, Debug, PartialEq, Eq)]
pub struct SensorRange {
    /// The format of the fields after `support`.
    pub format: RangeFormat,
    /// Which fields mean something: bit 0 nominal, 1 normal max, 2 normal min, 3 critical high, 4 critical low, 5 fatal
    /// high, 6 fatal low.
    pub support: u8,
    /// The value that is wanted.
    pub nominal: i64,
    /// The greatest value of the normal range.
    pub normal_max: i64,
    /// The least value of the normal range.
    pub normal_min: i64,
    /// From here on the upper warning state.
    pub warning_high: i64,
    /// From here down the lower warning state.
    pub warning_low: i64,
    /// From here on the upper critical state.
    pub critical_high: i64,
    /// From here down the lower critical state.
    pub critical_low: i64,
    /// From here on the upper fatal state.
    pub fatal_high: i64,
    /// From here down the lower fatal state.
    pub fatal_low: i64,
}

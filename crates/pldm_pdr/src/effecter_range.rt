//! The normal and the rated range of a numeric effecter (DSP0248, "Numeric effecter PDR").

use crate::RangeFormat;

/// The normal and the rated range of a numeric effecter, numbers in one format (DSP0248, "Numeric effecter PDR").
#[derive(Clone, Copy, Debug, PartialEq, Eq)]
pub struct EffecterRange {
    /// The format of the fields after `support`.
    pub format: RangeFormat,
    /// Which fields mean something: bit 0 nominal, 1 normal max, 2 normal min, 3 rated max, 4 rated min.
    pub support: u8,
    /// The value that is wanted.
    pub nominal: i64,
    /// The greatest value of the normal range.
    pub normal_max: i64,
    /// The least value of the normal range.
    pub normal_min: i64,
    /// The greatest value that is rated.
    pub rated_max: i64,
    /// The least value that is rated.
    pub rated_min: i64,
}

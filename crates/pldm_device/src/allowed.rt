//! What a description may say at a place.

/// What is allowed at a place of a description, or what is needed there.
#[derive(Clone, Copy, Debug, PartialEq, Eq)]
pub enum Allowed {
    /// Nothing is said of it.
    Unstated,
    /// `true` or `false`.
    Flag,
    /// A table.
    Table,
    /// A list of at most so many tables.
    Tables(usize),
    /// An integer of this range.
    Integer {
        /// The least one.
        low: i64,
        /// The greatest one.
        high: i64,
    },
    /// Any integer.
    AnyInteger,
    /// An integer of the entry's size.
    SizedInteger,
    /// An integer of the entry's size that is not below its `min`.
    FromMin,
    /// An integer from the entry's `min` to its `max`.
    MinToMax,
    /// An array of integers.
    Integers,
    /// An array of so many integers from 0 to `high`.
    Numbers {
        /// The least count of them.
        least: usize,
        /// The greatest count of them.
        most: usize,
        /// The greatest of them that may be.
        high: u32,
    },
    /// An array of arrays of integers, one for each field.
    IntegerLists,
    /// The present, the previous and the event state of a numeric sensor.
    SensorStates,
    /// An array of the four states of each field of a state sensor.
    SensorFields,
    /// An array of the states that each field of a state effecter can take.
    FieldStates,
    /// An array of a state for each field.
    StateOfEach,
    /// As many states as the entry's `allowed` has arrays.
    AsManyStates,
    /// A state of the field's array in the entry's `allowed`.
    AllowedState,
    /// Hex text: two digits for each byte.
    HexText,
    /// Hex text of so many bytes.
    HexBytes(usize),
    /// Versions of 4 bytes each as hex text, at most so many bytes.
    Versions(usize),
    /// The same, so many bytes fewer since their checksum is appended.
    CheckedVersions(usize),
    /// A record as hex text.
    RecordText,
    /// The bytes of a record, which these are not.
    Record(RecordFlaw),
    /// The name of a busy time: `all` or `sets`.
    RestartPolicy,
    /// The name of a data size.
    SizeName,
    /// One of the names of the data sizes.
    SizeNames,
    /// A name of at most so many printed characters of ASCII.
    Name(usize),
    /// A unit, by its number or its name.
    Unit,
    /// An ID or a record handle that no earlier entry has.
    Untaken {
        /// The number that is taken.
        number: u32,
        /// The list of the earlier entry that has it.
        list: &'static str,
        /// Which entry of that list, counted from 0.
        entry: usize,
    },
    /// A table whose records fit: each has a handle that is left, and there is room for all.
    FittingRecords,
}

/// Why bytes are no platform data record (DSP0248, "Common PDR format").
#[derive(Clone, Copy, Debug, PartialEq, Eq)]
pub enum RecordFlaw {
    /// They are fewer than the bytes of a header.
    Short,
    /// The handle is 0.
    NoHandle,
    /// The header version is another than 1.
    Version,
    /// The count of data is another than that of the bytes after the header.
    Count,
}

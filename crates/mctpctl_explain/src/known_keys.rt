//! The keys of a description.

/// The keys of the whole description.
pub(crate) const TOP_KEYS: [&str; 16] = [
    "eid",
    "keep_ms",
    "window",
    "busy",
    "tid",
    "version0",
    "version2",
    "version_checksum",
    "update_time",
    "oem_update_time",
    "numeric_sensor",
    "state_sensor",
    "numeric_effecter",
    "state_effecter",
    "pdr",
    "records",
];

/// The keys of the whole description where a device is served: the table `control` among them.
pub(crate) const SERVED_KEYS: [&str; 17] = [
    "eid",
    "keep_ms",
    "window",
    "busy",
    "tid",
    "version0",
    "version2",
    "version_checksum",
    "update_time",
    "oem_update_time",
    "numeric_sensor",
    "state_sensor",
    "numeric_effecter",
    "state_effecter",
    "pdr",
    "records",
    "control",
];

/// The keys of the table `control`.
pub(crate) const CONTROL_KEYS: [&str; 5] = [
    "uuid",
    "base_version",
    "control_version",
    "pldm_version",
    "assigned",
];

/// The keys of the table `records`.
pub(crate) const RECORDS_KEYS: [&str; 2] = ["name", "entity"];

/// The keys of the lists, in the order in which they are looked at.
pub(crate) const LISTS: [&str; 5] = [
    "numeric_sensor",
    "state_sensor",
    "numeric_effecter",
    "state_effecter",
    "pdr",
];

/// The keys of an entry of a list.
pub(crate) fn entry_keys(list: &str) -> &'static [&'static str] {
    if list == "numeric_sensor" {
        &[
            "id",
            "size",
            "states",
            "value",
            "name",
            "entity",
            "unit",
            "modifier",
            "warning_high",
            "critical_high",
            "fatal_high",
            "warning_low",
            "critical_low",
            "fatal_low",
            "normal_max",
            "normal_min",
            "nominal",
        ]
    } else if list == "state_sensor" {
        &["id", "fields", "name", "entity", "state_set"]
    } else if list == "numeric_effecter" {
        &[
            "id",
            "size",
            "min",
            "max",
            "value",
            "name",
            "entity",
            "unit",
            "modifier",
            "normal_max",
            "normal_min",
            "nominal",
        ]
    } else if list == "state_effecter" {
        &["id", "allowed", "values", "name", "entity", "state_set"]
    } else {
        &["hex"]
    }
}

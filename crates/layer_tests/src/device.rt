//! Tests of platforms, of descriptions, and of records that are fetched, over public calls.

mod control_tables;
mod descriptions;
mod faults;
mod fetch;
mod made_records;
mod memory;
mod platforms;
mod recorder;
mod records;
mod settings;
mod version_checksums;

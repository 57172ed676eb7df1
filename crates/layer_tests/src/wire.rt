//! Tests of packets, also on SMBus and I3C (each PEC in them comes from another program), of messages of several
//! packets, of PLDM messages, of platform data records, and of firmware update and its packages (bytes that were written
//! by hand from the standards' layouts), over public calls.

mod assembly;
mod firmware_update;
mod i3c;
mod messages;
mod numeric_records;
mod packets;
mod record_faults;
mod records;
mod smbus;
mod update_identifiers;
mod update_package;
mod update_parameters;

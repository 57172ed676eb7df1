//! Laws over the definitions alone: each is the contract of a function that does nothing.

ghost use Rattle.pldm_discovery.specs.Laws.{WalksAreBounded, WalksEnd, WalksFind, WalksOnlyAsk, WalksReadOnce};

/// A walk ends: it asks for at most [`crate::MAX_COMMANDS`] commands, whatever the device answers, and holds at most
/// [`pldm_records::MAX_RECORDS`] records of at most [`pldm_records::MAX_RECORD_BYTES`] bytes.
pub fn a_walk_ends()
    ensures ends { WalksEnd }
    ensures bounded { WalksAreBounded }
{}

/// No command of a walk sets anything in the device.
pub fn a_walk_only_asks()
    ensures { WalksOnlyAsk }
{}

/// Once the records were read, what a walk has found, and reads, is what they describe of the asked terminus, in their
/// order: of the one whose handle the first valid locator of the answered terminus ID gives, else all.
pub fn a_walk_finds_what_records_describe()
    ensures { WalksFind }
{}

/// No two records of a walk have one handle: none is read twice.
pub fn a_walk_reads_no_record_twice()
    ensures { WalksReadOnce }
{}

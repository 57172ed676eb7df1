//! Laws of the records that a description has made, over the definitions alone: each is the contract of a function that
//! does nothing.

ghost use Rattle.pldm_device.specs.RecordLaws.{DescribedHandlesDiffer, MadeRecordsDescribe, RecordsAreCounted};

/// Each record that the table `records` has made names an ID that the device answers: of a numeric sensor or effecter
/// with the data size and the range that the device has, of one of states with its possible states and no others. The
/// terminus locator has the terminus ID and the endpoint ID of the description: a record does not change, so these two
/// stay where SetTID or a bus owner gives others. The made records come after those that the description states.
pub fn made_records_tell_of_the_device()
    ensures { MadeRecordsDescribe }
{}

/// No two records of a description's device have one handle, whether it states them or has made them; and the device
/// reports how many there are, and how many bytes.
pub fn records_are_told_apart_and_counted()
    ensures differ { DescribedHandlesDiffer }
    ensures counted { RecordsAreCounted }
{}

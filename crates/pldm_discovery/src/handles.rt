//! Whether a record of the walk so far has a given record handle.

ghost use Rattle.std.specs.Prelude.{◌≡◌};
ghost use Rattle.pldm_discovery.specs.Steps.{has_handle};

use crate::whole_record::WholeRecord;

/// Whether one of these records has this handle.
pub(crate) fn has_handle(records: &[WholeRecord], handle: u32) -> bool
    ensures { result ≡ has_handle handle records.now }
{
    records.iter().any(|pdr| pdr.handle() == handle)
}

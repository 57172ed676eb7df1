//! A terminus locator record, written.

ghost use Rattle.std.specs.Prelude.{◌≡◌, ◌+◌, ◌≤◌};
ghost use Rattle.arrayvec.specs.ArrayVec.{array_vec_len};
ghost use Rattle.pldm_pdr.specs.TerminusLocators.{IsTerminusLocator, terminus_locator_bytes};
ghost use Rattle.pldm_pdr.specs.Fields.{Adds};

use crate::limits::{EID_BYTES, MCTP_EID};
use crate::pushes::{push_byte, push_flag, push_u16};
use crate::{MAX_RECORD_BYTES, RecordBytes, TerminusLocator};

/// Adds the fields of a terminus locator record.
pub(crate) fn push_terminus_locator(out: &mut RecordBytes, locator: &TerminusLocator)
    requires { array_vec_len out.old + 9 ≤ MAX_RECORD_BYTES }
    ensures added { Adds out.old.items out.new.items (terminus_locator_bytes locator.now) }
    ensures len { array_vec_len out.new ≤ array_vec_len out.old + 9 }
    ensures range { IsTerminusLocator locator.now }
{
    push_u16(out, locator.terminus_handle);
    push_flag(out, locator.is_valid);
    push_byte(out, locator.tid);
    push_u16(out, locator.container_id);
    push_byte(out, MCTP_EID);
    push_byte(out, EID_BYTES);
    push_byte(out, locator.eid);
}

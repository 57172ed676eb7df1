//! A terminus locator record, read.

ghost use Rattle.pldm_pdr.specs.Fields.{Gives};
ghost use Rattle.pldm_pdr.specs.TerminusLocators.{terminus_locator_at};

use crate::fields::{byte_in, constant_in, flag_in, u16_in};
use crate::limits::{EID_BYTES, MCTP_EID};
use crate::{RecordFault, TerminusLocator};

/// The fields of a terminus locator record.
#[tactic(auto, unfolding(crate::specs::Fields::and_then, crate::specs::TerminusLocators::terminus_locator_at))]
pub(crate) fn terminus_locator_in(bytes: &[u8]) -> Result<(TerminusLocator, &[u8]), RecordFault>
    ensures { Gives (λ x. (x.0, x.1.now)) result (terminus_locator_at bytes.now) }
{
    let (terminus_handle, rest) = u16_in(bytes)?;
    let (is_valid, rest) = flag_in(rest)?;
    let (tid, rest) = byte_in(rest)?;
    let (container_id, rest) = u16_in(rest)?;
    let rest = constant_in(RecordFault::Locator, MCTP_EID, rest)?;
    let rest = constant_in(RecordFault::Locator, EID_BYTES, rest)?;
    let (eid, rest) = byte_in(rest)?;
    let locator = TerminusLocator {
        terminus_handle,
        is_valid,
        tid,
        container_id,
        eid,
    };
    Ok((locator, rest))
}

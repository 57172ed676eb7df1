//! A state effecter record, read and written.

ghost use Rattle.std.specs.Prelude.{◌≡◌, ◌+◌, ◌≤◌, IsTrue};
ghost use Rattle.arrayvec.specs.ArrayVec.{array_vec_len};
ghost use Rattle.pldm_pdr.specs.Fields.{Adds, Gives};
ghost use Rattle.pldm_pdr.specs.StateSets.{composite_fits};
ghost use Rattle.pldm_pdr.specs.StateEffecters.{IsStateEffecter, state_effecter_at, state_effecter_bytes};

use crate::fields::{byte_in, flag_in, u16_in};
use crate::measures_reading::entity_in;
use crate::measures_writing::push_entity;
use crate::pushes::{push_byte, push_flag, push_u16};
use crate::state_sets::{composite_in, push_composite};
use crate::{MAX_RECORD_BYTES, RecordBytes, RecordFault, StateEffecter};

/// The fields of a state effecter record.
#[tactic(auto, unfolding(crate::specs::Fields::and_then, crate::specs::StateEffecters::state_effecter_at))]
pub(crate) fn state_effecter_in(bytes: &[u8]) -> Result<(StateEffecter, &[u8]), RecordFault>
    ensures { Gives (λ x. (x.0, x.1.now)) result (state_effecter_at bytes.now) }
{
    let (terminus_handle, rest) = u16_in(bytes)?;
    let (effecter_id, rest) = u16_in(rest)?;
    let (entity, rest) = entity_in(rest)?;
    let (semantic_id, rest) = u16_in(rest)?;
    let (init, rest) = byte_in(rest)?;
    let (has_description, rest) = flag_in(rest)?;
    let (sets, rest) = composite_in(rest)?;
    let effecter = StateEffecter {
        terminus_handle,
        effecter_id,
        entity,
        semantic_id,
        init,
        has_description,
        sets,
    };
    Ok((effecter, rest))
}

/// Adds the fields of a state effecter record.
pub(crate) fn push_state_effecter(out: &mut RecordBytes, effecter: &StateEffecter)
    requires room { array_vec_len out.old + 295 ≤ MAX_RECORD_BYTES }
    requires fits { IsTrue (composite_fits effecter.now.sets.items) }
    ensures added { Adds out.old.items out.new.items (state_effecter_bytes effecter.now) }
    ensures len { array_vec_len out.new ≤ array_vec_len out.old + 295 }
    ensures range { IsStateEffecter effecter.now }
{
    push_u16(out, effecter.terminus_handle);
    push_u16(out, effecter.effecter_id);
    push_entity(out, &effecter.entity);
    push_u16(out, effecter.semantic_id);
    push_byte(out, effecter.init);
    push_flag(out, effecter.has_description);
    push_composite(out, &effecter.sets);
}

//! A numeric effecter record, read and written.

ghost use Rattle.std.specs.Prelude.{◌≡◌, ◌+◌, ◌≤◌, IsTrue};
ghost use Rattle.arrayvec.specs.ArrayVec.{array_vec_len};
ghost use Rattle.pldm_wire.specs.Numbers.{IsU8};
ghost use Rattle.pldm_pdr.specs.Fields.{Adds, Gives};
ghost use Rattle.pldm_pdr.specs.NumericEffecters.{IsNumericEffecter, effecter_range_at, effecter_range_bytes, numeric_effecter_at, numeric_effecter_bytes, numeric_effecter_fits};

use crate::fields::{byte_in, flag_in, format_in, sized_in, u16_in, u32_in};
use crate::measures_reading::{conversion_in, entity_in, units_in};
use crate::measures_writing::{push_conversion, push_entity, push_units};
use crate::pushes::{push_byte, push_flag, push_sized, push_u16, push_u32};
use crate::{EffecterRange, MAX_RECORD_BYTES, NumericEffecter, RecordBytes, RecordFault};

/// The fields of a numeric effecter record.
#[tactic(auto, unfolding(crate::specs::Fields::and_then, crate::specs::NumericEffecters::numeric_effecter_at))]
pub(crate) fn numeric_effecter_in(bytes: &[u8]) -> Result<(NumericEffecter, &[u8]), RecordFault>
    ensures { Gives (λ x. (x.0, x.1.now)) result (numeric_effecter_at bytes.now) }
{
    let (terminus_handle, rest) = u16_in(bytes)?;
    let (effecter_id, rest) = u16_in(rest)?;
    let (entity, rest) = entity_in(rest)?;
    let (semantic_id, rest) = u16_in(rest)?;
    let (init, rest) = byte_in(rest)?;
    let (has_auxiliary_names, rest) = flag_in(rest)?;
    let (units, rest) = units_in(rest)?;
    let (auxiliary_oem_unit_handle, rest) = byte_in(rest)?;
    let (conversion, rest) = conversion_in(rest)?;
    let (state_transition_interval, rest) = u32_in(rest)?;
    let (transition_interval, rest) = u32_in(rest)?;
    let (max_settable, rest) = sized_in(conversion.size, rest)?;
    let (min_settable, rest) = sized_in(conversion.size, rest)?;
    let (range, rest) = effecter_range_in(rest)?;
    let effecter = NumericEffecter {
        terminus_handle,
        effecter_id,
        entity,
        semantic_id,
        init,
        has_auxiliary_names,
        units,
        auxiliary_oem_unit_handle,
        conversion,
        state_transition_interval,
        transition_interval,
        max_settable,
        min_settable,
        range,
    };
    Ok((effecter, rest))
}

/// The normal and the rated range.
#[tactic(auto, unfolding(crate::specs::Fields::and_then, crate::specs::NumericEffecters::effecter_range_at))]
fn effecter_range_in(bytes: &[u8]) -> Result<(EffecterRange, &[u8]), RecordFault>
    ensures { Gives (λ x. (x.0, x.1.now)) result (effecter_range_at bytes.now) }
{
    let (format, rest) = format_in(bytes)?;
    let size = format.bits_size();
    let (support, rest) = byte_in(rest)?;
    let (nominal, rest) = sized_in(size, rest)?;
    let (normal_max, rest) = sized_in(size, rest)?;
    let (normal_min, rest) = sized_in(size, rest)?;
    let (rated_max, rest) = sized_in(size, rest)?;
    let (rated_min, rest) = sized_in(size, rest)?;
    let range = EffecterRange {
        format,
        support,
        nominal,
        normal_max,
        normal_min,
        rated_max,
        rated_min,
    };
    Ok((range, rest))
}

/// Adds the fields of a numeric effecter record.
pub(crate) fn push_numeric_effecter(out: &mut RecordBytes, effecter: &NumericEffecter)
    requires room { array_vec_len out.old + 74 ≤ MAX_RECORD_BYTES }
    requires fits { IsTrue (numeric_effecter_fits effecter.now) }
    ensures added { Adds out.old.items out.new.items (numeric_effecter_bytes effecter.now) }
    ensures len { array_vec_len out.new ≤ array_vec_len out.old + 74 }
    ensures range { IsNumericEffecter effecter.now }
{
    let size = effecter.conversion.size;
    push_u16(out, effecter.terminus_handle);
    push_u16(out, effecter.effecter_id);
    push_entity(out, &effecter.entity);
    push_u16(out, effecter.semantic_id);
    push_byte(out, effecter.init);
    push_flag(out, effecter.has_auxiliary_names);
    push_units(out, &effecter.units);
    push_byte(out, effecter.auxiliary_oem_unit_handle);
    push_conversion(out, &effecter.conversion);
    push_u32(out, effecter.state_transition_interval);
    push_u32(out, effecter.transition_interval);
    push_sized(out, size, &effecter.max_settable);
    push_sized(out, size, &effecter.min_settable);
    push_effecter_range(out, &effecter.range);
}

/// Adds the normal and the rated range.
fn push_effecter_range(out: &mut RecordBytes, range: &EffecterRange)
    requires { array_vec_len out.old + 22 ≤ MAX_RECORD_BYTES }
    ensures added { Adds out.old.items out.new.items (effecter_range_bytes range.now) }
    ensures len { array_vec_len out.new ≤ array_vec_len out.old + 22 }
    ensures range { IsU8 range.now.support }
{
    let size = range.format.bits_size();
    push_byte(out, range.format.code());
    push_byte(out, range.support);
    push_sized(out, size, &range.nominal);
    push_sized(out, size, &range.normal_max);
    push_sized(out, size, &range.normal_min);
    push_sized(out, size, &range.rated_max);
    push_sized(out, size, &range.rated_min);
}

//! The fields that records of numeric sensors and of numeric effecters share, written as bytes (DSP0248).

ghost use Rattle.std.specs.Prelude.{◌≡◌, ◌+◌, ◌≤◌};
ghost use Rattle.arrayvec.specs.ArrayVec.{array_vec_len};
ghost use Rattle.pldm_pdr.specs.Entities.{IsEntity, entity_bytes};
ghost use Rattle.pldm_pdr.specs.Measures.{IsConversion, IsUnits, conversion_bytes, units_bytes};
ghost use Rattle.pldm_pdr.specs.Fields.{Adds};

use crate::pushes::{push_byte, push_flag, push_signed_byte, push_u16, push_u32};
use crate::{Conversion, Entity, MAX_RECORD_BYTES, RecordBytes, Units};

/// Adds the entity of a record.
pub(crate) fn push_entity(out: &mut RecordBytes, entity: &Entity)
    requires { array_vec_len out.old + 6 ≤ MAX_RECORD_BYTES }
    ensures added { Adds out.old.items out.new.items (entity_bytes entity.now) }
    ensures len { array_vec_len out.new ≤ array_vec_len out.old + 6 }
    ensures range { IsEntity entity.now }
{
    push_u16(out, entity.entity_type);
    push_u16(out, entity.instance);
    push_u16(out, entity.container_id);
}

/// Adds the units of a numeric sensor or effecter.
pub(crate) fn push_units(out: &mut RecordBytes, units: &Units)
    requires { array_vec_len out.old + 7 ≤ MAX_RECORD_BYTES }
    ensures added { Adds out.old.items out.new.items (units_bytes units.now) }
    ensures len { array_vec_len out.new ≤ array_vec_len out.old + 7 }
    ensures range { IsUnits units.now }
{
    push_byte(out, units.base_unit);
    push_signed_byte(out, units.unit_modifier);
    push_byte(out, units.rate_unit);
    push_byte(out, units.base_oem_unit_handle);
    push_byte(out, units.auxiliary_unit);
    push_signed_byte(out, units.auxiliary_unit_modifier);
    push_byte(out, units.auxiliary_rate_unit);
}

/// Adds how numbers become values.
pub(crate) fn push_conversion(out: &mut RecordBytes, conversion: &Conversion)
    requires { array_vec_len out.old + 14 ≤ MAX_RECORD_BYTES }
    ensures added { Adds out.old.items out.new.items (conversion_bytes conversion.now) }
    ensures len { array_vec_len out.new ≤ array_vec_len out.old + 14 }
    ensures range { IsConversion conversion.now }
{
    push_flag(out, conversion.is_linear);
    push_byte(out, conversion.size.code());
    push_u32(out, conversion.resolution);
    push_u32(out, conversion.offset);
    push_u16(out, conversion.accuracy);
    push_byte(out, conversion.plus_tolerance);
    push_byte(out, conversion.minus_tolerance);
}

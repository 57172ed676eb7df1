//! The fields that records of numeric sensors and of numeric effecters share, read from bytes (DSP0248).

ghost use Rattle.pldm_pdr.specs.Fields.{Gives};
ghost use Rattle.pldm_pdr.specs.Entities.{entity_at};
ghost use Rattle.pldm_pdr.specs.Measures.{conversion_at, units_at};

use crate::fields::{byte_in, flag_in, signed_byte_in, size_in, u16_in, u32_in};
use crate::{Conversion, Entity, RecordFault, Units};

/// The entity of a record.
#[tactic(auto, unfolding(crate::specs::Fields::and_then, crate::specs::Entities::entity_at))]
pub(crate) fn entity_in(bytes: &[u8]) -> Result<(Entity, &[u8]), RecordFault>
    ensures { Gives (λ x. (x.0, x.1.now)) result (entity_at bytes.now) }
{
    let (entity_type, rest) = u16_in(bytes)?;
    let (instance, rest) = u16_in(rest)?;
    let (container_id, rest) = u16_in(rest)?;
    let entity = Entity {
        entity_type,
        instance,
        container_id,
    };
    Ok((entity, rest))
}

/// The units of a numeric sensor or effecter.
#[tactic(auto, unfolding(crate::specs::Fields::and_then, crate::specs::Measures::units_at))]
pub(crate) fn units_in(bytes: &[u8]) -> Result<(Units, &[u8]), RecordFault>
    ensures { Gives (λ x. (x.0, x.1.now)) result (units_at bytes.now) }
{
    let (base_unit, rest) = byte_in(bytes)?;
    let (unit_modifier, rest) = signed_byte_in(rest)?;
    let (rate_unit, rest) = byte_in(rest)?;
    let (base_oem_unit_handle, rest) = byte_in(rest)?;
    let (auxiliary_unit, rest) = byte_in(rest)?;
    let (auxiliary_unit_modifier, rest) = signed_byte_in(rest)?;
    let (auxiliary_rate_unit, rest) = byte_in(rest)?;
    let units = Units {
        base_unit,
        unit_modifier,
        rate_unit,
        base_oem_unit_handle,
        auxiliary_unit,
        auxiliary_unit_modifier,
        auxiliary_rate_unit,
    };
    Ok((units, rest))
}

/// How numbers become values.
#[tactic(auto, unfolding(crate::specs::Fields::and_then, crate::specs::Measures::conversion_at))]
pub(crate) fn conversion_in(bytes: &[u8]) -> Result<(Conversion, &[u8]), RecordFault>
    ensures { Gives (λ x. (x.0, x.1.now)) result (conversion_at bytes.now) }
{
    let (is_linear, rest) = flag_in(bytes)?;
    let (size, rest) = size_in(rest)?;
    let (resolution, rest) = u32_in(rest)?;
    let (offset, rest) = u32_in(rest)?;
    let (accuracy, rest) = u16_in(rest)?;
    let (plus_tolerance, rest) = byte_in(rest)?;
    let (minus_tolerance, rest) = byte_in(rest)?;
    let conversion = Conversion {
        is_linear,
        size,
        resolution,
        offset,
        accuracy,
        plus_tolerance,
        minus_tolerance,
    };
    Ok((conversion, rest))
}

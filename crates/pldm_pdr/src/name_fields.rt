//! Records of auxiliary names, read and written.

ghost use Rattle.std.specs.Prelude.{◌≡◌, ◌+◌, ◌≤◌, IsTrue};
ghost use Rattle.arrayvec.specs.ArrayVec.{array_vec_len};
ghost use Rattle.pldm_pdr.specs.Fields.{Adds, Gives};
ghost use Rattle.pldm_pdr.specs.Names.{are_all_names, are_names};
ghost use Rattle.pldm_pdr.specs.NameRecords.{IsEffecterNames, IsEntityNames, IsSensorNames, effecter_names_at, effecter_names_bytes, entity_names_at, entity_names_bytes, sensor_names_at, sensor_names_bytes};

use crate::fields::{constant_in, u16_in};
use crate::limits::NO_SHARED_NAMES;
use crate::measures_reading::entity_in;
use crate::measures_writing::push_entity;
use crate::name_text::{all_names_in, names_in};
use crate::pushes::{push_byte, push_bytes, push_u16};
use crate::{EffecterNames, EntityNames, MAX_RECORD_BYTES, RecordBytes, RecordFault, SensorNames};

/// The fields of a record of a sensor's names.
#[tactic(auto, unfolding(crate::specs::Fields::and_then, crate::specs::NameRecords::sensor_names_at))]
pub(crate) fn sensor_names_in(bytes: &[u8]) -> Result<(SensorNames, &[u8]), RecordFault>
    ensures { Gives (λ x. (x.0, x.1.now)) result (sensor_names_at bytes.now) }
{
    let (terminus_handle, rest) = u16_in(bytes)?;
    let (sensor_id, rest) = u16_in(rest)?;
    let (names, rest) = all_names_in(rest)?;
    let record = SensorNames {
        terminus_handle,
        sensor_id,
        names,
    };
    Ok((record, rest))
}

/// The fields of a record of an effecter's names.
#[tactic(auto, unfolding(crate::specs::Fields::and_then, crate::specs::NameRecords::effecter_names_at))]
pub(crate) fn effecter_names_in(bytes: &[u8]) -> Result<(EffecterNames, &[u8]), RecordFault>
    ensures { Gives (λ x. (x.0, x.1.now)) result (effecter_names_at bytes.now) }
{
    let (terminus_handle, rest) = u16_in(bytes)?;
    let (effecter_id, rest) = u16_in(rest)?;
    let (names, rest) = all_names_in(rest)?;
    let record = EffecterNames {
        terminus_handle,
        effecter_id,
        names,
    };
    Ok((record, rest))
}

/// The fields of a record of an entity's names.
#[tactic(auto, unfolding(crate::specs::Fields::and_then, crate::specs::NameRecords::entity_names_at))]
pub(crate) fn entity_names_in(bytes: &[u8]) -> Result<(EntityNames, &[u8]), RecordFault>
    ensures { Gives (λ x. (x.0, x.1.now)) result (entity_names_at bytes.now) }
{
    let (entity, rest) = entity_in(bytes)?;
    let rest = constant_in(RecordFault::Shared, NO_SHARED_NAMES, rest)?;
    let (names, rest) = names_in(rest)?;
    Ok((EntityNames { entity, names }, rest))
}

/// Adds the fields of a record of a sensor's names.
pub(crate) fn push_sensor_names(out: &mut RecordBytes, names: &SensorNames)
    requires room { array_vec_len out.old + 292 ≤ MAX_RECORD_BYTES }
    requires fits { IsTrue (are_all_names names.now.names.items) }
    ensures added { Adds out.old.items out.new.items (sensor_names_bytes names.now) }
    ensures len { array_vec_len out.new ≤ array_vec_len out.old + 292 }
    ensures range { IsSensorNames names.now }
{
    push_u16(out, names.terminus_handle);
    push_u16(out, names.sensor_id);
    push_bytes(out, &names.names);
}

/// Adds the fields of a record of an effecter's names.
pub(crate) fn push_effecter_names(out: &mut RecordBytes, names: &EffecterNames)
    requires room { array_vec_len out.old + 292 ≤ MAX_RECORD_BYTES }
    requires fits { IsTrue (are_all_names names.now.names.items) }
    ensures added { Adds out.old.items out.new.items (effecter_names_bytes names.now) }
    ensures len { array_vec_len out.new ≤ array_vec_len out.old + 292 }
    ensures range { IsEffecterNames names.now }
{
    push_u16(out, names.terminus_handle);
    push_u16(out, names.effecter_id);
    push_bytes(out, &names.names);
}

/// Adds the fields of a record of an entity's names.
pub(crate) fn push_entity_names(out: &mut RecordBytes, names: &EntityNames)
    requires room { array_vec_len out.old + 295 ≤ MAX_RECORD_BYTES }
    requires fits { IsTrue (are_names names.now.names.items) }
    ensures added { Adds out.old.items out.new.items (entity_names_bytes names.now) }
    ensures len { array_vec_len out.new ≤ array_vec_len out.old + 295 }
    ensures range { IsEntityNames names.now }
{
    push_entity(out, &names.entity);
    push_byte(out, NO_SHARED_NAMES);
    push_bytes(out, &names.names);
}

//! A state sensor record, read and written.

ghost use Rattle.std.specs.Prelude.{◌≡◌, ◌+◌, ◌≤◌, IsTrue};
ghost use Rattle.arrayvec.specs.ArrayVec.{array_vec_len};
ghost use Rattle.pldm_pdr.specs.Fields.{Adds, Gives};
ghost use Rattle.pldm_pdr.specs.StateSets.{composite_fits};
ghost use Rattle.pldm_pdr.specs.StateSensors.{IsStateSensor, state_sensor_at, state_sensor_bytes};

use crate::fields::{byte_in, flag_in, u16_in};
use crate::measures_reading::entity_in;
use crate::measures_writing::push_entity;
use crate::pushes::{push_byte, push_flag, push_u16};
use crate::state_sets::{composite_in, push_composite};
use crate::{MAX_RECORD_BYTES, RecordBytes, RecordFault, StateSensor};

/// The fields of a state sensor record.
#[tactic(auto, unfolding(crate::specs::Fields::and_then, crate::specs::StateSensors::state_sensor_at))]
pub(crate) fn state_sensor_in(bytes: &[u8]) -> Result<(StateSensor, &[u8]), RecordFault>
    ensures { Gives (λ x. (x.0, x.1.now)) result (state_sensor_at bytes.now) }
{
    let (terminus_handle, rest) = u16_in(bytes)?;
    let (sensor_id, rest) = u16_in(rest)?;
    let (entity, rest) = entity_in(rest)?;
    let (init, rest) = byte_in(rest)?;
    let (has_auxiliary_names, rest) = flag_in(rest)?;
    let (sets, rest) = composite_in(rest)?;
    let sensor = StateSensor {
        terminus_handle,
        sensor_id,
        entity,
        init,
        has_auxiliary_names,
        sets,
    };
    Ok((sensor, rest))
}

/// Adds the fields of a state sensor record.
pub(crate) fn push_state_sensor(out: &mut RecordBytes, sensor: &StateSensor)
    requires room { array_vec_len out.old + 293 ≤ MAX_RECORD_BYTES }
    requires fits { IsTrue (composite_fits sensor.now.sets.items) }
    ensures added { Adds out.old.items out.new.items (state_sensor_bytes sensor.now) }
    ensures len { array_vec_len out.new ≤ array_vec_len out.old + 293 }
    ensures range { IsStateSensor sensor.now }
{
    push_u16(out, sensor.terminus_handle);
    push_u16(out, sensor.sensor_id);
    push_entity(out, &sensor.entity);
    push_byte(out, sensor.init);
    push_flag(out, sensor.has_auxiliary_names);
    push_composite(out, &sensor.sets);
}

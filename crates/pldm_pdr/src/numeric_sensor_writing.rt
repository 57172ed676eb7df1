//! A numeric sensor record, written.

ghost use Rattle.std.specs.Prelude.{◌≡◌, ◌+◌, ◌≤◌, IsTrue};
ghost use Rattle.arrayvec.specs.ArrayVec.{array_vec_len};
ghost use Rattle.pldm_wire.specs.Numbers.{IsU8};
ghost use Rattle.pldm_pdr.specs.NumericSensors.{IsNumericSensor, numeric_sensor_bytes, numeric_sensor_fits, sensor_range_bytes};
ghost use Rattle.pldm_pdr.specs.Fields.{Adds};

use crate::measures_writing::{push_conversion, push_entity, push_units};
use crate::pushes::{push_byte, push_flag, push_sized, push_u16, push_u32};
use crate::{MAX_RECORD_BYTES, NumericSensor, RecordBytes, SensorRange};

/// Adds the fields of a numeric sensor record.
pub(crate) fn push_numeric_sensor(out: &mut RecordBytes, sensor: &NumericSensor)
    requires room { array_vec_len out.old + 95 ≤ MAX_RECORD_BYTES }
    requires fits { IsTrue (numeric_sensor_fits sensor.now) }
    ensures added { Adds out.old.items out.new.items (numeric_sensor_bytes sensor.now) }
    ensures len { array_vec_len out.new ≤ array_vec_len out.old + 95 }
    ensures range { IsNumericSensor sensor.now }
{
    let size = sensor.conversion.size;
    push_u16(out, sensor.terminus_handle);
    push_u16(out, sensor.sensor_id);
    push_entity(out, &sensor.entity);
    push_byte(out, sensor.init);
    push_flag(out, sensor.has_auxiliary_names);
    push_units(out, &sensor.units);
    push_byte(out, sensor.rel);
    push_byte(out, sensor.auxiliary_oem_unit_handle);
    push_conversion(out, &sensor.conversion);
    push_sized(out, size, &sensor.hysteresis);
    push_byte(out, sensor.supported_thresholds);
    push_byte(out, sensor.threshold_and_hysteresis_volatility);
    push_u32(out, sensor.state_transition_interval);
    push_u32(out, sensor.update_interval);
    push_sized(out, size, &sensor.max_readable);
    push_sized(out, size, &sensor.min_readable);
    push_sensor_range(out, &sensor.range);
}

/// Adds the normal range and the thresholds.
fn push_sensor_range(out: &mut RecordBytes, range: &SensorRange)
    requires { array_vec_len out.old + 38 ≤ MAX_RECORD_BYTES }
    ensures added { Adds out.old.items out.new.items (sensor_range_bytes range.now) }
    ensures len { array_vec_len out.new ≤ array_vec_len out.old + 38 }
    ensures range { IsU8 range.now.support }
{
    let size = range.format.bits_size();
    push_byte(out, range.format.code());
    push_byte(out, range.support);
    push_sized(out, size, &range.nominal);
    push_sized(out, size, &range.normal_max);
    push_sized(out, size, &range.normal_min);
    push_sized(out, size, &range.warning_high);
    push_sized(out, size, &range.warning_low);
    push_sized(out, size, &range.critical_high);
    push_sized(out, size, &range.critical_low);
    push_sized(out, size, &range.fatal_high);
    push_sized(out, size, &range.fatal_low);
}

//! A numeric sensor record, read.

ghost use Rattle.pldm_pdr.specs.Fields.{Gives};
ghost use Rattle.pldm_pdr.specs.NumericSensors.{numeric_sensor_at, sensor_range_at};

use crate::fields::{byte_in, flag_in, format_in, sized_in, u16_in, u32_in};
use crate::measures_reading::{conversion_in, entity_in, units_in};
use crate::{NumericSensor, RecordFault, SensorRange};

/// The fields of a numeric sensor record.
#[tactic(auto, unfolding(crate::specs::Fields::and_then, crate::specs::NumericSensors::numeric_sensor_at))]
pub(crate) fn numeric_sensor_in(bytes: &[u8]) -> Result<(NumericSensor, &[u8]), RecordFault>
    ensures { Gives (λ x. (x.0, x.1.now)) result (numeric_sensor_at bytes.now) }
{
    let (terminus_handle, rest) = u16_in(bytes)?;
    let (sensor_id, rest) = u16_in(rest)?;
    let (entity, rest) = entity_in(rest)?;
    let (init, rest) = byte_in(rest)?;
    let (has_auxiliary_names, rest) = flag_in(rest)?;
    let (units, rest) = units_in(rest)?;
    let (rel, rest) = byte_in(rest)?;
    let (auxiliary_oem_unit_handle, rest) = byte_in(rest)?;
    let (conversion, rest) = conversion_in(rest)?;
    let (hysteresis, rest) = sized_in(conversion.size, rest)?;
    let (supported_thresholds, rest) = byte_in(rest)?;
    let (threshold_and_hysteresis_volatility, rest) = byte_in(rest)?;
    let (state_transition_interval, rest) = u32_in(rest)?;
    let (update_interval, rest) = u32_in(rest)?;
    let (max_readable, rest) = sized_in(conversion.size, rest)?;
    let (min_readable, rest) = sized_in(conversion.size, rest)?;
    let (range, rest) = sensor_range_in(rest)?;
    let sensor = NumericSensor {
        terminus_handle,
        sensor_id,
        entity,
        init,
        has_auxiliary_names,
        units,
        rel,
        auxiliary_oem_unit_handle,
        conversion,
        hysteresis,
        supported_thresholds,
        threshold_and_hysteresis_volatility,
        state_transition_interval,
        update_interval,
        max_readable,
        min_readable,
        range,
    };
    Ok((sensor, rest))
}

/// The normal range and the thresholds.
#[tactic(auto, unfolding(crate::specs::Fields::and_then, crate::specs::NumericSensors::sensor_range_at))]
fn sensor_range_in(bytes: &[u8]) -> Result<(SensorRange, &[u8]), RecordFault>
    ensures { Gives (λ x. (x.0, x.1.now)) result (sensor_range_at bytes.now) }
{
    let (format, rest) = format_in(bytes)?;
    let size = format.bits_size();
    let (support, rest) = byte_in(rest)?;
    let (nominal, rest) = sized_in(size, rest)?;
    let (normal_max, rest) = sized_in(size, rest)?;
    let (normal_min, rest) = sized_in(size, rest)?;
    let (warning_high, rest) = sized_in(size, rest)?;
    let (warning_low, rest) = sized_in(size, rest)?;
    let (critical_high, rest) = sized_in(size, rest)?;
    let (critical_low, rest) = sized_in(size, rest)?;
    let (fatal_high, rest) = sized_in(size, rest)?;
    let (fatal_low, rest) = sized_in(size, rest)?;
    let range = SensorRange {
        format,
        support,
        nominal,
        normal_max,
        normal_min,
        warning_high,
        warning_low,
        critical_high,
        critical_low,
        fatal_high,
        fatal_low,
    };
    Ok((range, rest))
}

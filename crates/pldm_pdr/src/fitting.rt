//! Whether the parts of a record fit one another.

ghost use Rattle.std.specs.Prelude.{◌≡◌};
ghost use Rattle.pldm_pdr.specs.Fields.{all_fit};
ghost use Rattle.pldm_pdr.specs.NumericSensors.{numeric_sensor_fits, range_fits};
ghost use Rattle.pldm_pdr.specs.NumericEffecters.{numeric_effecter_fits};
ghost use Rattle.pldm_pdr.specs.Records.{data_fits};

use crate::name_text::{are_all_names, are_names};
use crate::state_sets::composite_fits;
use crate::{NumericEffecter, NumericSensor, RecordData, SensorRange};
use pldm_wire::{Number, Size};

/// Whether the data fits.
pub(crate) fn data_fits(contents: &RecordData) -> bool
    ensures { result ≡ data_fits contents.now }
{
    match contents {
        RecordData::TerminusLocator(_) => true,
        RecordData::NumericSensor(sensor) => numeric_sensor_fits(sensor),
        RecordData::StateSensor(sensor) => composite_fits(&sensor.sets),
        RecordData::NumericEffecter(effecter) => numeric_effecter_fits(effecter),
        RecordData::StateEffecter(effecter) => composite_fits(&effecter.sets),
        RecordData::SensorNames(names) => are_all_names(&names.names),
        RecordData::EffecterNames(names) => are_all_names(&names.names),
        RecordData::EntityNames(names) => are_names(&names.names),
    }
}

/// Whether the sensor's numbers fit its data size, and the range fields their format.
fn numeric_sensor_fits(sensor: &NumericSensor) -> bool
    ensures { result ≡ numeric_sensor_fits sensor.now }
{
    let numbers = [sensor.hysteresis, sensor.max_readable, sensor.min_readable];
    all_fit(sensor.conversion.size, &numbers) && range_fits(&sensor.range)
}

/// Whether the effecter's numbers fit its data size, and the range fields their format.
fn numeric_effecter_fits(effecter: &NumericEffecter) -> bool
    ensures { result ≡ numeric_effecter_fits effecter.now }
{
    let numbers = [effecter.max_settable, effecter.min_settable];
    let range = effecter.range;
    let fields = [
        range.nominal,
        range.normal_max,
        range.normal_min,
        range.rated_max,
        range.rated_min,
    ];
    all_fit(effecter.conversion.size, &numbers) && all_fit(range.format.bits_size(), &fields)
}

/// Whether the range fields fit their format.
fn range_fits(range: &SensorRange) -> bool
    ensures { result ≡ range_fits range.now }
{
    let fields = [
        range.nominal,
        range.normal_max,
        range.normal_min,
        range.warning_high,
        range.warning_low,
        range.critical_high,
        range.critical_low,
        range.fatal_high,
        range.fatal_low,
    ];
    all_fit(range.format.bits_size(), &fields)
}

/// Whether the numbers fit the data size.
fn all_fit(size: Size, values: &[i64]) -> bool
    ensures { result ≡ all_fit size values.now }
{
    match values {
        [] => true,
        [value, rest @ ..] => Number::new(size, *value).is_some() && all_fit(size, rest),
    }
}

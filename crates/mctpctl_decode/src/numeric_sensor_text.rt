//! The decoded lines of a numeric sensor record (DSP0248, "Numeric sensor PDR").

ghost use Rattle.std.specs.Prelude.{◌≡◌, ◌++◌, OnOk};
ghost use Rattle.mctpctl_decode.specs.MeasureTexts.{conversion_text};
ghost use Rattle.mctpctl_decode.specs.NumericSensorTexts.{critical_text, fatal_text, limit_support_text, limits_text, lower_text, normal_range_text, range_text, readable_text, reading_text, sensor_lines, sensor_text, span_text, support_text, thresholds_text, timing_text, units_text, upper_text, warning_text};
ghost use Rattle.mctpctl_decode.specs.RecordFields.{record_line};

use crate::field_text::push_word;
use crate::label::{Label, Limit};
use crate::measure_text::{
    push_auxiliary_unit, push_conversion, push_entity, push_format, push_normal,
    push_normal_support, push_unit,
};
use crate::record_field::{
    push_limit_word, push_number, push_range_number, push_real32, push_signed, push_truth,
};
use mctp_packet::Memory;
use mctpctl_texts::write_text;
use pldm_pdr::{NumericSensor, SensorRange};

/// Adds the lines of a numeric sensor (DSP0248, "Numeric sensor PDR").
#[tactic(auto, unfolding(crate::specs::NumericSensorTexts::sensor_lines))]
pub fn push_numeric_sensor(out: &mut Vec<u8>, sensor: &NumericSensor) -> Result<(), Memory>
    ensures { OnOk result (out.new.items ≡ out.old.items ++ sensor_lines sensor.now) }
{
    push_sensor_line(out, sensor)?;
    push_units_line(out, sensor)?;
    push_conversion_line(out, sensor)?;
    push_readable_line(out, sensor)?;
    push_range_line(out, &sensor.range)
}

/// Adds the line of which sensor it is.
#[tactic(auto, unfolding(crate::specs::RecordFields::record_line))]
fn push_sensor_line(out: &mut Vec<u8>, sensor: &NumericSensor) -> Result<(), Memory>
    ensures { OnOk result (out.new.items ≡ out.old.items ++ record_line (sensor_text sensor.now)) }
{
    write_text(out, "   ")?;
    push_sensor(out, sensor)?;
    write_text(out, "\n")
}

/// Adds which sensor it is, and what it measures.
#[tactic(auto, unfolding(crate::specs::NumericSensorTexts::sensor_text))]
fn push_sensor(out: &mut Vec<u8>, sensor: &NumericSensor) -> Result<(), Memory>
    ensures { OnOk result (out.new.items ≡ out.old.items ++ sensor_text sensor.now) }
{
    push_number(out, Label::Terminus, sensor.terminus_handle.into())?;
    push_number(out, Label::Sensor, sensor.sensor_id.into())?;
    push_entity(out, &sensor.entity)?;
    push_number(out, Label::Init, sensor.init.into())?;
    push_truth(out, Label::AuxiliaryNames, sensor.has_auxiliary_names)
}

/// Adds the line of its units.
#[tactic(auto, unfolding(crate::specs::RecordFields::record_line))]
fn push_units_line(out: &mut Vec<u8>, sensor: &NumericSensor) -> Result<(), Memory>
    ensures { OnOk result (out.new.items ≡ out.old.items ++ record_line (units_text sensor.now)) }
{
    write_text(out, "   ")?;
    push_units(out, sensor)?;
    write_text(out, "\n")
}

/// Adds its units.
#[tactic(auto, unfolding(crate::specs::NumericSensorTexts::units_text))]
fn push_units(out: &mut Vec<u8>, sensor: &NumericSensor) -> Result<(), Memory>
    ensures { OnOk result (out.new.items ≡ out.old.items ++ units_text sensor.now) }
{
    push_unit(out, &sensor.units)?;
    push_auxiliary_unit(out, &sensor.units)?;
    push_number(out, Label::Rel, sensor.rel.into())?;
    push_number(out, Label::AuxOem, sensor.auxiliary_oem_unit_handle.into())
}

/// Adds the line of how its numbers become values.
#[tactic(auto, unfolding(crate::specs::RecordFields::record_line))]
fn push_conversion_line(out: &mut Vec<u8>, sensor: &NumericSensor) -> Result<(), Memory>
    ensures { OnOk result (out.new.items ≡ out.old.items ++ record_line (conversion_text sensor.now.conversion)) }
{
    write_text(out, "   ")?;
    push_conversion(out, &sensor.conversion)?;
    write_text(out, "\n")
}

/// Adds the line of what it can report.
#[tactic(auto, unfolding(crate::specs::RecordFields::record_line))]
fn push_readable_line(out: &mut Vec<u8>, sensor: &NumericSensor) -> Result<(), Memory>
    ensures { OnOk result (out.new.items ≡ out.old.items ++ record_line (readable_text sensor.now)) }
{
    write_text(out, "   ")?;
    push_readable(out, sensor)?;
    write_text(out, "\n")
}

/// Adds what it can report, how it changes, and which thresholds can be set.
#[tactic(auto, unfolding(crate::specs::NumericSensorTexts::readable_text))]
fn push_readable(out: &mut Vec<u8>, sensor: &NumericSensor) -> Result<(), Memory>
    ensures { OnOk result (out.new.items ≡ out.old.items ++ readable_text sensor.now) }
{
    push_reading(out, sensor)?;
    push_timing(out, sensor)?;
    push_thresholds(out, sensor.supported_thresholds)
}

/// Adds the numbers that it can report.
#[tactic(auto, unfolding(crate::specs::NumericSensorTexts::reading_text))]
fn push_reading(out: &mut Vec<u8>, sensor: &NumericSensor) -> Result<(), Memory>
    ensures { OnOk result (out.new.items ≡ out.old.items ++ reading_text sensor.now) }
{
    push_span(out, sensor)?;
    push_signed(out, Label::Hysteresis, sensor.hysteresis)
}

/// Adds the greatest and the least number that it can report.
#[tactic(auto, unfolding(crate::specs::NumericSensorTexts::span_text))]
fn push_span(out: &mut Vec<u8>, sensor: &NumericSensor) -> Result<(), Memory>
    ensures { OnOk result (out.new.items ≡ out.old.items ++ span_text sensor.now) }
{
    push_signed(out, Label::MaxReadable, sensor.max_readable)?;
    push_signed(out, Label::MinReadable, sensor.min_readable)
}

/// Adds how it changes.
#[tactic(auto, unfolding(crate::specs::NumericSensorTexts::timing_text))]
fn push_timing(out: &mut Vec<u8>, sensor: &NumericSensor) -> Result<(), Memory>
    ensures { OnOk result (out.new.items ≡ out.old.items ++ timing_text sensor.now) }
{
    push_real32(
        out,
        Label::StateTransition,
        sensor.state_transition_interval,
    )?;
    push_real32(out, Label::Update, sensor.update_interval)?;
    push_number(
        out,
        Label::Volatility,
        sensor.threshold_and_hysteresis_volatility.into(),
    )
}

/// Adds the thresholds that can be set.
#[tactic(auto, unfolding(crate::specs::NumericSensorTexts::thresholds_text))]
fn push_thresholds(out: &mut Vec<u8>, supported: u8) -> Result<(), Memory>
    ensures { OnOk result (out.new.items ≡ out.old.items ++ thresholds_text supported) }
{
    push_word(out, "thresholds")?;
    push_upper(out, supported)?;
    push_lower(out, supported)
}

/// Adds the upper ones.
#[tactic(auto, unfolding(crate::specs::NumericSensorTexts::upper_text))]
fn push_upper(out: &mut Vec<u8>, supported: u8) -> Result<(), Memory>
    ensures { OnOk result (out.new.items ≡ out.old.items ++ upper_text supported) }
{
    push_limit_word(out, Limit::UpperWarning, supported & 1 == 1)?;
    push_limit_word(out, Limit::UpperCritical, supported >> 1 & 1 == 1)?;
    push_limit_word(out, Limit::UpperFatal, supported >> 2 & 1 == 1)
}

/// Adds the lower ones.
#[tactic(auto, unfolding(crate::specs::NumericSensorTexts::lower_text))]
fn push_lower(out: &mut Vec<u8>, supported: u8) -> Result<(), Memory>
    ensures { OnOk result (out.new.items ≡ out.old.items ++ lower_text supported) }
{
    push_limit_word(out, Limit::LowerWarning, supported >> 3 & 1 == 1)?;
    push_limit_word(out, Limit::LowerCritical, supported >> 4 & 1 == 1)?;
    push_limit_word(out, Limit::LowerFatal, supported >> 5 & 1 == 1)
}

/// Adds the line of its normal range and its thresholds.
#[tactic(auto, unfolding(crate::specs::RecordFields::record_line))]
fn push_range_line(out: &mut Vec<u8>, range: &SensorRange) -> Result<(), Memory>
    ensures { OnOk result (out.new.items ≡ out.old.items ++ record_line (range_text range.now)) }
{
    write_text(out, "   ")?;
    push_range(out, range)?;
    write_text(out, "\n")
}

/// Adds its normal range and its thresholds.
#[tactic(auto, unfolding(crate::specs::NumericSensorTexts::range_text))]
fn push_range(out: &mut Vec<u8>, range: &SensorRange) -> Result<(), Memory>
    ensures { OnOk result (out.new.items ≡ out.old.items ++ range_text range.now) }
{
    push_format(out, range.format)?;
    push_normal_range(out, range)?;
    push_limits(out, range)?;
    push_support(out, range.support)
}

/// Adds its normal range.
#[tactic(auto, unfolding(crate::specs::NumericSensorTexts::normal_range_text))]
fn push_normal_range(out: &mut Vec<u8>, range: &SensorRange) -> Result<(), Memory>
    ensures { OnOk result (out.new.items ≡ out.old.items ++ normal_range_text range.now) }
{
    let (greatest, least) = (range.normal_max, range.normal_min);
    push_normal(out, range.format, range.nominal, greatest, least)
}

/// Adds its thresholds.
#[tactic(auto, unfolding(crate::specs::NumericSensorTexts::limits_text))]
fn push_limits(out: &mut Vec<u8>, range: &SensorRange) -> Result<(), Memory>
    ensures { OnOk result (out.new.items ≡ out.old.items ++ limits_text range.now) }
{
    push_warning(out, range)?;
    push_critical(out, range)?;
    push_fatal(out, range)
}

/// Adds from where on there is a warning.
#[tactic(auto, unfolding(crate::specs::NumericSensorTexts::warning_text))]
fn push_warning(out: &mut Vec<u8>, range: &SensorRange) -> Result<(), Memory>
    ensures { OnOk result (out.new.items ≡ out.old.items ++ warning_text range.now) }
{
    push_range_number(out, range.format, Limit::WarningHigh, range.warning_high)?;
    push_range_number(out, range.format, Limit::WarningLow, range.warning_low)
}

/// Adds from where on its state is critical.
#[tactic(auto, unfolding(crate::specs::NumericSensorTexts::critical_text))]
fn push_critical(out: &mut Vec<u8>, range: &SensorRange) -> Result<(), Memory>
    ensures { OnOk result (out.new.items ≡ out.old.items ++ critical_text range.now) }
{
    push_range_number(out, range.format, Limit::CriticalHigh, range.critical_high)?;
    push_range_number(out, range.format, Limit::CriticalLow, range.critical_low)
}

/// Adds from where on its state is fatal.
#[tactic(auto, unfolding(crate::specs::NumericSensorTexts::fatal_text))]
fn push_fatal(out: &mut Vec<u8>, range: &SensorRange) -> Result<(), Memory>
    ensures { OnOk result (out.new.items ≡ out.old.items ++ fatal_text range.now) }
{
    push_range_number(out, range.format, Limit::FatalHigh, range.fatal_high)?;
    push_range_number(out, range.format, Limit::FatalLow, range.fatal_low)
}

/// Adds which range fields mean something.
#[tactic(auto, unfolding(crate::specs::NumericSensorTexts::support_text))]
fn push_support(out: &mut Vec<u8>, support: u8) -> Result<(), Memory>
    ensures { OnOk result (out.new.items ≡ out.old.items ++ support_text support) }
{
    push_normal_support(out, support)?;
    push_limit_support(out, support)
}

/// Adds which thresholds mean something.
#[tactic(auto, unfolding(crate::specs::NumericSensorTexts::limit_support_text))]
fn push_limit_support(out: &mut Vec<u8>, support: u8) -> Result<(), Memory>
    ensures { OnOk result (out.new.items ≡ out.old.items ++ limit_support_text support) }
{
    push_limit_word(out, Limit::CriticalHigh, support >> 3 & 1 == 1)?;
    push_limit_word(out, Limit::CriticalLow, support >> 4 & 1 == 1)?;
    push_limit_word(out, Limit::FatalHigh, support >> 5 & 1 == 1)?;
    push_limit_word(out, Limit::FatalLow, support >> 6 & 1 == 1)
}

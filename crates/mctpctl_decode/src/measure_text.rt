//! What a numeric sensor or effecter measures in, and how its numbers become values, by name.

ghost use Rattle.std.specs.Prelude.{◌≡◌, ◌++◌, OnOk};
ghost use Rattle.mctpctl_decode.specs.MeasureTexts.{accuracy_text, auxiliary_unit_text, conversion_text, entity_text, format_name, format_text, normal_span_text, normal_support_text, normal_text, scale_text, size_text, unit_text};

use crate::field_text::push_word;
use crate::label::{Label, Limit};
use crate::record_field::{
    push_limit_word, push_number, push_range_number, push_rate_of, push_real32, push_signed,
    push_truth, push_unit_of,
};
use mctp_packet::Memory;
use pldm_pdr::{Conversion, Entity, RangeFormat, Units};

/// Adds the entity that a sensor, an effecter or a name belongs to.
#[tactic(auto, unfolding(crate::specs::MeasureTexts::entity_text))]
pub fn push_entity(out: &mut Vec<u8>, entity: &Entity) -> Result<(), Memory>
    ensures { OnOk result (out.new.items ≡ out.old.items ++ entity_text entity.now) }
{
    push_number(out, Label::Entity, entity.entity_type.into())?;
    push_number(out, Label::Instance, entity.instance.into())?;
    push_number(out, Label::Container, entity.container_id.into())
}

/// Adds the base unit, the power of ten of it, the time that it is taken per, and the OEM unit that stands for it.
#[tactic(auto, unfolding(crate::specs::MeasureTexts::unit_text))]
pub fn push_unit(out: &mut Vec<u8>, units: &Units) -> Result<(), Memory>
    ensures { OnOk result (out.new.items ≡ out.old.items ++ unit_text units.now) }
{
    push_unit_of(out, Label::Unit, units.base_unit)?;
    push_signed(out, Label::Modifier, units.unit_modifier.into())?;
    push_rate_of(out, Label::Rate, units.rate_unit)?;
    push_number(out, Label::Oem, units.base_oem_unit_handle.into())
}

/// Adds the second unit, the power of ten of it, and the time that it is taken per.
#[tactic(auto, unfolding(crate::specs::MeasureTexts::auxiliary_unit_text))]
pub fn push_auxiliary_unit(out: &mut Vec<u8>, units: &Units) -> Result<(), Memory>
    ensures { OnOk result (out.new.items ≡ out.old.items ++ auxiliary_unit_text units.now) }
{
    push_unit_of(out, Label::AuxUnit, units.auxiliary_unit)?;
    push_signed(
        out,
        Label::AuxModifier,
        units.auxiliary_unit_modifier.into(),
    )?;
    push_rate_of(out, Label::AuxRate, units.auxiliary_rate_unit)
}

/// Adds how numbers become values.
pub fn push_conversion(out: &mut Vec<u8>, conversion: &Conversion) -> Result<(), Memory>
    ensures { OnOk result (out.new.items ≡ out.old.items ++ conversion_text conversion.now) }
{
    push_size(out, conversion)?;
    push_scale(out, conversion)?;
    push_accuracy(out, conversion)
}

/// Adds whether values go with numbers in a line, and the data size of the numbers.
#[tactic(auto, unfolding(crate::specs::MeasureTexts::size_text))]
fn push_size(out: &mut Vec<u8>, conversion: &Conversion) -> Result<(), Memory>
    ensures { OnOk result (out.new.items ≡ out.old.items ++ size_text conversion.now) }
{
    push_truth(out, Label::Linear, conversion.is_linear)?;
    push_word(out, "size")?;
    push_word(out, conversion.size.name())
}

/// Adds resolution and offset.
#[tactic(auto, unfolding(crate::specs::MeasureTexts::scale_text))]
fn push_scale(out: &mut Vec<u8>, conversion: &Conversion) -> Result<(), Memory>
    ensures { OnOk result (out.new.items ≡ out.old.items ++ scale_text conversion.now) }
{
    push_real32(out, Label::Resolution, conversion.resolution)?;
    push_real32(out, Label::Offset, conversion.offset)
}

/// Adds accuracy and tolerances.
#[tactic(auto, unfolding(crate::specs::MeasureTexts::accuracy_text))]
fn push_accuracy(out: &mut Vec<u8>, conversion: &Conversion) -> Result<(), Memory>
    ensures { OnOk result (out.new.items ≡ out.old.items ++ accuracy_text conversion.now) }
{
    push_number(out, Label::Accuracy, conversion.accuracy.into())?;
    push_number(out, Label::PlusTolerance, conversion.plus_tolerance.into())?;
    push_number(
        out,
        Label::MinusTolerance,
        conversion.minus_tolerance.into(),
    )
}

/// Adds the format of range fields (DSP0248, "rangeFieldFormat").
#[tactic(auto, unfolding(crate::specs::MeasureTexts::format_text))]
pub fn push_format(out: &mut Vec<u8>, format: RangeFormat) -> Result<(), Memory>
    ensures { OnOk result (out.new.items ≡ out.old.items ++ format_text format) }
{
    push_word(out, "range")?;
    push_word(out, format_name(format))
}

#[tactic(auto, unfolding(crate::specs::MeasureTexts::format_name))]
fn format_name(format: RangeFormat) -> &'static str
    ensures { result.now ≡ format_name format }
{
    match format {
        RangeFormat::Number(size) => size.name(),
        RangeFormat::Real32 => "real32",
    }
}

/// Adds the normal range: the value that is wanted, the greatest and the least.
#[tactic(auto, unfolding(crate::specs::MeasureTexts::normal_text))]
pub fn push_normal(
    out: &mut Vec<u8>,
    format: RangeFormat,
    nominal: i64,
    greatest: i64,
    least: i64,
) -> Result<(), Memory>
    ensures { OnOk result (out.new.items ≡ out.old.items ++ normal_text format nominal greatest least) }
{
    push_range_number(out, format, Limit::Nominal, nominal)?;
    push_normal_span(out, format, greatest, least)
}

/// Adds the greatest and the least value of the normal range.
#[tactic(auto, unfolding(crate::specs::MeasureTexts::normal_span_text))]
fn push_normal_span(
    out: &mut Vec<u8>,
    format: RangeFormat,
    greatest: i64,
    least: i64,
) -> Result<(), Memory>
    ensures { OnOk result (out.new.items ≡ out.old.items ++ normal_span_text format greatest least) }
{
    push_range_number(out, format, Limit::NormalMax, greatest)?;
    push_range_number(out, format, Limit::NormalMin, least)
}

/// Adds which fields of the normal range mean something (DSP0248, "rangeFieldSupport").
#[tactic(auto, unfolding(crate::specs::MeasureTexts::normal_support_text))]
pub fn push_normal_support(out: &mut Vec<u8>, support: u8) -> Result<(), Memory>
    ensures { OnOk result (out.new.items ≡ out.old.items ++ normal_support_text support) }
{
    push_word(out, "support")?;
    push_limit_word(out, Limit::Nominal, support & 1 == 1)?;
    push_limit_word(out, Limit::NormalMax, support >> 1 & 1 == 1)?;
    push_limit_word(out, Limit::NormalMin, support >> 2 & 1 == 1)
}

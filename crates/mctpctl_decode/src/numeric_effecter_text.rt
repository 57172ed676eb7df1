//! The decoded lines of a numeric effecter record (DSP0248, "Numeric effecter PDR").

ghost use Rattle.std.specs.Prelude.{◌≡◌, ◌++◌, OnOk};
ghost use Rattle.mctpctl_decode.specs.MeasureTexts.{conversion_text};
ghost use Rattle.mctpctl_decode.specs.NumericEffecterTexts.{effecter_lines, effecter_text, identity_text, normal_range_text, range_text, rated_text, settable_text, support_text, units_text};
ghost use Rattle.mctpctl_decode.specs.RecordFields.{record_line};

use crate::label::{Label, Limit};
use crate::measure_text::{
    push_auxiliary_unit, push_conversion, push_entity, push_format, push_normal,
    push_normal_support, push_unit,
};
use crate::record_field::{
    push_limit_word, push_number, push_range_number, push_real32, push_signed, push_truth,
};
use mctp_packet::Memory;
use mctpctl_texts::write_text;
use pldm_pdr::{EffecterRange, NumericEffecter};

/// Adds the lines of a numeric effecter (DSP0248, "Numeric effecter PDR").
#[tactic(auto, unfolding(crate::specs::NumericEffecterTexts::effecter_lines))]
pub fn push_numeric_effecter(out: &mut Vec<u8>, effecter: &NumericEffecter) -> Result<(), Memory>
    ensures { OnOk result (out.new.items ≡ out.old.items ++ effecter_lines effecter.now) }
{
    push_effecter_line(out, effecter)?;
    push_units_line(out, effecter)?;
    push_conversion_line(out, effecter)?;
    push_settable_line(out, effecter)?;
    push_range_line(out, &effecter.range)
}

/// Adds the line of which effecter it is.
#[tactic(auto, unfolding(crate::specs::RecordFields::record_line))]
fn push_effecter_line(out: &mut Vec<u8>, effecter: &NumericEffecter) -> Result<(), Memory>
    ensures { OnOk result (out.new.items ≡ out.old.items ++ record_line (effecter_text effecter.now)) }
{
    write_text(out, "   ")?;
    push_effecter(out, effecter)?;
    write_text(out, "\n")
}

/// Adds which effecter it is, and what it sets.
#[tactic(auto, unfolding(crate::specs::NumericEffecterTexts::effecter_text))]
fn push_effecter(out: &mut Vec<u8>, effecter: &NumericEffecter) -> Result<(), Memory>
    ensures { OnOk result (out.new.items ≡ out.old.items ++ effecter_text effecter.now) }
{
    push_identity(out, effecter)?;
    push_number(out, Label::Semantic, effecter.semantic_id.into())?;
    push_number(out, Label::Init, effecter.init.into())?;
    push_truth(out, Label::AuxiliaryNames, effecter.has_auxiliary_names)
}

/// Adds the terminus, the ID and the entity.
#[tactic(auto, unfolding(crate::specs::NumericEffecterTexts::identity_text))]
fn push_identity(out: &mut Vec<u8>, effecter: &NumericEffecter) -> Result<(), Memory>
    ensures { OnOk result (out.new.items ≡ out.old.items ++ identity_text effecter.now) }
{
    push_number(out, Label::Terminus, effecter.terminus_handle.into())?;
    push_number(out, Label::Effecter, effecter.effecter_id.into())?;
    push_entity(out, &effecter.entity)
}

/// Adds the line of its units.
#[tactic(auto, unfolding(crate::specs::RecordFields::record_line))]
fn push_units_line(out: &mut Vec<u8>, effecter: &NumericEffecter) -> Result<(), Memory>
    ensures { OnOk result (out.new.items ≡ out.old.items ++ record_line (units_text effecter.now)) }
{
    write_text(out, "   ")?;
    push_units(out, effecter)?;
    write_text(out, "\n")
}

/// Adds its units.
#[tactic(auto, unfolding(crate::specs::NumericEffecterTexts::units_text))]
fn push_units(out: &mut Vec<u8>, effecter: &NumericEffecter) -> Result<(), Memory>
    ensures { OnOk result (out.new.items ≡ out.old.items ++ units_text effecter.now) }
{
    push_unit(out, &effecter.units)?;
    push_auxiliary_unit(out, &effecter.units)?;
    push_number(
        out,
        Label::AuxOem,
        effecter.auxiliary_oem_unit_handle.into(),
    )
}

/// Adds the line of how its numbers become values.
#[tactic(auto, unfolding(crate::specs::RecordFields::record_line))]
fn push_conversion_line(out: &mut Vec<u8>, effecter: &NumericEffecter) -> Result<(), Memory>
    ensures { OnOk result (out.new.items ≡ out.old.items ++ record_line (conversion_text effecter.now.conversion)) }
{
    write_text(out, "   ")?;
    push_conversion(out, &effecter.conversion)?;
    write_text(out, "\n")
}

/// Adds the line of what it can be set to.
#[tactic(auto, unfolding(crate::specs::RecordFields::record_line))]
fn push_settable_line(out: &mut Vec<u8>, effecter: &NumericEffecter) -> Result<(), Memory>
    ensures { OnOk result (out.new.items ≡ out.old.items ++ record_line (settable_text effecter.now)) }
{
    write_text(out, "   ")?;
    push_settable(out, effecter)?;
    write_text(out, "\n")
}

/// Adds what it can be set to, and how long that takes.
#[tactic(auto, unfolding(crate::specs::NumericEffecterTexts::settable_text))]
fn push_settable(out: &mut Vec<u8>, effecter: &NumericEffecter) -> Result<(), Memory>
    ensures { OnOk result (out.new.items ≡ out.old.items ++ settable_text effecter.now) }
{
    push_signed(out, Label::MaxSettable, effecter.max_settable)?;
    push_signed(out, Label::MinSettable, effecter.min_settable)?;
    push_real32(
        out,
        Label::StateTransition,
        effecter.state_transition_interval,
    )?;
    push_real32(out, Label::Transition, effecter.transition_interval)
}

/// Adds the line of its normal and its rated range.
#[tactic(auto, unfolding(crate::specs::RecordFields::record_line))]
fn push_range_line(out: &mut Vec<u8>, range: &EffecterRange) -> Result<(), Memory>
    ensures { OnOk result (out.new.items ≡ out.old.items ++ record_line (range_text range.now)) }
{
    write_text(out, "   ")?;
    push_range(out, range)?;
    write_text(out, "\n")
}

/// Adds its normal and its rated range.
#[tactic(auto, unfolding(crate::specs::NumericEffecterTexts::range_text))]
fn push_range(out: &mut Vec<u8>, range: &EffecterRange) -> Result<(), Memory>
    ensures { OnOk result (out.new.items ≡ out.old.items ++ range_text range.now) }
{
    push_format(out, range.format)?;
    push_normal_range(out, range)?;
    push_rated(out, range)?;
    push_support(out, range.support)
}

/// Adds its normal range.
#[tactic(auto, unfolding(crate::specs::NumericEffecterTexts::normal_range_text))]
fn push_normal_range(out: &mut Vec<u8>, range: &EffecterRange) -> Result<(), Memory>
    ensures { OnOk result (out.new.items ≡ out.old.items ++ normal_range_text range.now) }
{
    let (greatest, least) = (range.normal_max, range.normal_min);
    push_normal(out, range.format, range.nominal, greatest, least)
}

/// Adds its rated range.
#[tactic(auto, unfolding(crate::specs::NumericEffecterTexts::rated_text))]
fn push_rated(out: &mut Vec<u8>, range: &EffecterRange) -> Result<(), Memory>
    ensures { OnOk result (out.new.items ≡ out.old.items ++ rated_text range.now) }
{
    push_range_number(out, range.format, Limit::RatedMax, range.rated_max)?;
    push_range_number(out, range.format, Limit::RatedMin, range.rated_min)
}

/// Adds which range fields mean something.
#[tactic(auto, unfolding(crate::specs::NumericEffecterTexts::support_text))]
fn push_support(out: &mut Vec<u8>, support: u8) -> Result<(), Memory>
    ensures { OnOk result (out.new.items ≡ out.old.items ++ support_text support) }
{
    push_normal_support(out, support)?;
    push_limit_word(out, Limit::RatedMax, support >> 3 & 1 == 1)?;
    push_limit_word(out, Limit::RatedMin, support >> 4 & 1 == 1)
}

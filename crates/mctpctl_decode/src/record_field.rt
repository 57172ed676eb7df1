//! The parts of a line of a record: each adds a space, and then a field by name.

ghost use Rattle.std.specs.Prelude.{◌≡◌, ◌++◌, OnOk, option_map};
ghost use Rattle.mctpctl_decode.specs.RecordFields.{limit_word, low_bits, named_number, number, range_number, rate_of, real32, real32_word, signed_number, truth, truth_text, unit_of};

use crate::field_text::{push_field, push_named, push_signed_field, push_word};
use crate::label::{Label, Limit};
use crate::unit_names::{rate_name, unit_name};
use mctp_packet::Memory;
use mctpctl_texts::{TextWriter, write_text};
use pldm_pdr::RangeFormat;

/// Adds a number in decimal after its label.
#[tactic(auto, unfolding(crate::specs::RecordFields::number))]
pub fn push_number(out: &mut Vec<u8>, label: Label, value: u64) -> Result<(), Memory>
    ensures { OnOk result (out.new.items ≡ out.old.items ++ number label value) }
{
    push_field(out, label.name(), value)
}

/// Adds a number with a sign after its label.
#[tactic(auto, unfolding(crate::specs::RecordFields::signed_number))]
pub fn push_signed(out: &mut Vec<u8>, label: Label, value: i64) -> Result<(), Memory>
    ensures { OnOk result (out.new.items ≡ out.old.items ++ signed_number label value) }
{
    push_signed_field(out, label.name(), value)
}

/// Adds whether something is so.
#[tactic(auto, unfolding(crate::specs::RecordFields::truth))]
pub fn push_truth(out: &mut Vec<u8>, label: Label, is_so: bool) -> Result<(), Memory>
    ensures { OnOk result (out.new.items ≡ out.old.items ++ truth label is_so) }
{
    push_word(out, label.name())?;
    push_word(out, truth_text(is_so))
}

#[tactic(auto, unfolding(crate::specs::RecordFields::truth_text))]
fn truth_text(is_so: bool) -> &'static str
    ensures { result.now ≡ truth_text is_so }
{
    if is_so { "true" } else { "false" }
}

/// Adds the bits of a real32 in hex after their label.
#[tactic(auto, unfolding(crate::specs::RecordFields::real32))]
pub fn push_real32(out: &mut Vec<u8>, label: Label, bits: u32) -> Result<(), Memory>
    ensures { OnOk result (out.new.items ≡ out.old.items ++ real32 label bits) }
{
    push_word(out, label.name())?;
    push_real32_word(out, bits)
}

/// Adds the bits of a real32 in hex.
#[tactic(auto, unfolding(crate::specs::RecordFields::real32_word))]
fn push_real32_word(out: &mut Vec<u8>, bits: u32) -> Result<(), Memory>
    ensures { OnOk result (out.new.items ≡ out.old.items ++ real32_word bits) }
{
    write_text(out, " 0x")?;
    out.write_hex(&bits.to_be_bytes())
}

/// Adds a code by its name, or by its number where it has none, after its label.
#[tactic(auto, unfolding(crate::specs::RecordFields::named_number))]
pub fn push_named_number(
    out: &mut Vec<u8>,
    label: Label,
    name: Option<&str>,
    value: u8,
) -> Result<(), Memory>
    ensures { OnOk result (out.new.items
        ≡ out.old.items ++ named_number label (option_map (λ text. text.now) name.entry) value) }
{
    push_word(out, label.name())?;
    push_named(out, name, value)
}

/// Adds a unit after its label.
#[tactic(auto, unfolding(crate::specs::RecordFields::unit_of))]
pub fn push_unit_of(out: &mut Vec<u8>, label: Label, unit: u8) -> Result<(), Memory>
    ensures { OnOk result (out.new.items ≡ out.old.items ++ unit_of label unit) }
{
    push_named_number(out, label, unit_name(unit), unit)
}

/// Adds the time that a unit is taken per, after its label.
#[tactic(auto, unfolding(crate::specs::RecordFields::rate_of))]
pub fn push_rate_of(out: &mut Vec<u8>, label: Label, rate: u8) -> Result<(), Memory>
    ensures { OnOk result (out.new.items ≡ out.old.items ++ rate_of label rate) }
{
    push_named_number(out, label, rate_name(rate), rate)
}

/// Adds a range field after its name: a number, or the bits of a real32.
#[tactic(auto, unfolding(crate::specs::RecordFields::range_number))]
pub fn push_range_number(
    out: &mut Vec<u8>,
    format: RangeFormat,
    limit: Limit,
    value: i64,
) -> Result<(), Memory>
    ensures { OnOk result (out.new.items ≡ out.old.items ++ range_number format limit value) }
{
    match format {
        RangeFormat::Number(_) => push_signed_field(out, limit.name(), value),
        RangeFormat::Real32 => {
            push_word(out, limit.name())?;
            push_real32_word(out, low_bits(value))
        }
    }
}

/// The lowest 32 bits of a number.
#[tactic(auto, unfolding(crate::specs::RecordFields::low_bits))]
fn low_bits(value: i64) -> u32
    ensures { result ≡ low_bits value }
{
    (value.cast_unsigned() % (1 << 32)) as u32
}

/// Adds the name of a field or a threshold, where its bit is set.
#[tactic(auto, unfolding(crate::specs::RecordFields::limit_word))]
pub fn push_limit_word(out: &mut Vec<u8>, limit: Limit, set: bool) -> Result<(), Memory>
    ensures { OnOk result (out.new.items ≡ out.old.items ++ limit_word limit set) }
{
    if set {
        push_word(out, limit.name())
    } else {
        Ok(())
    }
}

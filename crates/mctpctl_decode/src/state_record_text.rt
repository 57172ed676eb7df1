//! The decoded lines of the records of state sensors and state effecters (DSP0248).

ghost use Rattle.std.specs.Prelude.{◌≡◌, ◌++◌, OnOk};
ghost use Rattle.std.specs.List.{flat_map};
ghost use Rattle.mctpctl_decode.specs.RecordFields.{record_line};
ghost use Rattle.mctpctl_decode.specs.StateRecordTexts.{effecter_lines, effecter_text, identity_text, possible_states_line, possible_states_text, sensor_lines, sensor_text};

use crate::field_text::{push_bits, push_word};
use crate::label::Label;
use crate::measure_text::push_entity;
use crate::record_field::{push_number, push_truth};
use mctp_packet::Memory;
use mctpctl_texts::write_text;
use pldm_pdr::{PossibleStates, StateEffecter, StateSensor};

/// Adds the lines of a state sensor (DSP0248, "State sensor PDR").
#[tactic(auto, unfolding(crate::specs::StateRecordTexts::sensor_lines))]
pub fn push_state_sensor(out: &mut Vec<u8>, sensor: &StateSensor) -> Result<(), Memory>
    ensures { OnOk result (out.new.items ≡ out.old.items ++ sensor_lines sensor.now) }
{
    push_sensor_line(out, sensor)?;
    push_sets(out, &sensor.sets)
}

/// Adds the line of which sensor it is.
#[tactic(auto, unfolding(crate::specs::RecordFields::record_line))]
fn push_sensor_line(out: &mut Vec<u8>, sensor: &StateSensor) -> Result<(), Memory>
    ensures { OnOk result (out.new.items ≡ out.old.items ++ record_line (sensor_text sensor.now)) }
{
    write_text(out, "   ")?;
    push_sensor(out, sensor)?;
    write_text(out, "\n")
}

/// Adds which sensor it is, and what it reports.
#[tactic(auto, unfolding(crate::specs::StateRecordTexts::sensor_text))]
fn push_sensor(out: &mut Vec<u8>, sensor: &StateSensor) -> Result<(), Memory>
    ensures { OnOk result (out.new.items ≡ out.old.items ++ sensor_text sensor.now) }
{
    push_number(out, Label::Terminus, sensor.terminus_handle.into())?;
    push_number(out, Label::Sensor, sensor.sensor_id.into())?;
    push_entity(out, &sensor.entity)?;
    push_number(out, Label::Init, sensor.init.into())?;
    push_truth(out, Label::AuxiliaryNames, sensor.has_auxiliary_names)
}

/// Adds the lines of a state effecter (DSP0248, "State effecter PDR").
#[tactic(auto, unfolding(crate::specs::StateRecordTexts::effecter_lines))]
pub fn push_state_effecter(out: &mut Vec<u8>, effecter: &StateEffecter) -> Result<(), Memory>
    ensures { OnOk result (out.new.items ≡ out.old.items ++ effecter_lines effecter.now) }
{
    push_effecter_line(out, effecter)?;
    push_sets(out, &effecter.sets)
}

/// Adds the line of which effecter it is.
#[tactic(auto, unfolding(crate::specs::RecordFields::record_line))]
fn push_effecter_line(out: &mut Vec<u8>, effecter: &StateEffecter) -> Result<(), Memory>
    ensures { OnOk result (out.new.items ≡ out.old.items ++ record_line (effecter_text effecter.now)) }
{
    write_text(out, "   ")?;
    push_effecter(out, effecter)?;
    write_text(out, "\n")
}

/// Adds which effecter it is, and what it sets.
#[tactic(auto, unfolding(crate::specs::StateRecordTexts::effecter_text))]
fn push_effecter(out: &mut Vec<u8>, effecter: &StateEffecter) -> Result<(), Memory>
    ensures { OnOk result (out.new.items ≡ out.old.items ++ effecter_text effecter.now) }
{
    push_identity(out, effecter)?;
    push_number(out, Label::Semantic, effecter.semantic_id.into())?;
    push_number(out, Label::Init, effecter.init.into())?;
    push_truth(out, Label::Description, effecter.has_description)
}

/// Adds the terminus, the ID and the entity.
#[tactic(auto, unfolding(crate::specs::StateRecordTexts::identity_text))]
fn push_identity(out: &mut Vec<u8>, effecter: &StateEffecter) -> Result<(), Memory>
    ensures { OnOk result (out.new.items ≡ out.old.items ++ identity_text effecter.now) }
{
    push_number(out, Label::Terminus, effecter.terminus_handle.into())?;
    push_number(out, Label::Effecter, effecter.effecter_id.into())?;
    push_entity(out, &effecter.entity)
}

/// Adds a line for the possible states of each sensor or effecter of a composite one.
fn push_sets(out: &mut Vec<u8>, sets: &[PossibleStates]) -> Result<(), Memory>
    ensures { OnOk result (out.new.items ≡ out.old.items ++ flat_map possible_states_line sets.now) }
{
    for states in sets {
        push_possible_states_line(out, states)?;
    }
    Ok(())
}

/// Adds the line of the possible states of one sensor or effecter.
#[tactic(auto, unfolding(crate::specs::RecordFields::record_line))]
fn push_possible_states_line(out: &mut Vec<u8>, states: &PossibleStates) -> Result<(), Memory>
    ensures { OnOk result (out.new.items ≡ out.old.items ++ possible_states_line states.now) }
{
    write_text(out, "   ")?;
    push_possible_states(out, states)?;
    write_text(out, "\n")
}

/// Adds the state set, and the numbers of its states that are possible.
#[tactic(auto, unfolding(crate::specs::StateRecordTexts::possible_states_text))]
fn push_possible_states(out: &mut Vec<u8>, states: &PossibleStates) -> Result<(), Memory>
    ensures { OnOk result (out.new.items ≡ out.old.items ++ possible_states_text states.now) }
{
    push_number(out, Label::StateSet, states.state_set.into())?;
    push_word(out, "states")?;
    push_bits(out, &states.bits)
}

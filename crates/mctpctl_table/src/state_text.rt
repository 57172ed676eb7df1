//! The words for states in the cells of the table.

ghost use Rattle.std.specs.Prelude.{◌≡◌, ◌++◌, ◌∷◌, [], IfOk, OnOk, codes, option_map, if◌then◌else◌};
ghost use Rattle.pldm_pdr.specs.StateSets.{has_state};
ghost use Rattle.std.specs.Fmt.{decimal};
ghost use Rattle.std.specs.List.{flat_map};
ghost use Rattle.mctpctl_table.specs.States.{listed, missing_text, named, not_read_text, operation_text, possible_from, present_text, refused_text, state_value_text, states_text, unless_enabled};

use crate::identifier::Identifier;
use crate::reply::Reply;
use crate::text::{push_number, push_text};
use mctp_packet::Memory;
use mctpctl_decode::{
    code_name, effecter_state_name, push_code, sensor_operation_name, sensor_state_name,
};
use pldm_pdr::PossibleStates;
use pldm_wire::{Answer, Kind};
use std::alloc::Global;

/// Adds a state by its name, else by its number.
fn push_named(out: &mut Vec<u8>, name: Option<&str>, state: u8) -> Result<(), Memory>
    ensures { OnOk result (out.new.items ≡ out.old.items ++ named (option_map (λ text. text.now) name.entry) state) }
{
    match name {
        Some(name) => push_text(out, name),
        None => {
            push_text(out, "state ")?;
            push_number(out, state.into())
        }
    }
}

/// Adds an operational state.
#[tactic(auto, unfolding(crate::specs::States::operation_text))]
pub(crate) fn push_operation(
    out: &mut Vec<u8>,
    identifier: &Identifier,
    state: u8,
) -> Result<(), Memory>
    ensures { OnOk result (out.new.items ≡ out.old.items ++ operation_text identifier.now state) }
{
    match identifier {
        Identifier::Sensor { .. } => push_named(out, sensor_operation_name(state), state),
        Identifier::Effecter { .. } => push_named(out, effecter_state_name(state), state),
    }
}

/// Adds the present state of a numeric sensor.
#[tactic(auto, unfolding(crate::specs::States::present_text))]
fn push_present(out: &mut Vec<u8>, state: u8) -> Result<(), Memory>
    ensures { OnOk result (out.new.items ≡ out.old.items ++ present_text state) }
{
    push_named(out, sensor_state_name(state), state)
}

/// Adds an operational state after a present one, unless it is enabled.
fn push_unless_enabled(out: &mut Vec<u8>, identifier: &Identifier, state: u8) -> Result<(), Memory>
    ensures { OnOk result (out.new.items ≡ out.old.items ++ unless_enabled identifier.now state) }
{
    if state == 0 {
        return Ok(());
    }
    push_text(out, ", ")?;
    push_operation(out, identifier, state)
}

/// Adds a present state and the operational one; without a present one, the operational state.
pub(crate) fn push_states(
    out: &mut Vec<u8>,
    identifier: &Identifier,
    present: Option<u8>,
    operational: u8,
) -> Result<(), Memory>
    ensures { OnOk result (out.new.items ≡ out.old.items ++ states_text identifier.now present operational) }
{
    match present {
        Some(state) => {
            push_present(out, state)?;
            push_unless_enabled(out, identifier, operational)
        }
        None => push_operation(out, identifier, operational),
    }
}

/// Adds why there is no value.
pub(crate) fn push_missing(out: &mut Vec<u8>, kind: Kind, reply: &Reply) -> Result<(), Memory>
    ensures { OnOk result (out.new.items ≡ out.old.items ++ missing_text kind reply.now) }
{
    match reply {
        Reply::Answered(answer) => push_not_read(out, kind, answer),
        Reply::Silence => push_text(out, "no answer"),
        Reply::Wrong => push_text(out, "wrong answer"),
    }
}

/// Adds why an answer has no value.
#[tactic(auto, unfolding(crate::specs::States::not_read_text))]
fn push_not_read(out: &mut Vec<u8>, kind: Kind, answer: &Answer) -> Result<(), Memory>
    ensures { OnOk result (out.new.items ≡ out.old.items ++ not_read_text kind answer.now) }
{
    match answer {
        Answer::Refused(code) => push_refused(out, kind, code.get()),
        _ => push_text(out, "wrong answer"),
    }
}

/// Adds a refusal.
#[tactic(auto, unfolding(crate::specs::States::refused_text))]
fn push_refused(out: &mut Vec<u8>, kind: Kind, code: u8) -> Result<(), Memory>
    ensures { OnOk result (out.new.items ≡ out.old.items ++ refused_text kind code) }
{
    push_text(out, "refused")?;
    push_code(out, code_name(kind, code), code)
}

/// Adds a state, its state set and the states that are possible.
#[tactic(auto, unfolding(crate::specs::States::state_value_text))]
pub(crate) fn push_state_value(
    out: &mut Vec<u8>,
    alloc: Global,
    states: &PossibleStates,
    state: u8,
) -> Result<(), Memory>
    ensures { OnOk result (out.new.items ≡ out.old.items ++ state_value_text states.now state) }
{
    push_text(out, "state ")?;
    push_number(out, state.into())?;
    push_text(out, " (set ")?;
    push_number(out, states.state_set.into())?;
    push_text(out, ": ")?;
    push_listed(out, &possible(alloc, states)?)?;
    push_text(out, ")")
}

/// The states that are possible.
fn possible(alloc: Global, states: &PossibleStates) -> Result<Vec<u8>, Memory>
    ensures { IfOk result (λ found. found.items ≡ possible_from 256 0 states.now.bits.items) }
{
    let mut found = Vec::new(alloc);
    for state in 0..256u16 {
        push_possible(&mut found, states, state as u8)?;
    }
    Ok(found)
}

/// Adds a state, if it is possible.
fn push_possible(found: &mut Vec<u8>, states: &PossibleStates, state: u8) -> Result<(), Memory>
    ensures { OnOk result (found.new.items
        ≡ found.old.items ++ (if has_state states.now.bits.items state then state ∷ [] else [])) }
{
    if states.has_state(state) {
        found.push(state)?;
    }
    Ok(())
}

/// Adds numbers, with a comma before each but the first.
#[tactic(auto, unfolding(crate::specs::States::listed))]
fn push_listed(out: &mut Vec<u8>, states: &[u8]) -> Result<(), Memory>
    ensures { OnOk result (out.new.items ≡ out.old.items ++ listed states.now) }
{
    match states {
        [] => Ok(()),
        [first, rest @ ..] => {
            push_number(out, (*first).into())?;
            push_others(out, rest)
        }
    }
}

/// Adds numbers, with a comma before each.
fn push_others(out: &mut Vec<u8>, states: &[u8]) -> Result<(), Memory>
    ensures { OnOk result (out.new.items ≡ out.old.items ++ flat_map (λ next. codes ", " ++ decimal next) states.now) }
{
    for state in states {
        push_text(out, ", ")?;
        push_number(out, (*state).into())?;
    }
    Ok(())
}

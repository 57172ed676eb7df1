//! State effecters (DSP0248, "SetStateEffecterStates command").

ghost use Rattle.std.specs.Prelude.{◌≡◌, length, map};
ghost use Rattle.pldm_wire.specs.States.{IsComposite};
ghost use Rattle.simulated_device.specs.EffecterAnswers.{are_allowed, effecter_field, has_other_request, set_states, states_after, states_refusal};
ghost use Rattle.pldm_platform.specs.Changes.{Changes};
ghost use Rattle.simulated_device.specs.StateEffecters.{fields_of_states};

use crate::limits::{EFFECTER_ENABLED, REQUEST_SET};
use arrayvec::ArrayVec;
use pldm_platform::{INVALID_STATE_VALUE, code};
use pldm_wire::{Code, EffecterStateField, MAX_STATES, SetStateField, StateFields};
use std::marker::Model;

/// The states that one field of a state effecter can take.
#[derive(Debug, Drop)]
pub struct AllowedStates {
    states: Vec<u8>,
}

impl Model for AllowedStates {
    ghost use Rattle.std.specs.Prelude.{List, ℕ};

    ghost Value = { List ℕ };

    ghost view = { λ a. a.states.items };
}

impl AllowedStates {
    /// These states.
    pub fn new(states: Vec<u8>) -> AllowedStates
        ensures { result ≡ states.items }
    {
        AllowedStates { states }
    }

    /// The states.
    pub fn as_slice(&self) -> &[u8]
        ensures { result.now ≡ self.now }
    {
        self.states.as_slice()
    }
}

/// A state effecter: for each of its fields the states that it can take, and the one that it has.
#[derive(Debug, Drop)]
pub struct StateEffecter {
    allowed: Vec<AllowedStates>,
    states: StateFields<u8>,
}

impl Model for StateEffecter {
    ghost use Rattle.simulated_device.specs.StateEffecters.{FieldsOfStates};

    ghost Value = { FieldsOfStates };

    ghost view = { λ e. record { allowed = e.allowed.items; states = e.states } };
}

impl StateEffecter {
    /// The effecter whose fields can take these states, and are in these.
    pub fn new(allowed: Vec<AllowedStates>, states: StateFields<u8>) -> StateEffecter
        ensures { result ≡ fields_of_states allowed.items states }
    {
        StateEffecter { allowed, states }
    }

    /// The states that each field can take.
    pub fn allowed(&self) -> &[AllowedStates]
        ensures { result.now ≡ self.now.allowed }
    {
        self.allowed.as_slice()
    }

    /// The state of each field.
    pub fn states(&self) -> &[u8]
        ensures value { result.now ≡ self.now.states }
        ensures range { IsComposite self.now.states }
    {
        self.states.as_slice()
    }

    /// Sets the states that are asked for: `ERROR_INVALID_DATA` for another count of fields than its
    /// own and for a set request that there isn't, `INVALID_STATE_VALUE` for a state that its field
    /// doesn't take. Nothing is set where one of them is refused.
    pub(crate) fn set(&mut self, fields: &StateFields<SetStateField>) -> Result<(), Code>
        ensures { Changes (set_states fields.now self.old) self.old result self.new }
    {
        let sets = fields.as_slice();
        let states = self.states.as_slice();
        if sets.len() != states.len() {
            return Err(Code::ERROR_INVALID_DATA);
        }
        match refusal(sets, self.allowed.as_slice()) {
            Some(code) => Err(code),
            None => {
                self.states = states_after(sets, states);
                Ok(())
            }
        }
    }

    /// The fields of its answer.
    pub(crate) fn fields(&self) -> StateFields<EffecterStateField>
        ensures { result ≡ map effecter_field self.now.states }
    {
        let mut fields = ArrayVec::<EffecterStateField, MAX_STATES>::new();
        for state in self.states.as_slice() {
            fields.push(EffecterStateField {
                operational: EFFECTER_ENABLED,
                pending: *state,
                present: *state,
            });
        }
        StateFields::new(fields.as_slice()).unwrap()
    }
}

/// Why the states that are asked for can't be set, if they can't.
fn refusal(sets: &[SetStateField], allowed: &[AllowedStates]) -> Option<Code>
    ensures { result ≡ states_refusal sets.now allowed.now }
{
    if has_other_request(sets) {
        Some(Code::ERROR_INVALID_DATA)
    } else if are_allowed(sets, allowed) {
        None
    } else {
        Some(code(INVALID_STATE_VALUE))
    }
}

/// Whether there is a set request other than noChange and requestSet.
fn has_other_request(sets: &[SetStateField]) -> bool
    ensures { result ≡ has_other_request sets.now }
{
    sets.iter().any(|set| set.set_request > REQUEST_SET)
}

/// Whether each state that is asked for is one that its field can take.
fn are_allowed(sets: &[SetStateField], allowed: &[AllowedStates]) -> bool
    ensures { result ≡ are_allowed sets.now allowed.now }
{
    let mut sets = sets;
    let mut allowed = allowed;
    while let [set, more_sets @ ..] = sets {
        let [states, more_allowed @ ..] = allowed else {
            return true;
        };
        if set.set_request == REQUEST_SET && !states.as_slice().contains(&set.state) {
            return false;
        }
        sets = more_sets;
        allowed = more_allowed;
    }
    true
}

/// The states after a request of as many fields.
fn states_after(sets: &[SetStateField], states: &[u8]) -> StateFields<u8>
    requires count { length sets.now ≡ length states.now }
    requires range { IsComposite states.now }
    ensures { result ≡ states_after sets.now states.now }
{
    let mut after = ArrayVec::<u8, MAX_STATES>::new();
    let mut sets = sets;
    let mut states = states;
    while let ([set, more_sets @ ..], [state, more_states @ ..]) = (sets, states) {
        after.push(if set.set_request == REQUEST_SET {
            set.state
        } else {
            *state
        });
        sets = more_sets;
        states = more_states;
    }
    StateFields::new(after.as_slice()).unwrap()
}

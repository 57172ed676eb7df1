//! The fields of composite state sensors and effecters (DSP0248, "compositeSensorCount" and
//! "compositeEffecterCount").

ghost use Rattle.std.specs.Prelude.{◌≡◌, ◌≤◌, length, map};
ghost use Rattle.needleoat_forms.specs.States.{effecter_state, effecter_states_in, first_effecter_states, first_sensor_states, first_sets, sensor_state, sensor_states_in, set_state, sets_in};

use arrayvec::ArrayVec;
use pldm_wire::{EffecterStateField, MAX_STATES, SensorStateField, SetStateField, StateFields};

/// One field of SetStateEffecterStates (DSP0248, "SetStateEffecterStates command").
#[repr(C)]
#[derive(Clone, Copy, Default)]
pub struct SetState {
    /// The set request: 0 noChange, 1 requestSet. Any byte is read.
    pub set_request: u8,
    /// The state that is requested.
    pub state: u8,
}

// As in `include/needleoat.h`.
const _: () = prove!(size_of::<SetState>() == 2);

/// One field of GetStateSensorReadings' answer (DSP0248, "GetStateSensorReadings command").
#[repr(C)]
#[derive(Clone, Copy, Default)]
pub struct SensorState {
    /// The sensor's operational state.
    pub operational: u8,
    /// The state that it reports now.
    pub present: u8,
    /// The state before that one.
    pub previous: u8,
    /// The state of its latest event.
    pub event: u8,
}

// As in `include/needleoat.h`.
const _: () = prove!(size_of::<SensorState>() == 4);

/// One field of GetStateEffecterStates' answer (DSP0248, "GetStateEffecterStates command").
#[repr(C)]
#[derive(Clone, Copy, Default)]
pub struct EffecterState {
    /// The effecter's operational state.
    pub operational: u8,
    /// The state that it is going to.
    pub pending: u8,
    /// The state that it is in.
    pub present: u8,
}

// As in `include/needleoat.h`.
const _: () = prove!(size_of::<EffecterState>() == 3);

/// Puts the fields in front of the others.
#[tactic(auto, using(crate::proofs::FirstStates::first_sets_append))]
pub(crate) fn put_sets(room: &mut [SetState; MAX_STATES], fields: &StateFields<SetStateField>)
    ensures { first_sets (length fields.now) room.new ≡ fields.now }
{
    let made = sets_from(fields.as_slice());
    room[..made.len()].copy_from_slice(made.as_slice());
}

/// Each field as it crosses to C.
fn sets_from(fields: &[SetStateField]) -> ArrayVec<SetState, MAX_STATES>
    requires { length fields.now ≤ MAX_STATES }
    ensures { result.items ≡ map set_state fields.now }
{
    let mut made = ArrayVec::<SetState, MAX_STATES>::new();
    for field in fields {
        made.push(SetState {
            set_request: field.set_request,
            state: field.state,
        });
    }
    made
}

/// The first fields, where their count is 1 to [`MAX_STATES`].
pub(crate) fn sets_of(
    count: u8,
    room: &[SetState; MAX_STATES],
) -> Option<StateFields<SetStateField>>
    ensures { result ≡ sets_in count room.now }
{
    let count = usize::from(count);
    if count == 0 || count > MAX_STATES {
        return None;
    }
    let mut fields = ArrayVec::<SetStateField, MAX_STATES>::new();
    for state in &room[..count] {
        fields.push(SetStateField {
            set_request: state.set_request,
            state: state.state,
        });
    }
    StateFields::new(fields.as_slice())
}

/// Puts the fields in front of the others.
#[tactic(auto, using(crate::proofs::FirstStates::first_sensor_states_append))]
pub(crate) fn put_sensor_states(
    room: &mut [SensorState; MAX_STATES],
    fields: &StateFields<SensorStateField>,
)
    ensures { first_sensor_states (length fields.now) room.new ≡ fields.now }
{
    let made = sensor_states_from(fields.as_slice());
    room[..made.len()].copy_from_slice(made.as_slice());
}

/// Each field as it crosses to C.
fn sensor_states_from(fields: &[SensorStateField]) -> ArrayVec<SensorState, MAX_STATES>
    requires { length fields.now ≤ MAX_STATES }
    ensures { result.items ≡ map sensor_state fields.now }
{
    let mut made = ArrayVec::<SensorState, MAX_STATES>::new();
    for field in fields {
        made.push(SensorState {
            operational: field.operational,
            present: field.present,
            previous: field.previous,
            event: field.event,
        });
    }
    made
}

/// The first fields, where their count is 1 to [`MAX_STATES`].
pub(crate) fn sensor_states_of(
    count: u8,
    room: &[SensorState; MAX_STATES],
) -> Option<StateFields<SensorStateField>>
    ensures { result ≡ sensor_states_in count room.now }
{
    let count = usize::from(count);
    if count == 0 || count > MAX_STATES {
        return None;
    }
    let mut fields = ArrayVec::<SensorStateField, MAX_STATES>::new();
    for state in &room[..count] {
        fields.push(SensorStateField {
            operational: state.operational,
            present: state.present,
            previous: state.previous,
            event: state.event,
        });
    }
    StateFields::new(fields.as_slice())
}

/// Puts the fields in front of the others.
#[tactic(auto, using(crate::proofs::FirstStates::first_effecter_states_append))]
pub(crate) fn put_effecter_states(
    room: &mut [EffecterState; MAX_STATES],
    fields: &StateFields<EffecterStateField>,
)
    ensures { first_effecter_states (length fields.now) room.new ≡ fields.now }
{
    let made = effecter_states_from(fields.as_slice());
    room[..made.len()].copy_from_slice(made.as_slice());
}

/// Each field as it crosses to C.
fn effecter_states_from(fields: &[EffecterStateField]) -> ArrayVec<EffecterState, MAX_STATES>
    requires { length fields.now ≤ MAX_STATES }
    ensures { result.items ≡ map effecter_state fields.now }
{
    let mut made = ArrayVec::<EffecterState, MAX_STATES>::new();
    for field in fields {
        made.push(EffecterState {
            operational: field.operational,
            pending: field.pending,
            present: field.present,
        });
    }
    made
}

/// The first fields, where their count is 1 to [`MAX_STATES`].
pub(crate) fn effecter_states_of(
    count: u8,
    room: &[EffecterState; MAX_STATES],
) -> Option<StateFields<EffecterStateField>>
    ensures { result ≡ effecter_states_in count room.now }
{
    let count = usize::from(count);
    if count == 0 || count > MAX_STATES {
        return None;
    }
    let mut fields = ArrayVec::<EffecterStateField, MAX_STATES>::new();
    for state in &room[..count] {
        fields.push(EffecterStateField {
            operational: state.operational,
            pending: state.pending,
            present: state.present,
        });
    }
    StateFields::new(fields.as_slice())
}

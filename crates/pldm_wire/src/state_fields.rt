//! The fields of the commands of state sensors and effecters, one to eight of them in a list (DSP0248).

ghost use Rattle.std.specs.Prelude.{◌≡◌, ◌↔◌, IsSome, IfSome, is_some};
ghost use Rattle.pldm_wire.specs.States.{IsComposite, is_composite, effecter_states_in, sensor_states_in, sets_in};

use crate::MAX_STATES;
use arrayvec::ArrayVec;
use std::marker::Model;

/// One field of SetStateEffecterStates (DSP0248, "SetStateEffecterStates command").
#[derive(Clone, Copy, Debug, Default, PartialEq, Eq)]
pub struct SetStateField {
    /// The set request: 0 noChange, 1 requestSet. Any byte is read.
    pub set_request: u8,
    /// The state that is requested.
    pub state: u8,
}

/// One field of GetStateSensorReadings' answer (DSP0248, "GetStateSensorReadings command").
#[derive(Clone, Copy, Debug, Default, PartialEq, Eq)]
pub struct SensorStateField {
    /// The sensor's operational state.
    pub operational: u8,
    /// The state that it reports now.
    pub present: u8,
    /// The state before that one.
    pub previous: u8,
    /// The state of its latest event.
    pub event: u8,
}

/// One field of GetStateEffecterStates' answer (DSP0248, "GetStateEffecterStates command").
#[derive(Clone, Copy, Debug, Default, PartialEq, Eq)]
pub struct EffecterStateField {
    /// The effecter's operational state.
    pub operational: u8,
    /// The state that it is going to.
    pub pending: u8,
    /// The state that it is in.
    pub present: u8,
}

/// The fields of a composite state sensor or effecter, 1 to [`MAX_STATES`] (DSP0248,
/// "compositeSensorCount" and "compositeEffecterCount").
#[derive(Debug, PartialEq, Eq, Drop)]
pub struct StateFields<T> {
    fields: ArrayVec<T, MAX_STATES>,
}

impl<T> Model for StateFields<T> {
    ghost use Rattle.std.specs.Prelude.{List};
    ghost use Rattle.pldm_wire.specs.States.{IsComposite};

    ghost Value = { List T };

    ghost view = { λ s. s.fields.items };

    ghost invariant = { λ s. IsComposite s.fields.items };

    ghost inverse = { λ xs. record { fields = record { items = xs } } };
}

impl<T: Copy + Default> StateFields<T> {
    /// These fields, where there are 1 to [`MAX_STATES`].
    pub fn new(fields: &[T]) -> Option<StateFields<T>>
        ensures some { IsSome result ↔ IsComposite fields.now }
        ensures test { is_some result ≡ is_composite fields.now }
        ensures fields { IfSome result (λ made. made ≡ fields.now) }
    {
        if fields.is_empty() || fields.len() > MAX_STATES {
            return None;
        }
        let mut kept = ArrayVec::new();
        let _ = kept.try_extend_from_slice(fields); // they fit
        Some(StateFields { fields: kept })
    }
}

impl<T> StateFields<T> {
    /// The fields in order.
    pub fn as_slice(&self) -> &[T]
        ensures value { result.now ≡ self.now }
        ensures range { IsComposite self.now }
    {
        self.fields.as_slice()
    }
}

impl StateFields<SetStateField> {
    /// The fields that stand in these bytes, two bytes each.
    pub(crate) fn read(bytes: &[u8]) -> StateFields<SetStateField>
        requires { IsComposite (sets_in bytes.now) }
        ensures { result ≡ sets_in bytes.now }
    {
        let mut fields = ArrayVec::new();
        let mut rest = bytes;
        while let [set_request, state, tail @ ..] = rest {
            fields.push(SetStateField {
                set_request: *set_request,
                state: *state,
            });
            rest = tail;
        }
        StateFields { fields }
    }
}

impl StateFields<SensorStateField> {
    /// The fields that stand in these bytes, four bytes each.
    pub(crate) fn read(bytes: &[u8]) -> StateFields<SensorStateField>
        requires { IsComposite (sensor_states_in bytes.now) }
        ensures { result ≡ sensor_states_in bytes.now }
    {
        let mut fields = ArrayVec::new();
        let mut rest = bytes;
        while let [operational, present, previous, event, tail @ ..] = rest {
            fields.push(SensorStateField {
                operational: *operational,
                present: *present,
                previous: *previous,
                event: *event,
            });
            rest = tail;
        }
        StateFields { fields }
    }
}

impl StateFields<EffecterStateField> {
    /// The fields that stand in these bytes, three bytes each.
    pub(crate) fn read(bytes: &[u8]) -> StateFields<EffecterStateField>
        requires { IsComposite (effecter_states_in bytes.now) }
        ensures { result ≡ effecter_states_in bytes.now }
    {
        let mut fields = ArrayVec::new();
        let mut rest = bytes;
        while let [operational, pending, present, tail @ ..] = rest {
            fields.push(EffecterStateField {
                operational: *operational,
                pending: *pending,
                present: *present,
            });
            rest = tail;
        }
        StateFields { fields }
    }
}

//! The data of a record: a variant for each type of record that is read here (DSP0248, "PDR type values").

use crate::{
    EffecterNames, EntityNames, NumericEffecter, NumericSensor, SensorNames, StateEffecter,
    StateSensor, TerminusLocator,
};

/// What a record holds after its header: one variant for each type of record that is read here (DSP0248, "PDR type
/// values").
#[derive(Debug, PartialEq, Eq, Drop)]
pub enum RecordData {
    /// 1: where a terminus is.
    TerminusLocator(TerminusLocator),
    /// 2: a numeric sensor.
    NumericSensor(NumericSensor),
    /// 4: a state sensor.
    StateSensor(StateSensor),
    /// 6: the auxiliary names of a sensor.
    SensorNames(SensorNames),
    /// 9: a numeric effecter.
    NumericEffecter(NumericEffecter),
    /// 11: a state effecter.
    StateEffecter(StateEffecter),
    /// 13: the auxiliary names of an effecter.
    EffecterNames(EffecterNames),
    /// 16: the auxiliary names of an entity.
    EntityNames(EntityNames),
}

//! The names under which the fields of records are printed.

ghost use Rattle.std.specs.Prelude.{◌≡◌};
ghost use Rattle.mctpctl_decode.specs.Labels.{label_name, limit_name};

/// A field of a record, but for those that are a [`Limit`].
#[derive(Clone, Copy, Debug)]
pub enum Label {
    /// The record handle.
    Record,
    /// The version of the header.
    Version,
    /// The type of the record.
    RecordType,
    /// The change number.
    Change,
    /// The terminus handle.
    Terminus,
    /// Whether the record is valid.
    Valid,
    /// The terminus ID.
    Tid,
    /// The endpoint ID.
    Eid,
    /// The sensor's ID.
    Sensor,
    /// The effecter's ID.
    Effecter,
    /// The type of the entity.
    Entity,
    /// Which of its type the entity is.
    Instance,
    /// The entity that contains it.
    Container,
    /// What setting the effecter means.
    Semantic,
    /// How it is made ready.
    Init,
    /// Whether a record of names goes with it.
    AuxiliaryNames,
    /// Whether a record that describes it goes with it.
    Description,
    /// The state set.
    StateSet,
    /// The base unit.
    Unit,
    /// The power of ten of the base unit.
    Modifier,
    /// The time that the base unit is taken per.
    Rate,
    /// The OEM unit that stands for the base unit.
    Oem,
    /// The second unit.
    AuxUnit,
    /// The power of ten of the second unit.
    AuxModifier,
    /// The time that the second unit is taken per.
    AuxRate,
    /// The OEM unit that stands for the second unit.
    AuxOem,
    /// How the second unit goes with the first.
    Rel,
    /// Whether values go with numbers in a line.
    Linear,
    /// The resolution.
    Resolution,
    /// The offset.
    Offset,
    /// The accuracy.
    Accuracy,
    /// How far a value may be above what is measured.
    PlusTolerance,
    /// How far a value may be below what is measured.
    MinusTolerance,
    /// The greatest number that can be reported.
    MaxReadable,
    /// The least number that can be reported.
    MinReadable,
    /// How far a number has to go back before a threshold is left.
    Hysteresis,
    /// The longest time that a change of state takes.
    StateTransition,
    /// The time between two readings.
    Update,
    /// When thresholds and hysteresis are lost.
    Volatility,
    /// The greatest number that can be set.
    MaxSettable,
    /// The least number that can be set.
    MinSettable,
    /// The longest time that a change of value takes.
    Transition,
}

/// A field of the range of a numeric sensor or effecter, or a threshold of a sensor.
#[derive(Clone, Copy, Debug)]
pub enum Limit {
    /// The value that is wanted.
    Nominal,
    /// The greatest value of the normal range.
    NormalMax,
    /// The least value of the normal range.
    NormalMin,
    /// From here on the upper warning state.
    WarningHigh,
    /// From here down the lower warning state.
    WarningLow,
    /// From here on the upper critical state.
    CriticalHigh,
    /// From here down the lower critical state.
    CriticalLow,
    /// From here on the upper fatal state.
    FatalHigh,
    /// From here down the lower fatal state.
    FatalLow,
    /// The greatest value that is rated.
    RatedMax,
    /// The least value that is rated.
    RatedMin,
    /// The upper warning threshold.
    UpperWarning,
    /// The upper critical threshold.
    UpperCritical,
    /// The upper fatal threshold.
    UpperFatal,
    /// The lower warning threshold.
    LowerWarning,
    /// The lower critical threshold.
    LowerCritical,
    /// The lower fatal threshold.
    LowerFatal,
}

impl Label {
    /// Its name, in short words of DSP0248.
    #[tactic(auto, unfolding(crate::specs::Labels::label_name))]
    pub fn name(self) -> &'static str
        ensures { result.now ≡ label_name self }
    {
        match self {
            Label::Record => "record",
            Label::Version => "version",
            Label::RecordType => "type",
            Label::Change => "change",
            Label::Terminus => "terminus",
            Label::Valid => "valid",
            Label::Tid => "tid",
            Label::Eid => "eid",
            Label::Sensor => "sensor",
            Label::Effecter => "effecter",
            Label::Entity => "entity",
            Label::Instance => "instance",
            Label::Container => "container",
            Label::Semantic => "semantic",
            Label::Init => "init",
            Label::AuxiliaryNames => "auxiliaryNames",
            Label::Description => "description",
            Label::StateSet => "stateSet",
            Label::Unit => "unit",
            Label::Modifier => "modifier",
            Label::Rate => "rate",
            Label::Oem => "oem",
            Label::AuxUnit => "auxUnit",
            Label::AuxModifier => "auxModifier",
            Label::AuxRate => "auxRate",
            Label::AuxOem => "auxOem",
            Label::Rel => "rel",
            Label::Linear => "linear",
            Label::Resolution => "resolution",
            Label::Offset => "offset",
            Label::Accuracy => "accuracy",
            Label::PlusTolerance => "plusTolerance",
            Label::MinusTolerance => "minusTolerance",
            Label::MaxReadable => "maxReadable",
            Label::MinReadable => "minReadable",
            Label::Hysteresis => "hysteresis",
            Label::StateTransition => "stateTransition",
            Label::Update => "update",
            Label::Volatility => "volatility",
            Label::MaxSettable => "maxSettable",
            Label::MinSettable => "minSettable",
            Label::Transition => "transition",
        }
    }
}

impl Limit {
    /// Its name, in short words of DSP0248.
    #[tactic(auto, unfolding(crate::specs::Labels::limit_name))]
    pub fn name(self) -> &'static str
        ensures { result.now ≡ limit_name self }
    {
        match self {
            Limit::Nominal => "nominal",
            Limit::NormalMax => "normalMax",
            Limit::NormalMin => "normalMin",
            Limit::WarningHigh => "warningHigh",
            Limit::WarningLow => "warningLow",
            Limit::CriticalHigh => "criticalHigh",
            Limit::CriticalLow => "criticalLow",
            Limit::FatalHigh => "fatalHigh",
            Limit::FatalLow => "fatalLow",
            Limit::RatedMax => "ratedMax",
            Limit::RatedMin => "ratedMin",
            Limit::UpperWarning => "upperWarning",
            Limit::UpperCritical => "upperCritical",
            Limit::UpperFatal => "upperFatal",
            Limit::LowerWarning => "lowerWarning",
            Limit::LowerCritical => "lowerCritical",
            Limit::LowerFatal => "lowerFatal",
        }
    }
}

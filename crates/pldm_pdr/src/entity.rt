//! The entity that a sensor, an effecter or a name belongs to (DSP0248, "Entity identification information").

/// The entity that a sensor, an effecter or a name belongs to (DSP0248, "Entity identification information").
#[derive(Clone, Copy, Debug, Default, PartialEq, Eq)]
pub struct Entity {
    /// Its type, a number of DSP0249.
    pub entity_type: u16,
    /// Which of its type it is.
    pub instance: u16,
    /// The entity that contains it.
    pub container_id: u16,
}

//! The fields of a terminus locator record (DSP0248, "Terminus locator PDR").

/// A terminus locator record: which terminus the records of a terminus handle are of, located by an MCTP endpoint ID
/// (DSP0248, "Terminus locator PDR").
#[derive(Clone, Copy, Debug, PartialEq, Eq)]
pub struct TerminusLocator {
    /// The handle by which other records name the terminus.
    pub terminus_handle: u16,
    /// Whether the record is valid.
    pub is_valid: bool,
    /// The terminus ID.
    pub tid: u8,
    /// The entity that contains the terminus.
    pub container_id: u16,
    /// The MCTP endpoint ID of the terminus.
    pub eid: u8,
}

//! Where an update agent is in an update, and what it asks of the device.

/// Where an update agent is in an update. A number is that of a component, counted from 0.
#[derive(Clone, Copy, Debug, PartialEq, Eq)]
pub enum AgentStage {
    /// The device is asked whether it takes an update.
    Requesting,
    /// The table of components is passed, up to this one.
    Passing(u16),
    /// The device is asked to transfer this component.
    Offering(u16),
    /// The device fetches this component's image.
    Serving(u16),
    /// The device verifies it.
    Verifying(u16),
    /// The device applies it.
    Applying(u16),
    /// All components are applied, and the device is asked to activate them.
    Activating,
    /// Something failed, and the device is told that the update ends.
    Cancelling,
    /// The update is over: the device has said that it activates the components, or not.
    Over(bool),
}

/// What the device says to a request of the agent.
#[derive(Clone, Copy, Debug, PartialEq, Eq)]
pub enum DeviceReply {
    /// SUCCESS, and the device takes what it is offered.
    Taken,
    /// INVALID_STATE_FOR_COMMAND or ERROR_NOT_READY: the device has not come so far yet.
    NotYet,
    /// Anything else.
    Refused,
}

/// A request of the agent to the device. A number is that of a component, counted from 0.
#[derive(Clone, Copy, Debug, PartialEq, Eq)]
pub enum AgentRequest {
    /// RequestUpdate.
    RequestUpdate,
    /// PassComponentTable, for this component.
    PassComponent(u16),
    /// UpdateComponent, for this component.
    UpdateComponent(u16),
    /// ActivateFirmware.
    ActivateFirmware,
    /// CancelUpdate.
    CancelUpdate,
}

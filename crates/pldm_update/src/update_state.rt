//! The states of a firmware device.

ghost use Rattle.std.specs.Prelude.{◌≡◌};
ghost use Rattle.pldm_update.specs.UpdateStates.{state_number, state_of};

/// The state of a firmware device (DSP0267, "Firmware device state machine").
#[derive(Clone, Copy, Debug, PartialEq, Eq)]
pub enum UpdateState {
    /// 0: no update is under way.
    Idle,
    /// 1: an update has begun, and the agent passes the table of its components.
    LearnComponents,
    /// 2: the table has been passed. A component may be transferred, or what was applied activated.
    ReadyXfer,
    /// 3: the device asks for a component's image, piece by piece.
    Download,
    /// 4: the device verifies the image.
    Verify,
    /// 5: the device applies the image.
    Apply,
    /// 6: the device activates what it has applied.
    Activate,
}

impl UpdateState {
    /// The state of this number, where there is one.
    pub fn new(number: u8) -> Option<UpdateState>
        ensures { result ≡ state_of number }
    {
        match number {
            0 => Some(UpdateState::Idle),
            1 => Some(UpdateState::LearnComponents),
            2 => Some(UpdateState::ReadyXfer),
            3 => Some(UpdateState::Download),
            4 => Some(UpdateState::Verify),
            5 => Some(UpdateState::Apply),
            6 => Some(UpdateState::Activate),
            _ => None,
        }
    }

    /// Its number in GetStatus (DSP0267, "GetStatus command").
    pub fn number(self) -> u8
        ensures { result ≡ state_number self }
    {
        match self {
            UpdateState::Idle => 0,
            UpdateState::LearnComponents => 1,
            UpdateState::ReadyXfer => 2,
            UpdateState::Download => 3,
            UpdateState::Verify => 4,
            UpdateState::Apply => 5,
            UpdateState::Activate => 6,
        }
    }
}

//! Where a firmware device is in an update, and what it asks of the update agent.

ghost use Rattle.std.specs.Prelude.{◌≡◌};
ghost use Rattle.pldm_update.specs.DeviceStages.{auxiliary_state, auxiliary_status, is_in_transfer, state_of_stage};

use crate::UpdateState;

/// Where a firmware device is in an update (DSP0267, "Firmware device state machine"): the states of the standard, each
/// split by what the device waits for.
#[derive(Clone, Copy, Debug, PartialEq, Eq)]
pub enum Stage {
    /// No update is under way.
    Idle,
    /// The update agent passes the table of components.
    Learning,
    /// The table has been passed; no component is transferred.
    Ready,
    /// A transfer was accepted, and the flash makes room for the image.
    Beginning,
    /// The next piece of the image is asked for.
    Fetching,
    /// The flash stores a piece of so many bytes.
    Storing(u32),
    /// The whole image is stored, and the agent is told so.
    Fetched,
    /// The transfer failed, and the agent is told so.
    Failed,
    /// The flash verifies the image.
    Verifying,
    /// The agent is told whether the image is good.
    Verified(bool),
    /// The flash applies the image.
    Applying,
    /// The agent is told whether the image was applied.
    Applied(bool),
    /// The flash activates what was applied.
    Activating,
}

impl Stage {
    /// The state of the standard (DSP0267, "GetStatus command").
    pub fn state(self) -> UpdateState
        ensures { result ≡ state_of_stage self }
    {
        match self {
            Stage::Idle => UpdateState::Idle,
            Stage::Learning => UpdateState::LearnComponents,
            Stage::Ready => UpdateState::ReadyXfer,
            Stage::Beginning
            | Stage::Fetching
            | Stage::Storing(_)
            | Stage::Fetched
            | Stage::Failed => UpdateState::Download,
            Stage::Verifying | Stage::Verified(_) => UpdateState::Verify,
            Stage::Applying | Stage::Applied(_) => UpdateState::Apply,
            Stage::Activating => UpdateState::Activate,
        }
    }

    /// How far the state's own work is: 0 under way, 1 done, 2 failed, 3 where the agent has the next move (DSP0267,
    /// "GetStatus command", AuxState).
    pub(crate) fn auxiliary_state(self) -> u8
        ensures { result ≡ auxiliary_state self }
    {
        match self {
            Stage::Idle | Stage::Learning | Stage::Ready => 3,
            Stage::Failed | Stage::Verified(false) | Stage::Applied(false) => 2,
            Stage::Fetched | Stage::Verified(true) | Stage::Applied(true) => 1,
            _ => 0,
        }
    }

    /// What went wrong in it: 0 for nothing, 10 for a fault of which no more is told (DSP0267, "GetStatus command",
    /// AuxStateStatus).
    pub(crate) fn auxiliary_status(self) -> u8
        ensures { result ≡ auxiliary_status self }
    {
        match self {
            Stage::Failed | Stage::Verified(false) | Stage::Applied(false) => 10,
            _ => 0,
        }
    }

    /// Whether a component is transferred, verified or applied.
    pub(crate) fn is_in_transfer(self) -> bool
        ensures { result ≡ is_in_transfer self }
    {
        !matches!(
            self,
            Stage::Idle | Stage::Learning | Stage::Ready | Stage::Activating
        )
    }
}

/// A request of the device to the update agent.
#[derive(Clone, Copy, Debug, PartialEq, Eq)]
pub enum DeviceRequest {
    /// RequestFirmwareData: so many bytes of the image from this offset on.
    Piece {
        /// The offset of the first byte, from the image's start.
        offset: u32,
        /// How many bytes.
        length: u32,
    },
    /// TransferComplete: whether the whole image was stored.
    TransferComplete(bool),
    /// VerifyComplete: whether the image is good.
    VerifyComplete(bool),
    /// ApplyComplete: whether the image was applied.
    ApplyComplete(bool),
}

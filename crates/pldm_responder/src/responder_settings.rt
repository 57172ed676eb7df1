//! For how long and for how many instance IDs answers are kept, and what is refused after a restart.

ghost use Rattle.std.specs.Prelude.{◌≡◌};
ghost use Rattle.pldm_wire.specs.declared.assigned.TheConstants.{INSTANCE_IDS};
ghost use Rattle.pldm_wire.specs.declared.restart_policy.RestartPolicy.TheVariants.{All};

use mctp_packet::Keep;
use pldm_wire::{RestartPolicy, Window};

/// How a responding end keeps answers, and what it refuses after a restart.
#[derive(Clone, Copy, Debug, PartialEq, Eq)]
pub struct ResponderSettings {
    /// For how long an answer is kept, and how long the busy time after a restart is.
    pub keep: Keep,
    /// For how many instance IDs of a source answers are kept.
    pub window: Window,
    /// Which requests are refused in the busy time.
    pub busy: RestartPolicy,
}

impl ResponderSettings {
    /// Each answer is kept for this time, whatever its instance ID, and in the busy time each request is refused.
    pub fn each_for(keep: Keep) -> ResponderSettings
        ensures { result ≡ record { keep = keep; window = INSTANCE_IDS; busy = All } }
    {
        ResponderSettings {
            keep,
            window: Window::ALL,
            busy: RestartPolicy::All,
        }
    }
}

//! Which requests are answered with ERROR_NOT_READY in the busy time after a restart.

ghost use Rattle.std.specs.Prelude.{◌≡◌};
ghost use Rattle.pldm_wire.specs.CommandReading.{command_of};
ghost use Rattle.pldm_wire.specs.Settings.{reads_set, refuses};

use crate::{PassThrough, RequestRef, read_command};

/// Which requests are answered with ERROR_NOT_READY in the busy time after a restart, and neither performed nor kept.
#[derive(Clone, Copy, Debug, PartialEq, Eq)]
pub enum RestartPolicy {
    /// Each request.
    All,
    /// Those with a command that sets something in the terminus, and those that are handed on as bytes, which may set
    /// something. A request that only asks is performed, and one with no command that is read is refused, both as at
    /// any other time.
    Sets(PassThrough),
}

impl RestartPolicy {
    /// Whether this request is answered so.
    pub fn refuses(self, request: &RequestRef<'_>) -> bool
        ensures { result ≡ refuses self request.now.kind (command_of request.now.kind request.now.rest) }
    {
        match self {
            RestartPolicy::All => true,
            RestartPolicy::Sets(handed_on) => handed_on.has(request.kind()) || reads_set(request),
        }
    }
}

/// Whether a command is read of this request that sets something in the terminus.
fn reads_set(request: &RequestRef<'_>) -> bool
    ensures { result ≡ reads_set (command_of request.now.kind request.now.rest) }
{
    match &read_command(request) {
        Ok(command) => command.sets(),
        Err(_) => false,
    }
}

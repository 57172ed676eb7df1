//! Why bytes are no frame.

ghost use Rattle.std.specs.Prelude.{◌≡◌};
ghost use Rattle.mctpctl_input.specs.FrameFaults.{name_of};

use mctp_i2c::{i3c, smbus};

/// Why bytes are no frame of a binding.
#[derive(Clone, Copy, Debug, PartialEq, Eq)]
pub enum FrameFault {
    /// On SMBus and I2C.
    I2c(smbus::SmbusFault),
    /// On I3C.
    I3c(i3c::I3cFault),
    /// On a serial line.
    Serial(mctp_serial::SerialFault),
}

impl FrameFault {
    /// Its name, as logs print it.
    pub fn name(self) -> &'static str
        ensures { result.now ≡ name_of self }
    {
        match self {
            FrameFault::I2c(fault) => fault.name(),
            FrameFault::I3c(fault) => fault.name(),
            FrameFault::Serial(fault) => fault.name(),
        }
    }
}

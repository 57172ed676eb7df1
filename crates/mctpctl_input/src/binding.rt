//! The bindings whose frames `mctpctl show --binding` reads: SMBus and I2C, I3C, and a serial line.

/// Which frames stand on the lines of a capture, one on each.
#[derive(Clone, Copy, Debug, PartialEq, Eq)]
pub enum Binding {
    /// On SMBus and I2C (DSP0237): all bytes of a block write, from the destination's address byte to the PEC.
    I2c,
    /// On I3C (DSP0233): all bytes of a private write or read, from the target's address byte to the PEC.
    I3c,
    /// On a serial line (DSP0253): from a flag to the next but one.
    Serial,
}

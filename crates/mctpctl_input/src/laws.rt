//! Laws over the definitions alone: each is the contract of a function that does nothing of its own.

ghost use Rattle.mctpctl_input.specs.Laws.{I2cChangesAreSeen, I2cFramesAreRead, I3cChangesAreSeen, I3cFramesAreRead, SerialFramesAreRead};

/// The packet of every frame is found, whatever its addresses.
pub fn frames_are_read()
    ensures i2c { I2cFramesAreRead }
    ensures i3c { I3cFramesAreRead }
    ensures serial { SerialFramesAreRead }
{
    mctp_i2c::laws::smbus_frames_read_back();
    mctp_i2c::laws::i3c_frames_read_back();
}

/// A frame on I2C or I3C of which some of eight bits in a row changed, or two bits that are less than 127 apart, is
/// none, to whatever address it goes then: the bits of its address may be among them.
pub fn changes_are_seen()
    ensures i2c { I2cChangesAreSeen }
    ensures i3c { I3cChangesAreSeen }
{
    mctp_i2c::laws::smbus_changes_are_seen();
    mctp_i2c::laws::i3c_changes_are_seen();
}

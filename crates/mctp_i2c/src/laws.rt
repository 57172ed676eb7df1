//! Laws over the definitions alone: each is the contract of a function that does nothing.

ghost use Rattle.mctp_i2c.specs.Laws.{SmbusReadsBack, SmbusOnlyFramesAreRead, SmbusBurstsAreSeen};
ghost use Rattle.mctp_i2c.specs.Laws.{SmbusTwoBitsAreSeen};
ghost use Rattle.mctp_i2c.specs.Laws.{I3cReadsBack, I3cOnlyFramesAreRead, I3cBurstsAreSeen};
ghost use Rattle.mctp_i2c.specs.Laws.{I3cTwoBitsAreSeen, I3cOthersAreRefused};

/// What is framed on SMBus is read back, by the device that it is framed for, and only frames are read.
pub fn smbus_frames_read_back()
    ensures back { SmbusReadsBack }
    ensures only { SmbusOnlyFramesAreRead }
{}

/// A frame on SMBus is refused where some of eight bits in a row changed, and where two bits did that are
/// less than 127 apart, by whatever device reads it then: the bits of its address may be among them.
pub fn smbus_changes_are_seen()
    ensures bursts { SmbusBurstsAreSeen }
    ensures two_bits { SmbusTwoBitsAreSeen }
{}

/// What is framed on I3C is read back in the same transfer, and only frames are read.
pub fn i3c_frames_read_back()
    ensures back { I3cReadsBack }
    ensures only { I3cOnlyFramesAreRead }
{}

/// A frame on I3C is refused where some of eight bits in a row changed, where two bits did that are less than
/// 127 apart, and in a transfer of another target or the other way. Bits of the address byte before it may be among
/// them: the frame is then read in the transfer that the changed byte begins.
pub fn i3c_changes_are_seen()
    ensures bursts { I3cBurstsAreSeen }
    ensures two_bits { I3cTwoBitsAreSeen }
    ensures others { I3cOthersAreRefused }
{}

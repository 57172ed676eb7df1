//! Laws over the definitions alone: each is the contract of a function that does nothing.

ghost use Rattle.mctp_serial.specs.CheckLaws.{SequenceIsRemainder, OneRemainder, ShortBurstsAreReported};
ghost use Rattle.mctp_serial.specs.Laws.{ReadsBack, OnlyFramesAreReported, PiecesJoin, ThreeFlagsOpen, OneFlagOpens};

/// The frame of a packet is read back as the packet, whatever comes after it; and a packet is reported only
/// where its frame has come.
pub fn frames_read_back()
    ensures back { ReadsBack }
    ensures only { OnlyFramesAreReported }
{}

/// What bytes give does not depend on the pieces in which they come.
pub fn pieces_join()
    ensures { PiecesJoin }
{}

/// A flag opens a frame, but for one that is taken for a byte of a check sequence; so three open one
/// wherever the reader stands.
pub fn flags_open()
    ensures three { ThreeFlagsOpen }
    ensures one { OneFlagOpens }
{}

/// The check sequence is the one remainder of the bits by x^16 + x^12 + x^5 + 1, so no two strings of
/// one length that differ only within sixteen bits in a row have the same.
pub fn check_sequence_is_a_remainder()
    ensures remainder { SequenceIsRemainder }
    ensures one { OneRemainder }
    ensures bursts { ShortBurstsAreReported }
{}

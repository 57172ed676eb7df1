//! Why bytes on a serial line are no frame of a packet (DSP0253).

ghost use Rattle.std.specs.Prelude.{◌≡◌};
ghost use Rattle.mctp_serial.specs.SerialFaults.{number_of, name_of};

/// Why bytes after a flag are no frame.
#[derive(Clone, Copy, Debug, PartialEq, Eq)]
pub enum SerialFault {
    /// 1: a revision other than 1.
    WrongRevision,
    /// 2: a count of 0.
    Empty,
    /// 3: a count of more bytes than a packet may have.
    TooLong,
    /// 4: a flag before all bytes of the packet have come.
    CutShort,
    /// 5: an escape with a byte after it that stands for none.
    BadEscape,
    /// 6: a check sequence other than that of the packet.
    WrongCheck,
    /// 7: another byte than a flag after the check sequence.
    NoEnd,
}

impl SerialFault {
    /// Its number in this profile's list, 1 to 7.
    pub fn number(self) -> u8
        ensures { result ≡ number_of self }
    {
        match self {
            SerialFault::WrongRevision => 1,
            SerialFault::Empty => 2,
            SerialFault::TooLong => 3,
            SerialFault::CutShort => 4,
            SerialFault::BadEscape => 5,
            SerialFault::WrongCheck => 6,
            SerialFault::NoEnd => 7,
        }
    }

    /// Its name, as logs print it.
    pub fn name(self) -> &'static str
        ensures { result.now ≡ name_of self }
    {
        match self {
            SerialFault::WrongRevision => "WrongRevision",
            SerialFault::Empty => "Empty",
            SerialFault::TooLong => "TooLong",
            SerialFault::CutShort => "CutShort",
            SerialFault::BadEscape => "BadEscape",
            SerialFault::WrongCheck => "WrongCheck",
            SerialFault::NoEnd => "NoEnd",
        }
    }
}

//! Which part of a record a GetPDR answer carries: the first, a later one, the last or all (DSP0248).

ghost use Rattle.std.specs.Prelude.{◌≡◌};
ghost use Rattle.pldm_wire.specs.TransferFlags.{flag_number, flag_of, is_end};

/// Which part of a record a GetPDR answer carries (DSP0248, "GetPDR command", transferFlag).
#[derive(Clone, Copy, Debug, PartialEq, Eq)]
pub enum TransferFlag {
    /// 0x00: the first part, with more to come.
    Start,
    /// 0x01: a later part, with more to come.
    Middle,
    /// 0x02: a later part by the numbering of DSP0240, with more to come. It is read, and this
    /// profile's device never sends it.
    BaseMiddle,
    /// 0x04: the last of several parts. The record's checksum follows it.
    End,
    /// 0x05: the whole record.
    StartAndEnd,
}

impl TransferFlag {
    /// The flag of this number, where there is one.
    pub fn new(number: u8) -> Option<TransferFlag>
        ensures { result ≡ flag_of number }
    {
        match number {
            0x00 => Some(TransferFlag::Start),
            0x01 => Some(TransferFlag::Middle),
            0x02 => Some(TransferFlag::BaseMiddle),
            0x04 => Some(TransferFlag::End),
            0x05 => Some(TransferFlag::StartAndEnd),
            _ => None,
        }
    }

    /// Its number on the wire.
    pub fn number(self) -> u8
        ensures { result ≡ flag_number self }
    {
        match self {
            TransferFlag::Start => 0x00,
            TransferFlag::Middle => 0x01,
            TransferFlag::BaseMiddle => 0x02,
            TransferFlag::End => 0x04,
            TransferFlag::StartAndEnd => 0x05,
        }
    }

    /// Whether it is the last of several parts, which the checksum follows.
    pub fn is_end(self) -> bool
        ensures { result ≡ is_end self }
    {
        self == TransferFlag::End
    }
}

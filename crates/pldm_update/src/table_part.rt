//! Which part of the component table a PassComponentTable command passes.

ghost use Rattle.std.specs.Prelude.{◌≡◌};
ghost use Rattle.pldm_update.specs.TableParts.{part_number, part_of};

/// Which part of the component table a command passes (DSP0267, "PassComponentTable command", transferFlag).
#[derive(Clone, Copy, Debug, PartialEq, Eq)]
pub enum TablePart {
    /// 1: the first component, with more to come.
    Start,
    /// 2: a later component, with more to come.
    Middle,
    /// 4: the last of several components.
    End,
    /// 5: the only component.
    StartAndEnd,
}

impl TablePart {
    /// The part of this number, where there is one.
    pub fn new(number: u8) -> Option<TablePart>
        ensures { result ≡ part_of number }
    {
        match number {
            1 => Some(TablePart::Start),
            2 => Some(TablePart::Middle),
            4 => Some(TablePart::End),
            5 => Some(TablePart::StartAndEnd),
            _ => None,
        }
    }

    /// Its number on the wire.
    pub fn number(self) -> u8
        ensures { result ≡ part_number self }
    {
        match self {
            TablePart::Start => 1,
            TablePart::Middle => 2,
            TablePart::End => 4,
            TablePart::StartAndEnd => 5,
        }
    }
}

//! A line in a colour.

ghost use Rattle.std.specs.Prelude.{◌≡◌, ◌++◌, OnOk};
ghost use Rattle.mctpctl_colours.specs.Painted.{code_of, painted, reset};

use mctp_packet::Memory;

/// The colour of a line.
#[derive(Clone, Copy, Debug, PartialEq, Eq)]
pub enum Colour {
    /// That of the terminal.
    Plain,
    /// Yellow: it says something that has changed.
    Changed,
    /// Red: it says that something was dropped.
    Dropped,
}

impl Colour {
    /// What a terminal is sent before a text of this colour (ECMA-48, "Select graphic rendition").
    fn code(self) -> &'static [u8]
        ensures { result.now ≡ code_of self }
    {
        match self {
            Colour::Plain => b"",
            Colour::Changed => b"\x1b[33m",
            Colour::Dropped => b"\x1b[31m",
        }
    }

    /// What it is sent after it.
    fn reset(self) -> &'static [u8]
        ensures { result.now ≡ reset self }
    {
        match self {
            Colour::Plain => b"",
            Colour::Changed | Colour::Dropped => b"\x1b[0m",
        }
    }
}

/// Adds a line in a colour, without the end of the line. In the plain colour nothing else is added.
pub fn push_painted(colour: Colour, line: &[u8], out: &mut Vec<u8>) -> Result<(), Memory>
    ensures { OnOk result (out.new.items ≡ out.old.items ++ painted colour line.now) }
{
    out.extend_from_slice(colour.code())?;
    out.extend_from_slice(line)?;
    out.extend_from_slice(colour.reset())?;
    Ok(())
}

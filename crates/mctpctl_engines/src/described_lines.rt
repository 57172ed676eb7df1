//! The lines of an input that begins with a description of a device.

ghost use Rattle.std.specs.Prelude.{◌≡◌, ◌+◌, ◌<◌, ◌≤◌, ℕ, Bool, true, List, [], ◌∷◌};
ghost use Rattle.mctpctl_engines.specs.DescribedLines.{IsFirst, described_count, described_may_keep, described_writes, nothing_where_cut};
ghost use Rattle.mctpctl_engines.specs.LinePieces.{TakesLine};
ghost use Rattle.mctpctl_engines.specs.LineRuns.{Written};
ghost use Rattle.pldm_device.specs.declared.description.Description.{Description};
ghost use Rattle.mctpctl_engines.specs.PortFaults.{ReportsNoPort};

use crate::description_lines::DescriptionLines;
use crate::line_run::LineTaker;
use mctpctl_input::{EngineFault, MAX_INPUT, Port};
use pldm_device::Description;
use std::alloc::Global;
use std::io::Write;

/// What takes the lines after a description: `written` says what it writes of them, all or cut off.
///
/// The law `blank_line`: a last line with no bytes gives nothing. The law `nothing_after`: where the input
/// is cut off at once, nothing is written.
pub trait Described: LineTaker + Drop {
    // what is written of the lines after the divider, where this is the description
    ghost written: { Description → Bool → List (List ℕ) → Written };

    /// What takes the lines after this description. No line has come.
    fn begin(alloc: Global, description: Description) -> Self
        ensures gives { (is_cut : Bool) (lines : List (List ℕ)) → Self.writes result is_cut lines
            ≡ written description is_cut lines }
        ensures counted { Self.counted result ≡ 0 };

    ghost blank_line: { (description : Description) (is_cut : Bool)
        → written description is_cut [] ≡ written description is_cut ([] ∷ []) };

    ghost nothing_after: { (description : Description) → (written description true []).text ≡ [] };
}

/// The lines of a description, the line that divides, and then the lines that something else takes.
#[derive(Drop)]
pub enum DescribedLines<T> {
    /// No line has divided.
    Before(DescriptionLines),
    /// A line has divided.
    Past(T),
}

impl<T: Described> DescribedLines<T> {
    /// No line.
    pub fn new(alloc: Global) -> DescribedLines<T>
        ensures { IsFirst result }
    {
        DescribedLines::Before(DescriptionLines::new(alloc))
    }

    /// Takes a line as [`LineTaker::take_line`] does: one of the description, the line that divides, or one past that.
    // Not inlined: a description is on its stack, for which the lines past it are not to pay.
    #[inline(never)]
    fn take_early(
        &mut self,
        alloc: Global,
        line: &[u8],
        out: &mut Vec<u8>,
    ) -> Result<(), EngineFault>
        requires { described_count T.counted self.old < MAX_INPUT }
        ensures meets { TakesLine (described_writes T.written T.writes self.old) line.now
            (described_writes T.written T.writes self.new) out.old.items out.new.items result }
        ensures counted { described_count T.counted self.new ≤ described_count T.counted self.old + 1 }
        ensures ports { ReportsNoPort result }
    {
        let found = match self {
            DescribedLines::Past(lines) => return lines.take_line(alloc, line, out),
            DescribedLines::Before(lines) => lines.take_line(alloc, line),
        };
        match found {
            Ok(None) => Ok(()),
            Ok(Some(description)) => {
                self.divide(alloc, description);
                Ok(())
            }
            Err(fault) => Err(fault),
        }
    }

    /// Begins what takes the lines after this description.
    // Not inlined: what begins is on its stack, for which the lines of the description are not to pay.
    #[inline(never)]
    fn divide(&mut self, alloc: Global, description: Description)
        ensures writes { (is_cut : Bool) (lines : List (List ℕ))
            → described_writes T.written T.writes self.new is_cut lines ≡ T.written description is_cut lines }
        ensures counted { described_count T.counted self.new ≡ 0 }
    {
        *self = DescribedLines::Past(T::begin(alloc, description));
    }
}

impl<T: Described> LineTaker for DescribedLines<T> {
    ghost writes = { described_writes T.written T.writes };

    ghost counted = { described_count T.counted };

    ghost may_keep = { described_may_keep T.may_keep };

    /// Takes a line of the description, or the line that divides, and past that a line of what it began.
    #[inline(always)]
    fn take_line(
        &mut self,
        alloc: Global,
        line: &[u8],
        out: &mut Vec<u8>,
    ) -> Result<(), EngineFault> {
        if let DescribedLines::Past(lines) = self {
            return lines.take_line(alloc, line, out);
        }
        self.take_early(alloc, line, out)
    }

    fn check_front(&self, front: &[u8]) -> Result<(), EngineFault> {
        match self {
            DescribedLines::Past(lines) => lines.check_front(front),
            DescribedLines::Before(lines) => lines.check_front(front),
        }
    }

    /// Takes the last line, which may be the one that divides.
    fn finish<W: Write>(
        &mut self,
        alloc: Global,
        is_cut: bool,
        last: &[u8],
        out: &mut Vec<u8>,
        writer: &mut Port<W>,
    ) -> Result<(), EngineFault> {
        let found = match self {
            DescribedLines::Past(lines) => return lines.finish(alloc, is_cut, last, out, writer),
            DescribedLines::Before(lines) => lines.end_input(alloc, last),
        };
        match found {
            Ok(description) => T::begin(alloc, description).finish(alloc, is_cut, b"", out, writer),
            Err(fault) => Err(fault),
        }
    }

    ghost none_where_cut = { nothing_where_cut T.written T.writes T.nothing_after T.none_where_cut };
}

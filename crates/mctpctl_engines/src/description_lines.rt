//! The lines of a description, as they come before the line that divides.

ghost use Rattle.std.specs.Prelude.{◌≡◌, ◌≤◌, ◌+◌, [], IfErr, OnOk, length};
ghost use Rattle.mctpctl_engines.specs.DescriptionLines.{Describes, EndsDescription, IsReturned, LinesPast, begun, description_writes};
ghost use Rattle.mctpctl_engines.specs.LinePieces.{FrontStops};
ghost use Rattle.mctpctl_engines.specs.PortFaults.{ReportsNoPort};

use mctpctl_input::{DescriptionFault, EngineFault, MAX_DESCRIPTION, MAX_DIVIDER, is_divider};
use pldm_device::Description;
use std::alloc::Global;

/// The lines of a description that have come. No line has divided yet.
#[derive(Drop)]
pub struct DescriptionLines {
    /// The lines, their LF among them.
    text: Vec<u8>,
}

impl DescriptionLines {
    /// No line.
    pub fn new(alloc: Global) -> DescriptionLines
        ensures { result.text.items ≡ [] }
    {
        DescriptionLines {
            text: Vec::new(alloc),
        }
    }

    /// Takes the next line: `None` where it is of the description, else the device that is described. What is left
    /// after an `Err`, or after the line that divides, is not read again.
    pub fn take_line(
        &mut self,
        alloc: Global,
        line: &[u8],
    ) -> Result<Option<Description>, EngineFault>
        ensures meets { (past : LinesPast) → Describes past (description_writes past self.old.text.items) line.now
            (description_writes past self.new.text.items) result }
        ensures ports { ReportsNoPort result }
    {
        if is_divider(line) {
            return match read_description(alloc, &self.text) {
                Ok(description) => Ok(Some(description)),
                Err(fault) => Err(fault),
            };
        }
        self.text.extend_from_slice(line)?;
        if let Err(refused) = self.text.push(b'\n') {
            return Err(EngineFault::Memory(refused.into()));
        }
        Ok(None)
    }

    /// Fails where the description is too long with a line that begins with `front`, even if that is the line that
    /// divides.
    pub fn check_front(&self, front: &[u8]) -> Result<(), EngineFault>
        ensures ok { OnOk result (length self.now.text.items + length front.now ≤ MAX_DESCRIPTION + MAX_DIVIDER) }
        ensures err { IfErr result (λ fault. (past : LinesPast) → FrontStops (description_writes past
            self.now.text.items) front.now fault) }
        ensures ports { ReportsNoPort result }
    {
        if self.text.len().saturating_add(front.len()) > MAX_DESCRIPTION + MAX_DIVIDER {
            return Err(EngineFault::TooLarge);
        }
        Ok(())
    }

    /// The device that is described, where the input ends in the line that divides.
    pub fn end_input(&self, alloc: Global, last: &[u8]) -> Result<Description, EngineFault>
        ensures meets { (past : LinesPast) → EndsDescription past (description_writes past self.now.text.items) last.now
            result }
        ensures ports { ReportsNoPort result }
    {
        if is_divider(last) {
            return read_description(alloc, &self.text);
        }
        let length = self.text.len().saturating_add(last.len());
        Err(if length > MAX_DESCRIPTION {
            EngineFault::TooLarge
        } else {
            EngineFault::NoDivider
        })
    }
}

/// The device that the text before the divider describes.
pub fn read_description(alloc: Global, text: &[u8]) -> Result<Description, EngineFault>
    ensures meets { IsReturned (begun text.now) result }
    ensures ports { ReportsNoPort result }
{
    if text.len() > MAX_DESCRIPTION {
        return Err(EngineFault::TooLarge);
    }
    match Description::read_or_refusal(alloc, text) {
        Ok(description) => Ok(description),
        Err(refusal) => Err(EngineFault::Device(DescriptionFault::new(alloc, refusal)?)),
    }
}

//! The text of a file, as the description of a device.

ghost use Rattle.mctpctl.specs.ServedTexts.{served_of};
ghost use Rattle.mctpctl_engines.specs.DescriptionLines.{IsReturned};

use mctpctl_engines::read_description;
use mctpctl_input::{DescriptionFault, EngineFault, MAX_DESCRIPTION};
use pldm_device::{ControlTable, Description};
use std::alloc::Global;
use std::io::Read;
use std::{fs, io};

/// The text of a file, or a front of it that is longer than [`MAX_DESCRIPTION`] bytes.
pub fn device_text(rt: &HostRuntime, name: &str) -> io::Result<Vec<u8>> {
    let file = fs::open(rt, name)?;
    let mut text = Vec::new(rt.alloc());
    file.take(MAX_DESCRIPTION as u64 + 1)
        .read_to_end(&mut text)?;
    Ok(text)
}

/// The device that a text describes, and what the text says of its control messages; else the first fault, as
/// [`read_description`] has it.
pub fn read_served(alloc: Global, text: &[u8]) -> Result<(Description, ControlTable), EngineFault>
    ensures { IsReturned (served_of text.now) result }
{
    let description = read_description(alloc, text)?;
    match ControlTable::read_or_refusal(alloc, text) {
        Ok(table) => Ok((description, table)),
        Err(refusal) => Err(EngineFault::Device(DescriptionFault::new(alloc, refusal)?)),
    }
}

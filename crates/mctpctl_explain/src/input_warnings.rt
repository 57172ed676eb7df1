//! All warnings of an input.

ghost use Rattle.std.specs.Prelude.{◌≤◌, IfOk, length};

use crate::divided::Divided;
use crate::explanation::Subcommand;
use crate::forgotten::forgotten_moments;
use crate::ignored::ignored_keys;
use mctp_packet::Memory;
use std::alloc::Global;

/// The most warnings of one input.
pub const MAX_WARNINGS: usize = 20;

/// Warnings of an input, [`MAX_WARNINGS`] at most: keys of a description that are ignored, in a run also a `busy` that
/// is, and lines of a capture that are a moment alone and look like a packet. None of them is a fault.
pub fn warnings(alloc: Global, subject: Subcommand, input: &[u8]) -> Result<Vec<String>, Memory>
    ensures few { IfOk result (λ found. length found.items ≤ MAX_WARNINGS) }
{
    let mut found = all_warnings(alloc, subject, input)?;
    found.truncate(MAX_WARNINGS);
    Ok(found)
}

/// As [`warnings`].
fn all_warnings(alloc: Global, subject: Subcommand, input: &[u8]) -> Result<Vec<String>, Memory> {
    let mut found = Vec::new(alloc);
    let (lines, lines_before) = match subject {
        Subcommand::Show => (input, 0),
        Subcommand::Serve => {
            ignored_keys(alloc, subject, input, &mut found)?;
            return Ok(found);
        }
        Subcommand::Answer | Subcommand::Run => match Divided::new(input) {
            Some(divided) => {
                ignored_keys(alloc, subject, divided.description, &mut found)?;
                (divided.lines, divided.lines_before)
            }
            None => {
                ignored_keys(alloc, subject, input, &mut found)?;
                return Ok(found);
            }
        },
    };
    if subject != Subcommand::Run {
        forgotten_moments(alloc, lines, lines_before, &mut found)?;
    }
    Ok(found)
}

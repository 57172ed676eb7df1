//! What `--explain` adds: the fault in more words, and warnings.

ghost use Rattle.std.specs.Prelude.{◌≡◌, IfOk, Some, map, string_bytes};
ghost use Rattle.needleoat_page.specs.Explanations.{Explains, IsLineOf, Tells, Warns, fault_of, warning_lines};

use mctp_packet::Memory;
use mctpctl_explain::{Subcommand, explain, warnings};
use mctpctl_input::EngineFault;
use std::alloc::Global;

/// A line of what more there is to say of the fault, if there is, and a line of each warning, as `mctpctl --explain`
/// prints them behind its own name.
#[tactic(auto, using(crate::proofs::Reported::tells))]
pub fn more_text(
    alloc: Global,
    subject: Subcommand,
    input: &[u8],
    ended: &Result<(), EngineFault>,
) -> Result<Vec<u8>, Memory>
    ensures { IfOk result (λ more. Tells (fault_of ended.now) more.items) }
{
    let mut more = explained_line(alloc, subject, input, ended)?;
    let warned = warned_lines(alloc, subject, input)?;
    more.extend_from_slice(&warned)?;
    Ok(more)
}

/// The line of what more there is to say of the fault; nothing where there is none.
fn explained_line(
    alloc: Global,
    subject: Subcommand,
    input: &[u8],
    ended: &Result<(), EngineFault>,
) -> Result<Vec<u8>, Memory>
    ensures { IfOk result (λ line. Explains (fault_of ended.now) line.items) }
{
    match ended {
        Ok(()) => Ok(Vec::new(alloc)),
        Err(fault) => line_of_fault(alloc, subject, input, fault),
    }
}

/// As that, of a fault.
#[tactic(auto, using(crate::proofs::Reported::explains))]
fn line_of_fault(
    alloc: Global,
    subject: Subcommand,
    input: &[u8],
    fault: &EngineFault,
) -> Result<Vec<u8>, Memory>
    ensures { IfOk result (λ line. Explains (Some fault.now) line.items) }
{
    let text = explain(alloc, subject, input, fault)?;
    as_line(alloc, &text)
}

/// A text as a line; no line where it is empty.
fn as_line(alloc: Global, text: &str) -> Result<Vec<u8>, Memory>
    ensures { IfOk result (λ line. IsLineOf text.now line.items) }
{
    let mut line = Vec::new(alloc);
    if !text.is_empty() {
        line.extend_from_slice(text.as_bytes())?;
        line.push(b'\n')?;
    }
    Ok(line)
}

/// A line of each warning of the input.
#[tactic(auto, using(crate::proofs::Reported::warned))]
fn warned_lines(alloc: Global, subject: Subcommand, input: &[u8]) -> Result<Vec<u8>, Memory>
    ensures { IfOk result (λ lines. Warns lines.items) }
{
    let found = warnings(alloc, subject, input)?;
    lines_of(alloc, &found)
}

/// A line of each of these warnings.
fn lines_of(alloc: Global, warnings: &[String]) -> Result<Vec<u8>, Memory>
    ensures { IfOk result (λ lines. lines.items ≡ warning_lines (map (λ text. string_bytes text) warnings.now)) }
{
    let mut lines = Vec::new(alloc);
    for warning in warnings {
        lines.extend_from_slice(b"warning: ")?;
        lines.extend_from_slice(warning.as_bytes())?;
        lines.push(b'\n')?;
    }
    Ok(lines)
}

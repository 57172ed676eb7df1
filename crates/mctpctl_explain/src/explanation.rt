//! What a fault of the input is, in more words.

ghost use Rattle.std.specs.Prelude.{◌≡◌, ◌≤◌, [], IfOk, IfSome, string_bytes};
ghost use Rattle.mctpctl_explain.specs.Reasons.{ExplainsDevice, ExplainsLine, ExplainsNumbered, line_opening};
ghost use Rattle.mctpctl_input.specs.OutsideFaults.{IsOutside};

use crate::description::explain_description;
use crate::divided::{Divided, numbered_line};
use crate::timing::explain_timing;
use crate::{back_in_time, capture_line, schedule_line};
use mctp_packet::{Eid, Memory};
use mctpctl_input::{EngineFault, LineKind, MAX_DESCRIPTION, MAX_INPUT};
use pldm_device::Description;
use pldm_requester::TimingFault;
use std::alloc::Global;

/// Whose input it is.
#[derive(Clone, Copy, Debug, PartialEq, Eq)]
pub enum Subcommand {
    /// That of `answer`: a description and a capture.
    Answer,
    /// That of `run`: a description and a schedule.
    Run,
    /// That of `show`: a capture.
    Show,
    /// That of `serve`: a description alone, of which all is.
    Serve,
}

/// Says more of a fault that an engine returned for an input, of which this is what was read, up to
/// `MAX_INPUT` bytes: where it is, what was found there, and what is allowed. It is one line, without a line
/// end, and empty where there is nothing more to say: the ports' own faults and out of memory are no
/// faults of the input.
pub fn explain(
    alloc: Global,
    subject: Subcommand,
    input: &[u8],
    fault: &EngineFault,
) -> Result<String, Memory>
    ensures outside { IsOutside fault.now → IfOk result (λ text. string_bytes text ≡ []) }
    ensures device { IfOk result (λ text. ExplainsDevice fault.now (string_bytes text)) }
    ensures line { IfOk result (λ text. ExplainsLine fault.now (string_bytes text)) }
{
    match fault {
        EngineFault::Read | EngineFault::Write | EngineFault::Memory(_) => Ok(String::new(alloc)),
        EngineFault::Device(fault) => match fault.refusal() {
            Some(refusal) => { explain_description(alloc, description_in(subject, input), refusal) }
            None => Ok(String::new(alloc)),
        },
        EngineFault::NoDivider => no_divider(alloc, subject),
        EngineFault::Line(number, kind) => explain_line(alloc, subject, input, *number, *kind),
        EngineFault::Timing(eid, fault) => explain_requester(alloc, input, *eid, *fault),
        EngineFault::TooLarge => too_large(alloc, subject, input),
    }
}

/// The description of an input; all of it where no line divides, or none does in such an input.
fn description_in(subject: Subcommand, input: &[u8]) -> &[u8] {
    match (subject, Divided::new(input)) {
        (Subcommand::Serve, _) | (_, None) => input,
        (_, Some(divided)) => divided.description,
    }
}

fn no_divider(alloc: Global, subject: Subcommand) -> Result<String, Memory> {
    let what = match subject {
        Subcommand::Answer | Subcommand::Show | Subcommand::Serve => "capture",
        Subcommand::Run => "schedule",
    };
    Ok(format!(in alloc; "expected a line '%%' between the description and the {what}")?)
}

/// Says which line it is in the whole input, and what is wrong with it.
#[tactic(auto, using(crate::proofs::Explained::numbered))]
fn explain_line(
    alloc: Global,
    subject: Subcommand,
    input: &[u8],
    number: u64,
    kind: LineKind,
) -> Result<String, Memory>
    ensures { IfOk result (λ text. ExplainsNumbered number kind (string_bytes text)) }
{
    let Some((line, before, shown)) = refused_line(subject, input, number) else {
        return Ok(String::new(alloc));
    };
    let reason = line_reason(alloc, subject, line, before, kind)?;
    if reason.is_empty() {
        return Ok(reason);
    }
    let opening = opening_of(kind);
    Ok(format!(in alloc; "input line {shown}: {opening}{reason}")?)
}

/// The line of this number, the lines before it, and its number in the whole input.
fn refused_line(subject: Subcommand, input: &[u8], number: u64) -> Option<(&[u8], &[u8], u64)>
    ensures { IfSome result (λ line. number ≤ line.2) }
{
    let (lines, lines_before) = match (subject, Divided::new(input)) {
        (Subcommand::Show, _) | (_, None) => (input, 0),
        (_, Some(divided)) => (divided.lines, divided.lines_before),
    };
    let (line, before) = numbered_line(lines, number)?;
    Some((line, before, number.saturating_add(lines_before)))
}

/// The words with which the reason opens for which a line was refused.
fn opening_of(kind: LineKind) -> &'static str
    ensures { result.now ≡ line_opening kind }
{
    match kind {
        LineKind::LongLine => "the line has ",
        LineKind::Words => "wrong words: ",
        LineKind::Number => "wrong number: ",
        LineKind::BackInTime => "the moment ",
        LineKind::BadHex => "wrong hex: ",
        LineKind::NoSuchRequester => "no earlier line is of the requester ",
        LineKind::SameRequester => "an earlier line is of the requester ",
    }
}

/// What is wrong with a line that was refused for this, after these lines; nothing where it is not refused for this.
fn line_reason(
    alloc: Global,
    subject: Subcommand,
    line: &[u8],
    before: &[u8],
    kind: LineKind,
) -> Result<String, Memory> {
    match (kind, subject) {
        (LineKind::BackInTime, _) => back_in_time::reason_of(alloc, subject, line, before),
        (_, Subcommand::Run) => schedule_line::reason_of(alloc, line, kind),
        (_, Subcommand::Answer | Subcommand::Show | Subcommand::Serve) => {
            capture_line::reason_of(alloc, line, kind)
        }
    }
}

fn explain_requester(
    alloc: Global,
    input: &[u8],
    eid: Eid,
    fault: TimingFault,
) -> Result<String, Memory> {
    let Some(divided) = Divided::new(input) else {
        return Ok(String::new(alloc));
    };
    let Ok(description) = Description::read(alloc, divided.description) else {
        return Ok(String::new(alloc));
    };
    let keep = description.keep.get();
    explain_timing(alloc, divided.lines, divided.lines_before, keep, eid, fault)
}

/// Says which limit was passed.
fn too_large(alloc: Global, subject: Subcommand, input: &[u8]) -> Result<String, Memory> {
    if subject == Subcommand::Serve {
        return Ok(format!(in alloc; "the description has more than {MAX_DESCRIPTION} bytes")?);
    }
    if subject != Subcommand::Show && description_in(subject, input).len() > MAX_DESCRIPTION {
        return Ok(format!(in alloc;
            "the description before the line '%%' has more than {MAX_DESCRIPTION} bytes"
        )?);
    }
    Ok(format!(in alloc; "the whole input has more than {MAX_INPUT} bytes")?)
}

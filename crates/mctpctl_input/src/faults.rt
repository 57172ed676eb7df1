//! What ends a run before its time, the text that reports it, and the program's exit status.

ghost use Rattle.std.proofs.Common.{rules};
ghost use Rattle.std.specs.Cmp.Rules.{comparing};
ghost use Rattle.std.specs.Ordering.{on};
ghost use Rattle.std.specs.Prelude.{◌≡◌, ◌≢◌, ◌==◌, IfOk, IfSome, OnErr, Some, string_bytes};
ghost use Rattle.mctp_packet.specs.Memories.{out_of_memory};
ghost use Rattle.mctpctl_input.specs.FaultNumbers.{number_of_engine_fault, number_of_line_kind};
ghost use Rattle.mctpctl_input.specs.FaultTexts.{fault_text, name_of_line_kind, name_of_timing_fault};
ghost use Rattle.mctpctl_input.specs.OutsideFaults.{no_memory};
ghost use Rattle.pldm_device.specs.FileFaults.{number_of_file_fault};
ghost use Rattle.mctpctl_input.specs.Statuses.{status_of_fault};

use mctp_packet::{Eid, Memory};
use pldm_device::{FileFault, Refusal};
use pldm_requester::TimingFault;
use std::alloc::{AllocError, Global};
use std::marker::Model;
use std::{error, fmt};
use thiserror::Error;

/// Why a line was refused, of a capture or of a schedule. `schedule_text::LineFaultKind` has the kinds of a schedule's
/// line alone, and out of memory beside them; here no line is refused for that, since it is `EngineFault::Memory`.
#[derive(Clone, Copy, Debug, PartialEq, Eq, Error)]
#[error("{}", self.name())]
pub enum LineKind {
    /// The line is over the limit of a capture line.
    LongLine = 1,
    /// The count of words is wrong, or a word of a schedule is not one that may stand there.
    Words = 2,
    /// The moment, or a number of a schedule, is no decimal number or is outside its range.
    Number = 3,
    /// The moment is before that of an earlier line.
    BackInTime = 4,
    /// The packet has an odd number of hex digits, or a character that is none.
    BadHex = 5,
    /// No earlier line of the schedule is of the requester at this endpoint ID.
    NoSuchRequester = 6,
    /// An earlier line of the schedule is of the requester at this endpoint ID.
    SameRequester = 7,
}

impl LineKind {
    /// The fault's number in this program's list.
    pub fn number(self) -> u8
        ensures { result ≡ number_of_line_kind self }
    {
        self as u8
    }

    /// The fault's name, as it is spelled in this type.
    pub fn name(self) -> &'static str
        ensures { result.now ≡ name_of_line_kind self }
    {
        match self {
            LineKind::LongLine => "LongLine",
            LineKind::Words => "Words",
            LineKind::Number => "Number",
            LineKind::BackInTime => "BackInTime",
            LineKind::BadHex => "BadHex",
            LineKind::NoSuchRequester => "NoSuchRequester",
            LineKind::SameRequester => "SameRequester",
        }
    }
}

/// What a refusal says, in a place of its own: each line of an input has a result, which is small so.
#[derive(Debug, Drop)]
struct Place {
    refusal: Box<Refusal>,
}

impl Model for Place {
    ghost use Rattle.std.specs.Prelude.{box_value};
    ghost use Rattle.pldm_device.specs.declared.description_fault.FileFault.{FileFault};

    ghost Value = { FileFault };

    ghost view = { λ place. box_value place.refusal };
}

impl Place {
    /// A place of its own for this refusal, where there is memory for it.
    fn of(alloc: Global, refusal: Refusal) -> Option<Place>
        ensures { IfSome result (λ place. place ≡ refusal) }
    {
        match Box::new(alloc, refusal) {
            Ok(refusal) => Some(Place { refusal }),
            Err(_) => None,
        }
    }

    /// The refusal.
    fn refusal(&self) -> &Refusal
        ensures { result.now ≡ self.now }
    {
        &self.refusal
    }
}

/// Why a device description was refused: for any [`FileFault`] but `Memory`, which is the engine's own. Two of them are
/// equal where their faults are.
#[derive(Debug, Drop)]
pub struct DescriptionFault {
    fault: FileFault,
    /// What the refusal says beside its fault; nothing where there was no memory for that.
    place: Option<Place>,
}

impl Model for DescriptionFault {
    ghost use Rattle.std.specs.Prelude.{◌≡◌, ◌≢◌, IfSome};
    ghost use Rattle.pldm_device.specs.declared.description_fault.FileFault.{FileFault};
    ghost use Rattle.mctp_packet.specs.Memories.{out_of_memory};
    ghost use Rattle.pldm_device.specs.declared.description_fault.FileFault.TheVariants as faults;

    ghost Value = { FileFault };

    ghost view = { λ fault. fault.fault };

    ghost invariant = { λ fault.
        (fault.fault ≢ faults.Memory out_of_memory) × IfSome fault.place (λ refusal. refusal ≡ fault.fault) };
}

impl DescriptionFault {
    /// The fault of a description that was refused; `Memory` where memory ran out.
    pub fn new(alloc: Global, refusal: Refusal) -> Result<DescriptionFault, Memory>
        ensures ok { IfOk result (λ fault. fault ≡ refusal) }
        ensures memory { OnErr result (refusal ≡ FileFault.Memory out_of_memory) }
    {
        match refusal.fault() {
            FileFault::Memory(memory) => Err(memory),
            fault => Ok(DescriptionFault {
                fault,
                place: Place::of(alloc, refusal),
            }),
        }
    }

    /// The fault of the description.
    pub fn fault(&self) -> FileFault
        ensures value { result ≡ self.now }
        ensures no_memory { result ≢ FileFault.Memory out_of_memory }
    {
        self.fault
    }

    /// The fault with its place in the description, and what is allowed there; `None` where there was no memory to
    /// keep them.
    pub fn refusal(&self) -> Option<&Refusal>
        ensures { IfSome result (λ refusal. refusal.now ≡ self.now) }
    {
        match &self.place {
            Some(place) => Some(place.refusal()),
            None => None,
        }
    }
}

impl PartialEq for DescriptionFault {
    ghost eq = { on number_of_file_fault ◌==◌ };

    ghost laws = { Prim.search (comparing, rules) };

    fn eq(&self, other: &DescriptionFault) -> bool {
        self.fault().number() == other.fault().number()
    }
}

impl Eq for DescriptionFault {
    ghost laws = { Prim.search (comparing, rules) };
}

/// Why a run ended before all of its input was answered.
#[derive(Debug, PartialEq, Eq, Drop)]
pub enum EngineFault {
    /// The device description was refused.
    Device(DescriptionFault),
    /// No line of the input is `%%`.
    NoDivider,
    /// The line with this number, counted from 1 after the divider, was refused.
    Line(u64, LineKind),
    /// The timing of the requester at this endpoint was refused.
    Timing(Eid, TimingFault),
    /// The description or the whole input is over its limit.
    TooLarge,
    /// The reader failed.
    Read,
    /// The writer failed.
    Write,
    /// No memory was left.
    Memory(Memory),
}

impl From<Memory> for EngineFault {
    ghost from_gives = { λ memory fault. fault ≡ no_memory };

    fn from(memory: Memory) -> EngineFault {
        EngineFault::Memory(memory)
    }
}

impl From<AllocError> for EngineFault {
    ghost from_gives = { λ refused fault. fault ≡ no_memory };

    fn from(refused: AllocError) -> EngineFault {
        EngineFault::Memory(refused.into())
    }
}

impl fmt::Display for EngineFault {
    ghost output = { λ fault. Some (fault_text fault) };

    fn fmt<W: fmt::Write>(&self, f: &mut fmt::Formatter<W>) -> fmt::Result {
        match self {
            EngineFault::Device(fault) => write!(f, "device: {}", fault.fault().name()),
            EngineFault::NoDivider => write!(f, "no %% line"),
            EngineFault::Line(number, kind) => write!(f, "line {number}: {}", kind.name()),
            EngineFault::Timing(eid, fault) => {
                write!(f, "requester {}: {}", eid.get(), timing_name(*fault))
            }
            EngineFault::TooLarge => write!(f, "input too large"),
            EngineFault::Read => write!(f, "read fault"),
            EngineFault::Write => write!(f, "write fault"),
            EngineFault::Memory(_) => write!(f, "out of memory"),
        }
    }
}

impl error::Error for EngineFault {}

impl EngineFault {
    /// The fault's number in this program's list.
    pub fn number(&self) -> u8
        ensures { result ≡ number_of_engine_fault self.now }
    {
        match self {
            EngineFault::Device(_) => 1,
            EngineFault::NoDivider => 2,
            EngineFault::Line(_, _) => 3,
            EngineFault::Timing(_, _) => 4,
            EngineFault::TooLarge => 5,
            EngineFault::Read => 6,
            EngineFault::Write => 7,
            EngineFault::Memory(_) => 8,
        }
    }
}

/// The name of a timing's fault, as it is spelled in its type.
fn timing_name(fault: TimingFault) -> &'static str
    ensures { result.now ≡ name_of_timing_fault fault }
{
    match fault {
        TimingFault::Timeout => "Timeout",
        TimingFault::Tries => "Tries",
        TimingFault::TooLate => "TooLate",
        TimingFault::SameEid => "SameEid",
    }
}

/// The exit status of a run that ended in the fault: 1 where the input was refused, 3 where the run
/// could not be done.
pub fn status_of(fault: &EngineFault) -> u8
    ensures { result ≡ status_of_fault fault.now }
{
    match fault {
        EngineFault::Device(_)
        | EngineFault::NoDivider
        | EngineFault::Line(_, _)
        | EngineFault::Timing(_, _)
        | EngineFault::TooLarge => 1,
        EngineFault::Read | EngineFault::Write | EngineFault::Memory(_) => 3,
    }
}

/// The text that the program prints of the fault after `mctpctl: `, with no line end.
pub fn fault_line(alloc: Global, fault: &EngineFault) -> Result<String, Memory>
    ensures { IfOk result (λ text. string_bytes text ≡ fault_text fault.now) }
{
    Ok(fault.to_string(alloc)?)
}

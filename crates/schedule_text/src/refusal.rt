//! Why a line of a schedule was refused, and at which word.

ghost use Rattle.std.specs.Prelude.{◌≡◌};
ghost use Rattle.schedule_text.specs.declared.line_fault.LineFaultKind.TheVariants as faults;

use crate::LineFaultKind;
use pldm_wire::Size;

/// Why a line of a schedule was refused: the fault, the word at which it was found, and what may stand there.
#[derive(Clone, Copy, Debug)]
pub struct Refusal<'a> {
    /// The fault.
    pub kind: LineFaultKind,
    /// The word that may not stand there; empty where the line ended.
    pub found: &'a [u8],
    /// What may stand there.
    pub expected: Expected,
}

/// What may stand at a place of a schedule's line.
#[derive(Clone, Copy, Debug, PartialEq, Eq)]
pub enum Expected {
    /// The word that a line begins with: `requester` or `at`.
    Keyword,
    /// An endpoint ID.
    Eid,
    /// A moment in milliseconds.
    Moment,
    /// The word `timeout`.
    TimeoutWord,
    /// A timeout in milliseconds.
    Timeout,
    /// The word `tries`.
    TriesWord,
    /// A number of one byte.
    Byte,
    /// The ID of a sensor or an effecter, or a count of bytes.
    Id,
    /// A handle of a record.
    Handle,
    /// A number of at most 16 digits.
    Number,
    /// A value of at most 16 digits, with `-` in front or without.
    Value,
    /// A value that this data size has.
    SizedValue(Size),
    /// A state, or `-`.
    State,
    /// The name of a data size.
    Size,
    /// Which part of a record: `first` or `next`.
    Part,
    /// The name of an action.
    Action,
    /// The name of a command.
    Command,
    /// No more word.
    End,
}

impl<'a> Refusal<'a> {
    /// A word that is none of those that may stand there, or one too many.
    // Inlined, as the two after it: what is read of a good line then stays in registers.
    #[inline(always)]
    pub(crate) fn of_word(found: &'a [u8], expected: Expected) -> Refusal<'a>
        ensures { result.kind ≡ faults.Words }
    {
        Refusal {
            kind: LineFaultKind::Words,
            found,
            expected,
        }
    }

    /// A word that has to be there, where the line ended.
    #[inline(always)]
    pub(crate) fn of_end(expected: Expected) -> Refusal<'a>
        ensures { result.kind ≡ faults.Words }
    {
        Refusal::of_word(b"", expected)
    }

    /// A word that spells no number that may stand there.
    #[inline(always)]
    pub(crate) fn of_number(found: &'a [u8], expected: Expected) -> Refusal<'a>
        ensures { result.kind ≡ faults.Number }
    {
        Refusal {
            kind: LineFaultKind::Number,
            found,
            expected,
        }
    }
}

impl From<Refusal<'_>> for LineFaultKind {
    ghost from_gives = { λ refusal fault. fault ≡ refusal.kind };

    fn from(refusal: Refusal<'_>) -> LineFaultKind {
        refusal.kind
    }
}

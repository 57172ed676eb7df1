//! How a run ended, as it crosses to the page.

ghost use Rattle.std.specs.Prelude.{◌≡◌, ◌≤◌, IfErr, length, string_bytes};
ghost use Rattle.mctpctl_input.specs.FaultTexts.{fault_text};
ghost use Rattle.mctpctl_input.specs.OutsideFaults.{IsOutside};
ghost use Rattle.needleoat_page.specs.Explanations.{fault_of};
ghost use Rattle.needleoat_page.specs.Endings.{Answers, IsPut, writing};

use mctpctl_input::{EngineFault, fault_line, status_of};
use std::alloc::Global;

/// The whole input was taken: the room begins with the text, and then has what `--explain` says.
pub const DONE: u8 = 0;

/// The input was refused: the room begins with the text of what came before, and then has what is said of the fault,
/// and what `--explain` says.
pub const REFUSED: u8 = 1;

/// The run could not be done, since there was no memory for it. Nothing was put into the room.
pub const NOT_RUN: u8 = 3;

/// The room is too small: the lengths say how many bytes it needs. Nothing was put into it.
pub const NO_ROOM: u8 = 4;

/// How a run ended, and how many bytes it has to say.
#[repr(C)]
#[derive(Drop)]
pub struct Ending {
    /// [`DONE`], [`REFUSED`], [`NOT_RUN`] or [`NO_ROOM`].
    pub status: u64,
    /// The length of what the run wrote.
    pub text_length: u64,
    /// The length of what is said of the fault; 0 where there is none.
    pub fault_length: u64,
    /// The length of what `--explain` says.
    pub more_length: u64,
}

// As the page reads it.
const _: () = prove!(size_of::<Ending>() == 32);

/// Puts the text, after it what is said of a fault, and after that what `--explain` says, at the front of the room.
fn put(status: u8, text: &[u8], said: &[u8], more: &[u8], room: &mut [u8]) -> Ending
    requires { status ≤ REFUSED }
    ensures { IsPut status text.now said.now more.now room.old room.new result }
{
    let text_length = text.len();
    let said_length = said.len();
    let fits = text_length <= room.len()
        && said_length <= room.len() - text_length
        && more.len() <= room.len() - text_length - said_length;
    if fits {
        let (front, rest) = room.split_at_mut(text_length);
        front.copy_from_slice(text);
        let (middle, rest) = rest.split_at_mut(said_length);
        middle.copy_from_slice(said);
        rest[..more.len()].copy_from_slice(more);
    }
    Ending {
        status: u64::from(if fits { status } else { NO_ROOM }),
        text_length: text_length as u64,
        fault_length: said_length as u64,
        more_length: more.len() as u64,
    }
}

/// Puts what a run wrote, what is said of its fault, and what `--explain` says, at the front of the room.
pub fn report(
    alloc: Global,
    text: &[u8],
    ended: &Result<(), EngineFault>,
    more: &[u8],
    room: &mut [u8],
) -> Ending
    ensures answers { Answers (writing text.now (fault_of ended.now)) more.now room.old room.new result }
    ensures outside { IfErr ended.now (λ fault. IsOutside fault → result.status ≡ NOT_RUN) }
{
    let fault = match ended {
        Ok(()) => return put(DONE, text, &[], more, room),
        Err(fault) => fault,
    };
    if status_of(fault) != REFUSED {
        return Ending::not_run();
    }
    match fault_line(alloc, fault) {
        Ok(said) => put(REFUSED, text, said.as_bytes(), more, room),
        Err(_) => Ending::not_run(),
    }
}

impl Ending {
    /// The end of a run that could not be done.
    pub fn not_run() -> Ending
        ensures { result.status ≡ NOT_RUN }
    {
        Ending {
            status: u64::from(NOT_RUN),
            text_length: 0,
            fault_length: 0,
            more_length: 0,
        }
    }
}

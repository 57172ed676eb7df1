//! What a file keeps, as a text of one line.

ghost use Rattle.std.specs.List.{All, flat_map};
ghost use Rattle.std.specs.Prelude.{◌≡◌, ◌+◌, ◌<◌, ◌++◌, ◌^◌, IfOk, IfErr, IfSome, OnOk};
ghost use Rattle.mctpctl_state.specs.States.{AreOf, IsUnknown, later_moments, later_queries, moment_text, number_text, next_after, state_text};

use arrayvec::ArrayVec;
use itoa::Buffer;
use line_words::{read_number, split_word};
use mctp_packet::{MAX_MOMENT, Memory};
use pldm_requester::Openings;
use pldm_wire::INSTANCE_IDS;
use std::alloc::Global;
use thiserror::Error;

/// What each text begins with.
pub(crate) const FORM: &[u8] = b"mctpctl-openings ";

/// The greatest number of an endpoint ID or an instance ID that is read.
const MAX_BYTE: u64 = 255;

/// What a file keeps of the requests of an endpoint for a device.
#[derive(Debug, Drop)]
pub struct Kept<'a> {
    /// The system's start that the moments count from, by its boot ID: no spaces and no line ends.
    pub boot: &'a [u8],
    /// The endpoint ID of the requester.
    pub own: u8,
    /// That of the device.
    pub device: u8,
    /// The instance ID of the next request.
    pub next: u8,
    /// The control queries so far.
    pub queries: Queries,
    /// The moment of the last opening with each instance ID from 0 on, in milliseconds since that start. `None` where a
    /// request may have been opened since the file was written.
    pub moments: ArrayVec<Option<u64>, 32>,
}

/// Which instance IDs control queries have used (DSP0236, "MCTP control message header"): those from 0 on below the
/// next one.
#[derive(Clone, Copy, Debug, PartialEq, Eq)]
pub struct Queries {
    /// The instance ID of the next query.
    pub next: u8,
    /// When the last one went out, in milliseconds. `None` where one may have gone out since the file was written.
    pub last: Option<u64>,
}

impl Queries {
    /// None so far.
    pub const NONE: Queries = Queries {
        next: 0,
        last: Some(0),
    };
}

/// What is known of earlier requests and control queries.
#[derive(Debug, Drop)]
pub struct Known {
    /// When the last request with each instance ID was opened.
    pub openings: Openings,
    /// The control queries so far.
    pub queries: Queries,
}

/// Why nothing is known of earlier requests.
#[derive(Clone, Copy, Debug, PartialEq, Eq, Error)]
pub enum Unknown {
    /// What is kept does not follow the form.
    #[error("damaged")]
    Damaged,
    /// The system was started anew since.
    #[error("from before the system's last start")]
    OtherBoot,
    /// It is kept for other endpoint IDs.
    #[error("of other endpoint IDs")]
    OtherEndpoints,
    /// A moment is to come.
    #[error("from a moment to come")]
    ToCome,
}

/// Adds the text that keeps this.
pub fn push_state(out: &mut Vec<u8>, kept: &Kept<'_>) -> Result<(), Memory>
    ensures { OnOk result (out.new.items ≡ out.old.items ++ state_text kept.now) }
{
    out.extend_from_slice(FORM)?;
    out.extend_from_slice(kept.boot)?;
    push_number(out, u64::from(kept.own))?;
    push_number(out, u64::from(kept.device))?;
    push_number(out, u64::from(kept.next))?;
    push_number(out, u64::from(kept.queries.next))?;
    push_moment(out, kept.queries.last)?;
    push_moments(out, &kept.moments)?;
    out.push(b'\n')?;
    Ok(())
}

/// Adds a space and a number in decimal.
fn push_number(out: &mut Vec<u8>, number: u64) -> Result<(), Memory>
    ensures { OnOk result (out.new.items ≡ out.old.items ++ number_text number) }
{
    let mut digits = Buffer::new();
    out.push(b' ')?;
    out.extend_from_slice(digits.format(number).as_bytes())?;
    Ok(())
}

/// Adds the texts of these moments.
fn push_moments(out: &mut Vec<u8>, moments: &[Option<u64>]) -> Result<(), Memory>
    ensures { OnOk result (out.new.items ≡ out.old.items ++ flat_map moment_text moments.now) }
{
    for place in 0..moments.len() {
        push_moment(out, moments[place])?;
    }
    Ok(())
}

/// Adds the text of a moment.
fn push_moment(out: &mut Vec<u8>, moment: Option<u64>) -> Result<(), Memory>
    ensures { OnOk result (out.new.items ≡ out.old.items ++ moment_text moment) }
{
    match moment {
        Some(milliseconds) => push_number(out, milliseconds),
        None => {
            out.extend_from_slice(b" -")?;
            Ok(())
        }
    }
}

/// What a text keeps, where it is the very text that keeps it.
pub fn read_state(alloc: Global, text: &[u8]) -> Result<Option<Kept<'_>>, Memory>
    ensures { IfOk result (λ read. IfSome read (λ kept. text.now ≡ state_text kept)) }
{
    let Some(kept) = parse(text) else {
        return Ok(None);
    };
    let mut again = Vec::new(alloc);
    push_state(&mut again, &kept)?;
    if again.as_slice() == text {
        Ok(Some(kept))
    } else {
        Ok(None)
    }
}

/// What the words of a text say, whatever separates them.
fn parse(text: &[u8]) -> Option<Kept<'_>> {
    let (line, _) = text.split_at_checked(text.len().checked_sub(1)?)?;
    let line = line.strip_prefix(FORM)?;
    let (boot, line) = split_word(line)?;
    let (own, line) = small_number(line)?;
    let (device, line) = small_number(line)?;
    let (next, line) = small_number(line)?;
    let (next_query, line) = small_number(line)?;
    let (word, line) = split_word(line)?;
    Some(Kept {
        boot,
        own,
        device,
        next,
        queries: Queries {
            next: next_query,
            last: moment_in(word)?,
        },
        moments: moments_in(line)?,
    })
}

/// The number of one byte that the first word spells, and what follows it.
fn small_number(line: &[u8]) -> Option<(u8, &[u8])> {
    let (word, rest) = split_word(line)?;
    Some((read_number(word, MAX_BYTE)? as u8, rest))
}

/// The moments that words spell, at most one for each instance ID.
fn moments_in(line: &[u8]) -> Option<ArrayVec<Option<u64>, 32>> {
    let mut moments = ArrayVec::new();
    let mut line = line;
    for _place in 0..INSTANCE_IDS {
        let Some((word, rest)) = split_word(line) else {
            return Some(moments);
        };
        moments.push(moment_in(word)?);
        line = rest;
    }
    Some(moments)
}

/// The moment that a word spells, or that none is known; `None` where it spells something else.
fn moment_in(word: &[u8]) -> Option<Option<u64>> {
    match word {
        b"-" => Some(None),
        _ => Some(Some(read_number(word, MAX_MOMENT)?)),
    }
}

impl<'a> Kept<'a> {
    /// What is known of earlier requests at the moment `now`, after the start of the system that is named: where a
    /// request may have been opened since the file was written, that was up to now.
    ///
    /// # Errors
    ///
    /// `OtherBoot`, `OtherEndpoints` and `ToCome`, in this order.
    pub fn known(&self, boot: &[u8], own: u8, device: u8, now: u64) -> Result<Known, Unknown>
        ensures known { IfOk result (AreOf self.now boot.now own device now) }
        ensures unknown { IfErr result (IsUnknown self.now boot.now own device now) }
    {
        if self.boot != boot {
            return Err(Unknown::OtherBoot);
        }
        if self.own != own || self.device != device {
            return Err(Unknown::OtherEndpoints);
        }
        let last = self.queries.last.unwrap_or(now);
        if last > now {
            return Err(Unknown::ToCome);
        }
        let mut moments = ArrayVec::new();
        for place in 0..self.moments.len() {
            let moment = self.moments[place].unwrap_or(now);
            if moment > now {
                return Err(Unknown::ToCome);
            }
            moments.push(moment);
        }
        Ok(Known {
            openings: Openings {
                next: self.next,
                moments,
            },
            queries: Queries {
                next: self.queries.next,
                last: Some(last),
            },
        })
    }
}

/// What is kept before the next request is opened: the openings so far, each so many milliseconds later, and that a
/// request with the next instance ID may be opened.
pub fn kept_before_next<'a>(
    boot: &'a [u8],
    own: u8,
    device: u8,
    openings: &Openings,
    queries: Queries,
    later: u64,
) -> Kept<'a>
    requires next { openings.now.next < INSTANCE_IDS }
    requires moments { All (λ moment. moment + later < 2 ^ 64) openings.now.moments.items }
    ensures boot { result.boot.now ≡ boot.now }
    ensures own { result.own ≡ own }
    ensures device { result.device ≡ device }
    ensures next { result.next ≡ next_after openings.now.next }
    ensures queries { result.queries ≡ later_queries queries later }
    ensures moments { result.moments.items ≡ later_moments openings.now later }
{
    let mut moments = ArrayVec::new();
    for place in 0..openings.moments.len() {
        moments.push(Some(openings.moments[place] + later));
    }
    let next = usize::from(openings.next);
    if next < moments.len() {
        moments[next] = None;
    } else if moments.len() < usize::from(INSTANCE_IDS) {
        moments.push(None);
    }
    Kept {
        boot,
        own,
        device,
        next: (openings.next + 1) % INSTANCE_IDS,
        queries: Queries {
            next: queries.next,
            last: match queries.last {
                Some(last) => Some(last.saturating_add(later)),
                None => None,
            },
        },
        moments,
    }
}

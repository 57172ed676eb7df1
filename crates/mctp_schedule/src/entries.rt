//! What came of each step of a run, in columns.

ghost use Rattle.std.specs.Prelude.{◌≡◌, ◌++◌, ◌∷◌, [], ◌+◌, ◌<◌, ◌^◌, ◌==◌, length, option_map, slice_get, IfOk, OnOk, OnErr};
ghost use Rattle.std.specs.Iterator.{YieldsFirstBy, item_count};
ghost use Rattle.std.specs.List.{IsFirstAndRest};
ghost use Rattle.mctp_schedule.specs.EntryColumns.{borrowed_entry, dues_in_entry, mark_of, numbers_in_entry, outcomes_in, outcomes_in_entry};

use crate::{Delivery, DueRequests, Entry, EntryRef};
use mctp_packet::{Memory, Reason};
use pldm_platform::ReadingFault;
use pldm_requester::{Got, OpenFault};
use std::alloc::Global;
use std::marker::Model;

/// What came of each step of a run, in the order of the steps. A schedule may have a million of them, so a step
/// has a small mark, and what else its entry has stands in a column, in the order of the steps too.
#[derive(Debug, Drop)]
pub struct Entries<'a> {
    marks: Vec<Mark>,
    /// The numbers of requests that were opened or answered.
    numbers: Vec<u64>,
    /// What the ticks found due that found anything.
    dues: Vec<DueRequests<'a>>,
    /// What became of the packets of requests.
    deliveries: Vec<Delivery<'a>>,
}

/// What came of a step, but for what stands in a column.
#[derive(Clone, Copy, Debug)]
enum Mark {
    Nothing,
    Opened,
    NotOpened(OpenFault),
    NothingDue,
    Due,
    Delivered { busy: bool },
    Dropped(Reason),
    Partial,
    Answered,
    Set,
    NotSet(ReadingFault),
    Restarted,
}

// A run has one for each step.
const _: () = prove!(size_of::<Mark>() == 2);

impl<'a> Model for Entries<'a> {
    ghost use Rattle.std.specs.Prelude.{List};
    ghost use Rattle.mctp_schedule.specs.EntryColumns.{IsSpelled, spelled};
    ghost use Rattle.mctp_schedule.specs.declared.entry.Entry.{Entry};

    ghost Value = { List Entry };

    ghost view = { λ e. spelled e.marks.items e.numbers.items e.dues.items e.deliveries.items };

    ghost invariant = { λ e. IsSpelled e.marks.items e.numbers.items e.dues.items e.deliveries.items };
}

impl<'a> Entries<'a> {
    /// The entries of no step, with room for those of so many steps, of which so many open a request.
    pub(crate) fn new(alloc: Global, steps: usize, requests: usize) -> Result<Entries<'a>, Memory>
        ensures { IfOk result (λ entries. entries ≡ []) }
    {
        Ok(Entries {
            marks: Vec::with_capacity(alloc, steps)?,
            // Most requests are opened and answered.
            numbers: Vec::with_capacity(alloc, requests.saturating_mul(2))?,
            dues: Vec::new(alloc),
            deliveries: Vec::with_capacity(alloc, requests)?,
        })
    }

    /// One for each step.
    pub fn len(&self) -> usize
        ensures { result ≡ length self.now }
    {
        self.marks.len()
    }

    /// Whether there was no step.
    pub fn is_empty(&self) -> bool
        ensures { result ≡ (length self.now == 0) }
    {
        self.marks.is_empty()
    }

    /// Goes over them in the order of the steps.
    pub fn iter(&self) -> EntriesIter<'_>
        ensures { result ≡ self.now }
    {
        EntriesIter {
            marks: &self.marks,
            numbers: &self.numbers,
            dues: &self.dues,
            deliveries: &self.deliveries,
        }
    }

    /// The delivery at this place among the deliveries, counted from 0.
    pub fn delivery(&self, place: usize) -> Option<&Delivery<'a>>
        ensures { option_map (λ delivery. delivery.now) result ≡ slice_get (outcomes_in self.now) place }
    {
        self.deliveries.get(place)
    }

    /// How many deliveries there are.
    pub(crate) fn delivery_count(&self) -> usize
        ensures count { result ≡ length (outcomes_in self.now) }
        ensures few { result + 1 < 2 ^ 64 }
    {
        self.deliveries.len()
    }

    /// Adds what came of the next step.
    // Inlined: it is then known which entry it is, and only its own column is looked at.
    #[inline(always)]
    pub(crate) fn push(&mut self, entry: Entry<'a>) -> Result<(), Memory>
        ensures ok { OnOk result (self.new ≡ self.old ++ entry.entry ∷ []) }
        ensures err { OnErr result (self.new ≡ self.old) }
    {
        // The room for the mark is reserved first: a column that grew where the mark has no room would have one entry
        // too many.
        self.marks.reserve(1)?;
        let mark = push_parts(
            entry,
            &mut self.numbers,
            &mut self.dues,
            &mut self.deliveries,
        )?;
        self.marks.push(mark)?;
        Ok(())
    }
}

/// Adds to the columns what of an entry stands there, and returns its mark.
// Inlined: it is then known which entry it is.
#[inline(always)]
fn push_parts<'a>(
    entry: Entry<'a>,
    numbers: &mut Vec<u64>,
    dues: &mut Vec<DueRequests<'a>>,
    deliveries: &mut Vec<Delivery<'a>>,
) -> Result<Mark, Memory>
    ensures mark { IfOk result (λ mark. mark ≡ mark_of entry.entry) }
    ensures numbers { OnOk result (numbers.new.items ≡ numbers.old.items ++ numbers_in_entry entry.entry) }
    ensures dues { OnOk result (dues.new.items ≡ dues.old.items ++ dues_in_entry entry.entry) }
    ensures deliveries { OnOk result (deliveries.new.items ≡ deliveries.old.items ++ outcomes_in_entry entry.entry) }
    ensures err { OnErr result ((numbers.new.items ≡ numbers.old.items) × (dues.new.items ≡ dues.old.items)
        × (deliveries.new.items ≡ deliveries.old.items)) }
{
    match entry {
        Entry::Nothing => Ok(Mark::Nothing),
        Entry::Opened(number) => {
            numbers.push(number)?;
            Ok(Mark::Opened)
        }
        Entry::NotOpened(fault) => Ok(Mark::NotOpened(fault)),
        Entry::Due(due) => {
            if due.is_empty() {
                return Ok(Mark::NothingDue);
            }
            dues.push(due)?;
            Ok(Mark::Due)
        }
        Entry::Delivered { busy, delivery } => {
            deliveries.push(delivery)?;
            Ok(Mark::Delivered { busy })
        }
        Entry::Received(Got::Dropped(reason)) => Ok(Mark::Dropped(reason)),
        Entry::Received(Got::Partial) => Ok(Mark::Partial),
        Entry::Received(Got::Answered(number)) => {
            numbers.push(number)?;
            Ok(Mark::Answered)
        }
        Entry::Sensed(Ok(())) => Ok(Mark::Set),
        Entry::Sensed(Err(fault)) => Ok(Mark::NotSet(fault)),
        Entry::Restarted => Ok(Mark::Restarted),
    }
}

/// Goes over the entries of a run, in the order of the steps.
#[derive(Debug, Drop)]
pub struct EntriesIter<'a> {
    marks: &'a [Mark],
    numbers: &'a [u64],
    dues: &'a [DueRequests<'a>],
    deliveries: &'a [Delivery<'a>],
}

impl<'a> Model for EntriesIter<'a> {
    ghost use Rattle.std.specs.Prelude.{List};
    ghost use Rattle.mctp_schedule.specs.EntryColumns.{IsSpelled, spelled};
    ghost use Rattle.mctp_schedule.specs.declared.entry.Entry.{Entry};

    ghost Value = { List Entry };

    ghost view = { λ i. spelled i.marks.now i.numbers.now i.dues.now i.deliveries.now };

    ghost invariant = { λ i. IsSpelled i.marks.now i.numbers.now i.dues.now i.deliveries.now };
}

impl<'a> Iterator for EntriesIter<'a> {
    type Item = EntryRef<'a>;

    ghost next_gives = { YieldsFirstBy borrowed_entry (λ entries. entries) };

    ghost remaining = { item_count (λ entries. entries) };

    fn next(&mut self) -> Option<EntryRef<'a>> {
        let (mark, marks) = self.marks.split_first()?;
        self.marks = marks;
        Some(match *mark {
            Mark::Nothing => EntryRef::Nothing,
            Mark::Opened => EntryRef::Opened(*take_first(&mut self.numbers)),
            Mark::NotOpened(fault) => EntryRef::NotOpened(fault),
            Mark::NothingDue => EntryRef::Due {
                again: &[],
                given_up: &[],
            },
            Mark::Due => {
                let due = take_first(&mut self.dues);
                EntryRef::Due {
                    again: due.again(),
                    given_up: due.given_up(),
                }
            }
            Mark::Delivered { busy } => EntryRef::Delivered {
                busy,
                delivery: take_first(&mut self.deliveries),
            },
            Mark::Dropped(reason) => EntryRef::Received(Got::Dropped(reason)),
            Mark::Partial => EntryRef::Received(Got::Partial),
            Mark::Answered => EntryRef::Received(Got::Answered(*take_first(&mut self.numbers))),
            Mark::Set => EntryRef::Sensed(Ok(())),
            Mark::NotSet(fault) => EntryRef::Sensed(Err(fault)),
            Mark::Restarted => EntryRef::Restarted,
        })
    }
}

/// The first of a column, which then has the others.
fn take_first<'a, T>(column: &mut &'a [T]) -> &'a T
    requires { 0 < length column.old.now }
    ensures { IsFirstAndRest column.old.now result.now column.new.now }
{
    let (first, others) = column.split_first().unwrap();
    *column = others;
    first
}

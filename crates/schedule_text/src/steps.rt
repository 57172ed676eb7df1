//! The steps of a schedule, in columns.

ghost use Rattle.std.specs.Prelude.{◌≡◌, ◌++◌, ◌∷◌, [], ◌<◌, ◌==◌, length, map, IfOk, OnOk, OnErr};
ghost use Rattle.std.specs.Iterator.{YieldsFirstBy, item_count};
ghost use Rattle.std.specs.List.{IsFirstAndRest, flat_map};
ghost use Rattle.schedule_text.specs.Schedules.{last_moment};
ghost use Rattle.schedule_text.specs.StepColumns.{borrowed_step, commands_in_action, commands_in_step, mark_of, moment_of_step, numbers_in_action, readings_in_action};

use crate::moments::{MomentRun, MomentsIter, push_moment};
use crate::{Action, ActionRef, Step, StepRef};
use mctp_packet::{Eid, Memory};
use pldm_wire::Command;
use std::alloc::Global;
use std::marker::Model;

/// The steps of a schedule, in the order of their lines. There may be a million of them, so a step has a small
/// mark and its moment, and what else it has stands in a column, in the order of the steps too.
#[derive(Debug, Drop)]
pub struct Steps {
    marks: Vec<Mark>,
    /// Their moments, in runs.
    moments: Vec<MomentRun>,
    /// The numbers of the requests that steps name.
    numbers: Vec<u64>,
    /// What sensors get.
    readings: Vec<Reading>,
    /// What requesters ask for.
    commands: Vec<Command>,
}

/// What a step does, but for what stands in a column.
#[derive(Clone, Copy, Debug)]
enum Mark {
    Open { requester: Eid },
    Tick { requester: Eid },
    Request,
    Reply { packet: u8 },
    Sense,
    Restart,
    Busy,
}

// A schedule has one for each step.
const _: () = prove!(size_of::<Mark>() == 2);

/// What a sensor gets.
#[derive(Clone, Copy, Debug)]
struct Reading {
    /// The sensor's ID.
    sensor: u16,
    value: i64,
}

impl Model for Steps {
    ghost use Rattle.std.specs.Prelude.{List};
    ghost use Rattle.schedule_text.specs.MomentRuns.{HaveSteps, moments_in};
    ghost use Rattle.schedule_text.specs.StepColumns.{IsSpelled, spelled};
    ghost use Rattle.schedule_text.specs.declared.step.Step.{Step};

    ghost Value = { List Step };

    ghost view = { λ s. spelled (moments_in s.moments.items) s.marks.items s.numbers.items s.readings.items
        s.commands.items };

    ghost invariant = { λ s. HaveSteps s.moments.items × IsSpelled (moments_in s.moments.items) s.marks.items
        s.numbers.items s.readings.items s.commands.items };
}

impl Steps {
    /// Those of no line.
    pub(crate) fn new(alloc: Global) -> Steps
        ensures { result ≡ [] }
    {
        Steps {
            marks: Vec::new(alloc),
            moments: Vec::new(alloc),
            numbers: Vec::new(alloc),
            readings: Vec::new(alloc),
            commands: Vec::new(alloc),
        }
    }

    /// How many there are.
    pub fn len(&self) -> usize
        ensures { result ≡ length self.now }
    {
        self.marks.len()
    }

    /// Whether there is none.
    pub fn is_empty(&self) -> bool
        ensures { result ≡ (length self.now == 0) }
    {
        self.marks.is_empty()
    }

    /// How many of them open a request.
    pub fn open_count(&self) -> usize
        ensures { result ≡ length (flat_map commands_in_step self.now) }
    {
        self.commands.len()
    }

    /// Their moments, which a report shows with what came of them.
    pub fn moments(&self) -> MomentsIter<'_>
        ensures { result ≡ map moment_of_step self.now }
    {
        MomentsIter::new(&self.moments)
    }

    /// Goes over them in the order of their lines.
    pub fn iter(&self) -> StepsIter<'_>
        ensures { result ≡ self.now }
    {
        StepsIter {
            marks: &self.marks,
            moments: self.moments(),
            numbers: &self.numbers,
            readings: &self.readings,
            commands: &self.commands,
        }
    }

    /// The moment of the last step, 0 where there is none.
    pub fn last_moment(&self) -> u64
        ensures { result ≡ last_moment self.now }
    {
        match self.moments.last() {
            Some(run) => run.moment().get(),
            None => 0,
        }
    }

    /// Adds the next step.
    // Inlined where it is known which action it is.
    #[inline(always)]
    pub(crate) fn push(&mut self, step: Step) -> Result<(), Memory>
        ensures ok { OnOk result (self.new ≡ self.old ++ step ∷ []) }
        ensures err { OnErr result (self.new ≡ self.old) }
    {
        let Step { moment, action } = step;
        // Room for the mark and the moment comes first: a column that grew without them would have one too many.
        self.marks.reserve(1)?;
        self.moments.reserve(1)?;
        let mark = push_parts(
            action,
            &mut self.numbers,
            &mut self.readings,
            &mut self.commands,
        )?;
        self.marks.push_reserved(mark);
        push_moment(&mut self.moments, moment);
        Ok(())
    }
}

/// Adds to the columns what of an action stands there, and returns its mark.
#[inline(always)]
fn push_parts(
    action: Action,
    numbers: &mut Vec<u64>,
    readings: &mut Vec<Reading>,
    commands: &mut Vec<Command>,
) -> Result<Mark, Memory>
    ensures mark { IfOk result (λ mark. mark ≡ mark_of action) }
    ensures numbers { OnOk result (numbers.new.items ≡ numbers.old.items ++ numbers_in_action action) }
    ensures readings { OnOk result (readings.new.items ≡ readings.old.items ++ readings_in_action action) }
    ensures commands { OnOk result (commands.new.items ≡ commands.old.items ++ commands_in_action action) }
    ensures err { OnErr result ((numbers.new.items ≡ numbers.old.items) × (readings.new.items ≡ readings.old.items)
        × (commands.new.items ≡ commands.old.items)) }
{
    match action {
        Action::Open { requester, command } => {
            commands.push(command)?;
            Ok(Mark::Open { requester })
        }
        Action::Tick { requester } => Ok(Mark::Tick { requester }),
        Action::Request { number } => {
            numbers.reserve(1)?;
            numbers.push_reserved(number);
            Ok(Mark::Request)
        }
        Action::Reply { packet, number } => {
            numbers.reserve(1)?;
            numbers.push_reserved(number);
            Ok(Mark::Reply { packet })
        }
        Action::Sense { sensor, value } => {
            readings.push(Reading { sensor, value })?;
            Ok(Mark::Sense)
        }
        Action::Restart => Ok(Mark::Restart),
        Action::Busy { number } => {
            numbers.push(number)?;
            Ok(Mark::Busy)
        }
    }
}

/// Goes over the steps of a schedule, in the order of their lines.
#[derive(Debug, Drop)]
pub struct StepsIter<'a> {
    marks: &'a [Mark],
    moments: MomentsIter<'a>,
    numbers: &'a [u64],
    readings: &'a [Reading],
    commands: &'a [Command],
}

impl<'a> Model for StepsIter<'a> {
    ghost use Rattle.std.specs.Prelude.{List};
    ghost use Rattle.schedule_text.specs.StepColumns.{IsSpelled, spelled};
    ghost use Rattle.schedule_text.specs.declared.step.Step.{Step};

    ghost Value = { List Step };

    ghost view = { λ i. spelled i.moments i.marks.now i.numbers.now i.readings.now i.commands.now };

    ghost invariant = { λ i. IsSpelled i.moments i.marks.now i.numbers.now i.readings.now i.commands.now };
}

impl<'a> Iterator for StepsIter<'a> {
    type Item = StepRef<'a>;

    ghost next_gives = { YieldsFirstBy borrowed_step (λ steps. steps) };

    ghost remaining = { item_count (λ steps. steps) };

    fn next(&mut self) -> Option<StepRef<'a>> {
        let moment = self.moments.next()?;
        let action = match *take_first(&mut self.marks) {
            Mark::Open { requester } => ActionRef::Open {
                requester,
                command: take_first(&mut self.commands),
            },
            Mark::Tick { requester } => ActionRef::Tick { requester },
            Mark::Request => ActionRef::Request {
                number: *take_first(&mut self.numbers),
            },
            Mark::Reply { packet } => ActionRef::Reply {
                packet,
                number: *take_first(&mut self.numbers),
            },
            Mark::Sense => {
                let reading = take_first(&mut self.readings);
                ActionRef::Sense {
                    sensor: reading.sensor,
                    value: reading.value,
                }
            }
            Mark::Restart => ActionRef::Restart,
            Mark::Busy => ActionRef::Busy {
                number: *take_first(&mut self.numbers),
            },
        };
        Some(StepRef { moment, action })
    }
}

/// The first of a column, which then has the others.
fn take_first<'a, T>(column: &mut &'a [T]) -> &'a T
    requires { 0 < length column.old.now }
    ensures { IsFirstAndRest column.old.now result.now column.new.now }
{
    let (first, others) = column.split_first().unwrap();
    *column = others;
    first
}

//! A whole schedule.

ghost use Rattle.std.specs.Prelude.{◌≡◌, Ok, IfOk, IfErr, OnOk, OnErr};
ghost use Rattle.line_words.specs.TextLines.{lines_of};
ghost use Rattle.schedule_text.specs.Schedules.{IsReached, IsSchedule, ReportsFault, ReportsKind, after_line, is_known, none_spelled, schedule_of, with_action, with_named, with_open, with_requester, with_step, with_step_in, with_tick};

use crate::last_number::{LastNumber, LastNumbers};
use crate::line::{read_action, read_open, read_reply, read_request, read_requester, read_tick};
use crate::requesters::Requesters;
use crate::word::Word;
use crate::words::{UsualName, Words, step_words, words_in};
use crate::{Action, Expected, LineFault, LineFaultKind, RequesterLine, Step, Steps};
use line_words::split_line;
use std::alloc::Global;
use std::marker::Model;

/// A schedule: its requesters, and what is to happen, step by step. Moments never go back, no two
/// requesters have one endpoint ID, and each step names a requester of the schedule.
#[derive(Debug, Drop)]
pub struct Schedule {
    requesters: Requesters,
    steps: Steps,
    last: LastNumbers,
}

impl Model for Schedule {
    ghost use Rattle.schedule_text.specs.Schedules.{Spelled, IsSchedule};

    ghost Value = { Spelled };

    ghost view = { λ s. record { requesters = s.requesters; steps = s.steps } };

    ghost invariant = { λ s. IsSchedule (record { requesters = s.requesters; steps = s.steps }) };
}

impl Schedule {
    /// The schedule of no line, to which lines are added as they come.
    pub fn new(alloc: Global) -> Schedule
        ensures { result ≡ none_spelled }
    {
        Schedule {
            requesters: Requesters::new(alloc),
            steps: Steps::new(alloc),
            last: LastNumbers {
                moment: LastNumber::none(),
                number: LastNumber::none(),
            },
        }
    }

    /// Adds what one more line says, given without its LF; a CR at its end is dropped, and a blank line or
    /// a comment (`#`) adds nothing. `number` is the line's own, which a fault names.
    ///
    /// # Errors
    ///
    /// The line's first fault, or `Memory`, which may come at any line. The schedule is then unchanged.
    // Inlined: it only puts the number to a fault, and few lines have one.
    #[inline(always)]
    pub fn add_line(&mut self, number: u64, line: &[u8]) -> Result<(), LineFault>
        ensures ok { OnOk result (after_line self.old line.now ≡ Ok self.new) }
        ensures err { IfErr result (λ fault. (fault.line ≡ number) × ReportsKind (after_line self.old line.now)
            fault.kind) }
        ensures unchanged { OnErr result (self.new ≡ self.old) }
    {
        match self.add_unnumbered(line) {
            Ok(()) => Ok(()),
            Err(kind) => Err(LineFault { line: number, kind }),
        }
    }

    /// Reads the schedule that a text spells, line by line. Lines end with LF, the last one may end
    /// without; a CR at a line's end is dropped. Blank lines and comments (`#`) are skipped but counted.
    ///
    /// # Errors
    ///
    /// The first line that is refused, with its number from 1 on. `Memory` may come at any line of which
    /// all lines before are good.
    pub fn read(alloc: Global, text: &[u8]) -> Result<Schedule, LineFault>
        ensures ok { IfOk result (λ schedule. schedule_of text.now ≡ Ok schedule) }
        ensures err { IfErr result (λ fault. ReportsFault (schedule_of text.now) fault) }
        ensures reached { IfErr result (λ fault. IsReached (lines_of text.now) fault.line) }
    {
        let mut schedule = Schedule::new(alloc);
        let mut number = 1;
        let mut rest = text;
        while let Some((line, after)) = split_line(rest) {
            schedule.add_line(number, line)?;
            number += 1;
            rest = after;
        }
        schedule.add_line(number, rest)?;
        Ok(schedule)
    }

    /// The requesters, in the order of their lines.
    pub fn requesters(&self) -> &[RequesterLine]
        ensures value { result.now ≡ self.now.requesters }
        ensures valid { IsSchedule self.now }
    {
        self.requesters.lines()
    }

    /// The steps, in the order of their lines.
    pub fn steps(&self) -> &Steps
        ensures value { result.now ≡ self.now.steps }
        ensures valid { IsSchedule self.now }
    {
        &self.steps
    }

    /// Adds what a line says, without its number.
    // Not inlined: its result is two bytes, which pass in a register.
    #[inline(never)]
    fn add_unnumbered(&mut self, line: &[u8]) -> Result<(), LineFaultKind>
        ensures ok { OnOk result (after_line self.old line.now ≡ Ok self.new) }
        ensures err { IfErr result (λ kind. ReportsKind (after_line self.old line.now) kind) }
        ensures unchanged { OnErr result (self.new ≡ self.old) }
    {
        match step_words(line) {
            Some(mut words) => self.add_step_in(&mut words),
            None => self.add_unusual(line),
        }
    }

    /// As `add_unnumbered`, for a line of any form.
    #[inline(never)]
    fn add_unusual(&mut self, line: &[u8]) -> Result<(), LineFaultKind>
        ensures ok { OnOk result (after_line self.old line.now ≡ Ok self.new) }
        ensures err { IfErr result (λ kind. ReportsKind (after_line self.old line.now) kind) }
        ensures unchanged { OnErr result (self.new ≡ self.old) }
    {
        let Some((keyword, mut words)) = words_in(line) else {
            return Ok(());
        };
        if keyword.is(b"requester") {
            let line = read_requester(&mut words)?;
            self.add_requester(line)
        } else if keyword.is(b"at") {
            self.add_step_in(&mut words)
        } else {
            Err(LineFaultKind::Words)
        }
    }

    /// Adds the step of a line, `at MS` and an action, by the words after the first. Each usual action is added where
    /// it is read: it is then known which one it is, and none is passed on.
    // Inlined: it runs for nearly all lines.
    #[inline(always)]
    fn add_step_in(&mut self, words: &mut Words<'_>) -> Result<(), LineFaultKind>
        ensures ok { OnOk result (with_step_in self.old words.old ≡ Ok self.new) }
        ensures err { IfErr result (λ kind. ReportsKind (with_step_in self.old words.old) kind) }
        ensures unchanged { OnErr result (self.new ≡ self.old) }
    {
        let moment = words.next_like(&mut self.last.moment, Expected::Moment)?;
        match words.usual_name() {
            Some(UsualName::Reply) => {
                let action = read_reply(words, &mut self.last.number)?;
                self.add_action(&moment, action)
            }
            Some(UsualName::Request) => {
                let action = read_request(words, &mut self.last.number)?;
                self.add_action(&moment, action)
            }
            Some(UsualName::Tick) => self.add_tick(&moment, words),
            Some(UsualName::Open) => self.add_open(&moment, words),
            None => {
                let name = words.next(Expected::Action)?;
                self.add_named(&moment, &name, words)
            }
        }
    }

    /// Adds a tick at the moment that a word spells, by the words after its name.
    // Not inlined, as the two after it: the room for what is read of their words is then not cleared for the others.
    #[inline(never)]
    fn add_tick(&mut self, moment: &Word<'_>, words: &mut Words<'_>) -> Result<(), LineFaultKind>
        ensures ok { OnOk result (with_tick self.old moment.now words.old ≡ Ok self.new) }
        ensures err { IfErr result (λ kind. ReportsKind (with_tick self.old moment.now words.old) kind) }
        ensures unchanged { OnErr result (self.new ≡ self.old) }
    {
        let action = read_tick(words)?;
        self.add_action(moment, action)
    }

    /// Adds an opening at the moment that a word spells, by the words after its name.
    #[inline(never)]
    fn add_open(&mut self, moment: &Word<'_>, words: &mut Words<'_>) -> Result<(), LineFaultKind>
        ensures ok { OnOk result (with_open self.old moment.now words.old ≡ Ok self.new) }
        ensures err { IfErr result (λ kind. ReportsKind (with_open self.old moment.now words.old) kind) }
        ensures unchanged { OnErr result (self.new ≡ self.old) }
    {
        let action = read_open(words)?;
        self.add_action(moment, action)
    }

    /// Adds the action of this name at the moment that a word spells, by the words after the name.
    #[inline(never)]
    fn add_named<'a>(
        &mut self,
        moment: &Word<'_>,
        name: &Word<'a>,
        words: &mut Words<'a>,
    ) -> Result<(), LineFaultKind>
        ensures ok { OnOk result (with_named self.old moment.now name.now words.old ≡ Ok self.new) }
        ensures err { IfErr result (λ kind. ReportsKind (with_named self.old moment.now name.now words.old) kind) }
        ensures unchanged { OnErr result (self.new ≡ self.old) }
    {
        let action = read_action(name, words)?;
        self.add_action(moment, action)
    }

    /// Adds the step of this action, at the moment that a word spells.
    // Inlined: it is then known which action it is.
    #[inline(always)]
    fn add_action(&mut self, moment: &Word<'_>, action: Action) -> Result<(), LineFaultKind>
        ensures ok { OnOk result (with_action self.old moment.now action ≡ Ok self.new) }
        ensures err { IfErr result (λ kind. ReportsKind (with_action self.old moment.now action) kind) }
        ensures unchanged { OnErr result (self.new ≡ self.old) }
    {
        let moment = moment.moment()?;
        self.add_step(Step { moment, action })
    }

    /// Adds a requester, where none has its endpoint ID yet.
    fn add_requester(&mut self, line: RequesterLine) -> Result<(), LineFaultKind>
        ensures ok { OnOk result (with_requester self.old line ≡ Ok self.new) }
        ensures err { IfErr result (λ kind. ReportsKind (with_requester self.old line) kind) }
        ensures unchanged { OnErr result (self.new ≡ self.old) }
    {
        if self.requesters.has(line.eid) {
            return Err(LineFaultKind::SameRequester);
        }
        self.requesters.push(line)?;
        Ok(())
    }

    /// Adds a step, where its moment does not go back and its requester has a line.
    // Inlined, as what it calls: it is then known which action it is.
    #[inline(always)]
    fn add_step(&mut self, step: Step) -> Result<(), LineFaultKind>
        ensures ok { OnOk result (with_step self.old step ≡ Ok self.new) }
        ensures err { IfErr result (λ kind. ReportsKind (with_step self.old step) kind) }
        ensures unchanged { OnErr result (self.new ≡ self.old) }
    {
        if step.moment.get() < self.steps.last_moment() {
            return Err(LineFaultKind::BackInTime);
        }
        if !is_known(&self.requesters, &step.action) {
            return Err(LineFaultKind::NoSuchRequester);
        }
        self.steps.push(step)?;
        Ok(())
    }
}

/// Whether the requester of an action has a line.
fn is_known(requesters: &Requesters, action: &Action) -> bool
    ensures { result ≡ is_known requesters.now action.now }
{
    match action {
        Action::Open { requester, .. } | Action::Tick { requester } => requesters.has(*requester),
        _ => true,
    }
}

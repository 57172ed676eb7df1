//! The text of what came of a step.

ghost use Rattle.std.specs.Prelude.{◌≡◌, ◌≤◌, ◌<◌, ◌+◌, ◌*◌, ◌++◌, ◌∷◌, [], codes, length, OnOk};
ghost use Rattle.std.specs.Fmt.{decimal};
ghost use Rattle.mctp_schedule.specs.EntryColumns.{borrowed_entry};
ghost use Rattle.mctpctl_texts.specs.EntryTexts.{again_text, delivered_text, due_text, entry_text, gave_up_text, received_text};
ghost use Rattle.mctpctl_texts.specs.Gathering.{Gathered};
ghost use Rattle.mctpctl_texts.specs.Phrases.{phrases as all_phrases};
ghost use Rattle.mctpctl_texts.specs.ShownLines.{drop_text};
ghost use Rattle.mctpctl_texts.specs.Writers.{Wrote};

use crate::decimal::Decimal;
use crate::gathering::{flush, make_room};
use crate::page::{MAX_PART, PAGE, Page};
use crate::parts::{write_numbers, write_text};
use crate::phrases::Phrases;
use crate::text_writer::TextWriter;
use mctp_packet::Reason;
use mctp_schedule::{Delivery, EntryRef};
use pldm_requester::Got;
use pldm_responder::MessageOutcome;

/// The most bytes of what came of a step, but for the numbers that a tick reports: up to three parts.
const MAX_ENTRY: usize = 3 * MAX_PART;

/// Gathers the moment of a step, with which its line begins, and makes room for what came of the step.
pub(crate) fn gather_moment<O: TextWriter>(
    out: &mut O,
    page: &mut Page,
    moment: &Decimal,
) -> Result<(), O::Refusal>
    ensures gathered { Gathered O.contents O.failed O.refused out.old out.new page.old page.new
        (decimal moment.now ++ 32 ∷ []) result }
    ensures room { OnOk result (length page.new + MAX_ENTRY ≤ PAGE) }
{
    make_room(out, page, MAX_PART + MAX_ENTRY)?;
    page.add(moment.spaced());
    Ok(())
}

/// Gathers what came of a step, and the end of its line.
pub(crate) fn gather_entry<O: TextWriter>(
    out: &mut O,
    page: &mut Page,
    phrases: &Phrases,
    entry: EntryRef<'_>,
) -> Result<(), O::Refusal>
    requires room { length page.old + MAX_ENTRY ≤ PAGE }
    requires phrases { phrases.now ≡ all_phrases }
    ensures { Gathered O.contents O.failed O.refused out.old out.new page.old page.new
        (entry_text (borrowed_entry entry.entry) ++ 10 ∷ []) result }
{
    match entry {
        EntryRef::Nothing => page.add(&phrases.nothing),
        EntryRef::Opened(number) => add_opened(page, phrases, number),
        EntryRef::NotOpened(fault) => page.add(phrases.not_opened(fault)),
        EntryRef::Due { again, given_up } => {
            if !again.is_empty() || !given_up.is_empty() {
                flush(out, page)?;
                return write_due(out, again, given_up);
            }
            page.add(&phrases.nothing_due);
        }
        EntryRef::Delivered { busy, delivery } => add_delivered(page, phrases, busy, delivery),
        EntryRef::Received(got) => add_received(page, phrases, got),
        EntryRef::Sensed(sensed) => page.add(phrases.sensed(&sensed)),
        EntryRef::Restarted => page.add(&phrases.restarted),
    }
    Ok(())
}

/// Adds the number of a request that was opened.
fn add_opened(page: &mut Page, phrases: &Phrases, number: u64)
    requires room { length page.old + MAX_ENTRY ≤ PAGE }
    requires phrases { phrases.now ≡ all_phrases }
    ensures { page.new ≡ page.old ++ (codes "opened " ++ (decimal number ++ 10 ∷ [])) }
{
    page.add(&phrases.opened);
    page.add_number(number, b'\n');
}

/// Adds what became of the packet of a request.
fn add_delivered(page: &mut Page, phrases: &Phrases, busy: bool, delivery: &Delivery<'_>)
    requires room { length page.old + MAX_ENTRY ≤ PAGE }
    requires phrases { phrases.now ≡ all_phrases }
    ensures { page.new ≡ page.old ++ (delivered_text busy delivery.now ++ 10 ∷ []) }
{
    match delivery.taken() {
        MessageOutcome::Dropped(reason) => add_drop(page, phrases, *reason),
        MessageOutcome::Partial => page.add(&phrases.partial),
        MessageOutcome::Answered { fresh, changed, .. } => {
            page.add(phrases.answered_as(busy, *fresh, *changed));
        }
    }
}

/// Adds what became of a packet of an answer.
fn add_received(page: &mut Page, phrases: &Phrases, got: Got)
    requires room { length page.old + MAX_ENTRY ≤ PAGE }
    requires phrases { phrases.now ≡ all_phrases }
    ensures { page.new ≡ page.old ++ (received_text got ++ 10 ∷ []) }
{
    match got {
        Got::Dropped(reason) => add_drop(page, phrases, reason),
        Got::Partial => page.add(&phrases.partial),
        Got::Answered(_) => page.add(&phrases.answered),
    }
}

/// Adds that bytes were dropped, and why.
fn add_drop(page: &mut Page, phrases: &Phrases, reason: Reason)
    requires room { length page.old + MAX_ENTRY ≤ PAGE }
    requires phrases { phrases.now ≡ all_phrases }
    ensures { page.new ≡ page.old ++ (drop_text reason ++ 10 ∷ []) }
{
    page.add(&phrases.drop);
    page.add_text(reason.name());
    page.add(&phrases.end);
}

/// Writes what was due, of which there is something, and the end of its line.
fn write_due<O: TextWriter>(out: &mut O, again: &[u64], given_up: &[u64]) -> Result<(), O::Refusal>
    requires { 0 < length again.now + length given_up.now }
    ensures { Wrote O.contents O.failed O.refused out.old out.new
        (due_text again.now given_up.now ++ 10 ∷ []) result }
{
    if given_up.is_empty() {
        write_again(out, again)?;
        return write_text(out, "\n");
    }
    if !again.is_empty() {
        write_again(out, again)?;
        write_text(out, " ")?;
    }
    write_gave_up(out, given_up)?;
    write_text(out, "\n")
}

fn write_again<O: TextWriter>(out: &mut O, numbers: &[u64]) -> Result<(), O::Refusal>
    ensures { Wrote O.contents O.failed O.refused out.old out.new (again_text numbers.now) result }
{
    write_text(out, "again")?;
    write_numbers(out, numbers)
}

fn write_gave_up<O: TextWriter>(out: &mut O, numbers: &[u64]) -> Result<(), O::Refusal>
    ensures { Wrote O.contents O.failed O.refused out.old out.new (gave_up_text numbers.now) result }
{
    write_text(out, "gave up")?;
    write_numbers(out, numbers)
}

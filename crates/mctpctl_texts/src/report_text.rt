//! The text of a run's report.

ghost use Rattle.std.specs.Fmt.{decimal};
ghost use Rattle.std.specs.Prelude.{◌≡◌, ◌≤◌, ◌+◌, ◌*◌, ◌++◌, ◌∷◌, [], codes, length, slice_get, IfSome};
ghost use Rattle.hex.specs.Hex.{encode_lower};
ghost use Rattle.mctpctl_texts.specs.EntryTexts.{entries_text, numbers_text};
ghost use Rattle.mctpctl_texts.specs.ReportTexts.{device_text, order_line, progress_text, report_text, request_line, requests_text, timely_line};
ghost use Rattle.mctpctl_texts.specs.Gathering.{Gathered};
ghost use Rattle.mctpctl_texts.specs.Phrases.{phrases as all_phrases};
ghost use Rattle.mctpctl_texts.specs.Writers.{Wrote};
ghost use Rattle.pldm_requester.specs.RequestProgress.{progress_in_status};

use crate::decimal::Decimal;
use crate::device_lines::write_device;
use crate::entry_text::{gather_entry, gather_moment};
use crate::gathering::{flush, gather_hex, make_room};
use crate::page::{MAX_PART, PAGE, Page};
use crate::parts::write_text;
use crate::phrases::Phrases;
use crate::text_writer::TextWriter;
use mctp_packet::Eid;
use mctp_schedule::{Entries, OpenedRequest, Report, Steps};
use pldm_requester::Status;
use simulated_device::SimDevice;

/// Writes the lines of a report: what came of each of the steps, how each request stands, the order in
/// which requests were performed, how the device stands, and whether the schedule was timely.
pub fn write_report<O: TextWriter>(
    out: &mut O,
    steps: &Steps,
    report: &Report<'_, SimDevice>,
) -> Result<(), O::Refusal>
    ensures { Wrote O.contents O.failed O.refused out.old out.new
        (report_text steps.now report.now.entries report.now.requests.items report.now.order.items
        (device_text report.now.device) report.now.timely) result }
{
    write_items(out, steps, report)?;
    write_device(out, &report.device)?;
    write_text(out, timely_line(report.timely))
}

/// Writes the lines of the steps, those of the requests and that of the order, many bytes at a time.
fn write_items<O: TextWriter>(
    out: &mut O,
    steps: &Steps,
    report: &Report<'_, SimDevice>,
) -> Result<(), O::Refusal>
    ensures { Wrote O.contents O.failed O.refused out.old out.new
        (entries_text steps.now report.now.entries ++ (requests_text 0 report.now.requests.items
        ++ order_line report.now.order.items)) result }
{
    let phrases = Phrases::new();
    let mut page = Page::new();
    gather_entries(out, &mut page, &phrases, steps, &report.entries)?;
    gather_requests(out, &mut page, &phrases, &report.requests)?;
    gather_order(out, &mut page, &phrases, &report.order)?;
    flush(out, &mut page)
}

/// Gathers a line for each of these steps, by what came of it.
fn gather_entries<O: TextWriter>(
    out: &mut O,
    page: &mut Page,
    phrases: &Phrases,
    steps: &Steps,
    entries: &Entries<'_>,
) -> Result<(), O::Refusal>
    requires { phrases.now ≡ all_phrases }
    ensures { Gathered O.contents O.failed O.refused out.old out.new page.old page.new
        (entries_text steps.now entries.now) result }
{
    let mut moments = steps.moments();
    let mut rest = entries.iter();
    let mut digits = Decimal::new(0);
    for _line in 0..steps.len().min(entries.len()) {
        digits.set(moments.next().unwrap().get());
        gather_moment(out, page, &digits)?;
        // The entry is taken only here, so that the program finds once which kind of entry it is, and not before and
        // after the moment.
        gather_entry(out, page, phrases, rest.next().unwrap())?;
    }
    Ok(())
}

/// Gathers a line for each of these requests, which have the numbers from 0 on.
fn gather_requests<O: TextWriter>(
    out: &mut O,
    page: &mut Page,
    phrases: &Phrases,
    requests: &[OpenedRequest<'_>],
) -> Result<(), O::Refusal>
    requires { phrases.now ≡ all_phrases }
    ensures { Gathered O.contents O.failed O.refused out.old out.new page.old page.new
        (requests_text 0 requests.now) result }
{
    let mut next = status_at(requests, 0);
    for i in 0..requests.len() {
        let status = next;
        // Taken one line ahead, so that the place of its answer in memory is known before that line is begun.
        next = status_at(requests, i + 1);
        gather_request_line(out, page, phrases, i as u64, &requests[i], status)?;
    }
    Ok(())
}

/// How the request at this place stands; open where there is none.
fn status_at<'s>(requests: &'s [OpenedRequest<'_>], place: usize) -> Status<'s>
    ensures { IfSome (slice_get requests.now place) (λ request. progress_in_status result ≡ request.progress) }
{
    match requests.get(place) {
        Some(request) => request.status(),
        None => Status::Open,
    }
}

/// The most bytes of a request's line, but for its answer: four parts, and then how it stands.
const MAX_REQUEST: usize = 5 * MAX_PART;

/// Gathers the line of a request with this status: its number, who asked, and how it stands.
fn gather_request_line<O: TextWriter>(
    out: &mut O,
    page: &mut Page,
    phrases: &Phrases,
    number: u64,
    request: &OpenedRequest<'_>,
    status: Status<'_>,
) -> Result<(), O::Refusal>
    requires phrases { phrases.now ≡ all_phrases }
    requires stands { progress_in_status status ≡ request.now.progress }
    ensures { Gathered O.contents O.failed O.refused out.old out.new page.old page.new
        (request_line number request.now) result }
{
    make_room(out, page, MAX_REQUEST)?;
    add_request(page, phrases, number, request.requester());
    gather_status(out, page, phrases, status)
}

/// Adds the number of a request and who asked.
fn add_request(page: &mut Page, phrases: &Phrases, number: u64, requester: Eid)
    requires room { length page.old + 4 * MAX_PART ≤ PAGE }
    requires phrases { phrases.now ≡ all_phrases }
    ensures text { page.new ≡ page.old ++ (codes "request " ++ (decimal number ++ 32 ∷ (codes "from "
        ++ (decimal requester ++ 32 ∷ [])))) }
    ensures few { length page.new ≤ length page.old + 4 * MAX_PART }
{
    page.add(&phrases.request);
    page.add_number(number, b' ');
    page.add(&phrases.from);
    page.add_number(requester.get().into(), b' ');
}

/// Gathers how a request stands, and the end of its line.
fn gather_status<O: TextWriter>(
    out: &mut O,
    page: &mut Page,
    phrases: &Phrases,
    status: Status<'_>,
) -> Result<(), O::Refusal>
    requires room { length page.old + MAX_PART ≤ PAGE }
    requires phrases { phrases.now ≡ all_phrases }
    ensures { Gathered O.contents O.failed O.refused out.old out.new page.old page.new
        (progress_text (progress_in_status status.entry) ++ 10 ∷ []) result }
{
    match status {
        Status::Open => page.add(&phrases.still_open),
        Status::Answered(message) => return gather_answer(out, page, phrases, message),
        Status::GaveUp => page.add(&phrases.gave_up),
    }
    Ok(())
}

/// Gathers the message that answered a request, and the end of its line.
fn gather_answer<O: TextWriter>(
    out: &mut O,
    page: &mut Page,
    phrases: &Phrases,
    message: &[u8],
) -> Result<(), O::Refusal>
    requires room { length page.old + MAX_PART ≤ PAGE }
    requires phrases { phrases.now ≡ all_phrases }
    ensures { Gathered O.contents O.failed O.refused out.old out.new page.old page.new
        (codes "answered " ++ (encode_lower message.now ++ 10 ∷ [])) result }
{
    page.add(&phrases.answered_by);
    gather_hex(out, page, message)?;
    make_room(out, page, MAX_PART)?;
    page.add(&phrases.end);
    Ok(())
}

/// Gathers the numbers of the requests that were performed, in that order, or `-` where there are none.
fn gather_order<O: TextWriter>(
    out: &mut O,
    page: &mut Page,
    phrases: &Phrases,
    order: &[u64],
) -> Result<(), O::Refusal>
    requires { phrases.now ≡ all_phrases }
    ensures { Gathered O.contents O.failed O.refused out.old out.new page.old page.new (order_line order.now) result }
{
    make_room(out, page, MAX_PART)?;
    if order.is_empty() {
        page.add(&phrases.no_order);
        return Ok(());
    }
    page.add(&phrases.order);
    gather_numbers(out, page, order)?;
    make_room(out, page, MAX_PART)?;
    page.add(&phrases.end);
    Ok(())
}

/// Gathers numbers in decimal, a space before each.
fn gather_numbers<O: TextWriter>(
    out: &mut O,
    page: &mut Page,
    numbers: &[u64],
) -> Result<(), O::Refusal>
    ensures { Gathered O.contents O.failed O.refused out.old out.new page.old page.new
        (numbers_text numbers.now) result }
{
    for i in 0..numbers.len() {
        make_room(out, page, MAX_PART)?;
        page.add_after_space(numbers[i]);
    }
    Ok(())
}

fn timely_line(timely: bool) -> &'static str
    ensures { result.now ≡ timely_line timely }
{
    if timely {
        "timely: yes\n"
    } else {
        "timely: no\n"
    }
}

//! An update: the device is asked what it is, and brought what the file offers to it.

ghost use Rattle.std.specs.Prelude.{OnOk};
ghost use Rattle.mctpctl_input.specs.Ports.{BothWork};

use crate::brought::Brought;
use crate::offers::{ImageOptions, OfferFault, offers_for, version_for};
use crate::progress::Progress;
use crate::questions::{ask_identifiers, ask_parameters, cancel_update};
use crate::texts::{component_text, identity_text, request_name};
use mctpctl_input::Port;
use pldm_line::{Ticks, Watch};
use pldm_requester::{Openings, Requester};
use pldm_terminus::Terminus;
use pldm_update::{
    ALREADY_IN_UPDATE_MODE, AgentRequest, AgentStage, DeviceIdentifiers, FirmwareParameters,
};
use pldm_wire::SUCCESS;
use std::alloc::{AllocError, Global};
use std::io::{ErrorKind, Read, Write};
use thiserror::Error;
use update_line::{AgentEnd, Offer, Refusal, UpdateLine, UpdateLineFault, take_turn};

/// What is brought to a device.
#[derive(Drop)]
pub struct Job<'j> {
    /// What the file brings.
    pub brought: Brought<'j>,
    /// What is known of an image.
    pub options: ImageOptions<'j>,
    /// Whether nothing is transferred.
    pub dry_run: bool,
    /// Whether the progress of a transfer is printed on standard error.
    pub has_progress: bool,
}

/// Keeps when requests were opened.
pub trait Keeps {
    /// Keeps these openings up to this moment, and that one more request may be opened. `false` where they could not be
    /// kept: nothing is to be opened then.
    fn keep(&mut self, openings: &Openings, last: u64) -> bool;
}

/// Why an update was not brought to its end.
#[derive(Debug, Drop, Error)]
pub enum SessionFault {
    /// The line failed or ended.
    #[error("{0}")]
    Line(UpdateLineFault),
    /// This question got no answer.
    #[error("{0}: no answer")]
    NoAnswer(&'static str),
    /// The device refused this with a completion code.
    #[error("{0}: refused with the completion code {1:#04x}")]
    Refused(&'static str, u8),
    /// The device says that it cannot take a component by this request.
    #[error("{0}: the component cannot be updated")]
    NotTaken(&'static str),
    /// The answer to this question could not be read.
    #[error("{0}: the answer cannot be read")]
    NotRead(&'static str),
    /// The file is not for the device.
    #[error("{0}")]
    Offer(OfferFault),
    /// The update ended in this state of the agent, and the device did not say that it activates.
    #[error("the update ended while {0}")]
    Ended(&'static str),
    /// Nobody reads what is printed.
    #[error("nobody reads the output")]
    Unread,
    /// It was not printed.
    #[error("the output was not written")]
    Print,
    /// When requests were opened could not be kept.
    #[error("the state was not kept")]
    State,
    /// No memory was left.
    #[error("out of memory")]
    Memory,
    /// There were too many turns.
    #[error("too many reads")]
    TooMany,
}

impl From<AllocError> for SessionFault {
    fn from(_: AllocError) -> SessionFault {
        SessionFault::Memory
    }
}

/// Prints a text whole.
fn print<O: Write>(text: &str, out: &mut O) -> Result<(), SessionFault> {
    let written = out.write_all(text.as_bytes()).and_then(|()| out.flush());
    match written {
        Ok(()) => Ok(()),
        Err(error) if error.kind() == ErrorKind::BrokenPipe => Err(SessionFault::Unread),
        Err(_) => Err(SessionFault::Print),
    }
}

/// Keeps that a request more may be opened after those up to the moment `last`.
pub(crate) fn keep_next<K: Keeps>(
    end: &Terminus,
    last: u64,
    keeper: &mut K,
) -> Result<(), SessionFault> {
    let Some(requester) = end.asking() else {
        return Ok(());
    };
    if keeper.keep(&openings_of(requester), last) {
        Ok(())
    } else {
        Err(SessionFault::State)
    }
}

/// When it opened requests. It has no clause, so that no proof computes what a requester leaves.
fn openings_of(requester: &Requester) -> Openings {
    requester.openings()
}

/// Asks the device what it is and prints that, and brings it what the file offers to it; with `dry_run` it is only
/// looked whether there is such an offer. Where it has an update of this very endpoint under way, that is cancelled
/// first, once.
///
/// # Errors
///
/// `Offer` where there is none; `Refused` and `Ended` where the device did not say that it activates what it was
/// brought; the others where the line, the output or the state failed.
pub fn bring<C: Ticks, L: Watch, R: Read, W: Write, O: Write, K: Keeps>(
    rt: &HostRuntime,
    job: &Job<'_>,
    end: Terminus,
    line: &mut UpdateLine<C, L>,
    reader: &mut Port<R>,
    writer: &mut Port<W>,
    out: &mut O,
    keeper: &mut K,
) -> Result<(), SessionFault>
    requires works { BothWork reader.old writer.old }
{
    let (end, device) = ask_device(end, line, reader, writer, keeper)?;
    print(&device.text(rt.alloc())?, out)?;
    let offers = offers_to(rt.alloc(), job, &device)?;
    if job.dry_run {
        return print("the file is for this device\n", out);
    }
    let load = Load {
        rt,
        job,
        identifiers: &device.identifiers,
        offers: &offers,
    };
    load.bring_at_last(end, line, reader, writer, out, keeper)
}

/// What a device says of itself.
#[derive(Drop)]
struct Device {
    identifiers: DeviceIdentifiers,
    parameters: FirmwareParameters,
}

impl Device {
    /// The lines that say it.
    fn text(&self, alloc: Global) -> Result<String, AllocError> {
        identity_text(alloc, &self.identifiers, &self.parameters)
    }
}

/// Asks the device what it is, and which firmware it has.
fn ask_device<C: Ticks, L: Watch, R: Read, W: Write, K: Keeps>(
    end: Terminus,
    line: &mut UpdateLine<C, L>,
    reader: &mut Port<R>,
    writer: &mut Port<W>,
    keeper: &mut K,
) -> Result<(Terminus, Device), SessionFault>
    requires works { BothWork reader.old writer.old }
    ensures works { OnOk result (BothWork reader.new writer.new) }
{
    let (end, identifiers) = ask_identifiers(end, line, reader, writer, keeper)?;
    let (end, parameters) = ask_parameters(end, line, reader, writer, keeper)?;
    let device = Device {
        identifiers,
        parameters,
    };
    Ok((end, device))
}

/// What the file offers to a device.
fn offers_to<'j>(
    alloc: Global,
    job: &Job<'j>,
    device: &Device,
) -> Result<Vec<Offer<'j>>, SessionFault> {
    let Device {
        identifiers,
        parameters,
    } = device;
    match offers_for(alloc, &job.brought, &job.options, identifiers, parameters) {
        Ok(offers) => Ok(offers),
        Err(OfferFault::Memory(_)) => Err(SessionFault::Memory),
        Err(fault) => Err(SessionFault::Offer(fault)),
    }
}

/// Ends the update that the device has under way, where it is one of this very endpoint.
fn end_earlier<C: Ticks, L: Watch, R: Read, W: Write, K: Keeps>(
    end: Terminus,
    line: &mut UpdateLine<C, L>,
    reader: &mut Port<R>,
    writer: &mut Port<W>,
    keeper: &mut K,
) -> Result<Terminus, SessionFault>
    requires works { BothWork reader.old writer.old }
    ensures works { OnOk result (BothWork reader.new writer.new) }
{
    let (end, is_free) = cancel_update(end, line, reader, writer, keeper)?;
    if is_free { Ok(end) } else { Err(occupied()) }
}

/// The device has an update under way, and keeps it.
fn occupied() -> SessionFault {
    SessionFault::Refused(
        request_name(AgentRequest::RequestUpdate),
        ALREADY_IN_UPDATE_MODE,
    )
}

/// How a try to bring an update has ended.
#[derive(Drop)]
enum Ending {
    /// The device has said that it activates the images.
    Activated,
    /// The device refused RequestUpdate, since it has an update under way.
    Occupied(Terminus),
}

/// What is brought, and to which device.
#[derive(Drop)]
struct Load<'l> {
    rt: &'l HostRuntime,
    job: &'l Job<'l>,
    identifiers: &'l DeviceIdentifiers,
    offers: &'l [Offer<'l>],
}

impl Load<'_> {
    /// Brings it; where the device has an update of this very endpoint under way, once that is cancelled.
    fn bring_at_last<C: Ticks, L: Watch, R: Read, W: Write, O: Write, K: Keeps>(
        &self,
        end: Terminus,
        line: &mut UpdateLine<C, L>,
        reader: &mut Port<R>,
        writer: &mut Port<W>,
        out: &mut O,
        keeper: &mut K,
    ) -> Result<(), SessionFault>
        requires works { BothWork reader.old writer.old }
    {
        let end = match self.bring(end, line, reader, writer, out, keeper)? {
            Ending::Activated => return Ok(()),
            Ending::Occupied(end) => end,
        };
        let end = end_earlier(end, line, reader, writer, keeper)?;
        print("an earlier update cancelled\n", out)?;
        match self.bring(end, line, reader, writer, out, keeper)? {
            Ending::Activated => Ok(()),
            Ending::Occupied(_) => Err(occupied()),
        }
    }

    /// Tries to bring it.
    fn bring<C: Ticks, L: Watch, R: Read, W: Write, O: Write, K: Keeps>(
        &self,
        end: Terminus,
        line: &mut UpdateLine<C, L>,
        reader: &mut Port<R>,
        writer: &mut Port<W>,
        out: &mut O,
        keeper: &mut K,
    ) -> Result<Ending, SessionFault>
        requires works { BothWork reader.old writer.old }
        ensures works { OnOk result (BothWork reader.new writer.new) }
    {
        let job = self.job;
        let Some(version) = version_for(&job.brought, &job.options, self.identifiers) else {
            return Err(SessionFault::Offer(OfferFault::Version));
        };
        let Some(mut agent) = AgentEnd::new(end, self.offers, version, line.last.get()) else {
            return Err(SessionFault::Offer(OfferFault::NoImage));
        };
        let (before, well) = follow(self, &mut agent, line, reader, writer, out, keeper)?;
        over(agent, before, well)
    }
}

/// Follows an agent until its update is over: what it did before, and whether it ended well.
fn follow<C: Ticks, L: Watch, R: Read, W: Write, O: Write, K: Keeps>(
    load: &Load<'_>,
    agent: &mut AgentEnd<'_>,
    line: &mut UpdateLine<C, L>,
    reader: &mut Port<R>,
    writer: &mut Port<W>,
    out: &mut O,
    keeper: &mut K,
) -> Result<(AgentStage, bool), SessionFault>
    requires works { BothWork reader.old writer.old }
    ensures works { OnOk result (BothWork reader.new writer.new) }
{
    let mut seen = Seen::new(load, agent.stage());
    for _ in 0..u64::MAX {
        turn(agent, line, reader, writer, keeper)?;
        if let Some(well) = seen.take(agent, line.last.get(), out)? {
            return Ok((seen.before, well));
        }
    }
    Err(SessionFault::TooMany)
}

/// Takes a turn of the line; before it may open a request, that is kept.
fn turn<C: Ticks, L: Watch, R: Read, W: Write, K: Keeps>(
    agent: &mut AgentEnd<'_>,
    line: &mut UpdateLine<C, L>,
    reader: &mut Port<R>,
    writer: &mut Port<W>,
    keeper: &mut K,
) -> Result<(), SessionFault>
    requires works { BothWork reader.old writer.old }
    ensures works { OnOk result (BothWork reader.new writer.new) }
{
    if agent.asks() {
        keep_next(&agent.end, line.last.get(), keeper)?;
    }
    match take_turn(agent, line, reader, writer) {
        Ok(()) => Ok(()),
        Err(fault) => Err(SessionFault::Line(fault)),
    }
}

/// What was seen of an agent, and printed.
#[derive(Drop)]
struct Seen<'l> {
    load: &'l Load<'l>,
    progress: Progress<'l>,
    stage: AgentStage,
    /// The stage before the update was cancelled.
    before: AgentStage,
}

impl<'l> Seen<'l> {
    /// An agent at this stage.
    fn new(load: &'l Load<'l>, stage: AgentStage) -> Seen<'l> {
        Seen {
            load,
            progress: Progress::new(load.rt, load.job.has_progress),
            stage,
            before: stage,
        }
    }

    /// Prints what the agent has done up to this moment; where its update is over, whether it ended well.
    fn take<O: Write>(
        &mut self,
        agent: &AgentEnd<'_>,
        now: u64,
        out: &mut O,
    ) -> Result<Option<bool>, SessionFault> {
        let Load { rt, offers, .. } = *self.load;
        let stage = agent.stage();
        if stage != self.stage {
            self.progress.end();
            print(&step_text(rt, self.stage, stage, offers)?, out)?;
            self.progress.begin(now);
        }
        if let AgentStage::Over(well) = stage {
            return Ok(Some(well));
        }
        self.stage = stage;
        if stage != AgentStage::Cancelling {
            self.before = stage;
        }
        if let AgentStage::Serving(number) = stage {
            let size = size_of(offers, number);
            self.progress.show(now, agent.reached, size);
        }
        Ok(None)
    }
}

/// The bytes of the image of a component.
fn size_of(offers: &[Offer<'_>], number: u16) -> u32 {
    match offers.get(usize::from(number)) {
        Some(offer) => offer.size(),
        None => 0,
    }
}

/// How an update has ended.
fn over(agent: AgentEnd<'_>, before: AgentStage, well: bool) -> Result<Ending, SessionFault> {
    if well {
        return Ok(Ending::Activated);
    }
    let Some(Refusal { request, code }) = agent.refusal else {
        return Err(SessionFault::Ended(stage_name(before)));
    };
    match (request, code) {
        (AgentRequest::RequestUpdate, ALREADY_IN_UPDATE_MODE) => Ok(Ending::Occupied(agent.end)),
        (_, SUCCESS) => Err(SessionFault::NotTaken(request_name(request))),
        _ => Err(SessionFault::Refused(request_name(request), code)),
    }
}

/// What an agent does at a stage.
fn stage_name(stage: AgentStage) -> &'static str {
    match stage {
        AgentStage::Requesting => "the update was requested",
        AgentStage::Passing(_) => "the table of components was passed",
        AgentStage::Offering(_) => "a component was offered",
        AgentStage::Serving(_) => "an image was transferred",
        AgentStage::Verifying(_) => "an image was verified",
        AgentStage::Applying(_) => "an image was applied",
        AgentStage::Activating => "the images were activated",
        AgentStage::Cancelling => "it was cancelled",
        AgentStage::Over(_) => "it was over",
    }
}

/// The line of a step from one stage to another; nothing, where none is printed.
fn step_text(
    rt: &HostRuntime,
    from: AgentStage,
    to: AgentStage,
    offers: &[Offer<'_>],
) -> Result<String, AllocError> {
    let alloc = rt.alloc();
    match to {
        AgentStage::Serving(number) => {
            let size = size_of(offers, number);
            let words = format!(in alloc; " {size} bytes\n")?;
            component_line(rt, offers, number, &words)
        }
        AgentStage::Cancelling => String::from_str(alloc, "cancelled\n"),
        AgentStage::Over(well) if well => String::from_str(alloc, "activated\n"),
        AgentStage::Over(_) => Ok(String::new(alloc)),
        _ => done_text(rt, from, offers),
    }
}

/// The line of a stage that is done; nothing, where none is printed.
fn done_text(
    rt: &HostRuntime,
    done: AgentStage,
    offers: &[Offer<'_>],
) -> Result<String, AllocError> {
    match done {
        AgentStage::Requesting => String::from_str(rt.alloc(), "update requested\n"),
        AgentStage::Serving(number) => component_line(rt, offers, number, " transferred\n"),
        AgentStage::Verifying(number) => component_line(rt, offers, number, " verified\n"),
        AgentStage::Applying(number) => component_line(rt, offers, number, " applied\n"),
        _ => Ok(String::new(rt.alloc())),
    }
}

/// A line that says this of a component.
fn component_line(
    rt: &HostRuntime,
    offers: &[Offer<'_>],
    number: u16,
    words: &str,
) -> Result<String, AllocError> {
    let alloc = rt.alloc();
    let Some(offer) = offers.get(usize::from(number)) else {
        return Ok(String::new(alloc));
    };
    let mut line = component_text(alloc, offer.component)?;
    line.push_str(words)?;
    Ok(line)
}

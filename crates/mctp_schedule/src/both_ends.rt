//! A run of requesters and a device over a schedule, and the report of it.

ghost use Rattle.std.specs.Prelude.{◌≡◌, ◌⊎◌, true, None, Some, IfOk, IfErr, OnOk};
ghost use Rattle.mctp_packet.specs.Memories.{out_of_memory};
ghost use Rattle.pldm_wire.specs.declared.restart_policy.RestartPolicy.TheVariants.{All};
ghost use Rattle.pldm_responder.specs.ResponderStates.{IsHeld, held_at_first};
ghost use Rattle.pldm_responder.specs.Performing.{rules_of};
ghost use Rattle.pldm_responder.specs.ResponderViews.{held_of};
ghost use Rattle.mctp_schedule.specs.Reports.{IsReport};
ghost use Rattle.mctp_schedule.specs.RunFaults.{refusal};
ghost use Rattle.mctp_schedule.specs.HeldRuns.{held_by};
ghost use Rattle.mctp_schedule.specs.Running.{CanGoOn, HasDone, answer_action, at};
ghost use Rattle.mctp_schedule.specs.Runs.{newest_first, setting_of_run};
ghost use Rattle.schedule_text.specs.StepColumns.{borrowed_step};
ghost use Rattle.mctp_schedule.specs.Actions.{as_step, open_for};
ghost use Rattle.mctp_schedule.specs.Actions as actions;

use crate::arrivals::{Arrivals, instance_id};
use crate::askers::MAX_REQUEST_PACKET_BYTES;
use crate::journal::Journal;
use crate::laws::{
    fresh_deliveries_are_first, logs_are_timely, paced_logs_are_timely, performs_once,
    requesters_take_the_one_reply,
};
use crate::places::{Places, begin_requesters};
use crate::{ActionRef, Entries, Entry, OpenedRequest, RunFault, Schedule, StepRef};
use arrayvec::ArrayVec;
use bumpalo::Bump;
use mctp_packet::{Body, Eid, Keep, Memory, Moment, TAGS};
use pldm_platform::Platform;
use pldm_responder::{Bounds, Responder, ResponderSettings};
use pldm_wire::{Command, RestartPolicy, Window};
use std::alloc::Global;

/// A device at an endpoint.
#[derive(Drop)]
pub struct Setup<P: Platform> {
    /// Its endpoint ID.
    pub eid: Eid,
    /// The keeping time, one for both ends.
    pub keep: Keep,
    /// For how many instance IDs of a source the device keeps answers.
    pub window: Window,
    /// The platform behind it.
    pub device: P,
}

/// What came of a schedule. An arena holds its longer answers.
#[derive(Drop)]
pub struct Report<'a, P: Platform> {
    /// What came of each step.
    pub entries: Entries<'a>,
    /// Each request that was opened, by its number, and how it stands at the end.
    pub requests: Vec<OpenedRequest<'a>>,
    /// The numbers of the requests that the device performed, in that order.
    pub order: Vec<u64>,
    /// The platform at the end.
    pub device: P,
    /// Whether the schedule was timely: each request came to the device less than the keeping time after it was opened,
    /// and again only where, since its own first arrival, fewer other instance IDs of its source had a first arrival
    /// than the window counts; and no packet of an answer came after its requester had used the request's tag again.
    pub timely: bool,
}

/// Runs a device and the requesters of a schedule over its steps.
///
/// Nothing is lost, repeated or reordered but by the schedule: what is never delivered is lost, and
/// what is delivered again is a repeat.
///
/// `arena` takes the longer answers and the numbers of what was due, which the report borrows.
///
/// The clause `report` says all of the report: what came of each step and request, in which order
/// requests were performed, the device's state, which commands its platform performed, and whether the
/// schedule was timely. Where it was, it has the headline too: each request that arrived was performed
/// once, at its first arrival, and each answer that a requester took is its own.
///
/// # Errors
///
/// `Timing` for the first requester whose timing is refused, or `Memory` where a growth was refused.
pub fn run<'a, P: Platform>(
    alloc: Global,
    arena: &'a Bump<Global>,
    setup: Setup<P>,
    schedule: &Schedule,
) -> Result<Report<'a, P>, RunFault>
    ensures ok { IfOk result (λ report. refusal setup.eid setup.keep schedule.now.requesters ≡ None) }
    ensures err { IfErr result (λ fault. (fault ≡ RunFault.Memory out_of_memory) ⊎ (refusal setup.eid setup.keep
        schedule.now.requesters ≡ Some fault)) }
    ensures report { IfOk result (λ report. IsReport
        (setting_of_run (rules_of P.answer P.after P.sensed) (P.state setup.device) setup.eid setup.keep setup.window
        schedule.now)
        (newest_first schedule.now) (λ commands. P.performed setup.device commands report.device)
        (record {
          entries = report.entries;
          requests = report.requests.items;
          order = report.order.items;
          device = P.state report.device;
          timely = report.timely;
        })) }
{
    // A law is an empty function whose contract the proof uses: the call costs nothing.
    pldm_responder::laws::looks_back::<P>();
    pldm_requester::laws::looks_back();
    fresh_deliveries_are_first::<P>();
    performs_once::<P>();
    logs_are_timely::<P>();
    paced_logs_are_timely::<P>();
    requesters_take_the_one_reply::<P>();
    let Setup {
        eid,
        keep,
        window,
        device,
    } = setup;
    let _range = eid.get(); // for the proof: an endpoint ID
    let steps = schedule.steps();
    let mut ends = Ends {
        keep,
        window,
        responder: begin_device(alloc, eid, keep, window, device),
        places: begin_requesters(alloc, eid, keep, schedule.requesters())?,
        journal: Journal::new(alloc, arena, steps)?,
        arrivals: Arrivals::new(alloc),
        packet: ArrayVec::new(),
        reply: Body::new(),
    };
    for step in steps.iter() {
        ends.run_step(&step)?;
    }
    let Ends {
        responder,
        journal,
        ..
    } = ends;
    let Journal {
        entries,
        requests,
        order,
        timely,
        ..
    } = journal;
    let device = responder.into_platform();
    Ok(Report {
        entries,
        requests,
        order,
        device,
        timely,
    })
}

/// The device, which refuses each request in its busy time.
fn begin_device<P: Platform>(
    alloc: Global,
    eid: Eid,
    keep: Keep,
    window: Window,
    device: P,
) -> Responder<P>
    ensures held { IsHeld (held_of result) (held_at_first eid All window keep (P.state device)) }
    ensures platform { result.platform ≡ device }
{
    let keeping = ResponderSettings {
        keep,
        window,
        busy: RestartPolicy::All,
    };
    Responder::bounded(alloc, Some(eid), keeping, Bounds::UNREACHED, device)
}

/// Both ends, and what is written down of them.
#[derive(Drop)]
struct Ends<'a, P: Platform> {
    keep: Keep,
    window: Window,
    responder: Responder<P>,
    places: Places,
    journal: Journal<'a>,
    arrivals: Arrivals,
    /// Where the packet of a request is put that comes to the device. There is one room for the whole run, as for
    /// the reply.
    packet: ArrayVec<u8, MAX_REQUEST_PACKET_BYTES>,
    /// Where the responder puts the message that answers a packet. Its room is large, so there is one for
    /// the whole run and none is passed by value.
    reply: Body,
}

impl<'a, P: Platform> Ends<'a, P> {
    /// Takes a step.
    fn run_step(&mut self, step: &StepRef<'_>) -> Result<(), Memory>
        requires { CanGoOn (rules_of P.answer P.after P.sensed) (held_by self.old) (as_step (borrowed_step step.now)) }
        ensures { OnOk result (HasDone (rules_of P.answer P.after P.sensed) P.performed (held_by self.old)
            (as_step (borrowed_step step.now)) (held_by self.new)) }
    {
        let now = step.moment;
        match &step.action {
            ActionRef::Open { requester, command } => self.open(now, *requester, command),
            ActionRef::Tick { requester } => self.tick(now, *requester),
            ActionRef::Request { number } => self.deliver_request(now, *number),
            ActionRef::Reply { packet, number } => self.deliver_answer(
                now, *number, *packet, false,
            ),
            ActionRef::Sense { sensor, value } => self.sense(now, *sensor, *value),
            ActionRef::Restart => self.restart(now),
            ActionRef::Busy { number } => self.deliver_answer(now, *number, 0, true),
        }
    }

    /// A requester opens a request.
    fn open(&mut self, now: Moment, eid: Eid, command: &Command) -> Result<(), Memory>
        requires { CanGoOn (rules_of P.answer P.after P.sensed) (held_by self.old)
            (at now (open_for eid command.now)) }
        ensures { OnOk result (HasDone (rules_of P.answer P.after P.sensed) P.performed (held_by self.old)
            (at now (open_for eid command.now)) (held_by self.new)) }
    {
        pldm_requester::laws::looks_back();
        pldm_wire::laws::commands_are_read_back();
        pldm_wire::laws::messages_fit();
        let number = self.journal.requests.len() as u64; // what the journal will give it
        match &mut self.places[usize::from(eid.get())] {
            Some(asker) => match asker.open(now, command, number)? {
                Ok(own) => self.journal.enter_opened(eid, now, asker.sent(own))?,
                Err(fault) => self.journal.enter(Entry::NotOpened(fault))?,
            },
            None => unreachable!(),
        }
        Ok(())
    }

    /// A requester sends again and gives up what is due.
    fn tick(&mut self, now: Moment, eid: Eid) -> Result<(), Memory>
        requires { CanGoOn (rules_of P.answer P.after P.sensed) (held_by self.old) (at now (actions.Tick eid)) }
        ensures { OnOk result (HasDone (rules_of P.answer P.after P.sensed) P.performed (held_by self.old)
            (at now (actions.Tick eid)) (held_by self.new)) }
    {
        pldm_requester::laws::looks_back();
        match &mut self.places[usize::from(eid.get())] {
            Some(asker) => {
                let due = asker.tick(now);
                self.journal.enter_due(&due, asker.numbers())?;
            }
            None => unreachable!(),
        }
        Ok(())
    }

    /// The packet of a request comes to the device.
    fn deliver_request(&mut self, now: Moment, number: u64) -> Result<(), Memory>
        requires { CanGoOn (rules_of P.answer P.after P.sensed) (held_by self.old) (at now (actions.Request number)) }
        ensures { OnOk result (HasDone (rules_of P.answer P.after P.sensed) P.performed (held_by self.old)
            (at now (actions.Request number)) (held_by self.new)) }
    {
        pldm_responder::laws::looks_back::<P>();
        mctp_packet::laws::bytes_spell_one_packet();
        mctp_packet::laws::reading_is_spelling();
        if number >= self.journal.requests.len() as u64 {
            // A schedule may deliver a request that was never opened.
            self.journal.enter(Entry::Nothing)?;
            return Ok(());
        }
        let request = &self.journal.requests[number as usize];
        let (source, id) = (request.requester(), instance_id(request.message()));
        let soon = now.get() < request.opening().get() + u64::from(self.keep.get());
        let arrived = self.journal.has_arrived(number);
        let in_time = self
            .arrivals
            .is_in_time(soon, arrived, source, id, self.window);
        // Asked before the packet comes, since by it the entry knows a busy answer from a copy.
        let busy = self.responder.busy(now);
        self.journal.write_request_packet(number, &mut self.packet);
        let taken = self
            .responder
            .receive_message(now, self.packet.as_slice(), &mut self.reply)?;
        self.arrivals.note(arrived, busy, source, id)?;
        self.journal
            .enter_delivered(number, in_time, busy, taken, &self.reply)?;
        Ok(())
    }

    /// A packet of the latest answer to a request, a busy one or not, comes to its requester.
    fn deliver_answer(
        &mut self,
        now: Moment,
        number: u64,
        packet: u8,
        busy: bool,
    ) -> Result<(), Memory>
        requires first { busy ≡ true → packet ≡ 0 }
        requires steps { CanGoOn (rules_of P.answer P.after P.sensed) (held_by self.old)
            (at now (answer_action busy number packet)) }
        ensures { OnOk result (HasDone (rules_of P.answer P.after P.sensed) P.performed (held_by self.old)
            (at now (answer_action busy number packet)) (held_by self.new)) }
    {
        pldm_requester::laws::looks_back();
        let journal = &self.journal;
        let Some(handed) = journal.latest_answer_packet(number, packet, busy) else {
            self.journal.enter(Entry::Nothing)?;
            return Ok(());
        };
        let request = &journal.requests[number as usize];
        let own = request.number();
        let place = usize::from(request.requester().get());
        let (in_time, got, answered) = match &mut self.places[place] {
            Some(asker) => {
                // The request's tag is its own until the requester has opened TAGS requests more.
                let in_time = asker.count().saturating_sub(u64::from(TAGS)) <= own;
                let got = asker.receive(now, &handed)?;
                (in_time, got, asker.answered(got))
            }
            None => unreachable!(),
        };
        self.journal
            .enter_received(number, busy, in_time, got, answered)?;
        Ok(())
    }

    /// A sensor of the device gets a reading.
    fn sense(&mut self, now: Moment, sensor: u16, value: i64) -> Result<(), Memory>
        requires { CanGoOn (rules_of P.answer P.after P.sensed) (held_by self.old)
            (at now (actions.Sense sensor value)) }
        ensures { OnOk result (HasDone (rules_of P.answer P.after P.sensed) P.performed (held_by self.old)
            (at now (actions.Sense sensor value)) (held_by self.new)) }
    {
        pldm_responder::laws::looks_back::<P>();
        let result = self.responder.set_reading(sensor, value);
        self.journal.enter(Entry::Sensed(result))?;
        Ok(())
    }

    /// The device's end restarts.
    fn restart(&mut self, now: Moment) -> Result<(), Memory>
        requires { CanGoOn (rules_of P.answer P.after P.sensed) (held_by self.old) (at now actions.Restart) }
        ensures { OnOk result (HasDone (rules_of P.answer P.after P.sensed) P.performed (held_by self.old)
            (at now actions.Restart) (held_by self.new)) }
    {
        pldm_responder::laws::looks_back::<P>();
        self.responder.restart(now);
        self.journal.enter(Entry::Restarted)?;
        Ok(())
    }
}

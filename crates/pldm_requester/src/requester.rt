//! The requesting end of a link: requests opened, sent again at ticks, and answered by packets.

ghost use Rattle.std.specs.Prelude.{◌≡◌, ◌↔◌, slice_get, ◌⊎◌, ℕ, ◌+◌, ◌%◌, ◌^◌, ◌<◌, ◌≤◌, true, ◌||◌, [], ◌∷◌, ◌++◌, length, filter, if◌then◌else◌, None, Some, Ok, Err, option_map, vec_len, vec_capacity, is_some, IfOk, IfErr, IfSome, IsErrOf, OnOk, OnErr, ◌-◌, ◌*◌};
ghost use Rattle.std.specs.Bool.{OnFalse};
ghost use Rattle.std.specs.Option.{option_copied};
ghost use Rattle.std.specs.List.{All};
ghost use Rattle.mctp_packet.specs.Ids.{IsMoment, IsTag, IsKeep};
ghost use Rattle.mctp_packet.specs.Memories.{out_of_memory};
ghost use Rattle.mctp_packet.specs.Packets.{written};
ghost use Rattle.mctp_packet.specs.Passing.{passed as where_expected};
ghost use Rattle.mctp_packet.specs.Reading.{reading, unless};
ghost use Rattle.mctp_assembly.specs.Steps.{answer as assembled};
ghost use Rattle.mctp_assembly.specs.declared.fed.Fed.TheVariants.{Whole};
ghost use Rattle.pldm_wire.specs.Commands.{IsCommand};
ghost use Rattle.pldm_wire.specs.Responses.{response_of};
ghost use Rattle.pldm_wire.specs.declared.assigned.TheConstants.{INSTANCE_IDS};
ghost use Rattle.pldm_wire.specs.declared.limits.TheConstants.{MAX_REQUEST_DATA};
ghost use Rattle.pldm_requester.specs.Arrivals.{got_of, is_response_to, response_arrival};
ghost use Rattle.pldm_requester.specs.Asks.{ask_for};
ghost use Rattle.pldm_requester.specs.AskRefs.{HasRoom, IsReadable, ask_in};
ghost use Rattle.pldm_requester.specs.Calls.{answer_key};
ghost use Rattle.pldm_requester.specs.Courses.{begun, is_given_up, is_sent_again, ticked};
ghost use Rattle.pldm_requester.specs.Deadlines.{IsDeadline, IsEarliest, is_reached};
ghost use Rattle.pldm_requester.specs.Numbering.{id_of, tag_of};
ghost use Rattle.pldm_requester.specs.Pacing.{is_answered_from, is_too_soon, newest, setting_fault};
ghost use Rattle.pldm_requester.specs.Slots.{AreSlots, IsInPace, OlderAreShut, held_of, most_opened, remembered_in};
ghost use Rattle.pldm_requester.specs.RequestProgress.{progress_in_status};
ghost use Rattle.pldm_requester.specs.Steps.{IsHeld, accepts, again_at, arrived_by, begins_message, expects, given_up_at, goes_to, got_at, held_at_first, held_by, is_id_in_use, is_mine, is_open_in, is_tag_in_use, opened_held, opened_with, opening_answer, passed, passes, received_held, recent_numbers, remembered_after, ticked_held, whole, at_hand, is_there, with_course, course_of, courses_since, has_id_before, has_many_before, paced_at_first};
ghost use Rattle.pldm_requester.specs.Resuming.{AreKnown, AreLeft, IsKnown, resumed_held, shut_memo};
ghost use Rattle.pldm_requester.specs.Timings.{timing_fault};

use crate::ask::AskRef;
use crate::numbering::{id_of, tag_of};
use crate::remembered::Remembered;
use crate::resuming::{moments_of, shut_slots};
use crate::slots::{content_for, make_room, put};
use crate::{
    Due, Got, OpenFault, Opened, Openings, Pace, ResumeFault, SettingFault, Status, Timing,
    TimingFault,
};
use arrayvec::ArrayVec;
use mctp_assembly::{Assembled, Assembler, Key};
use mctp_packet::{
    Body, Eid, MAX_MESSAGE_BYTES, Memory, Moment, PacketRef, Packets, Reason, Route, TAGS, Tag,
    read_for,
};
use pldm_wire::{Command, ERROR_NOT_READY, INSTANCE_IDS, Kind, ResponseRef, read_response};
use std::alloc::Global;
use std::marker::Model;

/// The most requests that are open at a time: one for each tag.
pub const MAX_OPEN: usize = 8;

/// How many requests are remembered, the last ones: one for each instance ID.
pub const MAX_REMEMBERED: usize = 32;

/// The requesting end at one endpoint, for one device: commands are opened as requests, packets to be
/// sent again are returned at each tick, and answers are taken from packets.
#[derive(Debug, Drop)]
pub struct Requester {
    own: Eid,
    device: Eid,
    timing: Timing,
    pace: Pace,
    count: u64,
    last: Moment,
    assembler: Assembler,
    slots: Vec<Remembered>,
}

impl Model for Requester {
    ghost use Rattle.pldm_requester.specs.Slots.{RequesterView, IsStation, coded_view};

    ghost Value = { RequesterView };

    ghost coded = { coded_view };

    ghost view = { λ r. record {
      own = r.own;
      device = r.device;
      timing = r.timing;
      pace = r.pace;
      count = r.count;
      slots =
          r.slots.items;
      open_messages = r.assembler;
      last = r.last;
    } };

    ghost invariant = { λ r. IsStation (record {
      own = r.own;
      device = r.device;
      timing = r.timing;
      pace = r.pace;
      count = r.count;
      slots = r.slots.items;
      open_messages = r.assembler;
      last = r.last;
    }) };
}

impl Requester {
    /// A requester at the endpoint `own`, for the device at the endpoint `device`. It has no request,
    /// and its last moment is 0. Instance IDs begin at 0: where there was a requester at this endpoint
    /// before, let twice the keeping time pass before the first request.
    ///
    /// # Errors
    ///
    /// The first fault of the timing: a timeout of 0, tries that are not 1 to [`MAX_TRIES`], tries
    /// that take longer than the keeping time, or the same endpoint ID twice.
    ///
    /// [`MAX_TRIES`]: crate::MAX_TRIES
    pub fn new(
        alloc: Global,
        own: Eid,
        device: Eid,
        timing: Timing,
    ) -> Result<Requester, TimingFault>
        ensures held { IfOk result (λ requester. IsHeld (held_of requester) (held_at_first own device timing)) }
        ensures ok { OnOk result (timing_fault own device timing ≡ None) }
        ensures refused { IfErr result (λ fault. timing_fault own device timing ≡ Some fault) }
    {
        if let Some(fault) = timing.fault(own, device) {
            return Err(fault);
        }
        let pace = Pace::at_default(timing.keep);
        Ok(Requester::begun(alloc, own, device, timing, pace))
    }

    /// A requester as from [`Requester::new`], with a pace of its own: it may use an instance ID again before twice the
    /// keeping time has passed.
    ///
    /// # Errors
    ///
    /// The first fault of the timing, as from [`Requester::new`]; else the first of the pace: a lifetime of 0, one that
    /// is longer than the keeping time, tries that take longer than the lifetime, or a window that is not 1 to 32.
    pub fn with_pace(
        alloc: Global,
        own: Eid,
        device: Eid,
        timing: Timing,
        pace: Pace,
    ) -> Result<Requester, SettingFault>
        ensures held { IfOk result (λ requester. IsHeld (held_of requester)
            (paced_at_first own device timing pace)) }
        ensures ok { OnOk result (setting_fault own device timing pace ≡ None) }
        ensures refused { IfErr result (λ fault. setting_fault own device timing pace ≡ Some fault) }
    {
        match setting_fault(own, device, &timing, &pace) {
            Some(fault) => Err(fault),
            None => Ok(Requester::begun(alloc, own, device, timing, pace)),
        }
    }

    /// A requester with settings that have no fault.
    fn begun(alloc: Global, own: Eid, device: Eid, timing: Timing, pace: Pace) -> Requester
        requires { IsInPace timing pace }
        ensures { IsHeld (held_of result) (paced_at_first own device timing pace) }
    {
        Requester {
            own,
            device,
            timing,
            pace,
            count: 0,
            last: Moment::new(0).unwrap(),
            assembler: Assembler::new(alloc),
            slots: Vec::new(alloc),
        }
    }

    /// A requester at the endpoint `own`, for the device at the endpoint `device`, that goes on where others stopped:
    /// `openings` says which instance ID is next, and when the last request with each ID was opened. It has none of
    /// their requests, and its last moment is `now`. What it opens comes twice its lifetime, at the default pace twice
    /// the keeping time, after each earlier request with the same instance ID that the openings know.
    ///
    /// # Errors
    ///
    /// `Setting` with the first fault of the settings, as from [`Requester::with_pace`]; else `Openings` where no
    /// requester can have left them up to now; else `Memory`.
    #[tactic(auto, using(crate::proofs::ResumedOpenings::is_station, crate::proofs::ResumedOpenings::is_held_again))]
    pub fn resumed(
        alloc: Global,
        own: Eid,
        device: Eid,
        timing: Timing,
        pace: Pace,
        now: Moment,
        openings: &Openings,
    ) -> Result<Requester, ResumeFault>
        ensures held { IfOk result (λ requester. IsHeld (held_of requester)
            (resumed_held own device timing pace now openings.now)) }
        ensures known { OnOk result ((setting_fault own device timing pace ≡ None) × AreKnown now openings.now) }
        ensures setting { (fault : SettingFault) → IsErrOf result (ResumeFault.Setting fault)
            ↔ (setting_fault own device timing pace ≡ Some fault) }
        ensures unknown { IsErrOf result ResumeFault.Openings → AreKnown now openings.now → ⊥ }
    {
        if let Some(fault) = setting_fault(own, device, &timing, &pace) {
            return Err(ResumeFault::Setting(fault));
        }
        let Some(count) = openings.count_at(now) else {
            return Err(ResumeFault::Openings);
        };
        let slots = shut_slots(alloc, own, device, &pace, count, openings)?;
        Ok(Requester {
            own,
            device,
            timing,
            pace,
            count,
            last: now,
            assembler: Assembler::new(alloc),
            slots,
        })
    }

    /// When the last request with each instance ID was opened, for a [`Requester::resumed`] that goes on.
    #[tactic(auto, using(crate::proofs::ResumedOpenings::are_left, crate::proofs::ResumedOpenings::are_known))]
    pub fn openings(&self) -> Openings
        ensures left { AreLeft (held_of self.now) result }
        ensures known { (now : ℕ) → (held_of self.now).last ≤ now → AreKnown now result }
    {
        Openings {
            next: id_of(self.count),
            moments: moments_of(&self.slots),
        }
    }

    /// The moment of the last call that answered neither Memory nor a fault of opening, 0 before the
    /// first.
    pub fn last_moment(&self) -> Moment
        ensures { result ≡ (held_of self.now).last }
    {
        self.last
    }

    /// How many requests were opened: fewer than 2 to the 63.
    pub fn count(&self) -> u64
        ensures value { result ≡ (held_of self.now).count }
        ensures range { result < 2 ^ 63 }
    {
        let _range = self.last.get(); // for the proof: a moment
        self.count
    }

    /// The packets of a request's message, where it is among the last [`MAX_REMEMBERED`], or, where little is kept (see
    /// [`Pace`]), the last [`MAX_OPEN`].
    pub fn packets(&self, number: u64) -> Option<&Packets>
        ensures value { option_map (λ packets. packets.now) result ≡ option_map (λ memo. memo.packets)
            (at_hand (held_of self.now) number) }
        ensures there { is_some result ≡ is_there (held_of self.now) number }
    {
        self.remembered(number)?.packets()
    }

    /// How a request stands, where it is among those of which [`Requester::packets`] has the packets.
    pub fn status(&self, number: u64) -> Option<Status<'_>>
        ensures value { option_map progress_in_status result ≡ option_map (λ memo. memo.course.progress)
            (at_hand (held_of self.now) number) }
        ensures there { is_some result ≡ is_there (held_of self.now) number }
    {
        self.remembered(number)?.status()
    }

    /// What is remembered of a request, where it is among the last ones.
    #[tactic(auto, using(crate::proofs::SlotSteps::at_hand_is, crate::proofs::SlotSteps::there_is))]
    fn remembered(&self, number: u64) -> Option<&Remembered>
        ensures value { option_copied result ≡ remembered_in self.now.count self.now.slots number }
        ensures at_hand { whole (option_copied result) ≡ at_hand (held_of self.now) number }
        ensures there { is_some (at_hand (held_of self.now) number) ≡ is_there (held_of self.now) number }
    {
        if number >= self.count || self.count - number > MAX_REMEMBERED as u64 {
            return None;
        }
        self.slots.get((number % MAX_REMEMBERED as u64) as usize)
    }

    /// Whether a request is among the last ones, and open.
    fn is_open(&self, number: u64) -> bool
        ensures { result ≡ is_open_in (held_of self.now) number }
    {
        match self.remembered(number) {
            Some(request) => request.is_open(),
            None => false,
        }
    }

    /// Whether the last request with the next tag is open.
    fn is_tag_in_use(&self) -> bool
        ensures { result ≡ is_tag_in_use (held_of self.now) }
    {
        self.count >= u64::from(TAGS) && self.is_open(self.count - u64::from(TAGS))
    }

    /// Whether the next instance ID is not free yet.
    fn is_id_in_use(&self, now: Moment) -> bool
        ensures value { result ≡ is_id_in_use (held_of self.now) now }
        ensures paced { OnFalse result (self.now.count < most_opened now) }
    {
        self.has_id_before(now) || self.has_many_before(now)
    }

    /// Whether the last request with the next instance ID was opened less than twice the lifetime ago, or less than
    /// twice the keeping time ago and too few were answered since.
    fn has_id_before(&self, now: Moment) -> bool
        ensures value { result ≡ has_id_before (held_of self.now) now }
        ensures paced { OnFalse result (self.now.count < most_opened now) }
    {
        if self.count < u64::from(INSTANCE_IDS) {
            return false;
        }
        match self.remembered(self.count - u64::from(INSTANCE_IDS)) {
            Some(before) => self.is_too_soon(before.opening, now),
            None => false,
        }
    }

    /// Whether an instance ID is not free yet, where the last request with it was opened at this moment.
    fn is_too_soon(&self, opening: Moment, now: Moment) -> bool
        ensures value { result ≡ is_too_soon self.now.timing.keep self.now.pace now opening
            (courses_since (held_of self.now)) }
        ensures far { OnFalse result (opening + 2 * self.now.pace.lifetime ≤ now) }
    {
        let start = opening.get() + self.lifetime();
        if now.get() < opening.get() + 2 * self.lifetime() {
            return true;
        }
        let kept = opening.get() + 2 * u64::from(self.timing.keep.get());
        now.get() < kept
            && answered_from(&self.slots, self.count, start) < u64::from(self.pace.window)
    }

    /// The lifetime of its pace: no longer than the keeping time.
    fn lifetime(&self) -> u64
        ensures value { result ≡ self.now.pace.lifetime }
        ensures range { IsKeep result }
    {
        let _range = self.timing.keep.get(); // for the proof: a keeping time
        self.pace.lifetime
    }

    /// Whether the requests are spread and too many were opened in the last lifetime.
    fn has_many_before(&self, now: Moment) -> bool
        ensures { result ≡ has_many_before (held_of self.now) now }
    {
        let stride = u64::from(self.pace.stride());
        if stride == 0 || self.count < stride {
            return false;
        }
        match self.remembered(self.count - stride) {
            Some(before) => now.get() < before.opening.get() + self.lifetime(),
            None => false,
        }
    }

    /// Opens a request for a command at the moment `now`, which must not be before
    /// [`Requester::last_moment`]. Its packets are to be sent then.
    ///
    /// The request with number n has instance ID n modulo 32 and tag n modulo 8. What came of an
    /// older answer on this tag is forgotten.
    ///
    /// # Errors
    ///
    /// `TagInUse` where request n - 8 is open; else `IdInUse` where request n - 32 was opened less than
    /// twice the lifetime ago, or less than twice the keeping time ago with fewer requests answered than the window
    /// counts, of those opened at least the lifetime after it, or where requests are spread and this one comes too soon
    /// (see [`Pace`]; at the default pace exactly where request n - 32 was opened less than twice the keeping time ago);
    /// else `Memory` where the room for the request and its answer was refused, which only the first
    /// [`MAX_REMEMBERED`] requests need. The requester is then as before.
    pub fn open(&mut self, now: Moment, command: &Command) -> Result<Opened, OpenFault>
        requires { (held_of self.old).last ≤ now }
        ensures answer { IfOk result (λ opened. opening_answer (held_of self.old) now ≡ Ok opened) }
        ensures fault { IfErr result (λ fault.
            ((fault ≡ OpenFault.Memory out_of_memory) × (accepts (held_of self.old) now ≡ true))
            ⊎ (opening_answer (held_of self.old) now ≡ Err fault)) }
        ensures room { IsErrOf result (OpenFault.Memory out_of_memory) → (held_of self.old).count < MAX_REMEMBERED }
        ensures readable { OnOk result (IsCommand command.now) }
        ensures held { OnOk result (IsHeld (held_of self.new) (opened_held (held_of self.old) now command.now)) }
        ensures err { OnErr result (IsHeld (held_of self.new) (held_of self.old)) }
    {
        self.open_ask(now, &AskRef::Command(command))
    }

    /// As [`Requester::open`], for a request of any PLDM type: of this type and command, with this data, which is what
    /// follows its header (DSP0240, "PLDM message fields"). Data has at most [`MAX_REQUEST_DATA`] bytes.
    ///
    /// # Errors
    ///
    /// As from [`Requester::open`].
    ///
    /// [`MAX_REQUEST_DATA`]: pldm_wire::MAX_REQUEST_DATA
    pub fn open_request(
        &mut self,
        now: Moment,
        kind: Kind,
        data: &[u8],
    ) -> Result<Opened, OpenFault>
        requires moment { (held_of self.old).last ≤ now }
        requires few { length data.now ≤ MAX_REQUEST_DATA }
        ensures answer { IfOk result (λ opened. opening_answer (held_of self.old) now ≡ Ok opened) }
        ensures fault { IfErr result (λ fault.
            ((fault ≡ OpenFault.Memory out_of_memory) × (accepts (held_of self.old) now ≡ true))
            ⊎ (opening_answer (held_of self.old) now ≡ Err fault)) }
        ensures room { IsErrOf result (OpenFault.Memory out_of_memory) → (held_of self.old).count < MAX_REMEMBERED }
        ensures held { OnOk result (IsHeld (held_of self.new) (opened_with (held_of self.old) now
            (ask_for kind data.now))) }
        ensures err { OnErr result (IsHeld (held_of self.new) (held_of self.old)) }
    {
        let _other: Option<&Command> = None; // for the proof: what an `AskRef` may hold too
        self.open_ask(now, &AskRef::Data(kind, data))
    }

    /// As [`Requester::open`], for what is asked either way.
    fn open_ask(&mut self, now: Moment, ask: &AskRef<'_>) -> Result<Opened, OpenFault>
        requires moment { (held_of self.old).last ≤ now }
        requires room { HasRoom ask.now }
        ensures answer { IfOk result (λ opened. opening_answer (held_of self.old) now ≡ Ok opened) }
        ensures fault { IfErr result (λ fault.
            ((fault ≡ OpenFault.Memory out_of_memory) × (accepts (held_of self.old) now ≡ true))
            ⊎ (opening_answer (held_of self.old) now ≡ Err fault)) }
        ensures room { IsErrOf result (OpenFault.Memory out_of_memory) → (held_of self.old).count < MAX_REMEMBERED }
        ensures readable { OnOk result (IsReadable ask.now) }
        ensures held { OnOk result (IsHeld (held_of self.new) (opened_with (held_of self.old) now (ask_in ask.now))) }
        ensures err { OnErr result (IsHeld (held_of self.new) (held_of self.old)) }
    {
        if self.is_tag_in_use() {
            return Err(OpenFault::TagInUse);
        }
        if self.is_id_in_use(now) {
            return Err(OpenFault::IdInUse);
        }
        make_room(&mut self.slots)?;
        let number = self.count;
        let id = id_of(number);
        let tag = tag_of(number);
        let route = Route {
            destination: self.device,
            source: self.own,
            owner: true,
            tag,
        };
        let content = content_for(&mut self.slots, &self.pace, number, ask, &route)?;
        put(&mut self.slots, number, Remembered::new(content, ask, now));
        self.assembler.forget(answer_key(self.device, tag));
        self.count = number + 1;
        self.last = now;
        Ok(Opened { number, id, tag })
    }

    /// Returns which requests are due at the moment `now`, which must not be before
    /// [`Requester::last_moment`].
    ///
    /// An open request is given up where all its tries have had their time; else it is to be sent
    /// again where its last try has.
    pub fn tick(&mut self, now: Moment) -> Due
        requires { (held_of self.old).last ≤ now }
        ensures again { result.again.items ≡ again_at (held_of self.old) now }
        ensures given_up { result.given_up.items ≡ given_up_at (held_of self.old) now }
        ensures held { IsHeld (held_of self.new) (ticked_held (held_of self.old) now) }
    {
        let due = tick_last(&mut self.slots, self.count, &self.timing, now);
        self.last = now;
        due
    }

    /// The moment from which on [`Requester::tick`] finds something due, exactly: a tick before it finds nothing and
    /// changes no request. `None` where there is no such moment: no request is open, or the time of each comes after
    /// the largest moment. Each call may change it, but for a tick before it. Where it is not after
    /// [`Requester::last_moment`], a tick is due now.
    pub fn next_deadline(&self) -> Option<Moment>
        ensures { IsDeadline (held_of self.now) result }
    {
        Moment::new(earliest_due(&self.slots, self.count, &self.timing)?)
    }

    /// Takes the bytes of a packet that came at the moment `now`, which must not be before
    /// [`Requester::last_moment`], and gives what becomes of them.
    ///
    /// A packet that is addressed to the endpoint by the device, with TO 0 and the tag of an open
    /// request, is assembled. A whole response with that request's instance ID, PLDM type and command
    /// answers it, but for one with the completion code ERROR_NOT_READY (DSP0240, "Generic PLDM
    /// completion codes").
    ///
    /// # Errors
    ///
    /// `Memory` where a growth was refused, which only a start packet that gives `Partial` needs. The
    /// requester is then as before.
    pub fn receive(&mut self, now: Moment, bytes: &[u8]) -> Result<Got, Memory>
        requires { (held_of self.old).last ≤ now }
        ensures got { IfOk result (λ got. got ≡ got_at (held_of self.old) bytes.now) }
        ensures held { OnOk result (IsHeld (held_of self.new) (received_held (held_of self.old) now bytes.now)) }
        ensures memory { OnErr result (got_at (held_of self.old) bytes.now ≡ Got.Partial) }
        ensures at_start { OnErr result (begins_message (passed (held_of self.old) bytes.now) ≡ true) }
        ensures err { OnErr result (IsHeld (held_of self.new) (held_of self.old)) }
    {
        let got = self.receive_bytes(bytes)?;
        self.last = now;
        Ok(got)
    }

    /// Takes the bytes of a packet, whatever the moment.
    fn receive_bytes(&mut self, bytes: &[u8]) -> Result<Got, Memory>
        ensures got { IfOk result (λ got. got ≡ got_at (held_of self.old) bytes.now) }
        ensures held { OnOk result (IsHeld (held_of self.new) (held_by (held_of self.old) (passed (held_of self.old)
            bytes.now))) }
        ensures memory { OnErr result (got_at (held_of self.old) bytes.now ≡ Got.Partial) }
        ensures at_start { OnErr result (begins_message (passed (held_of self.old) bytes.now) ≡ true) }
        ensures err { OnErr result (IsHeld (held_of self.new) (held_of self.old)) }
    {
        match read_for(self.own, bytes) {
            Ok(packet) => self.receive_packet(&packet),
            Err(reason) => Ok(Got::Dropped(reason)),
        }
    }

    /// As [`Requester::receive`], for a packet that is read already: it takes what [`mctp_packet::write`]
    /// writes of it. Nothing is written for it.
    ///
    /// # Errors
    ///
    /// As from [`Requester::receive`].
    pub fn receive_read(&mut self, now: Moment, packet: &PacketRef<'_>) -> Result<Got, Memory>
        requires { (held_of self.old).last ≤ now }
        ensures got { IfOk result (λ got. got ≡ got_at (held_of self.old) (written packet.now)) }
        ensures held { OnOk result (IsHeld (held_of self.new) (received_held (held_of self.old) now
            (written packet.now))) }
        ensures memory { OnErr result (got_at (held_of self.old) (written packet.now) ≡ Got.Partial) }
        ensures at_start { OnErr result (begins_message (passed (held_of self.old) (written packet.now)) ≡ true) }
        ensures err { OnErr result (IsHeld (held_of self.new) (held_of self.old)) }
    {
        let got = self.receive_any(packet)?;
        self.last = now;
        Ok(got)
    }

    /// Takes a packet that is read already, wherever it goes and whatever the moment.
    fn receive_any(&mut self, packet: &PacketRef<'_>) -> Result<Got, Memory>
        ensures got { IfOk result (λ got. got ≡ got_at (held_of self.old) (written packet.now)) }
        ensures held { OnOk result (IsHeld (held_of self.new) (held_by (held_of self.old) (passed (held_of self.old)
            (written packet.now)))) }
        ensures memory { OnErr result (got_at (held_of self.old) (written packet.now) ≡ Got.Partial) }
        ensures at_start { OnErr result (begins_message (passed (held_of self.old) (written packet.now)) ≡ true) }
        ensures err { OnErr result (IsHeld (held_of self.new) (held_of self.old)) }
    {
        match refusal_at(self.own, packet) {
            None => self.receive_packet(packet),
            Some(reason) => Ok(Got::Dropped(reason)),
        }
    }

    /// Takes a packet that is addressed to the endpoint by another one.
    fn receive_packet(&mut self, packet: &PacketRef<'_>) -> Result<Got, Memory>
        ensures got { IfOk result (λ got. got ≡ got_of (arrived_by (held_of self.old) (where_expected
            (expects (held_of self.old)) (Ok packet.now)))) }
        ensures held { OnOk result (IsHeld (held_of self.new) (held_by (held_of self.old) (where_expected
            (expects (held_of self.old)) (Ok packet.now)))) }
        ensures memory { OnErr result (got_of (arrived_by (held_of self.old) (where_expected
            (expects (held_of self.old)) (Ok packet.now))) ≡ Got.Partial) }
        ensures at_start { OnErr result (begins_message (where_expected (expects (held_of self.old)) (Ok packet.now))
            ≡ true) }
        ensures err { OnErr result (IsHeld (held_of self.new) (held_of self.old)) }
    {
        let Some(number) = self.goes_to(packet) else {
            return Ok(Got::Dropped(Reason::BadTag));
        };
        let Some(message) = self.alone(packet) else {
            return self.receive_piece(number, packet);
        };
        self.assembler.forget(Key::of(packet));
        Ok(self.answer(number, message))
    }

    /// The message of a packet that is both a start and an end packet: its payload, whatever is open.
    fn alone<'a>(&self, packet: &PacketRef<'a>) -> Option<&'a [u8]>
        ensures whole { IfSome result (λ message. Whole (record { items = message.now })
            ≡ assembled (held_of self.now).open_messages packet.now) }
        ensures few { IfSome result (λ message. length message.now ≤ MAX_MESSAGE_BYTES) }
    {
        if packet.start() && packet.end() {
            Some(packet.payload())
        } else {
            None
        }
    }

    /// Takes a packet that comes to the request with this number, whatever its place in its message.
    // Not inlined: a message of one packet, the usual one, then needs none of its stack.
    #[inline(never)]
    fn receive_piece(&mut self, number: u64, packet: &PacketRef<'_>) -> Result<Got, Memory>
        requires { goes_to (held_of self.old) packet.now ≡ Some number }
        ensures got { IfOk result (λ got. got ≡ got_of (arrived_by (held_of self.old) (where_expected
            (expects (held_of self.old)) (Ok packet.now)))) }
        ensures held { OnOk result (IsHeld (held_of self.new) (held_by (held_of self.old) (where_expected
            (expects (held_of self.old)) (Ok packet.now)))) }
        ensures memory { OnErr result (got_of (arrived_by (held_of self.old) (where_expected
            (expects (held_of self.old)) (Ok packet.now))) ≡ Got.Partial) }
        ensures at_start { OnErr result (begins_message (where_expected (expects (held_of self.old)) (Ok packet.now))
            ≡ true) }
        ensures err { OnErr result (IsHeld (held_of self.new) (held_of self.old)) }
    {
        if !packet.end() {
            return Ok(match self.assembler.feed_part(packet)? {
                Assembled::Whole | Assembled::Partial => Got::Partial,
                Assembled::Dropped(reason) => Got::Dropped(reason),
            });
        }
        let mut message = Body::new();
        match self.assembler.feed_into(packet, &mut message)? {
            Assembled::Whole => Ok(self.answer(number, &message)),
            Assembled::Partial => Ok(Got::Partial),
            Assembled::Dropped(reason) => Ok(Got::Dropped(reason)),
        }
    }

    /// The request that a packet comes to: the latest on its tag, where that is open.
    fn goes_to(&self, packet: &PacketRef<'_>) -> Option<u64>
        ensures { result ≡ goes_to (held_of self.now) packet.now }
    {
        let route = packet.route();
        let tag = u64::from(route.tag.get());
        if route.owner || route.source != self.device || self.count <= tag {
            return None;
        }
        let last = self.count - 1;
        let number = last - (last - tag) % u64::from(TAGS);
        if self.is_open(number) {
            Some(number)
        } else {
            None
        }
    }

    /// Takes a whole message that came to an open request.
    fn answer(&mut self, number: u64, message: &[u8]) -> Got
        requires few { length message.now ≤ MAX_MESSAGE_BYTES }
        requires open { is_open_in (held_of self.old) number ≡ true }
        ensures got { result ≡ got_of (response_arrival (is_mine (held_of self.old)) number message.now
            (response_of message.now)) }
        ensures held { IsHeld (held_of self.new) (record (held_of self.old) {
          remembered = remembered_after
              (held_of self.old) (response_arrival (is_mine (held_of self.old)) number message.now
              (response_of message.now));
        }) }
    {
        let response = match read_response(message) {
            Ok(response) => response,
            Err(reason) => return Got::Dropped(reason),
        };
        if !self.is_mine(number, &response) {
            return Got::Dropped(Reason::NotMine);
        }
        if response.code() == ERROR_NOT_READY {
            return Got::Dropped(Reason::NotReady);
        }
        let place = (number % MAX_REMEMBERED as u64) as usize;
        let slot = &mut self.slots[place];
        slot.take(message);
        Got::Answered(number)
    }

    /// Whether a response has the instance ID, the PLDM type and the command of a request.
    fn is_mine(&self, number: u64, response: &ResponseRef<'_>) -> bool
        ensures { result ≡ is_mine (held_of self.now) number response.now }
    {
        match self.remembered(number) {
            Some(request) => is_answer(number, request.kind, response),
            None => false,
        }
    }
}

/// Why [`read_for`] refuses what is written of a packet at the endpoint `own`: it is not addressed to it, or not
/// by another one. The rest of a packet is always in its range.
fn refusal_at(own: Eid, packet: &PacketRef<'_>) -> Option<Reason>
    ensures { unless result packet.now ≡ reading (Some own) (written packet.now) }
{
    mctp_packet::laws::bytes_spell_one_packet();
    mctp_packet::laws::reading_is_spelling();
    let route = packet.route();
    if route.destination != own {
        return Some(Reason::UnknownDestination);
    }
    if route.source == own {
        return Some(Reason::BadSource);
    }
    // For the proof: what is written of a packet is read back, since each part of it is in its range.
    let _ranges = (own.get(), route.source.get(), route.tag.get());
    let _seq = packet.seq().get();
    let _size = packet.payload();
    None
}

/// Whether a response has the instance ID, the PLDM type and the command of a request.
fn is_answer(number: u64, kind: Kind, response: &ResponseRef<'_>) -> bool
    ensures { result ≡ is_response_to number kind response.now }
{
    let answered = response.kind();
    response.id() == id_of(number)
        && answered.pldm_type == kind.pldm_type
        && answered.command == kind.command
}

/// The first fault of these settings.
fn setting_fault(own: Eid, device: Eid, timing: &Timing, pace: &Pace) -> Option<SettingFault>
    ensures value { result ≡ setting_fault own device timing.now pace.now }
    ensures none { result ≡ None → IsInPace timing.now pace.now }
{
    if let Some(fault) = timing.fault(own, device) {
        return Some(SettingFault::Timing(fault));
    }
    if let Some(fault) = pace.fault(timing) {
        return Some(SettingFault::Pace(fault));
    }
    None
}

/// What a tick makes of the last requests, and which are due. No older one is open, so a tick leaves those.
fn tick_last(slots: &mut [Remembered], count: u64, timing: &Timing, now: Moment) -> Due
    requires slots { AreSlots count slots.old }
    requires shut { OlderAreShut count slots.old }
    ensures again { result.again.items ≡ filter
        (λ number. passes (is_sent_again timing.now now) (remembered_in count slots.old number))
        (recent_numbers count) }
    ensures given_up { result.given_up.items ≡ filter
        (λ number. passes (is_given_up timing.now now) (remembered_in count slots.old number))
        (recent_numbers count) }
    ensures slots { (number : ℕ) → remembered_in count slots.new number
        ≡ option_map (with_course (ticked timing.now now)) (remembered_in count slots.old number) }
{
    let mut due = Due {
        again: ArrayVec::new(),
        given_up: ArrayVec::new(),
    };
    for number in count.saturating_sub(MAX_OPEN as u64)..count {
        let slot = &mut slots[(number % MAX_REMEMBERED as u64) as usize];
        slot.tick(number, timing, now, &mut due);
    }
    due
}

/// How many of the last requests were opened at this moment or later, and answered. The one that has the next
/// instance ID is not among them.
fn answered_from(slots: &[Remembered], count: u64, start: u64) -> u64
    requires { AreSlots count slots.now }
    ensures { result ≡ length (filter (is_answered_from start)
        (newest (λ number. course_of (remembered_in count slots.now number)) count (INSTANCE_IDS - 1))) }
{
    let mut answered = 0;
    for number in count.saturating_sub(u64::from(INSTANCE_IDS) - 1)..count {
        if slots[(number % MAX_REMEMBERED as u64) as usize].is_answered_from(start) {
            answered += 1;
        }
    }
    answered
}

/// The moment from which on a tick has something to do for one of the last requests, if there is one.
fn earliest_due(slots: &[Remembered], count: u64, timing: &Timing) -> Option<u64>
    requires { AreSlots count slots.now }
    ensures { IsEarliest timing.now count slots.now count result }
{
    let mut earliest = None;
    for number in count.saturating_sub(MAX_OPEN as u64)..count {
        let slot = &slots[(number % MAX_REMEMBERED as u64) as usize];
        earliest = earlier(earliest, slot.due_from(timing));
    }
    earliest
}

/// The earlier of two moments, where there is one.
fn earlier(one: Option<u64>, other: Option<u64>) -> Option<u64>
    ensures { (moment : ℕ) → is_reached result moment ≡ (is_reached one moment || is_reached other moment) }
{
    match (one, other) {
        (Some(one), Some(other)) => Some(if one < other { one } else { other }),
        (Some(one), None) => Some(one),
        (None, other) => other,
    }
}

/// Whose messages the answers on a tag are.
fn answer_key(device: Eid, tag: Tag) -> Key
    ensures { result ≡ answer_key device tag }
{
    Key {
        source: device,
        tag,
        owner: false,
    }
}

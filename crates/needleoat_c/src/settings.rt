//! The structs of settings from which C makes an endpoint or a requester.

ghost use Rattle.std.specs.Prelude.{◌≡◌, ◌≤◌, ◌↔◌, IsSome, IfSome, is_some, true};
ghost use Rattle.pldm_requester.specs.Pacing.{setting_fault};
ghost use Rattle.pldm_wire.specs.Settings.{IsWindow};
ghost use Rattle.pldm_responder.specs.Ends.{eid_or_null};
ghost use Rattle.needleoat_c.specs.Termini.{IsPeer, peer_pace, timing_in};
ghost use Rattle.pldm_wire.specs.declared.assigned.TheConstants.{INSTANCE_IDS};
ghost use Rattle.needleoat_c.specs.Settings.{IsBusyKind, IsKeeping, IsOwnEid, IsSetup, busy_in, control_in, first_eid, handed_in, keeping_in, pace_in, pace_of, static_eid, window_in};

use crate::kinds::{BUSY_ALL, BUSY_SETS};
use mctp_control::{ControlResponder, KeptAssignments, UUID_BYTES, VERSION_BYTES};
use mctp_packet::{Eid, Keep, NULL_EID};
use pldm_requester::{MAX_TRIES, Pace, Timing};
use pldm_responder::ResponderSettings;
use pldm_wire::{INSTANCE_IDS, PassThrough, RestartPolicy, Window};

/// The settings of a new endpoint.
#[repr(C)]
#[derive(Drop)]
pub struct EndpointSettings {
    /// Its endpoint ID, 8 to 254. Where `assigned`, the static one that Reset goes back to, or 0: there is none.
    pub own: u8,
    /// Whether it never ran before.
    pub first_start: bool,
    /// How long an answer is kept for copies, in milliseconds, 1 to 60,000.
    pub keep_ms: u32,
    /// For how many other endpoints answers are kept at most.
    pub sources: u32,
    /// How many messages of several packets have begun and not ended at most.
    pub open_messages: u32,
    /// How many commands are pending at most.
    pub pending_commands: u32,
    /// For how many instance IDs of a source answers are kept, 1 to 32; 0 stands for all 32.
    pub window: u32,
    /// Which requests are refused in the busy time, as `BUSY_ALL` or `BUSY_SETS`.
    pub busy: u32,
    /// Whether requests of PLDM types 0 and 2 are handed on as bytes where this profile does not read their command.
    pub unknown_commands: bool,
    /// The PLDM types of which each request is handed on as bytes: bit t stands for type t. Bits 0 and 2 mean nothing.
    pub pldm_types: u64,
    /// Whether it answers control messages (DSP0236, "MCTP control protocol"), as the fields after this one say; else
    /// they are dropped, and none of these has a meaning.
    pub answers_control: bool,
    /// Whether a bus owner assigns its endpoint ID: it has none at first.
    pub assigned: bool,
    /// Its UUID, in the order of RFC 4122.
    pub uuid: [u8; UUID_BYTES],
    /// The version of the base specification that it keeps to, as on the wire (DSP0236, "Version field encoding").
    pub base_version: [u8; VERSION_BYTES],
    /// The version of the control protocol that it keeps to.
    pub control_version: [u8; VERSION_BYTES],
    /// The version of PLDM over MCTP (DSP0241) that it keeps to.
    pub pldm_version: [u8; VERSION_BYTES],
}

// As in `include/needleoat.h`.
const _: () = prove!(size_of::<EndpointSettings>() == 72);

/// The endpoint IDs with which an endpoint is made.
#[derive(Clone, Copy)]
pub(crate) struct Eids {
    /// The one that it has at first, if it has one.
    pub(crate) first: Option<Eid>,
    /// The static one, if there is one.
    pub(crate) fixed: Option<Eid>,
}

impl EndpointSettings {
    /// How it keeps answers, and what it refuses in the busy time, where these settings are in range.
    pub(crate) fn keeping(&self) -> Option<ResponderSettings>
        ensures some { IsSome result ↔ IsKeeping self.now }
        ensures value { IfSome result (λ keeping. keeping ≡ keeping_in self.now) }
    {
        let keep = Keep::new(self.keep_ms)?;
        let window = window_of(self.window)?;
        let busy = busy_of(self.busy)?;
        Some(ResponderSettings { keep, window, busy })
    }

    /// Its endpoint IDs, where these settings are in range.
    pub(crate) fn eids(&self) -> Option<Eids>
        ensures some { IsSome result ↔ IsOwnEid self.now }
        ensures first { IfSome result (λ eids. eids.first ≡ first_eid self.now) }
        ensures fixed { IfSome result (λ eids. eids.fixed ≡ static_eid self.now) }
    {
        if self.assigned {
            return self.assigned_eids();
        }
        let own = Some(Eid::new(self.own)?);
        Some(Eids {
            first: own,
            fixed: own,
        })
    }

    /// The same, where a bus owner assigns the endpoint ID: by control messages.
    fn assigned_eids(&self) -> Option<Eids>
        requires { self.now.assigned ≡ true }
        ensures some { IsSome result ↔ IsOwnEid self.now }
        ensures first { IfSome result (λ eids. eids.first ≡ first_eid self.now) }
        ensures fixed { IfSome result (λ eids. eids.fixed ≡ static_eid self.now) }
    {
        if !self.answers_control {
            return None;
        }
        if self.own == NULL_EID {
            return Some(Eids {
                first: None,
                fixed: None,
            });
        }
        let fixed = Some(Eid::new(self.own)?);
        Some(Eids { first: None, fixed })
    }

    /// What answers its control messages, where they are answered. A later copy of an assignment is known for the
    /// keeping time.
    pub(crate) fn control(&self) -> Option<ControlResponder>
        requires { IsSetup self.now }
        ensures { result ≡ control_in self.now }
    {
        if !self.answers_control {
            return None;
        }
        let (Some(eids), Some(keep)) = (self.eids(), Keep::new(self.keep_ms)) else {
            unreachable!(); // they are in range
        };
        Some(ControlResponder {
            eid: eids.first,
            static_eid: eids.fixed,
            takes_eid: self.assigned,
            keep,
            uuid: self.uuid,
            base_version: self.base_version,
            control_version: self.control_version,
            pldm_version: self.pldm_version,
            kept: KeptAssignments::new(),
        })
    }

    /// Which requests are handed on as bytes.
    pub(crate) fn handed_on(&self) -> PassThrough
        ensures { result ≡ handed_in self.now }
    {
        PassThrough {
            pldm_types: self.pldm_types,
            unknown_commands: self.unknown_commands,
        }
    }
}

/// The window that this number says.
fn window_of(number: u32) -> Option<Window>
    ensures some { IsSome result ↔ (number ≤ INSTANCE_IDS) }
    ensures value { IfSome result (λ window. window ≡ window_in number) }
{
    if number > u32::from(INSTANCE_IDS) {
        return None;
    }
    if number == 0 {
        return Some(Window::ALL);
    }
    Window::new(number as u8)
}

/// The kind of busy time that this number says.
fn busy_of(number: u32) -> Option<RestartPolicy>
    ensures some { IsSome result ↔ IsBusyKind number }
    ensures value { IfSome result (λ busy. busy ≡ busy_in number) }
{
    match number {
        BUSY_ALL => Some(RestartPolicy::All),
        BUSY_SETS => Some(RestartPolicy::Sets(PassThrough::NONE)),
        _ => None,
    }
}

/// The settings of a new requester.
#[repr(C)]
#[derive(Drop)]
pub struct RequesterSettings {
    /// Its endpoint ID, 8 to 254.
    pub own: u8,
    /// The endpoint ID of the device that it asks, 8 to 254.
    pub device: u8,
    /// How often a request is sent at most, 1 to 8.
    pub tries: u8,
    /// Whether it keeps the packets and the answer of a request only while that is among the last 8, and not the last 32.
    pub brief: bool,
    /// How long the device keeps an answer for copies, in milliseconds, 1 to 60,000.
    pub keep_ms: u32,
    /// How long after it was sent a request is sent again, in milliseconds.
    pub timeout_ms: u32,
    /// The line's lifetime: how long after its opening a packet of a request may still arrive, in milliseconds, 1 to
    /// `keep_ms`; 0 stands for `keep_ms`.
    pub lifetime_ms: u32,
    /// For how many instance IDs of this requester the device keeps answers, 1 to 32; 0 stands for all 32.
    pub window: u32,
}

// As in `include/needleoat.h`.
const _: () = prove!(size_of::<RequesterSettings>() == 20);

impl RequesterSettings {
    /// Its pace, where its window is in range.
    pub(crate) fn pace(&self) -> Option<Pace>
        ensures some { IsSome result ↔ (self.now.window ≤ INSTANCE_IDS) }
        ensures value { IfSome result (λ pace. pace ≡ pace_in self.now) }
    {
        pace_of(self.lifetime_ms, self.keep_ms, self.window, self.brief)
    }
}

/// The pace of these settings, where the window is in range: requests are not spread.
fn pace_of(lifetime_ms: u32, keep_ms: u32, window: u32, brief: bool) -> Option<Pace>
    ensures some { IsSome result ↔ (window ≤ INSTANCE_IDS) }
    ensures value { IfSome result (λ pace. pace ≡ pace_of lifetime_ms keep_ms window brief) }
    ensures range { IfSome result (λ pace. IsWindow pace.window) }
{
    let window = window_of(window)?;
    let lifetime = if lifetime_ms == 0 {
        keep_ms
    } else {
        lifetime_ms
    };
    Some(Pace {
        lifetime: u64::from(lifetime),
        window: window.get(),
        spread: false,
        brief,
    })
}

/// How an end that answers asks its peer too.
#[repr(C)]
#[derive(Drop)]
pub struct PeerSettings {
    /// The endpoint ID of the peer, 8 to 254.
    pub device: u8,
    /// How often a request is sent at most, 1 to 8.
    pub tries: u8,
    /// As of [`RequesterSettings`].
    pub brief: bool,
    /// How long the peer keeps an answer for copies, in milliseconds, 1 to 60,000.
    pub keep_ms: u32,
    /// How long after it was sent a request is sent again, in milliseconds.
    pub timeout_ms: u32,
    /// The line's lifetime, as of [`RequesterSettings`].
    pub lifetime_ms: u32,
    /// For how many instance IDs of this end the peer keeps answers, as of [`RequesterSettings`].
    pub window: u32,
}

// As in `include/needleoat.h`.
const _: () = prove!(size_of::<PeerSettings>() == 20);

/// A peer, and how it is asked.
#[derive(Clone, Copy)]
pub(crate) struct Peer {
    /// Its endpoint ID.
    pub(crate) device: Eid,
    /// When a request is sent again, and when it is given up.
    pub(crate) timing: Timing,
    /// How soon an instance ID is used again.
    pub(crate) pace: Pace,
}

impl PeerSettings {
    /// The peer, where these settings are in range at this endpoint ID, or at none.
    pub(crate) fn peer(&self, own: Option<Eid>) -> Option<Peer>
        ensures some { IsSome result ↔ IsPeer (eid_or_null own) self.now }
        ensures device { IfSome result (λ peer. peer.device ≡ self.now.device) }
        ensures timing { IfSome result (λ peer. peer.timing ≡ timing_in self.now) }
        ensures pace { IfSome result (λ peer. peer.pace ≡ peer_pace self.now) }
    {
        let own = match own {
            Some(own) => own.get(),
            None => NULL_EID,
        };
        let device = Eid::new(self.device)?;
        let keep = Keep::new(self.keep_ms)?;
        let pace = pace_of(self.lifetime_ms, self.keep_ms, self.window, self.brief)?;
        if self.has_fault(own, &pace) {
            return None;
        }
        let timing = Timing {
            keep,
            timeout: self.timeout_ms,
            tries: self.tries,
        };
        Some(Peer {
            device,
            timing,
            pace,
        })
    }

    /// Whether no requester at this endpoint ID can ask so, at a pace of a window that there is.
    fn has_fault(&self, own: u8, pace: &Pace) -> bool
        requires { IsWindow pace.now.window }
        ensures { result ≡ is_some (setting_fault own self.now.device (timing_in self.now) pace.now) }
    {
        if self.timeout_ms == 0 || self.tries < 1 || self.tries > MAX_TRIES {
            return true;
        }
        let (life, keep) = (
            u64::from(self.tries) * u64::from(self.timeout_ms),
            u64::from(self.keep_ms),
        );
        if life > keep || own == self.device {
            return true;
        }
        pace.lifetime == 0 || pace.lifetime > keep || life > pace.lifetime
    }
}

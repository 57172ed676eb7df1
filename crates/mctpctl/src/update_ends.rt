//! The endpoints of a firmware update: of the agent and of a served device.

use crate::control_responder::{control_responder, eid_at_first};
use crate::settings::Settings;
use bus_endpoint::BusEndpoint;
use mctp_control::ControlResponder;
use mctp_packet::{Eid, Keep, MAX_MOMENT, Memory, Moment};
use mctpctl_update::FirmwareFile;
use pldm_device::{ControlTable, Description, SimDevice};
use pldm_endpoint::Endpoint;
use pldm_requester::{MAX_TRIES, Pace, Timing};
use pldm_responder::{Bounds, ResponderSettings};
use pldm_terminus::Terminus;
use pldm_update::{Component, DeviceIdentifiers, FIRMWARE_UPDATE, VersionString};
use pldm_wire::{PassThrough, RestartPolicy, Window};
use std::alloc::Global;
use update_line::{FirmwareEnd, FirmwareSettings};

/// For how many milliseconds the agent keeps its answers to the device's requests, which these have for a keeping time.
pub const PIECE_KEEP_MS: u32 = 1_000;

/// For how many instance IDs it keeps them.
const PIECE_WINDOW: u8 = 8;

/// How long one try of such a request waits at least, in milliseconds.
const PIECE_TIMEOUT_MS: u64 = 80;

/// The component of a served device: a firmware (DSP0267, "Component classification").
const COMPONENT: Component = Component {
    classification: 10,
    identifier: 1,
    index: 0,
};

/// The most bytes of its image.
const ROOM: u32 = 67_108_864;

/// The type of a descriptor that is a UUID (DSP0267, "Descriptor identifier table").
const UUID_DESCRIPTOR: u16 = 2;

/// Requests of firmware update are handed on.
const HANDED_ON: PassThrough = PassThrough {
    pldm_types: 1 << FIRMWARE_UPDATE,
    unknown_commands: false,
};

/// An endpoint that answers so, with this control responder or with none; `None` where the two have different endpoint
/// IDs.
fn answering(
    alloc: Global,
    own: Option<Eid>,
    settings: ResponderSettings,
    control: Option<ControlResponder>,
) -> Result<Option<BusEndpoint>, Memory> {
    let endpoint = Endpoint::new(alloc, own, settings, HANDED_ON, Bounds::UNREACHED, 1);
    BusEndpoint::new(alloc, endpoint, control)
}

/// The end of the update agent that asks as these settings say, nothing before the moment `rest`. `None` where the times
/// do not fit one another, or there is no memory.
pub fn agent_terminus(alloc: Global, settings: &Settings, rest: u64) -> Option<Terminus> {
    let keeping = ResponderSettings {
        keep: Keep::new(PIECE_KEEP_MS)?,
        window: Window::new(PIECE_WINDOW)?,
        busy: RestartPolicy::All,
    };
    let answering = answering(alloc, Some(settings.own), keeping, None).ok()??;
    let rest = Moment::new(rest.min(MAX_MOMENT))?;
    let Settings {
        device,
        timing,
        pace,
        ..
    } = *settings;
    let end = Terminus::with_pace(alloc, answering, device, timing, pace, rest);
    end.asking().is_some().then_some(end)
}

/// The times of a device's requests where a packet of one may come so late.
fn piece_timing(lifetime: u64) -> Option<(Timing, Pace)> {
    let keep = Keep::new(PIECE_KEEP_MS)?;
    let tries = (lifetime / PIECE_TIMEOUT_MS).clamp(1, u64::from(MAX_TRIES));
    let timing = Timing {
        keep,
        timeout: u32::try_from(lifetime / tries).ok()?,
        tries: u8::try_from(tries).ok()?,
    };
    let pace = Pace {
        lifetime,
        window: PIECE_WINDOW,
        spread: true,
        brief: true,
    };
    Some((timing, pace))
}

/// What answers at a device and asks this agent, no packet of a request being later than that. `None` where the lifetime
/// is not 1 to [`PIECE_KEEP_MS`], or the agent has the endpoint ID of a device that has one.
fn device_terminus(
    alloc: Global,
    answering: BusEndpoint,
    has_eid: bool,
    agent: Eid,
    lifetime: u64,
) -> Option<Terminus> {
    let (timing, pace) = piece_timing(lifetime)?;
    let rest = Moment::new(2 * u64::from(PIECE_KEEP_MS))?;
    let end = Terminus::with_pace(alloc, answering, agent, timing, pace, rest);
    (!has_eid || end.asking().is_some()).then_some(end)
}

/// The device at an end, which takes updates of this agent into a file.
fn device_at<'r>(
    alloc: Global,
    end: Terminus,
    device: SimDevice,
    file: FirmwareFile<'r>,
    agent: Eid,
    uuid: &[u8],
) -> Option<FirmwareEnd<SimDevice, FirmwareFile<'r>>> {
    let settings = FirmwareSettings {
        agent,
        component: COMPONENT,
        room: ROOM,
    };
    let identifiers = DeviceIdentifiers::new(UUID_DESCRIPTOR, uuid)?;
    let version = VersionString::new(1, b"unknown")?;
    Some(FirmwareEnd::new(alloc, end, device, file, settings, identifiers, version))
}

/// The end of a described device that takes updates of this agent into a file. `None` where the lifetime is not 1 to
/// [`PIECE_KEEP_MS`], or the agent has the device's endpoint ID.
///
/// # Errors
///
/// Where there is no memory.
pub fn firmware_end<'r>(
    alloc: Global,
    description: Description,
    table: &ControlTable,
    file: FirmwareFile<'r>,
    agent: Eid,
    lifetime: u64,
) -> Result<Option<FirmwareEnd<SimDevice, FirmwareFile<'r>>>, Memory> {
    let Description {
        eid,
        keep,
        window,
        busy,
        device,
    } = description;
    let keeping = ResponderSettings { keep, window, busy };
    let control = control_responder(eid, keep, table);
    let uuid = control.uuid;
    let own = eid_at_first(eid, table);
    let has_eid = own.is_some();
    let Some(answering) = answering(alloc, own, keeping, Some(control))? else {
        return Ok(None);
    };
    let Some(end) = device_terminus(alloc, answering, has_eid, agent, lifetime) else {
        return Ok(None);
    };
    Ok(device_at(alloc, end, device, file, agent, &uuid))
}

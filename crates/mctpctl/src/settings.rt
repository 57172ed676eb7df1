//! The numbers of `ask`: endpoint IDs, times and the pace.

ghost use Rattle.std.specs.Prelude.{◌≡◌, ◌≤◌, IfErr, IfOk, IfSome, Some, option_map};
ghost use Rattle.mctpctl_command_line.specs.Choice.{watch_options, linked};
ghost use Rattle.mctpctl.specs.Settings.{eid_in, given_in, keep_in, number_in, option_of_pace, pace_of, periods_in, refused_option, refused_period, refused_time, settings_in, times_in, usual_timeout};

use line_words::read_number;
use mctp_packet::{Eid, Keep, MAX_KEEP};
use mctpctl_command_line::{LineOptions, WatchOptions};
use pldm_requester::{MAX_TRIES, Pace, PaceFault, Timing};
use pldm_update::Component;
use pldm_wire::INSTANCE_IDS;

/// The keeping time where none is given: that of a link to the requester of a usual bus owner.
pub const KEEP_MS: u64 = 6_000;

/// For how many milliseconds a try waits at most where nothing is said.
pub const TIMEOUT_MS: u64 = 2_000;

/// How many tries there are where nothing is said.
pub const TRIES: u64 = 3;

/// The lifetime where only the window is given: more than a serial line takes to deliver a packet.
pub const LIFETIME_MS: u64 = 250;

/// The endpoint ID of the update agent where none is given.
const AGENT_EID: u8 = 8;

/// The greatest number of an endpoint ID.
const MAX_EID: u64 = mctp_packet::MAX_EID as u64;

/// Who asks whom, and when again.
#[derive(Clone, Copy, Debug)]
pub struct Settings {
    /// The endpoint ID of the requester.
    pub own: Eid,
    /// That of the device.
    pub device: Eid,
    /// When a request is sent again, and when it is given up.
    pub timing: Timing,
    /// How soon an instance ID is used again.
    pub pace: Pace,
}

/// How long a period is where nothing is said, in milliseconds.
pub const EVERY_MS: u64 = 1_000;

/// The longest period, in milliseconds: a day.
pub const MAX_EVERY: u64 = 86_400_000;

/// How many periods there are where nothing is said, and at most.
pub const MAX_COUNT: u64 = 1_000_000_000_000;

/// How long a period is, and how many there are.
#[derive(Clone, Copy, Debug)]
pub struct Periods {
    /// In milliseconds.
    pub every: u64,
    /// How many.
    pub count: u64,
}

/// The settings that the words spell; else the name of the first option whose value is not valid.
pub fn settings_of(link: &LineOptions<'_>) -> Result<Settings, &'static str>
    ensures ok { IfOk result (λ settings. settings_in (linked link.now) ≡ Some settings) }
    ensures err { IfErr result (λ option. refused_option (linked link.now) ≡ Some option.now) }
{
    let Some(own) = eid(link.own) else {
        return Err("--own <EID>");
    };
    let Some(device) = eid(link.device) else {
        return Err("--device <EID>");
    };
    match times_of(link) {
        Ok((timing, pace)) => Ok(Settings {
            own,
            device,
            timing,
            pace,
        }),
        Err(option) => Err(option),
    }
}

/// The times and the pace that the words spell; else the name of the first option of these whose value is not valid.
fn times_of(link: &LineOptions<'_>) -> Result<(Timing, Pace), &'static str>
    ensures ok { IfOk result (λ times. times_in (linked link.now) ≡ Some times) }
    ensures err { IfErr result (λ option. refused_time (linked link.now) ≡ Some option.now) }
{
    let Some(keep) = keep(link.keep) else {
        return Err("--keep <MS>");
    };
    let Some(timeout) = given(link.timeout, u64::from(MAX_KEEP)) else {
        return Err("--timeout <MS>");
    };
    let Some(tries) = number(link.tries, u64::from(MAX_TRIES), TRIES) else {
        return Err("--tries <N>");
    };
    let Some(lifetime) = given(link.lifetime, u64::from(MAX_KEEP)) else {
        return Err("--lifetime <MS>");
    };
    let all = u64::from(INSTANCE_IDS);
    let Some(window) = number(link.window, all, all) else {
        return Err("--window <N>");
    };
    let pace = pace_of(keep, lifetime, window as u8);
    let timeout = timeout.unwrap_or(usual_timeout(keep, &pace, tries));
    let timing = Timing {
        keep,
        timeout: timeout as u32,
        tries: tries as u8,
    };
    Ok((timing, pace))
}

/// The pace of a line, with the usual lifetime where none is given. Requests are spread, but for the default pace.
fn pace_of(keep: Keep, lifetime: Option<u64>, window: u8) -> Pace
    ensures { result ≡ pace_of keep lifetime window }
{
    let whole = u64::from(keep.get());
    let usual = if window < INSTANCE_IDS {
        LIFETIME_MS
    } else {
        whole
    };
    let lifetime = lifetime.unwrap_or(usual);
    Pace {
        lifetime,
        window,
        spread: lifetime != whole || window != INSTANCE_IDS,
        brief: false,
    }
}

/// For how many milliseconds a try waits where nothing is said: the tries share a lifetime that is shorter than the
/// keeping time.
fn usual_timeout(keep: Keep, pace: &Pace, tries: u64) -> u64
    ensures value { result ≡ usual_timeout keep pace.now tries }
    ensures range { result ≤ TIMEOUT_MS }
{
    if pace.lifetime >= u64::from(keep.get()) {
        return TIMEOUT_MS;
    }
    let share = pace.lifetime / tries.max(1);
    share.max(1).min(TIMEOUT_MS)
}

/// The option for which the pace of these settings is refused. Where not even tries of a millisecond fit into the
/// lifetime, that is too short.
pub fn pace_option(settings: &Settings, fault: PaceFault) -> &'static str
    ensures { result.now ≡ option_of_pace settings.now fault }
{
    match fault {
        PaceFault::NoLifetime => "--lifetime <MS>",
        PaceFault::LongLifetime => "--lifetime <MS>",
        PaceFault::TooLate => {
            if settings.pace.lifetime < u64::from(settings.timing.tries) {
                "--lifetime <MS>"
            } else {
                "--timeout <MS>"
            }
        }
        PaceFault::Window => "--window <N>",
    }
}

/// The periods that the words spell; else the name of the first option whose value is not valid.
pub fn periods_of(options: &WatchOptions<'_>) -> Result<Periods, &'static str>
    ensures ok { IfOk result (λ periods. periods_in (watch_options options.now) ≡ Some periods) }
    ensures err { IfErr result (λ option. refused_period (watch_options options.now) ≡ Some option.now) }
    ensures range { IfOk result (λ periods. periods.every ≤ MAX_EVERY) }
{
    let Some(every) = number(options.every, MAX_EVERY, EVERY_MS) else {
        return Err("--every <MS>");
    };
    let Some(count) = number(options.count, MAX_COUNT, MAX_COUNT) else {
        return Err("--count <N>");
    };
    Ok(Periods { every, count })
}

/// The component that a word spells as `CLASSIFICATION:IDENTIFIER:INDEX`, where there is a word.
pub fn component_of(word: Option<&str>) -> Result<Option<Component>, &'static str> {
    let Some(word) = word else {
        return Ok(None);
    };
    match component_in(word) {
        Some(component) => Ok(Some(component)),
        None => Err("--component <COMPONENT>"),
    }
}

/// The component that a word spells.
fn component_in(word: &str) -> Option<Component> {
    let (classification, rest) = word.split_once(':')?;
    let (identifier, index) = rest.split_once(':')?;
    Some(Component {
        classification: read_number(classification.as_bytes(), u64::from(u16::MAX))? as u16,
        identifier: read_number(identifier.as_bytes(), u64::from(u16::MAX))? as u16,
        index: read_number(index.as_bytes(), u64::from(u8::MAX))? as u8,
    })
}

/// The endpoint ID of the update agent that a word spells; the usual one where there is no word.
pub fn agent_of(word: Option<&str>) -> Option<Eid> {
    match word {
        Some(word) => eid(word),
        None => Eid::new(AGENT_EID),
    }
}

/// The lifetime of a request for a piece of the firmware that a word spells; the usual one where there is no word.
pub fn piece_lifetime_of(word: Option<&str>) -> Option<u64> {
    number(word, u64::from(MAX_KEEP), LIFETIME_MS)
}

/// The endpoint ID that a word spells.
fn eid(word: &str) -> Option<Eid>
    ensures { result ≡ eid_in word.now }
{
    Eid::new(read_number(word.as_bytes(), MAX_EID)? as u8)
}

/// The keeping time that a word spells, if one is given.
fn keep(word: Option<&str>) -> Option<Keep>
    ensures { result ≡ keep_in (option_map (λ text. text.now) word.entry) }
{
    Keep::new(number(word, u64::from(MAX_KEEP), KEEP_MS)? as u32)
}

/// The number that a word spells, where it is no more than `most`, and where there is a word.
fn given(word: Option<&str>, most: u64) -> Option<Option<u64>>
    ensures value { result ≡ given_in most (option_map (λ text. text.now) word.entry) }
    ensures range { IfSome result (λ given. IfSome given (λ number. number ≤ most)) }
{
    match word {
        Some(word) => match read_number(word.as_bytes(), most) {
            Some(number) => Some(Some(number)),
            None => None,
        },
        None => Some(None),
    }
}

/// The number that a word spells, where it is no more than `most`; the usual one where there is no word.
fn number(word: Option<&str>, most: u64, usual: u64) -> Option<u64>
    requires { usual ≤ most }
    ensures value { result ≡ number_in most usual (option_map (λ text. text.now) word.entry) }
    ensures range { IfSome result (λ number. number ≤ most) }
{
    match word {
        Some(word) => read_number(word.as_bytes(), most),
        None => Some(usual),
    }
}

//! What a device description states.

ghost use Rattle.std.specs.Prelude.{IfOk, IsSome, codes};
ghost use Rattle.pldm_device.specs.Descriptions.{IsInRange, description_of, device_of, stated};
ghost use Rattle.pldm_device.specs.FileFaults.{IsOrMemory, IsOrMemoryWhere};
ghost use Rattle.toml.specs.Errors.{IsBlank};
ghost use Rattle.toml.specs.Data.{get_member};
ghost use Rattle.toml.specs.View.{table_view};

use crate::SimDevice;
use crate::description_fault::FileFault;
use crate::document::read_document;
use crate::effecter_entries::{numeric_effecters_in, state_effecters_in};
use crate::endpoint_settings::{busy_in, window_in};
use crate::hex_values::time_at;
use crate::keys::number_at;
use crate::limits::MAX_TID;
use crate::path::Path;
use crate::record_entries::records_in;
use crate::record_table::with_records;
use crate::refusal::Refusal;
use crate::sensor_entries::{numeric_sensors_in, state_sensors_in};
use crate::version_checksum::both_versions_in;
use mctp_packet::{Eid, Keep, MAX_EID, MAX_KEEP, MIN_EID};
use pldm_wire::{RestartPolicy, Window};
use std::alloc::Global;
use toml::Table;

/// A device, as its description states it.
#[derive(Debug, Drop)]
pub struct Description {
    /// The endpoint's own ID, from the key `eid`.
    pub eid: Eid,
    /// For how long the endpoint keeps an answer, from the key `keep_ms`.
    pub keep: Keep,
    /// For how many instance IDs of a source the endpoint keeps answers, from the key `window`.
    pub window: Window,
    /// Which requests the endpoint refuses in the busy time after a restart, from the key `busy`.
    pub busy: RestartPolicy,
    /// The device behind the endpoint, from the other keys.
    pub device: SimDevice,
}

impl Description {
    /// Reads a description: TOML text in UTF-8, with the keys
    ///
    /// - `eid` (8 to 254) and `keep_ms` (1 to 60,000);
    /// - `window` (1 to 32) and `busy` (the text "all" or "sets"; another text is `OutOfRange`), which may
    ///   be missing, and are 32 and "all" then;
    /// - `tid` (0 to 254; 0 is that of a device that was given none, DSP0240, "GetTID");
    /// - `version0` and `version2`: the versions of PLDM types 0 and 2 as hex text, 4 to 32 bytes, a
    ///   multiple of 4;
    /// - `version_checksum`, which may be missing and is false then: whether the CRC-32 of each of these lists is
    ///   appended to it (DSP0240, "GetPLDMVersion command"), which makes `OutOfRange` of 32 bytes;
    /// - `update_time` and `oem_update_time`: the repository's times as hex text, 13 bytes;
    /// - the lists `numeric_sensor`, `state_sensor`, `numeric_effecter`, `state_effecter` and `pdr`
    ///   (the records, each with the key `hex`), of at most 1,000 entries each; a list that is
    ///   missing has none;
    /// - the table `records`, which may be missing. Where it is, records are made after those of `pdr`, each with the
    ///   handle after the largest one: a terminus locator; a name of the table's entity, from its key `name`; and then,
    ///   for each sensor and each effecter in the order of the lists, its record and, where it has one, its name. The
    ///   keys of the table are `name` (1 to 127 printed characters of ASCII) and `entity` (three numbers 0 to 65,535:
    ///   type, instance and container), which an entry without one has too. Those of an entry are `name` and `entity`;
    ///   of a numeric one `unit` (0 to 255, or one of "none", "degrees_c", "volts", "amps", "watts", "joules", "cfm",
    ///   "rpm", "hertz", "seconds", "bits", "bytes", "percent", "pascals" and "counts"), `modifier` (-128 to 127) and,
    ///   in its size, of a sensor alone `warning_high`, `critical_high`, `fatal_high`, `warning_low`, `critical_low`
    ///   and `fatal_low`, and of both `normal_max`, `normal_min` and `nominal`; of one of states `state_set` (0 to
    ///   65,535). Each of them may be missing, and without the table they are not looked at.
    ///
    /// Other keys are ignored. Bytes that are no such text are `Toml`. The keys are looked at in the
    /// order above, the entries of a list in turn, and at each key `MissingKey` comes before
    /// `WrongKind`, that before `BadHex`, and that before `OutOfRange` and `BadRecord`. `BadRecord`
    /// is for bytes that are no record with a handle other than 0, header version 1 and as many
    /// bytes after the header as it counts (DSP0248, "Common PDR format"). `Duplicate` is for a
    /// sensor ID of an earlier sensor, of either kind, for an effecter ID of an earlier effecter and
    /// for a record handle of an earlier record; it comes after an entry's keys. `Memory` is for a
    /// growth that was refused, which no text without content needs.
    pub fn read(alloc: Global, bytes: &[u8]) -> Result<Description, FileFault>
        ensures stated { IsOrMemoryWhere (¬ IsBlank bytes.now) result (stated bytes.now) }
        ensures range { IfOk result IsInRange }
    {
        match Description::read_or_refusal(alloc, bytes) {
            Ok(description) => Ok(description),
            Err(refusal) => Err(refusal.fault()),
        }
    }

    /// Reads a description as [`Description::read`] does, and where it is refused, says where its first fault is and
    /// what is allowed there.
    #[tactic(auto, unfolding(crate::specs::Descriptions::stated))]
    pub fn read_or_refusal(alloc: Global, bytes: &[u8]) -> Result<Description, Refusal>
        ensures stated { IsOrMemoryWhere (¬ IsBlank bytes.now) result (stated bytes.now) }
        ensures range { IfOk result IsInRange }
    {
        in_document(alloc, &read_document(alloc, bytes)?)
    }
}

// The description that the table of a whole document states.
#[tactic(auto, using(crate::proofs::Blank::number_is_there), unfolding(crate::specs::Descriptions::description_of))]
fn in_document(alloc: Global, table: &Table) -> Result<Description, Refusal>
    ensures stated { IsOrMemoryWhere (IsSome (get_member (codes "eid") (table_view table.now))) result (description_of
        (table_view table.now)) }
    ensures range { IfOk result IsInRange }
{
    let whole = Path::whole();
    let eid = number_at(table, "eid", MIN_EID.into(), MAX_EID.into(), whole)?;
    let keep = number_at(table, "keep_ms", 1, MAX_KEEP, whole)?;
    let window = window_in(table)?;
    let busy = busy_in(table)?;
    let tid = number_at(table, "tid", 0, MAX_TID, whole)?;
    let plain = device_in(alloc, table, tid as u8)?;
    let device = with_records(alloc, table, eid as u8, plain)?;
    Ok(Description {
        eid: Eid::new(eid as u8).unwrap(),
        keep: Keep::new(keep).unwrap(),
        window,
        busy,
        device,
    })
}

// The device with this terminus ID that the table of a whole document states.
#[tactic(auto, unfolding(crate::specs::Descriptions::device_of))]
fn device_in(alloc: Global, table: &Table, tid: u8) -> Result<SimDevice, Refusal>
    ensures { IsOrMemory result (device_of tid (table_view table.now)) }
{
    let (base_versions, platform_versions) = both_versions_in(alloc, table)?;
    let update_time = time_at(alloc, table, "update_time")?;
    let oem_update_time = time_at(alloc, table, "oem_update_time")?;
    let numeric_sensors = numeric_sensors_in(alloc, table)?;
    let state_sensors = state_sensors_in(alloc, table, &numeric_sensors)?;
    let numeric_effecters = numeric_effecters_in(alloc, table)?;
    let state_effecters = state_effecters_in(alloc, table, &numeric_effecters)?;
    let records = records_in(alloc, table)?;
    Ok(SimDevice {
        tid,
        base_versions,
        platform_versions,
        update_time,
        oem_update_time,
        numeric_sensors,
        state_sensors,
        numeric_effecters,
        state_effecters,
        records,
    })
}

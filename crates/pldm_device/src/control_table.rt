//! What a device description says of the endpoint's control messages.

ghost use Rattle.std.specs.Prelude.{IsSome, codes};
ghost use Rattle.pldm_device.specs.ControlTables.{bytes_at, control_in, control_of, control_table_of};
ghost use Rattle.pldm_device.specs.FileFaults.{IsOrMemory, IsOrMemoryWhere};
ghost use Rattle.toml.specs.Data.{get_member};
ghost use Rattle.toml.specs.Errors.{IsBlank};
ghost use Rattle.toml.specs.View.{table_view};

use crate::description_fault::FileFault;
use crate::document::read_document;
use crate::hex_values::exactly_in;
use crate::keys::{flag_at, table_in, value_if_any};
use crate::limits::{UUID_BYTES, VERSION_BYTES};
use crate::path::Path;
use crate::refusal::Refusal;
use std::alloc::Global;
use toml::Table;

/// What the table `control` of a description says of the endpoint, as a bus owner finds it by control messages
/// (DSP0236, "MCTP control protocol"); `None` where the description says nothing.
#[derive(Clone, Copy, Debug, PartialEq, Eq)]
pub struct ControlTable {
    /// Its UUID, in the order of RFC 4122.
    pub uuid: Option<[u8; UUID_BYTES]>,
    /// The version of the base specification, as on the wire (DSP0236, "Version field encoding").
    pub base_version: Option<[u8; VERSION_BYTES]>,
    /// The version of the control protocol.
    pub control_version: Option<[u8; VERSION_BYTES]>,
    /// The version of PLDM over MCTP (DSP0241).
    pub pldm_version: Option<[u8; VERSION_BYTES]>,
    /// Whether a bus owner assigns its endpoint ID: it has none at first, and Reset gives it that of the description.
    pub assigned: bool,
}

impl ControlTable {
    /// Reads the table `control` of a description, which is the text that `Description::read` takes: TOML in UTF-8. Its
    /// keys are
    ///
    /// - `uuid`: the UUID as hex text, 16 bytes;
    /// - `base_version`, `control_version` and `pldm_version`: versions as hex text, 4 bytes each;
    /// - `assigned`: whether a bus owner assigns its endpoint ID, `true` or `false`, and `false` where it is missing.
    ///
    /// The table may be missing, and so may each key of it. Other keys are ignored, and so is what else the description
    /// says. Bytes that are no TOML are `Toml`, and a `control` that is no table is `WrongKind`. The keys are looked at
    /// in the order above, and at each `WrongKind` comes before `BadHex`, and that before `OutOfRange`, which is for
    /// another count of bytes. `Memory` is for a growth that was refused, which no text without content needs.
    pub fn read(alloc: Global, bytes: &[u8]) -> Result<ControlTable, FileFault>
        ensures { IsOrMemoryWhere (¬ IsBlank bytes.now) result (control_of bytes.now) }
    {
        match ControlTable::read_or_refusal(alloc, bytes) {
            Ok(table) => Ok(table),
            Err(refusal) => Err(refusal.fault()),
        }
    }

    /// Reads the table as [`ControlTable::read`] does, and where it is refused, says where its first fault is and what
    /// is allowed there.
    #[tactic(auto, unfolding(crate::specs::ControlTables::control_of))]
    pub fn read_or_refusal(alloc: Global, bytes: &[u8]) -> Result<ControlTable, Refusal>
        ensures { IsOrMemoryWhere (¬ IsBlank bytes.now) result (control_of bytes.now) }
    {
        in_document(alloc, &read_document(alloc, bytes)?)
    }
}

/// The table of a whole document.
fn in_document(alloc: Global, document: &Table) -> Result<ControlTable, Refusal>
    ensures { IsOrMemoryWhere (IsSome (get_member (codes "control") (table_view document.now))) result (control_in
        (table_view document.now)) }
{
    match value_if_any(document, "control") {
        Some(value) => in_table(alloc, table_in(value, Path::whole().key("control"))?),
        None => Ok(ControlTable {
            uuid: None,
            base_version: None,
            control_version: None,
            pldm_version: None,
            assigned: false,
        }),
    }
}

/// What the keys of the table say.
#[tactic(auto, unfolding(crate::specs::ControlTables::control_table_of))]
fn in_table(alloc: Global, table: &Table) -> Result<ControlTable, Refusal>
    ensures { IsOrMemory result (control_table_of (table_view table.now)) }
{
    let uuid = bytes_at(alloc, table, "uuid")?;
    let base_version = bytes_at(alloc, table, "base_version")?;
    let control_version = bytes_at(alloc, table, "control_version")?;
    let pldm_version = bytes_at(alloc, table, "pldm_version")?;
    let assigned = flag_at(table, "assigned", Path::table("control"))?;
    Ok(ControlTable {
        uuid,
        base_version,
        control_version,
        pldm_version,
        assigned,
    })
}

/// As many bytes as the array has, from the hex text at the key; `None` where there is no such key.
fn bytes_at<const N: usize>(
    alloc: Global,
    table: &Table,
    key: &'static str,
) -> Result<Option<[u8; N]>, Refusal>
    ensures { IsOrMemory result (bytes_at key.now N (table_view table.now)) }
{
    match value_if_any(table, key) {
        Some(value) => {
            let at = Path::table("control").key(key);
            Ok(Some(exactly_in(alloc, value, at)?))
        }
        None => Ok(None),
    }
}

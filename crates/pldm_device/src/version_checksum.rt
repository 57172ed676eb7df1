//! The checksum that a description has appended to its versions.

ghost use Rattle.std.specs.Prelude.{◌≡◌};
ghost use Rattle.pldm_device.specs.FileFaults.{IsOrMemory};
ghost use Rattle.pldm_device.specs.VersionChecksums.{both_versions_in, with_checksum};
ghost use Rattle.toml.specs.View.{table_view};

use crate::allowed::Allowed;
use crate::description_fault::FileFault;
use crate::hex_values::versions_in;
use crate::keys::{flag_at, value_at};
use crate::limits::{CHECKED_VERSION_BYTES, MAX_CHECKED_VERSIONS, MAX_VERSIONS};
use crate::path::Path;
use crate::refusal::Refusal;
use arrayvec::ArrayVec;
use byteorder::{ByteOrder, LittleEndian};
use pldm_wire::{VersionData, crc32};
use std::alloc::Global;
use toml::Table;

/// The versions of both types, of messaging control and of the platform, with their checksum where it is asked for.
#[tactic(auto, unfolding(crate::specs::VersionChecksums::both_versions_in))]
pub(crate) fn both_versions_in(
    alloc: Global,
    table: &Table,
) -> Result<(VersionData, VersionData), Refusal>
    ensures { IsOrMemory result (both_versions_in (table_view table.now)) }
{
    let whole = Path::whole();
    let base = whole.key("version0");
    let platform = whole.key("version2");
    let needed = Allowed::Versions(MAX_VERSIONS);
    let base_versions = versions_in(alloc, value_at(table, "version0", whole, needed)?, base)?;
    let platform_versions = versions_in(
        alloc,
        value_at(table, "version2", whole, needed)?,
        platform,
    )?;
    let has_checksum = flag_at(table, "version_checksum", whole)?;
    let base_checked = with_checksum(has_checksum, base_versions, base)?;
    let platform_checked = with_checksum(has_checksum, platform_versions, platform)?;
    Ok((base_checked, platform_checked))
}

/// The versions, and where it is asked for, their checksum after them (DSP0240, "GetPLDMVersion command");
/// `OutOfRange` where both are more than one part.
fn with_checksum(
    has_checksum: bool,
    versions: VersionData,
    at: Path<'static>,
) -> Result<VersionData, Refusal>
    ensures { result ≡ with_checksum has_checksum versions }
{
    if !has_checksum {
        return Ok(versions);
    }
    let mut checksum = [0; 4];
    LittleEndian::write_u32(&mut checksum, crc32(versions.as_slice()));
    let mut bytes = ArrayVec::<u8, CHECKED_VERSION_BYTES>::new();
    let _ = bytes.try_extend_from_slice(versions.as_slice()); // they fit
    let _ = bytes.try_extend_from_slice(&checksum); // it fits
    match VersionData::new(bytes.as_slice()) {
        Some(checked) => Ok(checked),
        None => {
            let allowed = Allowed::CheckedVersions(MAX_CHECKED_VERSIONS);
            Err(Refusal::new(FileFault::OutOfRange, at, allowed))
        }
    }
}

//! Bytes that a description has as hex text.

ghost use Rattle.std.specs.Prelude.{◌≡◌, ◌≢◌};
ghost use Rattle.mctp_packet.specs.Memories.{out_of_memory};
ghost use Rattle.pldm_device.specs.FileFaults.{IsOrMemory};
ghost use Rattle.pldm_device.specs.HexValues.{bytes_in, exactly_in, time_at, versions_in};
ghost use Rattle.pldm_device.specs.KeyValues.{map_ok};
ghost use Rattle.toml.specs.View.{table_view, view};

use crate::allowed::Allowed;
use crate::description_fault::FileFault;
use crate::keys::{text_in, value_at};
use crate::limits::MAX_VERSIONS;
use crate::path::Path;
use crate::refusal::Refusal;
use hex::FromHexError;
use pldm_wire::{TIME_BYTES, VersionData};
use std::alloc::{AllocError, Global};
use toml::{Table, Value};

/// The bytes of a hex text; `BadHex` where it is none.
pub(crate) fn bytes_in(
    alloc: Global,
    value: &Value,
    at: Path<'static>,
    allowed: Allowed,
) -> Result<Vec<u8>, Refusal>
    ensures { IsOrMemory (map_ok (λ bytes. bytes.items) result) (bytes_in (view value.now)) }
{
    let text = text_in(value, at, allowed)?;
    match hex::decode(alloc, text) {
        Ok(bytes) => Ok(bytes),
        Err(error) => Err(hex_refusal(error, at, allowed)),
    }
}

/// What an error of reading hex says of a description. `OutOfMemory` does not hold what the allocator
/// gave: that is made again here, and nowhere else.
fn hex_refusal(error: FromHexError, at: Path<'static>, allowed: Allowed) -> Refusal
    ensures memory { error ≡ FromHexError.OutOfMemory → result ≡ FileFault.Memory out_of_memory }
    ensures hex { error ≢ FromHexError.OutOfMemory → result ≡ FileFault.BadHex }
{
    match error {
        FromHexError::OutOfMemory => AllocError.into(),
        _ => Refusal::new(FileFault::BadHex, at, allowed),
    }
}

/// Versions of four bytes each; `OutOfRange` where the bytes are none.
pub(crate) fn versions_in(
    alloc: Global,
    value: &Value,
    at: Path<'static>,
) -> Result<VersionData, Refusal>
    ensures { IsOrMemory result (versions_in (view value.now)) }
{
    let allowed = Allowed::Versions(MAX_VERSIONS);
    let bytes = bytes_in(alloc, value, at, allowed)?;
    match VersionData::new(bytes.as_slice()) {
        Some(versions) => Ok(versions),
        None => Err(Refusal::new(FileFault::OutOfRange, at, allowed)),
    }
}

/// The time at the key of the whole description; `OutOfRange` where the bytes aren't thirteen.
pub(crate) fn time_at(
    alloc: Global,
    document: &Table,
    key: &'static str,
) -> Result<[u8; TIME_BYTES], Refusal>
    ensures { IsOrMemory result (time_at key.now (table_view document.now)) }
{
    let whole = Path::whole();
    let value = value_at(document, key, whole, Allowed::HexBytes(TIME_BYTES))?;
    exactly_in(alloc, value, whole.key(key))
}

/// As many bytes as the array has; `OutOfRange` where they are more or fewer.
pub(crate) fn exactly_in<const N: usize>(
    alloc: Global,
    value: &Value,
    at: Path<'static>,
) -> Result<[u8; N], Refusal>
    ensures { IsOrMemory result (exactly_in N (view value.now)) }
{
    let allowed = Allowed::HexBytes(N);
    let bytes = bytes_in(alloc, value, at, allowed)?;
    if bytes.len() != N {
        return Err(Refusal::new(FileFault::OutOfRange, at, allowed));
    }
    let mut array = [0; N];
    array.copy_from_slice(bytes.as_slice());
    Ok(array)
}

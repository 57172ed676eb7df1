//! Reading a TOML document.

ghost use Rattle.std.specs.Prelude.{◌≡◌, ◌⊎◌, IsErrOf};
ghost use Rattle.mctp_packet.specs.Memories.{out_of_memory};
ghost use Rattle.pldm_device.specs.Documents.{document_of};
ghost use Rattle.pldm_device.specs.KeyValues.{map_ok};
ghost use Rattle.toml.specs.Errors.{IsBlank};
ghost use Rattle.toml.specs.View.{table_view};

use crate::allowed::Allowed;
use crate::description_fault::FileFault;
use crate::path::Path;
use crate::refusal::Refusal;
use std::alloc::{AllocError, Global};
use toml::Table;

/// The document that the bytes are; `Toml` where they are none. `Memory` is for a growth that was
/// refused, which no text without content needs.
pub(crate) fn read_document(alloc: Global, bytes: &[u8]) -> Result<Table, Refusal>
    ensures { (IsErrOf result (FileFault.Memory out_of_memory) × ¬ IsBlank bytes.now)
        ⊎ (map_ok table_view result ≡ document_of bytes.now) }
{
    match toml::table_from_slice(alloc, bytes) {
        Ok(table) => Ok(table),
        // The error does not hold what the allocator gave: that is made again here, and nowhere else.
        Err(error) => {
            if error.is_memory() {
                Err(AllocError.into())
            } else {
                Err(Refusal::new(FileFault::Toml, Path::whole(), Allowed::Unstated))
            }
        }
    }
}

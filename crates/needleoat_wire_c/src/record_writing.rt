//! A platform data record made of its data, and written to a room of C.

ghost use Rattle.std.specs.Prelude.{◌≡◌, Some, length};
ghost use Rattle.needleoat_forms.specs.Written.{IsWritten};
ghost use Rattle.needleoat_wire_c.specs.RecordForms.{bytes_in_room, record_in};

use pldm_pdr::{Record, RecordData, write};

/// The handle that no record has (DSP0248, "GetPDR command").
pub const NO_RECORD: u32 = 0;

/// The record of this handle, change number and data, where the handle is not 0 and the data fits.
pub(crate) fn record_of(handle: u32, change_number: u16, contents: RecordData) -> Option<Record>
    ensures { result ≡ record_in handle change_number (Some contents) }
{
    if handle == NO_RECORD {
        return None;
    }
    Record::new(handle, change_number, contents)
}

/// Writes a record to the front of a room, and returns its length in bytes. Returns 0 and leaves the room as it was
/// where there is no record, and where the room is too short.
// Not inlined: what this call needs of the stack and what the record is made of are then not there at the same time.
#[inline(never)]
pub(crate) fn put_record(pdr: &Option<Record>, out: &mut [u8]) -> u32
    ensures { IsWritten (bytes_in_room (length out.old) pdr.now) result out.old out.new }
{
    let Some(pdr) = pdr else {
        return 0;
    };
    let bytes = write(pdr);
    if bytes.len() > out.len() {
        return 0;
    }
    out[..bytes.len()].copy_from_slice(&bytes);
    bytes.len() as u32
}

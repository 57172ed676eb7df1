//! Data written field by field.

ghost use Rattle.std.specs.Prelude.{◌≡◌, ◌≤◌, ◌++◌, length};
ghost use Rattle.std.specs.List.{flat_map};
ghost use Rattle.pldm_update.specs.FieldWriting.{written_bytes};

use crate::MAX_UPDATE_DATA;
use arrayvec::ArrayVec;
use byteorder::{ByteOrder, LittleEndian};

/// The data of a command or an answer of firmware update.
pub type UpdateData = ArrayVec<u8, MAX_UPDATE_DATA>;

/// A field of data as it is written.
#[derive(Clone, Copy)]
pub(crate) enum Field<'a> {
    /// A byte.
    U8(u8),
    /// A number of two bytes.
    U16(u16),
    /// A number of four bytes.
    U32(u32),
    /// A number of eight bytes.
    U64(u64),
    /// Bytes as they are.
    Bytes(&'a [u8]),
}

/// The data of these fields.
pub(crate) fn data_of(fields: &[Field<'_>]) -> UpdateData
    requires { length (flat_map written_bytes fields.now) ≤ MAX_UPDATE_DATA }
    ensures { result.items ≡ flat_map written_bytes fields.now }
{
    let mut data = UpdateData::new();
    for field in fields {
        push_field(&mut data, *field);
    }
    data
}

/// Adds a field.
fn push_field(data: &mut UpdateData, field: Field<'_>)
    requires { length (data.old.items ++ written_bytes field) ≤ MAX_UPDATE_DATA }
    ensures { data.new.items ≡ data.old.items ++ written_bytes field.entry }
{
    match field {
        Field::U8(number) => data.push(number),
        Field::U16(number) => {
            let mut bytes = [0; 2];
            LittleEndian::write_u16(&mut bytes, number);
            push_bytes(data, &bytes);
        }
        Field::U32(number) => {
            let mut bytes = [0; 4];
            LittleEndian::write_u32(&mut bytes, number);
            push_bytes(data, &bytes);
        }
        Field::U64(number) => {
            let mut bytes = [0; 8];
            LittleEndian::write_u64(&mut bytes, number);
            push_bytes(data, &bytes);
        }
        Field::Bytes(bytes) => push_bytes(data, bytes),
    }
}

/// Adds these bytes.
fn push_bytes(data: &mut UpdateData, bytes: &[u8])
    requires { length (data.old.items ++ bytes.now) ≤ MAX_UPDATE_DATA }
    ensures { data.new.items ≡ data.old.items ++ bytes.now }
{
    let _ = data.try_extend_from_slice(bytes); // they fit
}

//! Platform data records (DSP0248): the calls that write them, and the one that answers for them.

ghost use Rattle.std.specs.Prelude.{◌≡◌, IsTrue, List, ℕ, false, length};
ghost use Rattle.needleoat_forms.specs.Written.{IsWritten};
ghost use Rattle.needleoat_wire_c.specs.NameForms.{effecter_name_record, entity_name_record, sensor_name_record};
ghost use Rattle.needleoat_wire_c.specs.RecordArrays.{AreNoRecords, AreRecords, IsAnswered, IsUnanswered, answer_among, is_of_repository};
ghost use Rattle.needleoat_wire_c.specs.RecordForms.{bytes_in_room, numeric_effecter_record, numeric_sensor_record, state_effecter_record, state_sensor_record, terminus_locator_record};

use crate::name_contents::{effecter_name_record, entity_name_record, sensor_name_record};
use crate::record_contents::{
    numeric_effecter_record, numeric_sensor_record, put_state_effecter, put_state_sensor,
    terminus_locator_record,
};
use crate::record_forms::{
    EffecterNameFields, EntityNameFields, NumericEffecterFields, NumericSensorFields,
    SensorNameFields, StateEffecterFields, StateSensorFields, TerminusLocatorFields,
};
use crate::record_writing::put_record;
use crate::records_answer::{NO_RECORDS, OTHER_COMMAND, records_answer};
use needleoat_forms::{AnswerFields, CommandFields};
use pldm_wire::TIME_BYTES;

/// Answers GetPDRRepositoryInfo and GetPDR for the records that stand one after another in an array, as a repository of
/// them does (DSP0248, "GetPDRRepositoryInfo command" and "GetPDR command"), with these two times of its last change.
/// The answer is put into `fields`, with the command's instance ID, and 0 is returned. Otherwise `fields` is left as it
/// was: [`OTHER_COMMAND`] is returned for any other command, and [`NO_RECORDS`] where the array is not a list of whole
/// records: where one is cut short, has another header version, or has the handle 0 or that of another record, or where
/// there are more than 1,000.
#[unsafe(no_mangle)]
pub extern "C" fn needleoat_records_answer(
    records: &[u8],
    update_time: &[u8; TIME_BYTES],
    oem_update_time: &[u8; TIME_BYTES],
    command: &CommandFields,
    fields: &mut AnswerFields,
) -> u8
    ensures answered { (held : List (List ℕ)) → AreRecords records.now held → IsTrue (is_of_repository command.now)
        → IsAnswered command.now (answer_among update_time.now oem_update_time.now command.now held) result
        fields.new }
    ensures no_records { AreNoRecords records.now → IsTrue (is_of_repository command.now)
        → IsUnanswered NO_RECORDS result fields.old fields.new }
    ensures other { is_of_repository command.now ≡ false → IsUnanswered OTHER_COMMAND result fields.old fields.new }
{
    records_answer(records, update_time, oem_update_time, command, fields)
}

/// Writes a terminus locator record to the front of `out`, and returns its length in bytes (DSP0248, "Terminus locator
/// PDR"). Returns 0 and leaves `out` as it was where the record handle is 0, where a field is out of range, and where
/// `out` is too short.
#[unsafe(no_mangle)]
pub extern "C" fn needleoat_terminus_locator_record_write(
    fields: &TerminusLocatorFields,
    out: &mut [u8],
) -> u32
    ensures { IsWritten (bytes_in_room (length out.old) (terminus_locator_record fields.now)) result out.old out.new }
{
    put_record(&terminus_locator_record(fields), out)
}

/// Writes a numeric sensor record to the front of `out`, and returns its length in bytes (DSP0248, "Numeric sensor
/// PDR"). Returns 0 and leaves `out` as it was where the record handle is 0, where a field is out of range, and where
/// `out` is too short.
#[unsafe(no_mangle)]
pub extern "C" fn needleoat_numeric_sensor_record_write(
    fields: &NumericSensorFields,
    out: &mut [u8],
) -> u32
    ensures { IsWritten (bytes_in_room (length out.old) (numeric_sensor_record fields.now)) result out.old out.new }
{
    put_record(&numeric_sensor_record(fields), out)
}

/// Writes a numeric effecter record to the front of `out`, and returns its length in bytes (DSP0248, "Numeric effecter
/// PDR"). Returns 0 and leaves `out` as it was where the record handle is 0, where a field is out of range, and where
/// `out` is too short.
#[unsafe(no_mangle)]
pub extern "C" fn needleoat_numeric_effecter_record_write(
    fields: &NumericEffecterFields,
    out: &mut [u8],
) -> u32
    ensures { IsWritten (bytes_in_room (length out.old) (numeric_effecter_record fields.now)) result out.old out.new }
{
    put_record(&numeric_effecter_record(fields), out)
}

/// Writes a state sensor record to the front of `out`, and returns its length in bytes (DSP0248, "State sensor PDR").
/// Returns 0 and leaves `out` as it was where the record handle is 0, where a field is out of range, and where `out` is
/// too short.
#[unsafe(no_mangle)]
pub extern "C" fn needleoat_state_sensor_record_write(
    fields: &StateSensorFields,
    out: &mut [u8],
) -> u32
    ensures { IsWritten (bytes_in_room (length out.old) (state_sensor_record fields.now)) result out.old out.new }
{
    let mut pdr = None;
    put_state_sensor(fields, &mut pdr);
    put_record(&pdr, out)
}

/// Writes a state effecter record to the front of `out`, and returns its length in bytes (DSP0248, "State effecter
/// PDR"). Returns 0 and leaves `out` as it was where the record handle is 0, where a field is out of range, and where
/// `out` is too short.
#[unsafe(no_mangle)]
pub extern "C" fn needleoat_state_effecter_record_write(
    fields: &StateEffecterFields,
    out: &mut [u8],
) -> u32
    ensures { IsWritten (bytes_in_room (length out.old) (state_effecter_record fields.now)) result out.old out.new }
{
    let mut pdr = None;
    put_state_effecter(fields, &mut pdr);
    put_record(&pdr, out)
}

/// Writes a record of a sensor's name to the front of `out`, and returns its length in bytes (DSP0248,
/// "Sensor auxiliary names PDR"). Returns 0 and leaves `out` as it was where the record handle is 0, where a code unit
/// of the name is 0 or there are more than 127, and where `out` is too short.
#[unsafe(no_mangle)]
pub extern "C" fn needleoat_sensor_name_record_write(
    fields: &SensorNameFields,
    out: &mut [u8],
) -> u32
    ensures { IsWritten (bytes_in_room (length out.old) (sensor_name_record fields.now)) result out.old out.new }
{
    put_record(&sensor_name_record(fields), out)
}

/// Writes a record of an effecter's name to the front of `out`, and returns its length in bytes (DSP0248,
/// "Effecter auxiliary names PDR"). Returns 0 and leaves `out` as it was where the record handle is 0, where a code
/// unit of the name is 0 or there are more than 127, and where `out` is too short.
#[unsafe(no_mangle)]
pub extern "C" fn needleoat_effecter_name_record_write(
    fields: &EffecterNameFields,
    out: &mut [u8],
) -> u32
    ensures { IsWritten (bytes_in_room (length out.old) (effecter_name_record fields.now)) result out.old out.new }
{
    put_record(&effecter_name_record(fields), out)
}

/// Writes a record of an entity's name to the front of `out`, and returns its length in bytes (DSP0248,
/// "Entity auxiliary names PDR"). Returns 0 and leaves `out` as it was where the record handle is 0, where a code unit
/// of the name is 0 or there are more than 127, and where `out` is too short.
#[unsafe(no_mangle)]
pub extern "C" fn needleoat_entity_name_record_write(
    fields: &EntityNameFields,
    out: &mut [u8],
) -> u32
    ensures { IsWritten (bytes_in_room (length out.old) (entity_name_record fields.now)) result out.old out.new }
{
    put_record(&entity_name_record(fields), out)
}

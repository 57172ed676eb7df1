//! The decoded lines of a platform data record: its header, and its fields by name.

ghost use Rattle.std.specs.Prelude.{◌≡◌, ◌++◌, OnOk, slice_get};
ghost use Rattle.mctpctl_decode.specs.RecordFields.{record_line};
ghost use Rattle.mctpctl_decode.specs.RecordTexts.{carried_lines, data_lines, header_text, locator_text, part_lines, record_lines, type_text, unread_name, unread_text, unread_type_text};
ghost use Rattle.pldm_pdr.specs.Records.{type_of};

use crate::field_text::push_word;
use crate::label::Label;
use crate::name_text::{push_effecter_names, push_entity_names, push_sensor_names};
use crate::numeric_effecter_text::push_numeric_effecter;
use crate::numeric_sensor_text::push_numeric_sensor;
use crate::record_field::{push_named_number, push_number, push_truth};
use crate::record_names::{fault_name, type_name};
use crate::state_record_text::{push_state_effecter, push_state_sensor};
use mctp_packet::Memory;
use mctpctl_texts::write_text;
use pldm_pdr::{Record, RecordData, TerminusLocator};
use pldm_wire::{Answer, RecordPart, TransferFlag};

/// The version of the headers that are read (DSP0248, "PDRHeaderVersion").
const VERSION: u64 = 1;

/// The place of a record's type among its bytes (DSP0248, "Common PDR format").
const TYPE_PLACE: usize = 5;

/// Adds the lines of the record that an answer has whole; nothing for any other answer.
#[tactic(auto, unfolding(crate::specs::RecordTexts::carried_lines))]
pub fn push_carried_record(out: &mut Vec<u8>, answer: &Answer) -> Result<(), Memory>
    ensures { OnOk result (out.new.items ≡ out.old.items ++ carried_lines answer.now) }
{
    match answer {
        Answer::GetPdr { part, .. } => push_whole_part(out, part),
        _ => Ok(()),
    }
}

/// Adds the lines of a record that is in one part.
fn push_whole_part(out: &mut Vec<u8>, part: &RecordPart) -> Result<(), Memory>
    ensures { OnOk result (out.new.items ≡ out.old.items ++ part_lines part.now.flag part.now.bytes) }
{
    match part.flag() {
        TransferFlag::StartAndEnd => push_record(out, part.as_slice()),
        _ => Ok(()),
    }
}

/// Adds the lines of the record that bytes spell: its header, and its fields by name. Bytes that are no record that is
/// read have a line with the fault, and with the type of the record where they reach so far.
pub fn push_record(out: &mut Vec<u8>, bytes: &[u8]) -> Result<(), Memory>
    ensures { OnOk result (out.new.items ≡ out.old.items ++ record_lines bytes.now) }
{
    let record = match pldm_pdr::read(bytes) {
        Ok(record) => record,
        Err(fault) => return push_unread_line(out, bytes, fault_name(fault)),
    };
    push_header_line(out, &record)?;
    push_contents(out, record.contents())
}

/// Adds the line of why bytes are no record that is read, with the name of the fault.
#[tactic(auto, unfolding(crate::specs::RecordFields::record_line))]
pub fn push_unread_line(out: &mut Vec<u8>, bytes: &[u8], fault: &str) -> Result<(), Memory>
    ensures { OnOk result (out.new.items ≡ out.old.items ++ record_line (unread_text bytes.now fault.now)) }
{
    write_text(out, "   ")?;
    push_unread(out, bytes, fault)?;
    write_text(out, "\n")
}

/// Adds why bytes are no record that is read, and the type of the record where they reach so far.
#[tactic(auto, unfolding(crate::specs::RecordTexts::unread_text))]
fn push_unread(out: &mut Vec<u8>, bytes: &[u8], fault: &str) -> Result<(), Memory>
    ensures { OnOk result (out.new.items ≡ out.old.items ++ unread_text bytes.now fault.now) }
{
    push_unread_name(out, fault)?;
    push_unread_type(out, bytes)
}

/// Adds that bytes are no record that is read, and why.
#[tactic(auto, unfolding(crate::specs::RecordTexts::unread_name))]
fn push_unread_name(out: &mut Vec<u8>, fault: &str) -> Result<(), Memory>
    ensures { OnOk result (out.new.items ≡ out.old.items ++ unread_name fault.now) }
{
    push_word(out, "record unread")?;
    push_word(out, fault)
}

/// Adds the type that stands in a header, where the bytes reach so far.
#[tactic(auto, unfolding(crate::specs::RecordTexts::unread_type_text))]
fn push_unread_type(out: &mut Vec<u8>, bytes: &[u8]) -> Result<(), Memory>
    ensures { OnOk result (out.new.items ≡ out.old.items ++ unread_type_text (slice_get bytes.now TYPE_PLACE)) }
{
    match bytes.get(TYPE_PLACE) {
        Some(number) => push_type(out, *number),
        None => Ok(()),
    }
}

/// Adds the line of its header.
#[tactic(auto, unfolding(crate::specs::RecordFields::record_line))]
fn push_header_line(out: &mut Vec<u8>, pdr: &Record) -> Result<(), Memory>
    ensures { OnOk result (out.new.items ≡ out.old.items ++ record_line (header_text pdr.now)) }
{
    write_text(out, "   ")?;
    push_header(out, pdr)?;
    write_text(out, "\n")
}

/// Adds record handle, version, type and change number.
#[tactic(auto, unfolding(crate::specs::RecordTexts::header_text))]
fn push_header(out: &mut Vec<u8>, pdr: &Record) -> Result<(), Memory>
    ensures { OnOk result (out.new.items ≡ out.old.items ++ header_text pdr.now) }
{
    push_number(out, Label::Record, pdr.handle().into())?;
    push_number(out, Label::Version, VERSION)?;
    push_type(out, type_number(pdr.contents()))?;
    push_number(out, Label::Change, pdr.change_number().into())
}

/// Adds the type of a record by its name, or by its number.
#[tactic(auto, unfolding(crate::specs::RecordTexts::type_text))]
fn push_type(out: &mut Vec<u8>, number: u8) -> Result<(), Memory>
    ensures { OnOk result (out.new.items ≡ out.old.items ++ type_text number) }
{
    push_named_number(out, Label::RecordType, type_name(number), number)
}

/// The number of a record's type (DSP0248, "PDR type values").
fn type_number(contents: &RecordData) -> u8
    ensures { result ≡ type_of contents.now }
{
    match contents {
        RecordData::TerminusLocator(_) => 1,
        RecordData::NumericSensor(_) => 2,
        RecordData::StateSensor(_) => 4,
        RecordData::SensorNames(_) => 6,
        RecordData::NumericEffecter(_) => 9,
        RecordData::StateEffecter(_) => 11,
        RecordData::EffecterNames(_) => 13,
        RecordData::EntityNames(_) => 16,
    }
}

/// Adds the lines of what a record says after its header.
fn push_contents(out: &mut Vec<u8>, contents: &RecordData) -> Result<(), Memory>
    ensures { OnOk result (out.new.items ≡ out.old.items ++ data_lines contents.now) }
{
    match contents {
        RecordData::TerminusLocator(locator) => push_locator_line(out, locator),
        RecordData::NumericSensor(sensor) => push_numeric_sensor(out, sensor),
        RecordData::StateSensor(sensor) => push_state_sensor(out, sensor),
        RecordData::SensorNames(names) => push_sensor_names(out, names),
        RecordData::NumericEffecter(effecter) => push_numeric_effecter(out, effecter),
        RecordData::StateEffecter(effecter) => push_state_effecter(out, effecter),
        RecordData::EffecterNames(names) => push_effecter_names(out, names),
        RecordData::EntityNames(names) => push_entity_names(out, names),
    }
}

/// Adds the line of where a terminus is (DSP0248, "Terminus locator PDR").
#[tactic(auto, unfolding(crate::specs::RecordFields::record_line))]
fn push_locator_line(out: &mut Vec<u8>, locator: &TerminusLocator) -> Result<(), Memory>
    ensures { OnOk result (out.new.items ≡ out.old.items ++ record_line (locator_text locator.now)) }
{
    write_text(out, "   ")?;
    push_locator(out, locator)?;
    write_text(out, "\n")
}

/// Adds where a terminus is.
#[tactic(auto, unfolding(crate::specs::RecordTexts::locator_text))]
fn push_locator(out: &mut Vec<u8>, locator: &TerminusLocator) -> Result<(), Memory>
    ensures { OnOk result (out.new.items ≡ out.old.items ++ locator_text locator.now) }
{
    push_number(out, Label::Terminus, locator.terminus_handle.into())?;
    push_truth(out, Label::Valid, locator.is_valid)?;
    push_number(out, Label::Tid, locator.tid.into())?;
    push_number(out, Label::Container, locator.container_id.into())?;
    push_number(out, Label::Eid, locator.eid.into())
}

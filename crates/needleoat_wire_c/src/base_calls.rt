//! What a device says of itself, for C.

ghost use Rattle.std.specs.Prelude.{◌≡◌, IsTrue, false};
ghost use Rattle.pldm_wire.specs.Crc32.{IsCrc32, crc32};
ghost use Rattle.needleoat_wire_c.specs.BaseAnswers.{discovery_answer, is_of_discovery};
ghost use Rattle.needleoat_wire_c.specs.RecordArrays.{IsAnswered, IsUnanswered};
ghost use Rattle.needleoat_wire_c.specs.declared.records_answer.TheConstants.{OTHER_COMMAND};

use crate::base_answer::{TypeCommand, TypeVersion, base_answer};
use needleoat_forms::{AnswerFields, CommandFields};
use pldm_wire::crc32;

/// Answers GetTID, GetPLDMVersion, GetPLDMTypes and GetPLDMCommands (DSP0240, "PLDM Messaging Control and Discovery
/// commands") of a device with this terminus ID, the versions of its types and its commands, and returns 0 with the
/// answer in `fields`. Of another command it leaves `fields` as it was and returns [`OTHER_COMMAND`].
#[unsafe(no_mangle)]
pub extern "C" fn needleoat_base_answer(
    tid: u8,
    types: &[TypeVersion],
    commands: &[TypeCommand],
    command: &CommandFields,
    fields: &mut AnswerFields,
) -> u8
    ensures answered { IsTrue (is_of_discovery command.now)
        → IsAnswered command.now (discovery_answer tid types.now commands.now command.now) result fields.new }
    ensures other { is_of_discovery command.now ≡ false → IsUnanswered OTHER_COMMAND result fields.old fields.new }
{
    base_answer(tid, types, commands, command, fields)
}

/// The checksum that follows version data (DSP0240, "GetPLDMVersion command"): CRC-32 as IEEE 802.3 has it.
#[unsafe(no_mangle)]
pub extern "C" fn needleoat_crc32(bytes: &[u8]) -> u32
    ensures value { result ≡ crc32 bytes.now }
    ensures remainder { IsCrc32 bytes.now result }
{
    crc32(bytes)
}

//! The commands by which a device says what it is (DSP0240), answered from the versions of its PLDM types and the
//! commands that it has.

ghost use Rattle.std.specs.Prelude.{◌≡◌, ◌≤◌, ◌<◌, ◌++◌, IsTrue, Some, false, length};
ghost use Rattle.byteorder.specs.Endian.{little_bytes};
ghost use Rattle.pldm_wire.specs.Crc32.{crc32};
ghost use Rattle.pldm_wire.specs.Answers.{IsAnswerTo};
ghost use Rattle.pldm_wire.specs.Kinds.{of_type};
ghost use Rattle.needleoat_wire_c.specs.BaseAnswers.{byte_from, commands_answer, discovery_answer, first_bytes, has_command, has_number, has_type, is_of_discovery, version_answer, version_of, weighted};
ghost use Rattle.needleoat_wire_c.specs.RecordArrays.{IsAnswered, IsUnanswered};

use crate::records_answer::OTHER_COMMAND;
use byteorder::{ByteOrder, LittleEndian};
use needleoat_forms::{AnswerFields, CommandFields};
use pldm_platform::{
    INVALID_DATA_TRANSFER_HANDLE, INVALID_PLDM_TYPE, INVALID_TRANSFER_OPERATION, refused,
};
use pldm_wire::{
    Answer, BASE, COMMANDS_BYTES, GET_FIRST_PART, GET_NEXT_PART, GET_PLDM_COMMANDS, GET_PLDM_TYPES,
    GET_PLDM_VERSION, GET_TID, Kind, TYPES_BYTES, VERSION_BYTES, VersionData, crc32,
};

/// How many bytes the version of a type and its checksum have.
const CHECKED_VERSION_BYTES: usize = 8;

/// A PLDM type that a device has, and its version.
#[repr(C)]
#[derive(Clone, Copy)]
pub struct TypeVersion {
    /// The type, 0 to 63.
    pub pldm_type: u8,
    /// Its version, as on the wire (DSP0240, "GetPLDMVersion command").
    pub version: [u8; VERSION_BYTES],
}

// As in `include/needleoat.h`.
const _: () = prove!(size_of::<TypeVersion>() == 5);

/// A command that a device has.
#[repr(C)]
#[derive(Clone, Copy)]
pub struct TypeCommand {
    /// Its PLDM type, 0 to 63.
    pub pldm_type: u8,
    /// Its number in that type.
    pub command: u8,
}

// As in `include/needleoat.h`.
const _: () = prove!(size_of::<TypeCommand>() == 2);

/// Puts the answer to GetTID, GetPLDMVersion, GetPLDMTypes or GetPLDMCommands into `fields`, and returns 0. Of another
/// command it leaves `fields` as it was and returns [`OTHER_COMMAND`].
pub(crate) fn base_answer(
    tid: u8,
    types: &[TypeVersion],
    commands: &[TypeCommand],
    command: &CommandFields,
    fields: &mut AnswerFields,
) -> u8
    ensures answered { IsTrue (is_of_discovery command.now)
        → IsAnswered command.now (discovery_answer tid types.now commands.now command.now) result fields.new }
    ensures other { is_of_discovery command.now ≡ false → IsUnanswered OTHER_COMMAND result fields.old fields.new }
{
    if command.pldm_type != BASE {
        return OTHER_COMMAND;
    }
    let answer = match command.command {
        GET_TID => Answer::GetTid { tid },
        GET_PLDM_VERSION => {
            version_answer(command.transfer_operation_flag, command.asked_type, types)
        }
        GET_PLDM_TYPES => types_answer(types),
        GET_PLDM_COMMANDS => commands_answer(command.asked_type, types, commands),
        _ => return OTHER_COMMAND,
    };
    let kind = Kind {
        pldm_type: command.pldm_type,
        command: command.command,
    };
    fields.set(command.instance_id, kind, &answer);
    0
}

/// The answer to GetPLDMVersion: the version of a type and its checksum, in one part.
fn version_answer(transfer_operation_flag: u8, pldm_type: u8, types: &[TypeVersion]) -> Answer
    ensures answer { result ≡ version_answer transfer_operation_flag pldm_type types.now }
    ensures kind { IsAnswerTo (of_type BASE GET_PLDM_VERSION) result }
{
    if transfer_operation_flag > GET_FIRST_PART {
        return refused(INVALID_TRANSFER_OPERATION);
    }
    if transfer_operation_flag == GET_NEXT_PART {
        return refused(INVALID_DATA_TRANSFER_HANDLE);
    }
    match version_of(pldm_type, types) {
        Some(version) => Answer::GetPldmVersion {
            next_data_transfer_handle: 0,
            versions: checked(&version),
        },
        None => refused(INVALID_PLDM_TYPE),
    }
}

/// A version with its checksum after it, lowest byte first (DSP0240, "GetPLDMVersion command").
fn checked(version: &[u8; VERSION_BYTES]) -> VersionData
    ensures { result ≡ version.now ++ little_bytes 4 (crc32 version.now) }
{
    let mut bytes = [0; CHECKED_VERSION_BYTES];
    let (front, back) = bytes.split_at_mut(VERSION_BYTES);
    front.copy_from_slice(version);
    LittleEndian::write_u32(back, crc32(version));
    VersionData::new(&bytes).unwrap()
}

/// The version of a type: that of its first entry.
fn version_of(pldm_type: u8, types: &[TypeVersion]) -> Option<[u8; VERSION_BYTES]>
    ensures { result ≡ version_of pldm_type types.now }
{
    for entry in types {
        if entry.pldm_type == pldm_type {
            return Some(entry.version);
        }
    }
    None
}

/// Numbers that are there or not, and so are bits.
#[derive(Clone, Copy)]
enum Numbers<'a> {
    /// Those of the types.
    Types(&'a [TypeVersion]),
    /// Those of the commands of a type.
    Commands(&'a [TypeCommand], u8),
}

impl Numbers<'_> {
    /// Whether a number is there.
    fn has(self, number: usize) -> bool
        ensures { result ≡ has_number self.entry number }
    {
        match self {
            Numbers::Types(types) => has_type(types, number),
            Numbers::Commands(commands, pldm_type) => has_command(commands, pldm_type, number),
        }
    }

    /// What a number adds to its byte, whose bit has this weight.
    fn weighted(self, weight: u8, number: usize) -> u8
        ensures value { result ≡ weighted weight (has_number self.entry number) }
        ensures range { result ≤ weight }
    {
        if self.has(number) { weight } else { 0 }
    }

    /// The byte of eight numbers from this one on.
    fn byte_from(self, first: usize) -> u8
        requires { first < 1_000 }
        ensures { result ≡ byte_from (has_number self.entry) first }
    {
        self.weighted(1, first)
            + self.weighted(2, first + 1)
            + self.weighted(4, first + 2)
            + self.weighted(8, first + 3)
            + self.weighted(16, first + 4)
            + self.weighted(32, first + 5)
            + self.weighted(64, first + 6)
            + self.weighted(128, first + 7)
    }

    /// Puts the bits of the first numbers into the bytes: number n is bit n mod 8 of byte n / 8.
    fn put_bits(self, bits: &mut [u8])
        requires { length bits.old ≤ COMMANDS_BYTES }
        ensures { bits.new ≡ first_bytes (has_number self.entry) (length bits.old) }
    {
        for place in 0..bits.len() {
            bits[place] = self.byte_from(8 * place);
        }
    }
}

/// Whether a type is among these.
fn has_type(types: &[TypeVersion], number: usize) -> bool
    ensures { result ≡ has_type types.now number }
{
    types
        .iter()
        .any(|entry| usize::from(entry.pldm_type) == number)
}

/// Whether a command of a type is among these.
fn has_command(commands: &[TypeCommand], pldm_type: u8, number: usize) -> bool
    ensures { result ≡ has_command commands.now pldm_type number }
{
    commands.iter().any(|entry| entry.pldm_type == pldm_type
        && usize::from(entry.command) == number)
}

/// The answer to GetPLDMTypes.
fn types_answer(types: &[TypeVersion]) -> Answer
    ensures answer { result ≡ Answer.GetPldmTypes (first_bytes (has_type types.now) TYPES_BYTES) }
{
    let mut bits = [0; TYPES_BYTES];
    Numbers::Types(types).put_bits(&mut bits);
    Answer::GetPldmTypes { types: bits }
}

/// The answer to GetPLDMCommands.
fn commands_answer(pldm_type: u8, types: &[TypeVersion], commands: &[TypeCommand]) -> Answer
    ensures answer { result ≡ commands_answer pldm_type types.now commands.now }
    ensures kind { IsAnswerTo (of_type BASE GET_PLDM_COMMANDS) result }
{
    if !has_type(types, usize::from(pldm_type)) {
        return refused(INVALID_PLDM_TYPE);
    }
    let mut bits = [0; COMMANDS_BYTES];
    Numbers::Commands(commands, pldm_type).put_bits(&mut bits);
    Answer::GetPldmCommands { commands: bits }
}

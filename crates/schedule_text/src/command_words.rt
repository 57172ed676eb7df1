//! The command that words say.

ghost use Rattle.std.specs.Prelude.{◌≡◌};
ghost use Rattle.schedule_text.specs.CommandWords.{bare, byte_command_named, byte_of, command_named, command_of, command_said, field_command_named, getpdr_of, id_command_named, id_of, part_in, setnum_of, setstate_of, size_in, sized_in, state_in, states_in, with_id};
ghost use Rattle.line_words.specs.Lines.{said_words};
ghost use Rattle.schedule_text.specs.Refusals.{kinds};
ghost use Rattle.pldm_wire.specs.States.{IsComposite};
ghost use Rattle.pldm_wire.specs.declared.command.Command.TheVariants.{GetSensorReading};

use crate::word::Word;
use crate::words::{UsualCommand, Words, words_in};
use crate::{Expected, Refusal};
use arrayvec::ArrayVec;
use pldm_wire::{
    Command, GET_FIRST_PART, GET_NEXT_PART, MAX_STATES, Number, SetStateField, Size, StateFields,
    VERSION_BYTES,
};

/// The command that a line says, given without its LF: the words of a schedule's `open` behind the endpoint ID. `None`
/// where it says none, as a blank line and a comment.
///
/// # Errors
///
/// The first word that is refused, with its fault and what may stand there: a wrong word or count of words before a
/// wrong number.
pub fn command_in(line: &[u8]) -> Result<Option<Command>, Refusal<'_>>
    ensures { kinds result ≡ command_said (said_words line.now) }
{
    let Some((name, mut words)) = words_in(line) else {
        return Ok(None);
    };
    let command = read_named_command(&name, &mut words)?;
    Ok(Some(command))
}

/// The command of these words: its name, and the words after it. A wrong word or count of words is
/// reported before a wrong number.
pub(crate) fn read_command<'a>(words: &mut Words<'a>) -> Result<Command, Refusal<'a>>
    ensures { kinds result ≡ command_of words.old }
{
    match words.usual_command() {
        Some(UsualCommand::SetNum) => read_setnum(words),
        Some(UsualCommand::Sensor) => read_sensor(words),
        Some(UsualCommand::GetPdr) => read_getpdr(words),
        None => {
            let name = words.next(Expected::Command)?;
            read_named_command(&name, words)
        }
    }
}

/// A command, by its name and the words after it.
fn read_named_command<'a>(name: &Word<'a>, words: &mut Words<'a>) -> Result<Command, Refusal<'a>>
    ensures { kinds result ≡ command_named name.now words.old }
{
    if name.is(b"gettid") {
        bare(Command::GetTid, words)
    } else if name.is(b"gettypes") {
        bare(Command::GetPldmTypes, words)
    } else if name.is(b"pdrinfo") {
        bare(Command::GetPdrRepositoryInfo, words)
    } else {
        read_byte_command(name, words)
    }
}

/// A command of one byte or more, by its name and the words after it.
fn read_byte_command<'a>(name: &Word<'a>, words: &mut Words<'a>) -> Result<Command, Refusal<'a>>
    ensures { kinds result ≡ byte_command_named name.now words.old }
{
    if name.is(b"settid") {
        let tid = byte_of(words)?;
        Ok(Command::SetTid { tid })
    } else if name.is(b"getversion") {
        let pldm_type = byte_of(words)?;
        Ok(Command::GetPldmVersion {
            data_transfer_handle: 0,
            transfer_operation_flag: GET_FIRST_PART,
            pldm_type,
        })
    } else if name.is(b"getcommands") {
        let pldm_type = byte_of(words)?;
        Ok(Command::GetPldmCommands {
            pldm_type,
            version: [0; VERSION_BYTES],
        })
    } else {
        read_id_command(name, words)
    }
}

/// A command of one ID or more, by its name and the words after it.
fn read_id_command<'a>(name: &Word<'a>, words: &mut Words<'a>) -> Result<Command, Refusal<'a>>
    ensures { kinds result ≡ id_command_named name.now words.old }
{
    if name.is(b"sensor") {
        read_sensor(words)
    } else if name.is(b"statesensors") {
        let sensor = id_of(words)?;
        Ok(Command::GetStateSensorReadings { sensor, rearm: 0 })
    } else if name.is(b"getnum") {
        let effecter = id_of(words)?;
        Ok(Command::GetNumericEffecterValue { effecter })
    } else if name.is(b"getstate") {
        let effecter = id_of(words)?;
        Ok(Command::GetStateEffecterStates { effecter })
    } else {
        read_field_command(name, words)
    }
}

/// A command of several fields, by its name and the words after it.
fn read_field_command<'a>(name: &Word<'a>, words: &mut Words<'a>) -> Result<Command, Refusal<'a>>
    ensures { kinds result ≡ field_command_named name.now words.old }
{
    if name.is(b"setnum") {
        read_setnum(words)
    } else if name.is(b"setstate") {
        read_setstate(words)
    } else if name.is(b"getpdr") {
        read_getpdr(words)
    } else {
        Err(Refusal::of_word(name.bytes(), Expected::Command))
    }
}

/// A command with no words after its name.
fn bare<'a>(command: Command, words: &Words<'a>) -> Result<Command, Refusal<'a>>
    ensures { kinds result ≡ bare command words.now }
{
    words.end()?;
    Ok(command)
}

/// The one number of a byte that there has to be.
// Inlined, as the readers of one word after it.
#[inline(always)]
fn byte_of<'a>(words: &mut Words<'a>) -> Result<u8, Refusal<'a>>
    ensures { kinds result ≡ byte_of words.old }
{
    words.only(Expected::Byte)?.byte()
}

/// The one ID that there has to be.
#[inline(always)]
fn id_of<'a>(words: &mut Words<'a>) -> Result<u16, Refusal<'a>>
    ensures { kinds result ≡ id_of words.old }
{
    words.only(Expected::Id)?.id()
}

/// `ID`, of a sensor that is read.
fn read_sensor<'a>(words: &mut Words<'a>) -> Result<Command, Refusal<'a>>
    ensures { kinds result ≡ with_id (λ id. GetSensorReading id 0) words.old }
{
    let sensor = id_of(words)?;
    Ok(Command::GetSensorReading { sensor, rearm: 0 })
}

/// `ID SIZE VALUE`.
fn read_setnum<'a>(words: &mut Words<'a>) -> Result<Command, Refusal<'a>>
    ensures { kinds result ≡ setnum_of words.old }
{
    let id = words.next(Expected::Id)?;
    let size = words.next(Expected::Size)?;
    let word = words.only(Expected::Value)?;
    let size = size_of_word(&size)?;
    let effecter = id.id()?;
    let value = word.any_value()?;
    let value = sized(&word, size, value)?;
    Ok(Command::SetNumericEffecterValue { effecter, value })
}

/// The data size that a word names.
fn size_of_word<'a>(word: &Word<'a>) -> Result<Size, Refusal<'a>>
    ensures { kinds result ≡ size_in word.now }
{
    let Ok(name) = str::from_utf8(word.bytes()) else {
        return Err(Refusal::of_word(word.bytes(), Expected::Size));
    };
    match Size::named(name) {
        Some(size) => Ok(size),
        None => Err(Refusal::of_word(word.bytes(), Expected::Size)),
    }
}

/// The value that a word spells, with its size, where it fits.
fn sized<'a>(word: &Word<'a>, size: Size, value: i64) -> Result<Number, Refusal<'a>>
    ensures { kinds result ≡ sized_in size value }
{
    match Number::new(size, value) {
        Some(number) => Ok(number),
        None => Err(Refusal::of_number(word.bytes(), Expected::SizedValue(size))),
    }
}

/// `ID S ..`.
#[tactic(auto, using(crate::proofs::StateWords::many_states))]
fn read_setstate<'a>(words: &mut Words<'a>) -> Result<Command, Refusal<'a>>
    ensures { kinds result ≡ setstate_of words.old }
{
    let id = words.next(Expected::Id)?;
    let states = words.rest()?;
    if states.is_empty() {
        return Err(Refusal::of_end(Expected::State));
    }
    let effecter = id.id()?;
    let fields = read_states(&states)?;
    Ok(Command::SetStateEffecterStates { effecter, fields })
}

/// What is asked of each field.
fn read_states<'a>(words: &[Word<'a>]) -> Result<StateFields<SetStateField>, Refusal<'a>>
    requires { IsComposite words.now }
    ensures { kinds result ≡ states_in words.now }
{
    let mut fields = ArrayVec::<SetStateField, MAX_STATES>::new();
    for word in words {
        fields.push(read_state(word)?);
    }
    Ok(StateFields::new(&fields).unwrap())
}

/// `-` leaves a field as it is, a number asks for that state.
fn read_state<'a>(word: &Word<'a>) -> Result<SetStateField, Refusal<'a>>
    ensures { kinds result ≡ state_in word.now }
{
    if word.is(b"-") {
        return Ok(SetStateField {
            set_request: 0,
            state: 0,
        });
    }
    let state = word.state()?;
    Ok(SetStateField {
        set_request: 1,
        state,
    })
}

/// `RECORD TRANSFER OP COUNT`.
fn read_getpdr<'a>(words: &mut Words<'a>) -> Result<Command, Refusal<'a>>
    ensures { kinds result ≡ getpdr_of words.old }
{
    let handle = words.next(Expected::Handle)?;
    let transfer = words.next(Expected::Handle)?;
    let part = words.next(Expected::Part)?;
    let count = words.only(Expected::Id)?;
    let transfer_operation_flag = read_part(&part)?;
    let record_handle = handle.handle()?;
    let data_transfer_handle = transfer.handle()?;
    let request_count = count.id()?;
    Ok(Command::GetPdr {
        record_handle,
        data_transfer_handle,
        transfer_operation_flag,
        request_count,
        record_change_number: 0,
    })
}

/// Which part of a record is asked for: `first` or `next`.
#[inline(always)]
fn read_part<'a>(word: &Word<'a>) -> Result<u8, Refusal<'a>>
    ensures { kinds result ≡ part_in word.now }
{
    if word.is(b"first") {
        Ok(GET_FIRST_PART)
    } else if word.is(b"next") {
        Ok(GET_NEXT_PART)
    } else {
        Err(Refusal::of_word(word.bytes(), Expected::Part))
    }
}

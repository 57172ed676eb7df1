//! What a device is asked before an update: what it is, which firmware it has, and to end another update.

ghost use Rattle.std.specs.Prelude.{OnOk};
ghost use Rattle.mctpctl_input.specs.Ports.{BothWork};

use crate::session::{Keeps, SessionFault, keep_next};
use mctpctl_input::Port;
use pldm_line::{Ticks, Watch};
use pldm_terminus::Terminus;
use pldm_update::{
    DeviceIdentifiers, FirmwareParameters, NOT_IN_UPDATE_MODE, UpdateAnswer, UpdateCommand,
    UpdateFault,
};
use pldm_wire::SUCCESS;
use std::io::{Read, Write};
use update_line::{QuestionEnd, UpdateLine, take_turn};

/// The name of the question what a device is.
const IDENTIFIERS: &str = "QueryDeviceIdentifiers";

/// The name of the question which firmware it has.
const PARAMETERS: &str = "GetFirmwareParameters";

/// The name of the command that ends an update.
const CANCEL: &str = "CancelUpdate";

/// Asks what identifies the device.
pub(crate) fn ask_identifiers<C: Ticks, L: Watch, R: Read, W: Write, K: Keeps>(
    end: Terminus,
    line: &mut UpdateLine<C, L>,
    reader: &mut Port<R>,
    writer: &mut Port<W>,
    keeper: &mut K,
) -> Result<(Terminus, DeviceIdentifiers), SessionFault>
    requires works { BothWork reader.old writer.old }
    ensures works { OnOk result (BothWork reader.new writer.new) }
{
    let (end, answer) = ask(
        end,
        UpdateCommand::QueryDeviceIdentifiers,
        line,
        reader,
        writer,
        keeper,
    )?;
    let identifiers = identifiers_in(read(IDENTIFIERS, answer)?)?;
    Ok((end, identifiers))
}

/// Asks which firmware the device has.
pub(crate) fn ask_parameters<C: Ticks, L: Watch, R: Read, W: Write, K: Keeps>(
    end: Terminus,
    line: &mut UpdateLine<C, L>,
    reader: &mut Port<R>,
    writer: &mut Port<W>,
    keeper: &mut K,
) -> Result<(Terminus, FirmwareParameters), SessionFault>
    requires works { BothWork reader.old writer.old }
    ensures works { OnOk result (BothWork reader.new writer.new) }
{
    let (end, answer) = ask(
        end,
        UpdateCommand::GetFirmwareParameters,
        line,
        reader,
        writer,
        keeper,
    )?;
    let parameters = parameters_in(read(PARAMETERS, answer)?)?;
    Ok((end, parameters))
}

/// Ends the update that the device has under way, and returns whether it has none then.
pub(crate) fn cancel_update<C: Ticks, L: Watch, R: Read, W: Write, K: Keeps>(
    end: Terminus,
    line: &mut UpdateLine<C, L>,
    reader: &mut Port<R>,
    writer: &mut Port<W>,
    keeper: &mut K,
) -> Result<(Terminus, bool), SessionFault>
    requires works { BothWork reader.old writer.old }
    ensures works { OnOk result (BothWork reader.new writer.new) }
{
    let (end, answer) = ask(
        end,
        UpdateCommand::CancelUpdate,
        line,
        reader,
        writer,
        keeper,
    )?;
    let code = read(CANCEL, answer)?.code();
    Ok((end, matches!(code, SUCCESS | NOT_IN_UPDATE_MODE)))
}

/// The answer to a question of this name, where one came and is one.
fn read(
    name: &'static str,
    answer: Option<Result<UpdateAnswer, UpdateFault>>,
) -> Result<UpdateAnswer, SessionFault> {
    match answer {
        None => Err(SessionFault::NoAnswer(name)),
        Some(Err(_)) => Err(SessionFault::NotRead(name)),
        Some(Ok(answer)) => Ok(answer),
    }
}

/// What identifies the device, where the answer says that.
fn identifiers_in(answer: UpdateAnswer) -> Result<DeviceIdentifiers, SessionFault> {
    match answer {
        UpdateAnswer::QueryDeviceIdentifiers { identifiers } => Ok(identifiers),
        other => Err(refused(IDENTIFIERS, &other)),
    }
}

/// Which firmware the device has, where the answer says that.
fn parameters_in(answer: UpdateAnswer) -> Result<FirmwareParameters, SessionFault> {
    match answer {
        UpdateAnswer::GetFirmwareParameters { parameters } => Ok(parameters),
        other => Err(refused(PARAMETERS, &other)),
    }
}

/// Why another answer is none to a question of this name.
fn refused(name: &'static str, answer: &UpdateAnswer) -> SessionFault {
    match answer.code() {
        SUCCESS => SessionFault::NotRead(name),
        code => SessionFault::Refused(name, code),
    }
}

/// Asks a question, and returns its answer, where one came.
fn ask<C: Ticks, L: Watch, R: Read, W: Write, K: Keeps>(
    end: Terminus,
    command: UpdateCommand,
    line: &mut UpdateLine<C, L>,
    reader: &mut Port<R>,
    writer: &mut Port<W>,
    keeper: &mut K,
) -> Result<(Terminus, Option<Result<UpdateAnswer, UpdateFault>>), SessionFault>
    requires works { BothWork reader.old writer.old }
    ensures works { OnOk result (BothWork reader.new writer.new) }
{
    let mut question = QuestionEnd::new(end, command);
    follow(&mut question, line, reader, writer, keeper)?;
    let answer = question.answer();
    Ok((question.end, answer))
}

/// Follows a question until it has ended.
fn follow<C: Ticks, L: Watch, R: Read, W: Write, K: Keeps>(
    question: &mut QuestionEnd,
    line: &mut UpdateLine<C, L>,
    reader: &mut Port<R>,
    writer: &mut Port<W>,
    keeper: &mut K,
) -> Result<(), SessionFault>
    requires works { BothWork reader.old writer.old }
    ensures works { OnOk result (BothWork reader.new writer.new) }
{
    for _ in 0..u64::MAX {
        if question.is_over {
            return Ok(());
        }
        keep_next(&question.end, line.last.get(), keeper)?;
        match take_turn(question, line, reader, writer) {
            Ok(()) => {}
            Err(fault) => return Err(SessionFault::Line(fault)),
        }
    }
    Err(SessionFault::TooMany)
}

//! The words of one line of a schedule.

ghost use Rattle.std.specs.Prelude.{◌≡◌};
ghost use Rattle.line_words.specs.Lines.{said_words};
ghost use Rattle.schedule_text.specs.LineWords.{action_named, line_of, only_eid, only_number, open_of, reply_of, request_of, requester_of, restart_of, said_requester, said_step, sense_of, step_of, tick_of};
ghost use Rattle.schedule_text.specs.Refusals.{fault_of, kind_of, kinds};

use crate::command_words::read_command;
use crate::last_number::LastNumber;
use crate::word::Word;
use crate::words::{Words, words_in};
use crate::{Action, Expected, Refusal, RequesterLine, Step};
use mctp_packet::Eid;

/// Why a line, given without its LF, is refused by itself: with no regard to the lines before it. `None` where it may
/// stand after some lines.
pub fn refusal_of(line: &[u8]) -> Option<Refusal<'_>>
    ensures { kind_of result ≡ fault_of (line_of (said_words line.now)) }
{
    read_line(line).err()
}

/// Reads what a line says.
fn read_line(line: &[u8]) -> Result<(), Refusal<'_>>
    ensures { fault_of (kinds result) ≡ fault_of (line_of (said_words line.now)) }
{
    let Some((keyword, mut words)) = words_in(line) else {
        return Ok(());
    };
    if keyword.is(b"requester") {
        read_requester(&mut words)?;
        Ok(())
    } else if keyword.is(b"at") {
        read_step(&mut words)?;
        Ok(())
    } else {
        Err(Refusal::of_word(keyword.bytes(), Expected::Keyword))
    }
}

/// `at MS` and an action, by the words after the first.
fn read_step<'a>(words: &mut Words<'a>) -> Result<Step, Refusal<'a>>
    ensures { said_step (kinds result) ≡ step_of words.old }
{
    let moment = words.next(Expected::Moment)?;
    let name = words.next(Expected::Action)?;
    let action = read_action(&name, words)?;
    let moment = moment.moment()?;
    Ok(Step { moment, action })
}

/// `requester EID timeout MS tries N`, by the words after the first.
// Not inlined: few lines are of requesters.
#[inline(never)]
pub(crate) fn read_requester<'a>(words: &mut Words<'a>) -> Result<RequesterLine, Refusal<'a>>
    ensures { said_requester (kinds result) ≡ requester_of words.old }
{
    let eid = words.next(Expected::Eid)?;
    let timeout = words.next(Expected::TimeoutWord)?;
    let limit = words.next(Expected::Timeout)?;
    let tries = words.next(Expected::TriesWord)?;
    let count = words.only(Expected::Byte)?;
    if !timeout.is(b"timeout") {
        return Err(Refusal::of_word(timeout.bytes(), Expected::TimeoutWord));
    }
    if !tries.is(b"tries") {
        return Err(Refusal::of_word(tries.bytes(), Expected::TriesWord));
    }
    let eid = eid.eid()?;
    let timeout = limit.timeout()?;
    let tries = count.byte()?;
    Ok(RequesterLine {
        eid,
        timeout,
        tries,
    })
}

/// The action of this name, with the words after it.
// Not inlined: nearly all steps have a usual name.
#[inline(never)]
pub(crate) fn read_action<'a>(name: &Word<'a>, words: &mut Words<'a>) -> Result<Action, Refusal<'a>>
    ensures { kinds result ≡ action_named name.now words.old }
{
    if name.is(b"open") {
        read_open(words)
    } else if name.is(b"tick") {
        read_tick(words)
    } else if name.is(b"req") {
        read_request(words, &mut LastNumber::none())
    } else if name.is(b"rep") {
        read_reply(words, &mut LastNumber::none())
    } else if name.is(b"sense") {
        read_sense(words)
    } else if name.is(b"restart") {
        read_restart(words)
    } else if name.is(b"busy") {
        let number = only_number(words)?;
        Ok(Action::Busy { number })
    } else {
        Err(Refusal::of_word(name.bytes(), Expected::Action))
    }
}

/// The one endpoint ID that there has to be.
// Inlined, as the one after it: its result is then passed on in parts.
#[inline(always)]
fn only_eid<'a>(words: &mut Words<'a>) -> Result<Eid, Refusal<'a>>
    ensures { kinds result ≡ only_eid words.old }
{
    words.only(Expected::Eid)?.eid()
}

/// The one number that there has to be.
#[inline(always)]
fn only_number<'a>(words: &mut Words<'a>) -> Result<u64, Refusal<'a>>
    ensures { kinds result ≡ only_number words.old }
{
    words.only(Expected::Number)?.any_number()
}

/// `EID`.
pub(crate) fn read_tick<'a>(words: &mut Words<'a>) -> Result<Action, Refusal<'a>>
    ensures { kinds result ≡ tick_of words.old }
{
    let requester = only_eid(words)?;
    Ok(Action::Tick { requester })
}

/// `K`. `last` is the number of the step before that had one.
// Inlined, as the reading of a reply: it is then known which action it is.
#[inline(always)]
pub(crate) fn read_request<'a>(
    words: &mut Words<'a>,
    last: &mut LastNumber,
) -> Result<Action, Refusal<'a>>
    ensures { kinds result ≡ request_of words.old }
{
    let number = words.next_like(last, Expected::Number)?;
    words.end()?;
    let number = number.any_number()?;
    Ok(Action::Request { number })
}

/// `EID COMMAND`.
// Inlined: of a refusal a schedule that is read keeps the kind alone.
#[inline(always)]
pub(crate) fn read_open<'a>(words: &mut Words<'a>) -> Result<Action, Refusal<'a>>
    ensures { kinds result ≡ open_of words.old }
{
    let eid = words.next(Expected::Eid)?;
    let command = read_command(words)?;
    let requester = eid.eid()?;
    Ok(Action::Open { requester, command })
}

/// `K J`. `last` is the number of the step before that had one.
// Inlined: nearly half of all steps are replies.
#[inline(always)]
pub(crate) fn read_reply<'a>(
    words: &mut Words<'a>,
    last: &mut LastNumber,
) -> Result<Action, Refusal<'a>>
    ensures { kinds result ≡ reply_of words.old }
{
    let number = words.next_like(last, Expected::Number)?;
    let packet = words.only(Expected::Byte)?;
    let number = number.any_number()?;
    let packet = packet.byte()?;
    Ok(Action::Reply { number, packet })
}

/// `ID VALUE`.
fn read_sense<'a>(words: &mut Words<'a>) -> Result<Action, Refusal<'a>>
    ensures { kinds result ≡ sense_of words.old }
{
    let sensor = words.next(Expected::Id)?;
    let value = words.only(Expected::Value)?;
    let sensor = sensor.id()?;
    let value = value.any_value()?;
    Ok(Action::Sense { sensor, value })
}

/// No word.
fn read_restart<'a>(words: &mut Words<'a>) -> Result<Action, Refusal<'a>>
    ensures { kinds result ≡ restart_of words.old }
{
    words.end()?;
    Ok(Action::Restart)
}

//! The lines of a device in a report: its terminus ID, and the states of its sensors and effecters.

ghost use Rattle.mctpctl_texts.specs.EntryTexts.{numbers_text};
ghost use Rattle.mctpctl_texts.specs.ReportTexts.{device_text, numerics_text, sensors_text, states_line, states_text, tid_line, value_line};
ghost use Rattle.mctpctl_texts.specs.Writers.{Wrote};

use crate::parts::{write_number, write_signed, write_text};
use crate::text_writer::TextWriter;
use simulated_device::SimDevice;

/// Writes the lines of a device: its terminus ID, and by their IDs its numeric sensors, its numeric
/// effecters and its state effecters.
pub(crate) fn write_device<O: TextWriter>(out: &mut O, device: &SimDevice) -> Result<(), O::Refusal>
    ensures { Wrote O.contents O.failed O.refused out.old out.new (device_text device.now) result }
{
    write_tid_line(out, device.tid())?;
    write_sensors(out, device)?;
    write_numerics(out, device)?;
    write_states(out, device)
}

fn write_tid_line<O: TextWriter>(out: &mut O, tid: u8) -> Result<(), O::Refusal>
    ensures { Wrote O.contents O.failed O.refused out.old out.new (tid_line tid) result }
{
    write_text(out, "tid ")?;
    write_number(out, tid.into())?;
    write_text(out, "\n")
}

fn write_sensors<O: TextWriter>(out: &mut O, device: &SimDevice) -> Result<(), O::Refusal>
    ensures { Wrote O.contents O.failed O.refused out.old out.new (sensors_text device.now) result }
{
    let mut place = 0;
    while let Some((id, value)) = device.sensor(place) {
        write_value_line(out, "sensor", id, value)?;
        place += 1;
    }
    Ok(())
}

fn write_numerics<O: TextWriter>(out: &mut O, device: &SimDevice) -> Result<(), O::Refusal>
    ensures { Wrote O.contents O.failed O.refused out.old out.new (numerics_text device.now) result }
{
    let mut place = 0;
    while let Some((id, value)) = device.numeric(place) {
        write_value_line(out, "numeric", id, value)?;
        place += 1;
    }
    Ok(())
}

fn write_states<O: TextWriter>(out: &mut O, device: &SimDevice) -> Result<(), O::Refusal>
    ensures { Wrote O.contents O.failed O.refused out.old out.new (states_text device.now) result }
{
    let mut place = 0;
    while let Some((id, states)) = device.state(place) {
        write_states_line(out, id, states)?;
        place += 1;
    }
    Ok(())
}

fn write_value_line<O: TextWriter>(
    out: &mut O,
    kind: &str,
    id: u16,
    value: i64,
) -> Result<(), O::Refusal>
    ensures { Wrote O.contents O.failed O.refused out.old out.new (value_line kind.now (id, value)) result }
{
    write_text(out, kind)?;
    write_text(out, " ")?;
    write_number(out, id.into())?;
    write_text(out, " ")?;
    write_signed(out, value)?;
    write_text(out, "\n")
}

fn write_states_line<O: TextWriter>(out: &mut O, id: u16, states: &[u8]) -> Result<(), O::Refusal>
    ensures { Wrote O.contents O.failed O.refused out.old out.new (states_line (id, states.now)) result }
{
    write_text(out, "state ")?;
    write_number(out, id.into())?;
    write_bytes_in_decimal(out, states)?;
    write_text(out, "\n")
}

/// Writes bytes in decimal, a space before each.
fn write_bytes_in_decimal<O: TextWriter>(out: &mut O, bytes: &[u8]) -> Result<(), O::Refusal>
    ensures { Wrote O.contents O.failed O.refused out.old out.new (numbers_text bytes.now) result }
{
    for i in 0..bytes.len() {
        write_text(out, " ")?;
        write_number(out, bytes[i].into())?;
    }
    Ok(())
}

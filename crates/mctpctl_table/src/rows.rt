//! The rows of the table for a sensor or an effecter, made from its record and its answer.

ghost use Rattle.std.specs.Prelude.{◌≡◌, ◌++◌, IfOk, OnOk, length, map, option_map};
ghost use Rattle.mctpctl_table.specs.Replies.{numeric_reading};
ghost use Rattle.mctpctl_table.specs.Rows.{data_rows, field_rows, field_state, field_value, name_at, numeric_row, numeric_rows, numeric_state, numeric_value, state_rows};
ghost use Rattle.mctpctl_table.specs.States.{what_text};
ghost use Rattle.mctpctl_table.specs.Tables.{cells};

use crate::identifier::Identifier;
use crate::reading::{StateReading, numeric_reading, state_reading};
use crate::record_names::{dash, name_at};
use crate::reply::{Reply, reply_to};
use crate::row::Row;
use crate::state_text::{push_missing, push_operation, push_state_value, push_states};
use crate::value::push_value;
use mctp_packet::Memory;
use pldm_pdr::{Conversion, PossibleStates, RecordData, Units};
use std::alloc::Global;

/// Adds the rows of the sensor or effecter that a record describes.
#[tactic(auto, unfolding(crate::specs::Rows::data_rows))]
pub(crate) fn push_data_rows(
    rows: &mut Vec<Row>,
    alloc: Global,
    contents: &RecordData,
    names: &[Vec<u8>],
    message: Option<&[u8]>,
) -> Result<(), Memory>
    ensures { OnOk result (rows.new.items ≡ rows.old.items ++ data_rows contents.now
        (map (λ name. name.items) names.now) (option_map (λ bytes. bytes.now) message.entry)) }
{
    match contents {
        RecordData::NumericSensor(sensor) => {
            let identifier = Identifier::Sensor {
                terminus: sensor.terminus_handle,
                id: sensor.sensor_id,
            };
            push_numeric_row(
                rows,
                alloc,
                &identifier,
                &sensor.conversion,
                &sensor.units,
                names,
                message,
            )
        }
        RecordData::NumericEffecter(effecter) => {
            let identifier = Identifier::Effecter {
                terminus: effecter.terminus_handle,
                id: effecter.effecter_id,
            };
            push_numeric_row(
                rows,
                alloc,
                &identifier,
                &effecter.conversion,
                &effecter.units,
                names,
                message,
            )
        }
        RecordData::StateSensor(sensor) => {
            let identifier = Identifier::Sensor {
                terminus: sensor.terminus_handle,
                id: sensor.sensor_id,
            };
            push_state_rows(rows, alloc, &identifier, &sensor.sets, names, message)
        }
        RecordData::StateEffecter(effecter) => {
            let identifier = Identifier::Effecter {
                terminus: effecter.terminus_handle,
                id: effecter.effecter_id,
            };
            push_state_rows(rows, alloc, &identifier, &effecter.sets, names, message)
        }
        _ => Ok(()),
    }
}

/// Adds the row of a numeric sensor or effecter.
fn push_numeric_row(
    rows: &mut Vec<Row>,
    alloc: Global,
    identifier: &Identifier,
    conversion: &Conversion,
    units: &Units,
    names: &[Vec<u8>],
    message: Option<&[u8]>,
) -> Result<(), Memory>
    ensures { OnOk result (rows.new.items ≡ rows.old.items ++ numeric_rows identifier.now conversion.now units.now
        (map (λ name. name.items) names.now) (option_map (λ bytes. bytes.now) message.entry)) }
{
    let reply = reply_to(&identifier.numeric_command(), message);
    let row = numeric_row(alloc, identifier, conversion, units, names, &reply)?;
    rows.push(row)?;
    Ok(())
}

/// The row of a numeric sensor or effecter.
#[tactic(auto, unfolding(crate::specs::Rows::numeric_row))]
fn numeric_row(
    alloc: Global,
    identifier: &Identifier,
    conversion: &Conversion,
    units: &Units,
    names: &[Vec<u8>],
    reply: &Reply,
) -> Result<Row, Memory>
    ensures { IfOk result (λ row. row
        ≡ numeric_row identifier.now conversion.now units.now (map (λ name. name.items) names.now) reply.now) }
{
    let what = what_cell(alloc, identifier)?;
    let name = name_at(alloc, names, 0)?;
    let value = numeric_value(alloc, conversion, units, reply)?;
    let state = numeric_state(alloc, identifier, reply)?;
    Ok(Row::new(what, name, value, state))
}

/// What it is.
fn what_cell(alloc: Global, identifier: &Identifier) -> Result<Vec<u8>, Memory>
    ensures { IfOk result (λ cell. cell.items ≡ what_text identifier.now) }
{
    let mut cell = Vec::new(alloc);
    identifier.push_what(&mut cell)?;
    Ok(cell)
}

/// The value of a numeric sensor or effecter.
fn numeric_value(
    alloc: Global,
    conversion: &Conversion,
    units: &Units,
    reply: &Reply,
) -> Result<Vec<u8>, Memory>
    ensures { IfOk result (λ cell. cell.items
        ≡ numeric_value conversion.now units.now (numeric_reading reply.now)) }
{
    let Some(reading) = numeric_reading(reply) else {
        return dash(alloc);
    };
    let mut cell = Vec::new(alloc);
    push_value(&mut cell, conversion, units, reading.value)?;
    Ok(cell)
}

/// The state of a numeric sensor or effecter.
fn numeric_state(alloc: Global, identifier: &Identifier, reply: &Reply) -> Result<Vec<u8>, Memory>
    ensures { IfOk result (λ cell. cell.items ≡ numeric_state identifier.now reply.now (numeric_reading reply.now)) }
{
    let mut cell = Vec::new(alloc);
    match numeric_reading(reply) {
        Some(reading) => push_states(&mut cell, identifier, reading.state, reading.operational)?,
        None => push_missing(&mut cell, identifier.numeric_command().kind(), reply)?,
    }
    Ok(cell)
}

/// Adds the rows of a state sensor or effecter, one for each of its fields.
fn push_state_rows(
    rows: &mut Vec<Row>,
    alloc: Global,
    identifier: &Identifier,
    sets: &[PossibleStates],
    names: &[Vec<u8>],
    message: Option<&[u8]>,
) -> Result<(), Memory>
    ensures { OnOk result (rows.new.items ≡ rows.old.items ++ state_rows identifier.now sets.now
        (map (λ name. name.items) names.now) (option_map (λ bytes. bytes.now) message.entry)) }
{
    let reply = reply_to(&identifier.state_command(), message);
    push_field_rows(rows, alloc, identifier, sets, names, &reply)
}

/// Adds a row for each field.
fn push_field_rows(
    rows: &mut Vec<Row>,
    alloc: Global,
    identifier: &Identifier,
    sets: &[PossibleStates],
    names: &[Vec<u8>],
    reply: &Reply,
) -> Result<(), Memory>
    ensures { OnOk result (rows.new.items ≡ rows.old.items
        ++ field_rows identifier.now (length sets.now) 0 sets.now (map (λ name. name.items) names.now) reply.now) }
{
    for place in 0..sets.len() {
        let reading = state_reading(sets.len(), place, reply);
        let row = field_row(
            alloc,
            identifier,
            place,
            &sets[place],
            names,
            reply,
            &reading,
        )?;
        rows.push(row)?;
    }
    Ok(())
}

/// The row of a field that says this.
fn field_row(
    alloc: Global,
    identifier: &Identifier,
    place: usize,
    states: &PossibleStates,
    names: &[Vec<u8>],
    reply: &Reply,
    reading: &Option<StateReading>,
) -> Result<Row, Memory>
    ensures { IfOk result (λ row. row
        ≡ cells (what_text identifier.now) (name_at (map (λ name. name.items) names.now) place)
        (field_value states.now reading.now) (field_state identifier.now reply.now reading.now)) }
{
    let what = what_cell(alloc, identifier)?;
    let name = name_at(alloc, names, place)?;
    let value = field_value(alloc, states, reading)?;
    let state = field_state(alloc, identifier, reply, reading)?;
    Ok(Row::new(what, name, value, state))
}

/// The state of a field, its state set and the states that are possible.
fn field_value(
    alloc: Global,
    states: &PossibleStates,
    reading: &Option<StateReading>,
) -> Result<Vec<u8>, Memory>
    ensures { IfOk result (λ cell. cell.items ≡ field_value states.now reading.now) }
{
    let Some(reading) = reading else {
        return dash(alloc);
    };
    let mut cell = Vec::new(alloc);
    push_state_value(&mut cell, alloc, states, reading.state)?;
    Ok(cell)
}

/// The operational state of a field.
fn field_state(
    alloc: Global,
    identifier: &Identifier,
    reply: &Reply,
    reading: &Option<StateReading>,
) -> Result<Vec<u8>, Memory>
    ensures { IfOk result (λ cell. cell.items ≡ field_state identifier.now reply.now reading.now) }
{
    let mut cell = Vec::new(alloc);
    match reading {
        Some(reading) => push_operation(&mut cell, identifier, reading.operational)?,
        None => push_missing(&mut cell, identifier.state_command().kind(), reply)?,
    }
    Ok(cell)
}

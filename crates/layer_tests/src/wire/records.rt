//! Terminus locators, state sensors, state effecters and names.

use crate::expect::expect_eq;
use arrayvec::ArrayVec;
use pldm_pdr::{
    EffecterNames, Entity, EntityNames, PossibleStates, Record, RecordData, SensorNames,
    StateEffecter, StateSensor, TerminusLocator, read, write,
};
use std::process::Abort;

/// The record of this handle, change number and data is written as these bytes, and they are read as it.
pub fn both_ways(
    rt: &impl Abort,
    bytes: &[u8],
    handle: u32,
    change_number: u16,
    contents: RecordData,
) {
    let made = Record::new(handle, change_number, contents).expect(rt, "a record");
    expect_eq(rt, write(&made).as_slice(), bytes, handle);
    expect_eq(rt, read(bytes).as_ref(), Ok(&made), handle);
}

const LOCATOR: [u8; 19] = [
    0x01, 0x00, 0x00, 0x00, // record handle 1
    0x01, // header version
    0x01, // terminus locator
    0x00, 0x00, // record change number
    0x09, 0x00, // data length
    0x02, 0x01, // terminus handle 0x0102
    0x01, // valid
    0x05, // terminus ID
    0x64, 0x00, // container ID 100
    0x01, // an MCTP endpoint ID
    0x01, // of one byte
    0x09, // endpoint ID
];

#[test]
fn a_terminus_locator(rt: HostRuntime) {
    let locator = TerminusLocator {
        terminus_handle: 0x0102,
        is_valid: true,
        tid: 5,
        container_id: 100,
        eid: 9,
    };
    both_ways(&rt, &LOCATOR, 1, 0, RecordData::TerminusLocator(locator));
}

const STATES: [u8; 32] = [
    0x04, 0x03, 0x02, 0x01, // record handle 0x01020304
    0x01, // header version
    0x04, // state sensor
    0x07, 0x00, // record change number 7
    0x16, 0x00, // data length 22
    0x01, 0x00, // terminus handle
    0x0A, 0x00, // sensor ID 10
    0x40, 0x00, // entity type 64, a system board
    0x01, 0x00, // entity instance
    0x64, 0x00, // container ID 100
    0x00, // no init
    0x00, // no auxiliary names
    0x02, // two sensors
    0x01, 0x00, // state set 1, health
    0x01, // in one byte
    0x06, // states 1 and 2
    0x02, 0x01, // state set 258
    0x02, // in two bytes
    0x01, 0x02, // states 0 and 9
];

/// Of these states the set has those for which the row says so.
fn expect_states(rt: &impl Abort, set: &PossibleStates, rows: &[(u8, bool)]) {
    for (state, has) in rows {
        expect_eq(rt, set.has_state(*state), *has, state);
    }
}

#[test]
fn states_of_a_set(rt: HostRuntime) {
    let first = PossibleStates::of(1, &[2, 1]);
    let states = [(0, false), (1, true), (2, true), (3, false), (10, false)];
    expect_states(&rt, &first, &states);
    let second = PossibleStates::of(258, &[9, 0]);
    expect_states(&rt, &second, &[(0, true), (8, false), (9, true)]);
}

#[test]
fn a_state_sensor(rt: HostRuntime) {
    let mut sets = ArrayVec::new();
    let _ = sets.try_push(PossibleStates::of(1, &[2, 1]));
    let _ = sets.try_push(PossibleStates::of(258, &[9, 0]));
    let sensor = StateSensor {
        terminus_handle: 1,
        sensor_id: 10,
        entity: Entity {
            entity_type: 64,
            instance: 1,
            container_id: 100,
        },
        init: 0,
        has_auxiliary_names: false,
        sets,
    };
    both_ways(
        &rt,
        &STATES,
        0x0102_0304,
        7,
        RecordData::StateSensor(sensor),
    );
}

const EFFECTER: [u8; 29] = [
    0x02, 0x00, 0x00, 0x00, // record handle 2
    0x01, // header version
    0x0B, // state effecter
    0x00, 0x00, // record change number
    0x13, 0x00, // data length 19
    0x01, 0x00, // terminus handle
    0x14, 0x00, // effecter ID 20
    0x40, 0x00, // entity type 64
    0x02, 0x00, // entity instance 2
    0x00, 0x00, // container ID 0
    0x03, 0x00, // semantic ID 3
    0x00, // no init
    0x01, // a description goes with it
    0x01, // one effecter
    0x05, 0x00, // state set 5
    0x01, // in one byte
    0x1E, // states 1 to 4
];

#[test]
fn a_state_effecter(rt: HostRuntime) {
    let mut sets = ArrayVec::new();
    let _ = sets.try_push(PossibleStates::of(5, &[1, 2, 3, 4]));
    let effecter = StateEffecter {
        terminus_handle: 1,
        effecter_id: 20,
        entity: Entity {
            entity_type: 64,
            instance: 2,
            container_id: 0,
        },
        semantic_id: 3,
        init: 0,
        has_description: true,
        sets,
    };
    both_ways(&rt, &EFFECTER, 2, 0, RecordData::StateEffecter(effecter));
}

const NAMES: [u8; 49] = [
    0x05, 0x00, 0x00, 0x00, // record handle 5
    0x01, // header version
    0x06, // sensor auxiliary names
    0x00, 0x00, // record change number
    0x27, 0x00, // data length 39
    0x01, 0x00, // terminus handle
    0x05, 0x00, // sensor ID 5
    0x02, // two sensors
    0x02, // two names of the first
    0x65, 0x6E, 0x00, // language tag "en"
    0x00, 0x54, 0x00, 0x31, 0x00, 0x00, // "T1"
    0x64, 0x65, 0x2D, 0x41, 0x54, 0x00, // language tag "de-AT"
    0x00, 0xDC, 0x00, 0x00, // "Ü"
    0x01, // one name of the second
    0x65, 0x6E, 0x00, // language tag "en"
    0x00, 0x46, 0x00, 0x61, 0x00, 0x6E, 0x00, 0x31, 0x00, 0x00, // "Fan1"
];

#[test]
fn names_of_a_sensor(rt: HostRuntime) {
    let mut names = ArrayVec::new();
    let _ = names.try_extend_from_slice(&NAMES[14..]);
    let record = SensorNames {
        terminus_handle: 1,
        sensor_id: 5,
        names,
    };
    both_ways(&rt, &NAMES, 5, 0, RecordData::SensorNames(record));
}

const TERMINUS_NAME: [u8; 31] = [
    0x06, 0x00, 0x00, 0x00, // record handle 6
    0x01, // header version
    0x10, // entity auxiliary names
    0x00, 0x00, // record change number
    0x15, 0x00, // data length 21
    0x40, 0x00, // entity type 64
    0x01, 0x00, // entity instance
    0x64, 0x00, // container ID 100
    0x00, // no shared names
    0x01, // one name
    0x65, 0x6E, 0x00, // language tag "en"
    0x00, 0x66, 0x00, 0x61, 0x00, 0x6E, 0x00, 0x73, 0x00, 0x00, // "fans"
];

#[test]
fn the_name_of_a_terminus(rt: HostRuntime) {
    let mut names = ArrayVec::new();
    let _ = names.try_extend_from_slice(&TERMINUS_NAME[17..]);
    let record = EntityNames {
        entity: Entity {
            entity_type: 64,
            instance: 1,
            container_id: 100,
        },
        names,
    };
    both_ways(&rt, &TERMINUS_NAME, 6, 0, RecordData::EntityNames(record));
}

#[test]
fn names_that_are_not_whole(rt: HostRuntime) {
    let mut names = ArrayVec::new();
    let _ = names.try_extend_from_slice(&[1, 0x65, 0x6E, 0x00, 0x00, 0x54, 0x00]);
    let record = EffecterNames {
        terminus_handle: 1,
        effecter_id: 6,
        names,
    };
    let made = Record::new(7, 0, RecordData::EffecterNames(record));
    expect_eq(&rt, made.is_some(), false, "made");
}

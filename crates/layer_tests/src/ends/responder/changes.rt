//! A platform that is changed from outside, and what a lamp answers.

ghost use Rattle.std.specs.Prelude.{◌≡◌, true};
ghost use Rattle.pldm_responder.specs.ResponderStates.{IsHeld};
ghost use Rattle.pldm_responder.specs.ResponderViews.{held_of};
ghost use Rattle.pldm_responder.specs.Steps.{updated_held};
ghost use Rattle.pldm_wire.specs.Numbers.{sized};

use super::*;
use lamp_board::Lamp;
use pldm_wire::Size;

/// GetSensorReading of sensor 1, with instance IDs 3 and 4.
const READ: &[u8] = b"\x01\x09\x08\xcb\x01\x83\x02\x11\x01\x00\x00";

const READ_LATER: &[u8] = b"\x01\x09\x08\xcc\x01\x84\x02\x11\x01\x00\x00";

/// The answers: a level of 5, and one of 70.
const LEVEL_5: &[u8] = b"\x01\x08\x09\xc3\x01\x03\x02\x11\x00\x00\x00\x00\x01\x01\x01\x05";

const LEVEL_70: &[u8] = b"\x01\x08\x09\xc4\x01\x04\x02\x11\x00\x00\x00\x00\x01\x01\x01\x46";

/// A lamp of this level.
fn lamp_of(rt: &impl Abort, percent: i64) -> Lamp {
    Lamp::new(percent).expect(rt, "a level")
}

/// A lamp of level 5 at endpoint 9 that has told it at 0.
fn lamp(rt: &impl Abort, alloc: Global) -> Responder<Lamp> {
    let mut lamp = at_9(rt, alloc, lamp_of(rt, 5));
    expect(rt, &mut lamp, &(0, READ, Fate::Read(LEVEL_5)));
    lamp
}

/// Turns the lamp behind a responder by hand. All else that the responder holds stays.
fn turn(lamp: &mut Responder<Lamp>, percent: i64) -> bool
    ensures { result ≡ true
        → IsHeld (held_of lamp.new) (updated_held (held_of lamp.old) (sized Size.Uint8 percent)) }
{
    lamp.update().turn(percent)
}

/// A copy gets its old answer, and the next fresh request reads what was left.
fn expect_old_and_new(rt: &impl Abort, lamp: &mut Responder<Lamp>) {
    let rows = &[
        (1, READ, Fate::Copy(LEVEL_5)),
        (2, READ_LATER, Fate::Read(LEVEL_70)),
        (999, READ, Fate::Copy(LEVEL_5)),
    ];
    play(rt, lamp, rows);
    assert_eq!(rt; (lamp.platform().level(), lamp.kept()), (70, 2));
}

#[test]
fn change_from_outside_is_read_by_the_next_fresh_request(rt: HostRuntime) {
    let mut lamp = lamp(&rt, rt.alloc());
    assert!(rt; turn(&mut lamp, 70));
    assert!(rt; !turn(&mut lamp, 101));
    expect_old_and_new(&rt, &mut lamp);
}

#[test]
fn replaced_platform_is_read_by_the_next_fresh_request(rt: HostRuntime) {
    let mut lamp = lamp(&rt, rt.alloc());
    lamp.replace(lamp_of(&rt, 70));
    expect_old_and_new(&rt, &mut lamp);
}

/// Commands with the instance IDs 0 to 7, and what becomes of them.
const TABLE: &[Row<'_>] = &[
    // GetPLDMTypes
    (
        0,
        b"\x01\x09\x08\xc8\x01\x80\x00\x04",
        Fate::Read(b"\x01\x08\x09\xc0\x01\x00\x00\x04\x00\x05\x00\x00\x00\x00\x00\x00\x00"),
    ),
    // effecter 1 is set to 100, and then to 101
    (
        0,
        b"\x01\x09\x08\xc8\x01\x81\x02\x31\x01\x00\x00\x64",
        Fate::Set(b"\x01\x08\x09\xc0\x01\x01\x02\x31\x00"),
    ),
    (
        0,
        b"\x01\x09\x08\xc8\x01\x82\x02\x31\x01\x00\x00\x65",
        Fate::Read(b"\x01\x08\x09\xc0\x01\x02\x02\x31\x02"),
    ),
    // to 1, as a number of two bytes
    (
        0,
        b"\x01\x09\x08\xc8\x01\x83\x02\x31\x01\x00\x02\x01\x00",
        Fate::Read(b"\x01\x08\x09\xc0\x01\x03\x02\x31\x02"),
    ),
    // effecter 2
    (
        0,
        b"\x01\x09\x08\xc8\x01\x84\x02\x31\x02\x00\x00\x01",
        Fate::Read(b"\x01\x08\x09\xc0\x01\x04\x02\x31\x80"),
    ),
    // the values of effecter 1
    (
        0,
        b"\x01\x09\x08\xc8\x01\x85\x02\x32\x01\x00",
        Fate::Read(b"\x01\x08\x09\xc0\x01\x05\x02\x32\x00\x00\x01\x64\x64"),
    ),
    // sensor 2
    (
        0,
        b"\x01\x09\x08\xc8\x01\x86\x02\x11\x02\x00\x00",
        Fate::Read(b"\x01\x08\x09\xc0\x01\x06\x02\x11\x80"),
    ),
    // SetTID
    (
        0,
        b"\x01\x09\x08\xc8\x01\x87\x00\x01\x05",
        Fate::Read(b"\x01\x08\x09\xc0\x01\x07\x00\x01\x05"),
    ),
];

#[test]
fn lamp_answers_by_its_table(rt: HostRuntime) {
    let mut lamp = at_9(&rt, rt.alloc(), lamp_of(&rt, 5));
    play(&rt, &mut lamp, TABLE);
    assert_eq!(rt; lamp.platform().level(), 100);
}

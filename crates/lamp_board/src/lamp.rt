//! A lamp whose level is set and read: the least that a platform has to be.

ghost use Rattle.std.specs.Prelude.{◌≡◌, true, false, IfSome, is_some};
ghost use Rattle.pldm_wire.specs.Numbers.{sized};
ghost use Rattle.lamp_board.specs.Lamps.{is_level, lamp_after, lamp_answer, lamp_answers, lamp_reads_only, lamp_refusal, lamp_sensed};

use crate::lighting::{SENSOR, after, answer, level_of};
use mctp_packet::Memory;
use pldm_platform::{Platform, ReadingFault};
use pldm_wire::{Answer, Command, Number, Size};
use std::alloc::Global;

/// A lamp with a level in percent, which numeric effecter 1 sets and numeric sensor 1 reads.
///
/// It is the least that a platform has to be: a state, what a command answers in it, and what the command leaves. Its
/// state is its level. `lamp_answer`, `lamp_after` and `lamp_sensed` in `specs/Lamps.antt` say what the code does, and
/// the laws that the trait asks for are proved of them there.
#[derive(Drop)]
pub struct Lamp {
    level: Number,
}

impl Lamp {
    /// A lamp at a level in percent, 0 to 100.
    pub fn new(percent: i64) -> Option<Lamp>
        ensures test { is_some result ≡ is_level percent }
        ensures level { IfSome result (λ lamp. lamp.level ≡ sized Size.Uint8 percent) }
    {
        let level = level_of(percent)?;
        Some(Lamp { level })
    }

    /// Its level in percent.
    pub fn level(&self) -> i64
        ensures { result ≡ self.now.level.value }
    {
        self.level.value()
    }

    /// Turns it by hand to a level in percent, 0 to 100, and returns `true`. For any other number it returns `false`
    /// and leaves the lamp as it is.
    pub fn turn(&mut self, percent: i64) -> bool
        ensures test { result ≡ is_level percent }
        ensures turned { result ≡ true → self.new.level ≡ sized Size.Uint8 percent }
        ensures left { result ≡ false → self.new ≡ self.old }
    {
        match level_of(percent) {
            Some(level) => {
                self.level = level;
                true
            }
            None => false,
        }
    }
}

impl Platform for Lamp {
    type State = Number;

    const STEADY: bool = true;

    ghost STEADY = { true };

    ghost state = { λ lamp. lamp.level };

    ghost answer = { lamp_answer };

    ghost after = { lamp_after };

    ghost sensed = { lamp_sensed };

    // it keeps no account of the commands
    ghost performed = { λ before commands after. Unit {0} };

    ghost reads_only = { lamp_reads_only };

    ghost refusal_changes_nothing = { lamp_refusal };

    ghost answers_the_command = { lamp_answers };

    ghost none_performed = { λ value. tt };

    ghost performed_in_turn = { λ first second third before after one other. tt };

    fn perform(&mut self, _alloc: Global, command: &Command) -> Result<Answer, Memory> {
        let given = answer(self.level, command);
        self.level = after(self.level, command);
        Ok(given)
    }

    fn set_reading(&mut self, id: u16, value: i64) -> Result<(), ReadingFault> {
        if id != SENSOR {
            return Err(ReadingFault::NoSuchSensor);
        }
        match level_of(value) {
            Some(level) => {
                self.level = level;
                Ok(())
            }
            None => Err(ReadingFault::OutOfSize),
        }
    }
}

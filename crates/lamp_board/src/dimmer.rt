//! A lamp that may want memory, and that counts what it performs.

ghost use Rattle.std.specs.Prelude.{◌≡◌, false, pos, IfOk, OnOk, OnErr};
ghost use Rattle.pldm_wire.specs.Numbers.{sized};
ghost use Rattle.pldm_platform.specs.Changes.{Changes};
ghost use Rattle.lamp_board.specs.Counts.{Counts, counted, counts_in_turn, counts_none};
ghost use Rattle.lamp_board.specs.Lamps.{lamp_after, lamp_answer, lamp_answers, lamp_reads_only, lamp_refusal, lamp_sensed};

use crate::lighting::{SENSOR, after, answer, level_of};
use mctp_packet::Memory;
use pldm_platform::{Platform, ReadingFault};
use pldm_wire::{Answer, Command, Number, Size};
use std::alloc::{AllocError, Global};

/// The lamp of [`crate::Lamp`] with its level in a box, which it makes anew for each command that sets.
///
/// It shows two things that a platform may do. It may want memory: `STEADY` is false, and where the box is refused
/// `perform` is Memory and the level is as before, so the command may come again. And it may keep an account of the
/// commands: `performed` relates two values by how many were performed from the one to the other, and what is proved
/// over it, as by `pldm_responder::Responder`, then says that none was performed in secret.
#[derive(Drop)]
pub struct Dimmer {
    level: Box<Number>,
    /// How many commands it was given, those that wanted memory among them. No command returns it.
    asked: u32,
    /// How many commands it performed.
    performed: u32,
}

impl Dimmer {
    /// A dimmer at level 0, which was given no command.
    ///
    /// # Errors
    ///
    /// `AllocError` where the box for its level was refused.
    pub fn new(alloc: Global) -> Result<Dimmer, AllocError>
        ensures level { IfOk result (λ dimmer. dimmer.level.value ≡ sized Size.Uint8 (pos 0)) }
        ensures asked { IfOk result (λ dimmer. dimmer.asked ≡ 0) }
        ensures performed { IfOk result (λ dimmer. dimmer.performed ≡ 0) }
    {
        let level = match level_of(0) {
            Some(level) => level,
            None => unreachable!(),
        };
        Ok(Dimmer {
            level: Box::new(alloc, level)?,
            asked: 0,
            performed: 0,
        })
    }

    /// Its level in percent.
    pub fn level(&self) -> i64
        ensures { result ≡ self.now.level.value.value }
    {
        self.level.value()
    }

    /// How many commands it was given, up to the most that 32 bits hold.
    pub fn asked(&self) -> u32
        ensures { result ≡ self.now.asked }
    {
        self.asked
    }

    /// How many commands it performed, up to the most that 32 bits hold.
    pub fn performed(&self) -> u32
        ensures { result ≡ self.now.performed }
    {
        self.performed
    }
}

impl Platform for Dimmer {
    type State = Number;

    const STEADY: bool = false;

    ghost STEADY = { false };

    ghost state = { λ dimmer. dimmer.level.value };

    ghost answer = { lamp_answer };

    ghost after = { lamp_after };

    ghost sensed = { lamp_sensed };

    ghost performed = { λ before commands after. Counts before.performed commands after.performed };

    ghost reads_only = { lamp_reads_only };

    ghost refusal_changes_nothing = { lamp_refusal };

    ghost answers_the_command = { lamp_answers };

    ghost none_performed = { λ value. counts_none value.performed };

    ghost performed_in_turn = { λ first second third before after one other.
        counts_in_turn first.performed second.performed third.performed before after one other };

    /// What the trait says of it, and what the two counts are: a command that wanted memory was asked, and is not
    /// performed.
    fn perform(&mut self, alloc: Global, command: &Command) -> Result<Answer, Memory>
        ensures answered { IfOk result (λ given. given ≡ lamp_answer self.old.level.value command.now) }
        ensures changed { OnOk result (self.new.level.value ≡ lamp_after self.old.level.value command.now) }
        ensures unchanged { OnErr result (self.new.level.value ≡ self.old.level.value) }
        ensures performs { OnOk result (self.new.performed ≡ counted self.old.performed) }
        ensures performs_none { OnErr result (self.new.performed ≡ self.old.performed) }
        ensures asked { self.new.asked ≡ counted self.old.asked }
    {
        self.asked = self.asked.saturating_add(1);
        let given = answer(*self.level, command);
        if let Command::SetNumericEffecterValue { .. } = command {
            self.level = Box::new(alloc, after(*self.level, command))?;
        }
        self.performed = self.performed.saturating_add(1);
        Ok(given)
    }

    /// What the trait says of it. It counts nothing.
    fn set_reading(&mut self, id: u16, value: i64) -> Result<(), ReadingFault>
        ensures changes { Changes (lamp_sensed self.old.level.value id value) self.old.level.value result
            self.new.level.value }
        ensures performs_none { self.new.performed ≡ self.old.performed }
        ensures asked { self.new.asked ≡ self.old.asked }
    {
        if id != SENSOR {
            return Err(ReadingFault::NoSuchSensor);
        }
        match level_of(value) {
            Some(level) => {
                *self.level = level;
                Ok(())
            }
            None => Err(ReadingFault::OutOfSize),
        }
    }
}

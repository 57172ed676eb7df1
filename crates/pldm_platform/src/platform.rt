//! The platform behind a terminus: what performs its commands.

ghost use Rattle.std.specs.Prelude.{◌≡◌};
ghost use Rattle.pldm_platform.specs.ReadingFaults.{number_of_reading_fault};

use mctp_packet::Memory;
use pldm_wire::{Answer, Command};
use std::alloc::Global;
use thiserror::Error;

/// Why a sensor's reading wasn't set.
#[derive(Clone, Copy, Debug, PartialEq, Eq, Error)]
pub enum ReadingFault {
    /// The platform has no numeric sensor with the ID.
    #[error("no such sensor")]
    NoSuchSensor = 1,
    /// The value is outside the range of the sensor's data size.
    #[error("out of the sensor's size")]
    OutOfSize = 2,
}

impl ReadingFault {
    /// The fault's number in this profile's list.
    pub fn number(self) -> u8
        ensures { result ≡ number_of_reading_fault self }
    {
        self as u8
    }
}

/// What stands behind a PLDM terminus: a device with a state, which performs commands.
///
/// A vendor puts a real device behind it. `State` names what the commands read and set; no value of
/// it is made, and it is seen in proofs only. `state` gives the state of a value, `answer` the answer
/// that a command gets in a state, `after` the state that follows, and `sensed` the state after a
/// sensor was given a reading, or why it wasn't given. `perform` and `set_reading` have to do what
/// these say. `performed` relates two values by the commands that were performed from the one to the
/// other: a device that counts or records them says so there, and any other lets it hold of all
/// values. What is proved for every platform holds whatever it says, so code over a platform can
/// perform no command in secret. Where the device's own state can't be known in advance, as that of a
/// sensor over a bus, `State` is what the value has read of it, and a call of the value's own takes in
/// what is new.
///
/// The laws, which each implementation proves of its definitions:
///
/// - `reads_only`: a command that doesn't set leaves the state as it is;
/// - `refusal_changes_nothing`: so does a command that is refused;
/// - `answers_the_command`: the answer is one to the command's kind, or a refusal;
/// - `none_performed` and `performed_in_turn`: from a value to itself no command was performed, and
///   commands that were performed in turn were performed together.
///
/// After Memory the state is as before, so that the command may come again. `STEADY` says that
/// `perform` never answers Memory.
///
/// # Example
///
/// `Recorder`, a platform of the tests, is in the module `recorder` of the crate `layer_tests` and is proved
/// with it. It keeps each terminus ID that it is given, returns the last one, or 0 before the first, and refuses
/// any other command; its answers, the state that follows and the laws over them are in that crate's
/// `specs/Recorders.antt`. To keep an ID takes memory, so its `STEADY` is false; and it keeps no account of the
/// commands, so its `performed` holds of all values.
pub trait Platform: Drop {
    ghost use Rattle.std.specs.Prelude.{◌≡◌, ℕ, ℤ, Bool, false, List, [], ◌∷◌, ◌++◌, Result, IfOk, IsOk, OnOk, OnErr, IsTrue};
    ghost use Rattle.pldm_wire.specs.Commands.{kind_of, sets};
    ghost use Rattle.pldm_wire.specs.Answers.{IsAnswerTo};
    ghost use Rattle.pldm_wire.specs.declared.command.Command.{Command};
    ghost use Rattle.pldm_wire.specs.declared.answer.Answer.{Answer};
    ghost use Rattle.pldm_wire.specs.declared.answer.Answer.TheVariants as answers;
    ghost use Rattle.pldm_platform.specs.Changes.{Changes};
    ghost use Rattle.pldm_platform.specs.declared.platform.ReadingFault.{ReadingFault};

    /// What the commands read and set. No value of it is made.
    type State;

    /// Whether `perform` never answers Memory.
    const STEADY: bool;

    ghost STEADY: { Bool };

    // the state of a value
    ghost state: { Self → Self.State };

    // the answer to a command in a state
    ghost answer: { Self.State → Command → Answer };

    // the state that follows a command
    ghost after: { Self.State → Command → Self.State };

    // the state after a sensor was given a reading, or why it wasn't
    ghost sensed: { Self.State → ℕ → ℤ → Result Self.State ReadingFault };

    // from one value to another these commands were performed, the newest first, and no others
    ghost performed: { Self → List Command → Self → Type 0 };

    /// Performs the command and gives its answer. After Memory the state is as before.
    fn perform(&mut self, alloc: Global, command: &Command) -> Result<Answer, Memory>
        ensures answered { IfOk result (λ given. given ≡ answer (state self.old) command.now) }
        ensures changed { OnOk result (state self.new ≡ after (state self.old) command.now) }
        ensures unchanged { OnErr result (state self.new ≡ state self.old) }
        ensures performs { OnOk result (performed self.old (command.now ∷ []) self.new) }
        ensures performs_none { OnErr result (performed self.old [] self.new) }
        ensures steady { IsTrue STEADY → IsOk result };

    /// Does what `perform` does, and puts the answer in the place of the one that `given` holds. A
    /// platform whose answers would else be copied may write it there at once. After Memory the state
    /// is as before, and what `given` holds is not specified.
    fn perform_into(
        &mut self,
        alloc: Global,
        command: &Command,
        given: &mut Answer,
    ) -> Result<(), Memory>
        ensures answered { OnOk result (given.new ≡ answer (state self.old) command.now) }
        ensures changed { OnOk result (state self.new ≡ after (state self.old) command.now) }
        ensures unchanged { OnErr result (state self.new ≡ state self.old) }
        ensures performs { OnOk result (performed self.old (command.now ∷ []) self.new) }
        ensures performs_none { OnErr result (performed self.old [] self.new) }
        ensures steady { IsTrue STEADY → IsOk result }
    {
        *given = self.perform(alloc, command)?;
        Ok(())
    }

    /// Gives the numeric sensor with this ID the reading `value`. The state is as before where it
    /// answers a fault.
    fn set_reading(&mut self, id: u16, value: i64) -> Result<(), ReadingFault>
        ensures changes { Changes (sensed (state self.old) id value) (state self.old) result (state self.new) }
        ensures performs_none { performed self.old [] self.new };

    ghost reads_only: { (s : Self.State) (command : Command) → sets command ≡ false → after s command ≡ s };

    ghost refusal_changes_nothing: { (s : Self.State) (command : Command) (code : ℕ) → answer s command
        ≡ answers.Refused code → after s command ≡ s };

    ghost answers_the_command: { (s : Self.State) (command : Command) → IsAnswerTo (kind_of command)
        (answer s command) };

    ghost none_performed: { (value : Self) → performed value [] value };

    ghost performed_in_turn: { (first second third : Self) (before after : List Command) → performed first before
        second → performed second after third → performed first (after ++ before) third };
}

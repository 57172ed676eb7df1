//! The commands that wait for the device's answer, in a list that is searched by their requests' numbers.

ghost use Rattle.std.specs.Prelude.{◌≡◌, [], Some, None, IfOk, IfErr, OnOk, OnErr, length};
ghost use Rattle.std.specs.Option.{option_copied};
ghost use Rattle.mctp_assembly.specs.NumberLists.{Changes, IsAt, IsGapFor, Rises, at};
ghost use Rattle.pldm_endpoint.specs.RequestKeys.{no_command};

use crate::pending_commands::PendingCommand;
use mctp_packet::Memory;
use std::alloc::{AllocError, Global};
use std::marker::Model;

/// A command in a place of its own, so that the list of them is short and moves fast.
#[derive(Drop)]
struct Place {
    command: Box<PendingCommand>,
}

impl Model for Place {
    ghost use Rattle.std.specs.Prelude.{box_value};
    ghost use Rattle.pldm_endpoint.specs.contracts.pending_commands.PendingCommand as command_type;
    ghost use Rattle.pldm_endpoint.specs.declared.pending_commands.PendingCommand.{PendingCommand as PendingCommandValue};

    ghost Value = { PendingCommandValue };

    ghost coded = { command_type.the_row.coded };

    ghost view = { λ p. box_value p.command };
}

impl Place {
    /// A place of its own for this command.
    fn new(alloc: Global, command: PendingCommand) -> Result<Place, AllocError>
        ensures { IfOk result (λ place. place ≡ command) }
    {
        Ok(Place {
            command: Box::new(alloc, command)?,
        })
    }

    /// Puts a command in the place of this one.
    fn replace(&mut self, command: PendingCommand)
        ensures { self.new ≡ command }
    {
        *self.command = command;
    }

    /// The command.
    fn command(&self) -> &PendingCommand
        ensures { result.now ≡ self.now }
    {
        &self.command
    }
}

/// Commands by the numbers of their requests, which rise: a look-up is a binary search.
#[derive(Drop)]
pub(crate) struct CommandList {
    alloc: Global,
    list: Vec<(u16, Place)>,
}

impl Model for CommandList {
    ghost use Rattle.std.specs.Coded.{coded×, coded_list, coded_ℕ};
    ghost use Rattle.mctp_assembly.specs.NumberLists.{NumberList, Rises};
    ghost use Rattle.pldm_endpoint.specs.RequestKeys.{no_command};
    ghost use Rattle.pldm_endpoint.specs.contracts.pending_commands.PendingCommand as command_type;
    ghost use Rattle.pldm_endpoint.specs.declared.pending_commands.PendingCommand.{PendingCommand as PendingCommandValue};

    ghost Value = { NumberList PendingCommandValue };

    ghost coded = { coded_list (coded× coded_ℕ command_type.the_row.coded) };

    ghost view = { λ c. c.list.items };

    ghost invariant = { λ c. Rises no_command c.list.items };
}

impl CommandList {
    /// No commands. It takes no memory.
    pub(crate) fn new(alloc: Global) -> CommandList
        ensures { result ≡ [] }
    {
        CommandList {
            alloc,
            list: Vec::new(alloc),
        }
    }

    /// Where the number stands, or where it would go.
    fn search(&self, number: u16) -> Result<usize, usize>
        ensures found { IfOk result (IsAt no_command self.now number) }
        ensures absent { IfErr result (IsGapFor no_command self.now number) }
    {
        self.list.binary_search_by_key(&number, |(other, _)| *other)
    }

    /// The command under this number.
    pub(crate) fn get(&self, number: u16) -> Option<&PendingCommand>
        ensures { option_copied result ≡ at self.now number }
    {
        match self.search(number) {
            Ok(place) => Some(self.list[place].1.command()),
            Err(_) => None,
        }
    }

    /// Puts a command under a number, in the place of one that stands there.
    pub(crate) fn put(&mut self, number: u16, command: PendingCommand) -> Result<(), Memory>
        ensures ok { OnOk result (Changes self.old self.new number (Some command)) }
        ensures err { OnErr result (self.new ≡ self.old) }
    {
        match self.search(number) {
            Ok(place) => self.list[place].1.replace(command),
            Err(place) => {
                let command = Place::new(self.alloc, command)?;
                self.list.insert(place, (number, command))?;
            }
        }
        Ok(())
    }

    /// Takes the command under this number away.
    pub(crate) fn remove(&mut self, number: u16)
        ensures { Changes self.old self.new number None }
    {
        if let Ok(place) = self.search(number) {
            self.list.remove(place);
        }
    }

    /// How many there are.
    pub(crate) fn len(&self) -> usize
        ensures value { result ≡ length self.now }
        ensures rises { Rises no_command self.now }
    {
        self.list.len()
    }
}

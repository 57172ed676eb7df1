//! What keeps, from one run to the next, which instance IDs were used.

ghost use Rattle.std.specs.Prelude.{◌≡◌, IfErr, IfSome, None, Some};
ghost use Rattle.pldm_requester.specs.Slots.{held_of};

use crate::statuses::FAILED;
use mctpctl_state::{Queries, StateFile};
use pldm_line::{AskFault, AskingLine};
use pldm_requester::Openings;
use std::io;

/// How many control queries a walk has.
pub const WALK_QUERIES: u8 = 3;

/// A file of states, where one is kept, and what is kept of control queries.
#[derive(Drop)]
pub struct Keeper {
    /// The file.
    file: Option<StateFile>,
    /// The control queries of this run and those before it.
    queries: Queries,
    /// Why the file was not written.
    fault: Option<io::Error>,
}

impl Keeper {
    /// One that keeps in this file, where there is one, after these control queries.
    pub fn new(file: Option<StateFile>, queries: Queries) -> Keeper
        ensures { result ≡ record { file = file; queries = queries; fault = None } }
    {
        Keeper {
            file,
            queries,
            fault: None,
        }
    }

    /// Keeps what the line has opened, and that it may open one request more. To be called before each.
    ///
    /// # Errors
    ///
    /// `Write` where the file was not written. [`Keeper::end`] says why.
    pub fn keep_next<C>(&mut self, rt: &HostRuntime, line: &AskingLine<C>) -> Result<(), AskFault>
        ensures { IfErr result (λ fault. fault ≡ AskFault.Write) }
    {
        self.keep_openings(rt, &openings_of(line), line.moment().get())
    }

    /// Keeps these openings up to the moment `last`, and that one request more may be opened. To be called before each.
    ///
    /// # Errors
    ///
    /// As from [`Keeper::keep_next`].
    pub fn keep_openings(
        &mut self,
        rt: &HostRuntime,
        openings: &Openings,
        last: u64,
    ) -> Result<(), AskFault>
        ensures { IfErr result (λ fault. fault ≡ AskFault.Write) }
    {
        let Some(file) = &self.file else {
            return Ok(());
        };
        match file.keep(rt, openings, self.queries, last) {
            Ok(()) => Ok(()),
            Err(error) => {
                self.fault = Some(error);
                Err(AskFault::Write)
            }
        }
    }

    /// Keeps that the control queries of a walk may go out, with the instance IDs from `first` on.
    ///
    /// # Errors
    ///
    /// As from [`Keeper::keep_next`].
    pub fn keep_queries<C>(
        &mut self,
        rt: &HostRuntime,
        first: u8,
        line: &AskingLine<C>,
    ) -> Result<(), AskFault>
        ensures { IfErr result (λ fault. fault ≡ AskFault.Write) }
    {
        self.queries = Queries {
            next: first.saturating_add(WALK_QUERIES),
            last: None,
        };
        self.keep_next(rt, line)
    }

    /// The control queries went out before this moment of the line's clock.
    pub fn end_queries<C>(&mut self, line: &AskingLine<C>)
        ensures last { self.new.queries.last ≡ Some (held_of line.now.requester).last }
        ensures next { self.new.queries.next ≡ self.old.queries.next }
        ensures file { self.new.file ≡ self.old.file }
    {
        self.queries.last = Some(line.moment().get());
    }

    /// Where the file was not written, says why and returns the exit status. The file is given back.
    pub fn end(self, rt: &HostRuntime) -> Option<u8>
        ensures { IfSome result (λ status. status ≡ FAILED) }
    {
        let Keeper { file, fault, .. } = self;
        let (file, fault) = (file?, fault?);
        let _ = eprintln!(rt; "mctpctl: {}: {fault}", file.name());
        Some(FAILED)
    }
}

/// When the line opened requests. It has no clause, so that no proof computes what a requester leaves.
fn openings_of<C>(line: &AskingLine<C>) -> Openings {
    line.openings()
}

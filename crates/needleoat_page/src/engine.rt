//! An engine of `mctpctl`, as a call of the page runs it.
// A call knows of an engine only what the trait says. Where it knew the engine's own text, the proof would spell that
// out.

ghost use Rattle.std.specs.Prelude.{ℕ, List};
ghost use Rattle.mctpctl_decode.specs.TransferTexts.{decoded_text};
ghost use Rattle.mctpctl_engines.specs.AnswerText.{answer_text};
ghost use Rattle.mctpctl_engines.specs.LineRuns.{Written};
ghost use Rattle.mctpctl_engines.specs.MessageForms.{in_hex};
ghost use Rattle.mctpctl_engines.specs.RunText.{run_text};
ghost use Rattle.mctpctl_engines.specs.ShowText.{show_text};
ghost use Rattle.mctpctl_engines.specs.WholeRuns.{WritesAll};
ghost use Rattle.mctpctl_input.specs.Ports.{BothWork};
ghost use Rattle.needleoat_page.specs.Endings.{Reports};

use crate::ending::{Ending, report};
use crate::more::more_text;
use mctpctl_decode::decode_all;
use mctpctl_engines::{answer_all, run_all, show_all};
use mctpctl_explain::Subcommand;
use mctpctl_input::{Binding, EngineFault, Port};
use std::alloc::Global;
use std::io::{Read, Write};

/// What runs from a reader to a writer. `text` says what it writes of all that the reader has.
pub trait Engine {
    // what it writes of an input
    ghost text: { Self → List ℕ → Written };

    /// Whose input it is, which `--explain` asks.
    fn subject(&self) -> Subcommand;

    /// Runs it.
    fn run<R: Read, W: Write>(
        &self,
        alloc: Global,
        reader: &mut Port<R>,
        writer: &mut Port<W>,
    ) -> Result<(), EngineFault>
        requires works { BothWork reader.old writer.old }
        ensures text { WritesAll R.remaining W.contents (text self.now) reader.old writer.old writer.new result };
}

/// Runs an engine over an input, and puts what it has to say into the room.
#[tactic(auto, using(crate::proofs::Reported::reported, crate::proofs::Reported::not_run))]
pub fn call<E: Engine>(engine: &E, alloc: Global, input: &[u8], room: &mut [u8]) -> Ending
    ensures { Reports (E.text engine.now input.now) room.old room.new result }
{
    let mut writer = Port::new(Vec::new(alloc));
    let ended = engine.run(alloc, &mut Port::new(input), &mut writer);
    match more_text(alloc, engine.subject(), input, &ended) {
        Ok(more) => report(alloc, &writer.into_inner(), &ended, &more, room),
        Err(_) => Ending::not_run(),
    }
}

/// `mctpctl answer`.
#[derive(Drop)]
pub struct Answering;

impl Engine for Answering {
    ghost text = { λ engine. answer_text };

    fn subject(&self) -> Subcommand {
        Subcommand::Answer
    }

    fn run<R: Read, W: Write>(
        &self,
        alloc: Global,
        reader: &mut Port<R>,
        writer: &mut Port<W>,
    ) -> Result<(), EngineFault> {
        answer_all(alloc, reader, writer)
    }
}

/// `mctpctl run`.
#[derive(Drop)]
pub struct Running;

impl Engine for Running {
    ghost text = { λ engine. run_text };

    fn subject(&self) -> Subcommand {
        Subcommand::Run
    }

    fn run<R: Read, W: Write>(
        &self,
        alloc: Global,
        reader: &mut Port<R>,
        writer: &mut Port<W>,
    ) -> Result<(), EngineFault> {
        run_all(alloc, reader, writer)
    }
}

/// `mctpctl show`.
#[derive(Drop)]
pub struct Showing {
    pub binding: Option<Binding>,
}

impl Engine for Showing {
    ghost text = { λ engine. show_text engine.binding in_hex };

    fn subject(&self) -> Subcommand {
        Subcommand::Show
    }

    fn run<R: Read, W: Write>(
        &self,
        alloc: Global,
        reader: &mut Port<R>,
        writer: &mut Port<W>,
    ) -> Result<(), EngineFault> {
        show_all(alloc, self.binding, reader, writer)
    }
}

/// `mctpctl show --decode`.
#[derive(Drop)]
pub struct Decoding {
    pub binding: Option<Binding>,
}

impl Engine for Decoding {
    ghost text = { λ engine. show_text engine.binding decoded_text };

    fn subject(&self) -> Subcommand {
        Subcommand::Show
    }

    fn run<R: Read, W: Write>(
        &self,
        alloc: Global,
        reader: &mut Port<R>,
        writer: &mut Port<W>,
    ) -> Result<(), EngineFault> {
        decode_all(alloc, self.binding, reader, writer)
    }
}

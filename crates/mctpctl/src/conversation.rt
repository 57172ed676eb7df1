//! A conversation with a device: its line, with what is read and written there, and where the answers are printed.

ghost use Rattle.std.specs.Prelude.{◌≡◌};

use crate::keeper::Keeper;
use mctpctl_input::Port;
use pldm_line::AskingLine;

/// What a requester on a line reads, writes and prints.
#[derive(Drop)]
pub struct Conversation<C, R, W, O> {
    /// Its requests and their answers, by the clock `C`.
    pub line: AskingLine<C>,
    /// What the line is read from.
    pub reader: Port<R>,
    /// What the line is written to.
    pub writer: Port<W>,
    /// Where the answers are printed.
    pub out: Port<O>,
    /// What keeps when its requests were opened.
    pub keeper: Keeper,
}

impl<C, R, W, O> Conversation<C, R, W, O> {
    /// The same conversation with its answers printed to `out`, and where they were printed before.
    pub fn printing_to<P>(self, out: Port<P>) -> (Conversation<C, R, W, P>, Port<O>)
        ensures line { result.0.line ≡ self.line }
        ensures reader { result.0.reader ≡ self.reader }
        ensures writer { result.0.writer ≡ self.writer }
        ensures out { result.0.out ≡ out }
        ensures before { result.1 ≡ self.out }
    {
        let Conversation {
            line,
            reader,
            writer,
            out: before,
            keeper,
        } = self;
        let printed = Conversation {
            line,
            reader,
            writer,
            out,
            keeper,
        };
        (printed, before)
    }
}

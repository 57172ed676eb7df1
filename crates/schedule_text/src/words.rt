//! The words of a line, one after the other.

ghost use Rattle.std.specs.Prelude.{◌≡◌, ◌≢◌, ◌<◌, ◌∷◌, [], IfOk, IfErr, IfSome, IfNone, OnOk, OnErr, codes, length};
ghost use Rattle.line_words.specs.Lines.{said_words};
ghost use Rattle.schedule_text.specs.CommandWords.{only_word};
ghost use Rattle.schedule_text.specs.Refusals.{kinds};
ghost use Rattle.schedule_text.specs.UsualNames.{usual_command, usual_name};
ghost use Rattle.schedule_text.specs.declared.line_fault.LineFaultKind.TheVariants as faults;

use crate::last_number::LastNumber;
use crate::word::Word;
use crate::{Expected, Refusal};
use arrayvec::ArrayVec;
use line_words::{first_number, split_number, split_word, without_cr};
use pldm_wire::MAX_STATES;
use std::marker::Model;

/// The name of a step that nearly all steps have one of.
#[derive(Clone, Copy)]
pub(crate) enum UsualName {
    Reply,
    Request,
    Tick,
    Open,
}

/// The name of a command that nearly all commands have one of.
#[derive(Clone, Copy)]
pub(crate) enum UsualCommand {
    SetNum,
    Sensor,
    GetPdr,
}

/// The words of a line that are not read yet.
#[derive(Drop)]
pub(crate) struct Words<'a> {
    text: &'a [u8],
}

impl<'a> Model for Words<'a> {
    ghost use Rattle.std.specs.Prelude.{List, ℕ};
    ghost use Rattle.line_words.specs.Lines.{words_of};

    ghost Value = { List (List ℕ) };

    ghost view = { λ words. words_of words.text.now };
}

/// The first word that a line says, given without its LF, and the words after it; `None` where it says none.
pub(crate) fn words_in(line: &[u8]) -> Option<(Word<'_>, Words<'_>)>
    ensures some { IfSome result (λ p. said_words line.now ≡ p.0 ∷ p.1) }
    ensures none { IfNone result (said_words line.now ≡ []) }
{
    let (first, number, text) = first_number(line)?;
    Some((Word::new(first, number), Words { text }))
}

/// The words after `at`, where a line begins with `at ` as nearly all do: its first word is then not looked for byte by
/// byte.
// Inlined: it runs for each line.
#[inline(always)]
pub(crate) fn step_words(line: &[u8]) -> Option<Words<'_>>
    ensures { IfSome result (λ words. said_words line.now ≡ codes "at" ∷ words) }
{
    match without_cr(line) {
        [b'a', b't', b' ', text @ ..] => Some(Words { text }),
        _ => None,
    }
}

impl<'a> Words<'a> {
    /// The next word, which there has to be: this is expected there.
    // Inlined: a word is passed on in parts.
    #[inline(always)]
    pub(crate) fn next(&mut self, expected: Expected) -> Result<Word<'a>, Refusal<'a>>
        ensures ok { IfOk result (λ word. self.old ≡ word ∷ self.new) }
        ensures none { OnErr result (self.old ≡ []) }
        ensures same { OnErr result (self.new ≡ self.old) }
        ensures err { IfErr result (λ refusal. refusal.kind ≡ faults.Words) }
    {
        let Some((word, number, text)) = split_number(self.text) else {
            return Err(Refusal::of_end(expected));
        };
        self.text = text;
        Ok(Word::new(word, number))
    }

    /// The next word, as [`Words::next`] reads it. Where it is that number once more, no digit is read.
    // Inlined: it stands at the begin of nearly all steps.
    #[inline(always)]
    pub(crate) fn next_like(
        &mut self,
        last: &mut LastNumber,
        expected: Expected,
    ) -> Result<Word<'a>, Refusal<'a>>
        ensures ok { IfOk result (λ word. self.old ≡ word ∷ self.new) }
        ensures none { OnErr result (self.old ≡ []) }
        ensures same { OnErr result (self.new ≡ self.old) }
        ensures err { IfErr result (λ refusal. refusal.kind ≡ faults.Words) }
    {
        if let Some((word, text)) = last.split(self.text) {
            self.text = text;
            return Ok(word);
        }
        let word = self.next(expected)?;
        last.set(&word);
        Ok(word)
    }

    /// The next word, where it is one of the usual names and stands as nearly all do: it is then not looked for
    /// byte by byte.
    // Inlined, as `step_words`.
    #[inline(always)]
    pub(crate) fn usual_name(&mut self) -> Option<UsualName>
        ensures some { IfSome result (λ name. self.old ≡ usual_name name ∷ self.new) }
        ensures none { IfNone result (self.new ≡ self.old) }
    {
        let (name, text) = match self.text {
            [b' ', b'r', b'e', b'p', b' ', text @ ..] => (UsualName::Reply, text),
            [b' ', b'r', b'e', b'q', b' ', text @ ..] => (UsualName::Request, text),
            [b' ', b't', b'i', b'c', b'k', b' ', text @ ..] => (UsualName::Tick, text),
            [b' ', b'o', b'p', b'e', b'n', b' ', text @ ..] => (UsualName::Open, text),
            _ => return None,
        };
        self.text = text;
        Some(name)
    }

    /// The next word, where it is one of the usual commands and stands as nearly all do.
    pub(crate) fn usual_command(&mut self) -> Option<UsualCommand>
        ensures some { IfSome result (λ name. self.old ≡ usual_command name ∷ self.new) }
        ensures none { IfNone result (self.new ≡ self.old) }
    {
        let [b' ', text @ ..] = self.text else {
            return None;
        };
        let (name, text) = match text {
            [b's', b'e', b't', b'n', b'u', b'm', b' ', text @ ..] => (UsualCommand::SetNum, text),
            [b's', b'e', b'n', b's', b'o', b'r', b' ', text @ ..] => (UsualCommand::Sensor, text),
            [b'g', b'e', b't', b'p', b'd', b'r', b' ', text @ ..] => (UsualCommand::GetPdr, text),
            _ => return None,
        };
        self.text = text;
        Some(name)
    }

    /// The one word that there has to be: this is expected there.
    // Inlined: it stands at the end of nearly all steps.
    #[inline(always)]
    pub(crate) fn only(&mut self, expected: Expected) -> Result<Word<'a>, Refusal<'a>>
        ensures value { kinds result ≡ only_word self.old }
        ensures ok { IfOk result (λ word. self.old ≡ word ∷ []) }
    {
        let word = self.next(expected)?;
        self.end()?;
        Ok(word)
    }

    /// There has to be no word.
    // Inlined, as those that it ends.
    #[inline(always)]
    pub(crate) fn end(&self) -> Result<(), Refusal<'a>>
        ensures ok { OnOk result (self.now ≡ []) }
        ensures more { OnErr result (self.now ≢ []) }
        ensures err { IfErr result (λ refusal. refusal.kind ≡ faults.Words) }
    {
        if self.text.is_empty() {
            return Ok(());
        }
        match split_word(self.text) {
            Some((word, _)) => Err(Refusal::of_word(word, Expected::End)),
            None => Ok(()),
        }
    }

    /// All of them, of which there have to be at most [`MAX_STATES`].
    pub(crate) fn rest(&mut self) -> Result<ArrayVec<Word<'a>, MAX_STATES>, Refusal<'a>>
        ensures ok { IfOk result (λ words. words.items ≡ self.old) }
        ensures many { OnErr result (MAX_STATES < length self.old) }
        ensures err { IfErr result (λ refusal. refusal.kind ≡ faults.Words) }
    {
        let mut words = ArrayVec::new();
        while let Ok(word) = self.next(Expected::State) {
            if words.is_full() {
                return Err(Refusal::of_word(word.bytes(), Expected::End));
            }
            words.push(word);
        }
        Ok(words)
    }
}

//! Where the keys of a TOML document stand.

ghost use Rattle.std.specs.Prelude.{◌≡◌, ◌<◌, IfOk, IfSome, length, slice_index};

use mctp_packet::Memory;
use std::alloc::{AllocError, Global};
use std::collections::BTreeMap;
use toml_parser::text::{first, skip, skip_blank, skip_ws};
use toml_parser::{Key, ParseError, dotted_key, quoted, starts_string, unquoted};

/// Where the value at a path stands, or the item of an array, or the header of a table.
#[derive(Debug, Drop)]
pub(crate) struct KeyPlace {
    /// The path, as `numeric_effecter[2].max`.
    pub(crate) path: String,
    /// The number of its first byte, counted from 0.
    pub(crate) offset: usize,
}

/// A part of a path.
#[derive(Debug, Drop)]
enum Part {
    Key(String),
    Index(usize),
}

/// An array or an inline table that has begun and not ended.
#[derive(Clone, Copy, Debug)]
enum Open {
    /// An array, its parts in the path, and the number of its next item.
    Array(usize, usize),
    /// An inline table, and its parts in the path.
    Table(usize),
}

/// What ends the walk before the text.
#[derive(Clone, Copy, Debug)]
enum Halt {
    /// The text is no TOML.
    Text,
    /// No memory was left.
    Memory(Memory),
}

impl From<ParseError> for Halt {
    fn from(error: ParseError) -> Halt {
        match error {
            ParseError::OutOfMemory => Halt::Memory(AllocError.into()),
            ParseError::At(_, _, _) => Halt::Text,
        }
    }
}

impl From<Memory> for Halt {
    fn from(memory: Memory) -> Halt {
        Halt::Memory(memory)
    }
}

/// A walk through a document.
#[derive(Drop)]
struct Walk {
    places: Vec<KeyPlace>,
    /// The path of the value that is read.
    path: Vec<Part>,
    /// How many parts of it are of the table whose keys stand below a header.
    depth: usize,
    open: Vec<Open>,
    /// How many headers `[[name]]` came of each name.
    headers: BTreeMap<String, usize>,
}

/// The places of the keys, the items and the headers of a document, in the order of its text. Where the
/// text is no TOML, those before that place.
pub(crate) fn key_places(alloc: Global, text: &str) -> Result<Vec<KeyPlace>, Memory> {
    let mut walk = Walk {
        places: Vec::new(alloc),
        path: Vec::new(alloc),
        depth: 0,
        open: Vec::new(alloc),
        headers: BTreeMap::new(alloc),
    };
    let mut rest = text;
    'document: loop {
        let here = skip_blank(rest, true);
        let offset = text.len().saturating_sub(here.len());
        match walk.step(alloc, here, offset) {
            Ok(Some(after)) => rest = after,
            Ok(None) | Err(Halt::Text) => return Ok(walk.places),
            Err(Halt::Memory(memory)) => return Err(memory),
        }
    }
}

impl Walk {
    /// Reads a header, a key or an item with the front of its value, or a sign; `None` at the end. What is
    /// left is shorter.
    fn step<'t>(
        &mut self,
        alloc: Global,
        text: &'t str,
        offset: usize,
    ) -> Result<Option<&'t str>, Halt>
        ensures { IfOk result (λ after. IfSome after (λ rest. length rest.now < length text.now)) }
    {
        match self.open.last().copied() {
            None if first(text) == b'[' => self.header(alloc, text, offset),
            None => self.entry(alloc, text, offset, self.depth),
            Some(Open::Array(depth, next)) => self.item(alloc, text, offset, depth, next),
            Some(Open::Table(depth)) => self.field(alloc, text, offset, depth),
        }
    }

    /// The header of a table.
    fn header<'t>(
        &mut self,
        alloc: Global,
        text: &'t str,
        offset: usize,
    ) -> Result<Option<&'t str>, Halt>
        requires { slice_index text.now 0 ≡ 91 }
        ensures { IfOk result (λ after. IfSome after (λ rest. length rest.now < length text.now)) }
    {
        let inner = skip(text, 1);
        let is_list = first(inner) == b'[';
        let inner = if is_list { skip(inner, 1) } else { inner };
        let (key, rest) = dotted_key(alloc, skip_ws(inner))?;
        self.path.truncate(0);
        self.push_key(alloc, key, offset)?;
        if is_list {
            let count = self.count_header(alloc)?;
            self.push(Part::Index(count))?;
            self.place(alloc, offset)?;
        }
        self.depth = self.path.len();
        if first(rest) != b']' {
            return Err(Halt::Text);
        }
        let rest = skip(rest, 1);
        Ok(Some(if is_list && first(rest) == b']' {
            skip(rest, 1)
        } else {
            rest
        }))
    }

    /// How many headers of the path came before, of which there is one more from now on.
    fn count_header(&mut self, alloc: Global) -> Result<usize, Memory> {
        let name = path_text(alloc, &self.path)?;
        let count = self.headers.get(&name).copied().unwrap_or(0);
        self.headers.insert(name, count.saturating_add(1))?;
        Ok(count)
    }

    /// A key, `=` and the front of its value.
    fn entry<'t>(
        &mut self,
        alloc: Global,
        text: &'t str,
        offset: usize,
        depth: usize,
    ) -> Result<Option<&'t str>, Halt>
        ensures { IfOk result (λ after. IfSome after (λ rest. length rest.now < length text.now)) }
    {
        if text.is_empty() {
            return Ok(None);
        }
        let (key, rest) = dotted_key(alloc, text)?;
        self.path.truncate(depth);
        self.push_key(alloc, key, offset)?;
        if first(rest) != b'=' {
            return Err(Halt::Text);
        }
        self.value(alloc, skip_ws(skip(rest, 1)))
    }

    /// An item of an array, or a sign after one.
    fn item<'t>(
        &mut self,
        alloc: Global,
        text: &'t str,
        offset: usize,
        depth: usize,
        next: usize,
    ) -> Result<Option<&'t str>, Halt>
        ensures { IfOk result (λ after. IfSome after (λ rest. length rest.now < length text.now)) }
    {
        if let Some(rest) = self.sign(text, b']') {
            return Ok(Some(rest));
        }
        let _ = self.open.pop();
        self.begin(Open::Array(depth, next.saturating_add(1)))?;
        self.path.truncate(depth);
        self.push(Part::Index(next))?;
        self.place(alloc, offset)?;
        self.value(alloc, text)
    }

    /// A key of an inline table, or a sign after one.
    fn field<'t>(
        &mut self,
        alloc: Global,
        text: &'t str,
        offset: usize,
        depth: usize,
    ) -> Result<Option<&'t str>, Halt>
        ensures { IfOk result (λ after. IfSome after (λ rest. length rest.now < length text.now)) }
    {
        if let Some(rest) = self.sign(text, b'}') {
            return Ok(Some(rest));
        }
        self.entry(alloc, text, offset, depth)
    }

    /// What is left after a sign: a comma, or this one, which closes what is open.
    fn sign<'t>(&mut self, text: &'t str, closing: u8) -> Option<&'t str>
        requires some { 0 < closing }
        requires ascii { closing < 128 }
        ensures { IfSome result (λ rest. length rest.now < length text.now) }
    {
        if first(text) == b',' {
            return Some(skip(text, 1));
        }
        if first(text) == closing {
            let _ = self.open.pop();
            return Some(skip(text, 1));
        }
        None
    }

    /// A value that is written in one piece, or the sign that begins an array or a table.
    fn value<'t>(&mut self, alloc: Global, text: &'t str) -> Result<Option<&'t str>, Halt>
        ensures { IfOk result (λ after. IfSome after (λ rest. length rest.now < length text.now)) }
    {
        let depth = self.path.len();
        if first(text) == b'[' {
            self.begin(Open::Array(depth, 0))?;
            return Ok(Some(skip(text, 1)));
        }
        if first(text) == b'{' {
            self.begin(Open::Table(depth))?;
            return Ok(Some(skip(text, 1)));
        }
        if starts_string(text) {
            let (_, rest) = quoted(alloc, text)?;
            return Ok(Some(rest));
        }
        let (_, rest) = unquoted(alloc, text)?;
        Ok(Some(rest))
    }

    fn begin(&mut self, open: Open) -> Result<(), Memory> {
        Ok(self.open.push(open)?)
    }

    /// Adds the parts of a key to the path, and notes the place of each.
    fn push_key(&mut self, alloc: Global, key: Key, offset: usize) -> Result<(), Memory> {
        for part in key.path {
            self.push(Part::Key(part))?;
            self.place(alloc, offset)?;
        }
        self.push(Part::Key(key.last))?;
        self.place(alloc, offset)
    }

    fn push(&mut self, part: Part) -> Result<(), Memory> {
        Ok(self.path.push(part)?)
    }

    /// Notes where the value of the path stands.
    fn place(&mut self, alloc: Global, offset: usize) -> Result<(), Memory> {
        let path = path_text(alloc, &self.path)?;
        Ok(self.places.push(KeyPlace { path, offset })?)
    }
}

/// The parts of a path as text.
fn path_text(alloc: Global, path: &[Part]) -> Result<String, Memory> {
    let mut text = String::new(alloc);
    for (place, part) in path.iter().enumerate() {
        match part {
            Part::Key(key) => {
                if place > 0 {
                    text.push_str(".")?;
                }
                text.push_str(key.as_str())?;
            }
            Part::Index(index) => text.push_str(format!(in alloc; "[{index}]")?.as_str())?,
        }
    }
    Ok(text)
}

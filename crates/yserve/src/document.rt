//! The text of an open file, its lines, and places in it as editors count them.

use crate::index::{Index, index_of};
use crate::members::Members;
use crate::wire::{number_at, text_at};
use serde_json::Value;
use std::alloc::{AllocError, Global};
use std::str;
use ydiagnostics::begun::Begun;
use yfaults::opening::Opened;

/// What a character of a line counts, in the columns of an editor.
#[derive(Clone, Copy, Drop)]
pub enum Encoding {
    /// Its bytes in UTF-8.
    Bytes,
    /// Its units of UTF-16.
    Units,
    /// One.
    Ones,
}

impl Encoding {
    /// Its name in the protocol.
    pub fn name(self) -> &'static str {
        match self {
            Encoding::Bytes => "utf-8",
            Encoding::Units => "utf-16",
            Encoding::Ones => "utf-32",
        }
    }

    /// What the character that begins with a byte counts; a byte within one counts nothing, but
    /// where bytes are counted.
    fn width(self, byte: u8) -> usize {
        match (self, byte) {
            (Encoding::Bytes, _) => 1,
            (_, 0x80..0xc0) => 0,
            (Encoding::Units, 0xf0..) => 2,
            _ => 1,
        }
    }
}

/// What is said of a fault of a file.
#[derive(Drop)]
pub struct Fault {
    /// Its code, and the text.
    pub text: String,
    /// How many bytes stand before the part that it is about.
    pub from: usize,
    /// How many bytes stand before what follows that.
    pub to: usize,
}

/// A change of a part of a file.
#[derive(Drop)]
pub struct Edit {
    /// How many bytes stand before the part.
    pub from: usize,
    /// How many bytes stand before what follows it.
    pub to: usize,
    /// What comes in its place.
    pub text: String,
}

/// Changes of a file that mend something.
#[derive(Drop)]
pub struct Mend {
    /// The line at which it is offered, from 0 on.
    pub line: usize,
    /// What it does.
    pub title: String,
    /// The changes, in the order of the file.
    pub edits: Vec<Edit>,
    /// How many conflicts are left with them, where that is known.
    pub left: Option<usize>,
}

/// An open file.
pub struct Document {
    /// By what the editor names it.
    pub uri: String,
    /// The number of its version, where the editor counts them.
    pub version: Option<usize>,
    /// Its bytes, which are UTF-8.
    pub text: Vec<u8>,
    /// Where its lines begin.
    starts: Vec<usize>,
    /// Where its symbols stand.
    pub index: Index,
    /// What was read of the text, where its conflicts aren't explained yet.
    pub begun: Option<Begun>,
    /// The tables of the last text before that which had some.
    pub opened: Option<Opened>,
    /// What is said of its faults.
    pub faults: Vec<Fault>,
    /// Changes that settle its conflicts otherwise.
    pub choices: Vec<Mend>,
    /// Whether it was changed since it was looked at.
    pub is_new: bool,
    /// How its columns are counted.
    pub encoding: Encoding,
    /// The page that says what the codes of faults mean, where the editor knows it.
    pub page: Option<String>,
}

impl Drop for Document {
    // A call in each owner, which keeps their proofs short.
    fn drop(self) {
        let Document {
            uri: _,
            version: _,
            text: _,
            starts: _,
            index: _,
            begun: _,
            opened: _,
            faults: _,
            choices: _,
            is_new: _,
            encoding: _,
            page: _,
        } = self;
    }
}

/// Where lines begin.
fn starts_of(alloc: Global, text: &[u8]) -> Result<Vec<usize>, AllocError> {
    let mut starts = Vec::new(alloc);
    starts.push(0usize)?;
    for (at, byte) in text.iter().enumerate() {
        if *byte == b'\n' {
            starts.push(at.saturating_add(1))?;
        }
    }
    Ok(starts)
}

/// A place of a file as an editor names it.
#[derive(Clone, Copy, Drop)]
pub struct Position {
    /// The line, from 0 on.
    pub line: usize,
    /// The column, from 0 on.
    pub character: usize,
}

/// The place that stands at a path of a message.
pub fn position_at(
    alloc: Global,
    message: &Value,
    path: &str,
) -> Result<Option<Position>, AllocError> {
    let (line, character) = (
        format!(in alloc; "{path}/line")?,
        format!(in alloc; "{path}/character")?,
    );
    Ok(
        match (number_at(message, &line), number_at(message, &character)) {
            (Some(line), Some(character)) => Some(Position { line, character }),
            _ => None,
        },
    )
}

impl Document {
    /// A file with this text, which wasn't looked at yet.
    pub fn new(
        alloc: Global,
        uri: &str,
        text: &str,
        encoding: Encoding,
    ) -> Result<Document, AllocError> {
        let text = Vec::from_slice(alloc, text.as_bytes())?;
        Ok(Document {
            uri: String::from_str(alloc, uri)?,
            version: None,
            starts: starts_of(alloc, &text)?,
            index: index_of(alloc, &text)?,
            text,
            begun: None,
            opened: None,
            faults: Vec::new(alloc),
            choices: Vec::new(alloc),
            is_new: true,
            encoding,
            page: None,
        })
    }

    /// Takes another text.
    fn take(&mut self, alloc: Global, text: Vec<u8>) -> Result<(), AllocError> {
        self.starts = starts_of(alloc, &text)?;
        self.text = text;
        self.is_new = true;
        Ok(())
    }

    /// Where a line begins, and where it ends, before its newline.
    pub fn line(&self, line: usize) -> (usize, usize) {
        let all = self.text.len();
        let Some(start) = self.starts.get(line).copied() else {
            return (all, all);
        };
        let end = match self.starts.get(line.saturating_add(1)) {
            Some(next) => next.saturating_sub(1),
            None => all,
        };
        match self.text.get(start..end) {
            Some([.., b'\r']) => (start, end.saturating_sub(1)),
            _ => (start, end),
        }
    }

    /// How many bytes stand before a place.
    pub fn offset(&self, place: Position) -> usize {
        let ((start, end), mut count) = (self.line(place.line), 0usize);
        for (index, byte) in self.text.get(start..end).unwrap_or(&[]).iter().enumerate() {
            let width = self.encoding.width(*byte);
            if width > 0 && count >= place.character {
                return start.saturating_add(index);
            }
            count = count.saturating_add(width);
        }
        end
    }

    /// The place that so many bytes stand before.
    pub fn position(&self, at: usize) -> Position {
        let line = match self.starts.binary_search(&at) {
            Ok(line) => line,
            Err(next) => next.saturating_sub(1),
        };
        let (start, mut character) = (self.starts.get(line).copied().unwrap_or(0), 0usize);
        for byte in self.text.get(start..at).unwrap_or(&[]) {
            character = character.saturating_add(self.encoding.width(*byte));
        }
        Position { line, character }
    }

    /// The place that so many bytes stand before, as messages have it.
    fn place(&self, alloc: Global, at: usize) -> Result<Value, AllocError> {
        let Position { line, character } = self.position(at);
        Members::new(alloc)
            .with("line", Ok(Value::from(line)))
            .with("character", Ok(Value::from(character)))
            .done()
    }

    /// A part of it as messages have it.
    pub fn range(&self, alloc: Global, from: usize, to: usize) -> Result<Value, AllocError> {
        Members::new(alloc)
            .with("start", self.place(alloc, from))
            .with("end", self.place(alloc, to))
            .done()
    }

    /// A part of it with its name.
    pub fn location(&self, alloc: Global, from: usize, to: usize) -> Result<Value, AllocError> {
        Members::new(alloc)
            .with_text("uri", self.uri.as_str())
            .with("range", self.range(alloc, from, to))
            .done()
    }

    /// A change by which a part of it becomes a text.
    pub fn edit(
        &self,
        alloc: Global,
        (from, to): (usize, usize),
        text: &str,
    ) -> Result<Value, AllocError> {
        Members::new(alloc)
            .with_text("newText", text)
            .with("range", self.range(alloc, from, to))
            .done()
    }

    /// Changes of it as messages have them.
    pub fn edits(&self, alloc: Global, edits: Vec<Value>) -> Result<Value, AllocError> {
        let files = Members::new(alloc).with(self.uri.as_str(), Ok(Value::Array(edits)));
        Members::new(alloc).with("changes", files.done()).done()
    }

    /// The text after a change that a message has, of a part or of all; `None` where it has none.
    fn text_after(&self, alloc: Global, change: &Value) -> Result<Option<Vec<u8>>, AllocError> {
        let Some(new) = text_at(change, "/text") else {
            return Ok(None);
        };
        let start = position_at(alloc, change, "/range/start")?;
        let end = position_at(alloc, change, "/range/end")?;
        let (from, to) = match (start, end) {
            (Some(start), Some(end)) => (self.offset(start), self.offset(end)),
            _ => (0, self.text.len()),
        };
        let mut text = Vec::new(alloc);
        if let Some(before) = self.text.get(..from) {
            text.extend_from_slice(before)?;
        }
        text.extend_from_slice(new.as_bytes())?;
        if let Some(after) = self.text.get(to.max(from)..) {
            text.extend_from_slice(after)?;
        }
        Ok(Some(text))
    }

    /// Makes a change that a message has.
    fn change(&mut self, alloc: Global, change: &Value) -> Result<(), AllocError> {
        match self.text_after(alloc, change)? {
            Some(text) => self.take(alloc, text),
            None => Ok(()),
        }
    }

    /// Makes the changes of a message, one after the other.
    pub fn change_all(&mut self, alloc: Global, message: &Value) -> Result<(), AllocError> {
        if let Some(Value::Array(changes)) = message.pointer("/params/contentChanges") {
            for change in changes {
                self.change(alloc, change)?;
            }
        }
        self.index = index_of(alloc, &self.text)?;
        Ok(())
    }

    /// The text from one place to another, where it is UTF-8.
    pub fn part(&self, from: usize, to: usize) -> &str {
        str::from_utf8(self.text.get(from..to).unwrap_or(&[])).unwrap_or("")
    }
}

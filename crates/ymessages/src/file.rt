//! A file of messages, cut into its parts.

use std::alloc::{AllocError, Global};
use std::mem;
use ysymbols::let_go;

/// Bytes of a file, from one place to another.
#[derive(Clone, Copy, Drop, PartialEq, Eq)]
pub struct Span {
    /// How many bytes are before.
    pub start: usize,
    /// How many bytes are before what follows.
    pub end: usize,
}

impl Span {
    /// The bytes.
    pub fn of(self, source: &[u8]) -> &[u8] {
        source.get(self.start..self.end).unwrap_or(&[])
    }
}

/// A part of a file.
pub struct Part {
    /// The inputs and the comments of its author, a line each.
    pub lines: Vec<Span>,
    /// The message; a part without one has comments alone.
    pub message: Option<Span>,
}

impl Drop for Part {
    // A call in each owner, which keeps their proofs short.
    fn drop(self) {
        let_go!(self: Part { lines, message });
    }
}

/// Why a file has no parts.
#[derive(Clone, Copy, Drop)]
pub enum Cut {
    /// Inputs, the last of them here, have no message after them.
    NoMessage(Span),
    /// Memory ran out.
    Memory,
}

impl From<AllocError> for Cut {
    fn from(_refused: AllocError) -> Cut {
        Cut::Memory
    }
}

/// What a line is.
#[derive(Clone, Copy, PartialEq, Eq)]
enum Kind {
    /// Nothing.
    Blank,
    /// A comment of an update, which is written anew by the next one.
    Written,
    /// Any other comment.
    Comment,
    /// An input, or a line of a message.
    Plain,
}

/// Whether a line is a comment.
pub fn is_comment(line: &[u8]) -> bool {
    line.first() == Some(&b'#')
}

/// What a line is.
fn kind_of(line: &[u8]) -> Kind {
    if line.trim_ascii_end().is_empty() {
        Kind::Blank
    } else if line.starts_with(b"##") {
        Kind::Written
    } else if is_comment(line) {
        Kind::Comment
    } else {
        Kind::Plain
    }
}

/// What is read of a part.
#[derive(Clone, Copy, Drop)]
enum Stage {
    /// Comments, where there are some.
    Comments,
    /// Inputs; the last one is here.
    Inputs(Span),
    /// Inputs, and that they have ended.
    Ended(Span),
    /// The message up to here.
    Message(Span),
}

/// A file that is being cut.
#[derive(Drop)]
struct Cutter {
    alloc: Global,
    parts: Vec<Part>,
    lines: Vec<Span>,
    stage: Stage,
}

impl Cutter {
    /// A line of the part.
    fn keep(&mut self, line: Span, stage: Stage) -> Result<(), Cut> {
        self.lines.push(line).map_err(AllocError::from)?;
        self.stage = stage;
        Ok(())
    }

    /// The part is complete.
    fn end_part(&mut self, message: Option<Span>) -> Result<(), Cut> {
        let lines = mem::replace(&mut self.lines, Vec::new(self.alloc));
        self.stage = Stage::Comments;
        if !lines.is_empty() {
            let part = Part { lines, message };
            self.parts.push(part).map_err(AllocError::from)?;
        }
        Ok(())
    }

    /// An empty line, or the end of the file.
    fn take_blank(&mut self) -> Result<(), Cut> {
        match self.stage {
            Stage::Comments => self.end_part(None),
            Stage::Inputs(last) | Stage::Ended(last) => {
                self.stage = Stage::Ended(last);
                Ok(())
            }
            Stage::Message(span) => self.end_part(Some(span)),
        }
    }

    /// Any other line.
    fn take(&mut self, line: Span, kind: Kind) -> Result<(), Cut> {
        match (self.stage, kind) {
            (Stage::Message(span), _) => {
                let end = line.end;
                self.stage = Stage::Message(Span { end, ..span });
                Ok(())
            }
            (Stage::Ended(_), Kind::Plain) => {
                self.stage = Stage::Message(line);
                Ok(())
            }
            (Stage::Ended(last), _) => Err(Cut::NoMessage(last)),
            (_, Kind::Written | Kind::Blank) => Ok(()),
            (stage, Kind::Comment) => self.keep(line, stage),
            (_, Kind::Plain) => self.keep(line, Stage::Inputs(line)),
        }
    }
}

/// The parts of a file, or why it has none.
pub fn parts_of(alloc: Global, source: &[u8]) -> Result<Vec<Part>, Cut> {
    let mut cutter = Cutter {
        alloc,
        parts: Vec::new(alloc),
        lines: Vec::new(alloc),
        stage: Stage::Comments,
    };
    let mut start: usize = 0;
    for bytes in source.split(|b| *b == b'\n') {
        let end = start.saturating_add(bytes.len());
        match kind_of(bytes) {
            Kind::Blank => cutter.take_blank()?,
            kind => cutter.take(Span { start, end }, kind)?,
        }
        start = end.saturating_add(1);
    }
    cutter.take_blank()?;
    let Cutter { parts, stage, .. } = cutter;
    match stage {
        Stage::Inputs(last) | Stage::Ended(last) => Err(Cut::NoMessage(last)),
        Stage::Comments | Stage::Message(_) => Ok(parts),
    }
}

//! A file cut into lexemes.

use crate::lexeme::{Kind, Lexeme, Span, Uncut};
use crate::runs::newlines;
use crate::signs::{Piece, piece_at};
use std::alloc::Global;
use ysymbols::let_go;

/// The lexemes of a file up to its second mark, and its comments that begin with two slashes.
pub struct Lexemes {
    /// The lexemes, in the order of the file.
    pub all: Vec<Lexeme>,
    /// The comments from two slashes to the ends of their lines, in the order of the file.
    pub remarks: Vec<Span>,
}

impl Drop for Lexemes {
    // A call in each owner, which keeps their proofs short.
    fn drop(self) {
        let_go!(self: Lexemes { all, remarks });
    }
}

/// A walk over a file.
#[derive(Drop)]
struct Walk {
    at: usize,
    line: usize,
    marks: usize,
    found: Lexemes,
}

impl Walk {
    /// Takes in what stands at the place.
    fn take(&mut self, piece: Piece, to: usize) -> Result<(), Uncut> {
        let (line, from) = (self.line, self.at);
        let span = Span { line, from, to };
        match piece {
            Piece::Blank | Piece::Comment => {}
            Piece::Remark => self.found.remarks.push(span)?,
            Piece::Lexeme(kind) => {
                if kind == Kind::Mark {
                    self.marks = self.marks.saturating_add(1);
                }
                self.found.all.push(Lexeme { kind, span })?;
            }
        }
        Ok(())
    }

    /// Goes on by one piece, and says whether there can be more.
    fn step(&mut self, source: &[u8]) -> Result<bool, Uncut> {
        let rest = source.get(self.at..).unwrap_or(&[]);
        let (Some(first), true) = (rest.first(), self.marks < 2) else {
            return Ok(false);
        };
        match piece_at(rest, *first) {
            Ok((piece, length)) => {
                let to = self.at.saturating_add(length);
                self.take(piece, to)?;
                let lines = newlines(source.get(self.at..to).unwrap_or(&[]));
                self.line = self.line.saturating_add(lines);
                self.at = to;
                Ok(true)
            }
            Err(flaw) => {
                let (line, from, to) = (self.line, self.at, self.at);
                Err(Uncut::Flaw(flaw, Span { line, from, to }))
            }
        }
    }
}

/// The lexemes of a file up to its second mark, or the first flaw.
pub fn lexemes_of(alloc: Global, source: &[u8]) -> Result<Lexemes, Uncut> {
    let mut walk = Walk {
        at: 0,
        line: 1,
        marks: 0,
        found: Lexemes {
            all: Vec::new(alloc),
            remarks: Vec::new(alloc),
        },
    };
    for _ in 0..source.len() {
        if !walk.step(source)? {
            break;
        }
    }
    let Walk { found, .. } = walk;
    Ok(found)
}

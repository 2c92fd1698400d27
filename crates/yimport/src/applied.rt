//! A file with its changes made, and where what stands in it comes from.

use crate::edits::{Edit, Edits, Lack};
use crate::pieces::{Piece, Pieces};
use crate::refusal::Trouble;
use std::alloc::Global;
use yforeign::runs::newlines;
use ylexemes::bytes::{is_blank, is_name_byte};

/// The text that a file becomes, and what it has of the file.
#[derive(Drop)]
pub struct Changed {
    /// The text.
    pub text: Vec<u8>,
    /// What it has of the file.
    pub pieces: Pieces,
}

impl Changed {
    /// No text.
    pub fn new(alloc: Global) -> Changed {
        Changed {
            text: Vec::new(alloc),
            pieces: Pieces::new(alloc),
        }
    }
}

/// A text that is written.
#[derive(Drop)]
struct Page<'a> {
    source: &'a [u8],
    out: Vec<u8>,
    pieces: Vec<Piece>,
    at: usize,
    /// Whether blanks that come next are left out.
    passing: bool,
    /// Whether memory ran out.
    trouble: Lack,
}

/// Whether a byte is a blank that ends no line.
fn is_space(b: u8) -> bool {
    b == b' ' || b == b'\t'
}

impl<'a> Page<'a> {
    /// The bytes of the file from one place to another.
    fn part(&self, from: usize, to: usize) -> &'a [u8] {
        self.source.get(from..to).unwrap_or(&[])
    }

    /// Notes where the file has what comes next: so many bytes, after so many others. Parts that
    /// aren't before it have nothing, or were cut off.
    fn note(&mut self, file: usize, length: usize) {
        let text = self.out.len();
        let last = self.pieces.iter().rposition(|piece| piece.text < text);
        self.pieces
            .truncate(last.map_or(0, |last| last.saturating_add(1)));
        let piece = Piece { text, file, length };
        self.trouble.push(&mut self.pieces, piece);
    }

    /// Copies the file up to a place, without the spaces around what was left out.
    fn copy_to(&mut self, to: usize) {
        let from = self.at;
        let part = self.part(from, to);
        let front = part.iter().position(|b| !is_space(*b));
        let kept = if self.passing {
            part.get(front.unwrap_or(part.len())..).unwrap_or(&[])
        } else {
            part
        };
        if self.passing && matches!(kept, [b'\n', ..] | [b'\r', b'\n', ..]) {
            let end = self.out.iter().rposition(|b| !is_space(*b));
            self.out.truncate(end.map_or(0, |at| at.saturating_add(1)));
        }
        self.note(to.saturating_sub(kept.len()), kept.len());
        self.trouble.append(&mut self.out, kept);
        if !part.is_empty() {
            self.passing = false;
        }
    }

    /// Writes the newlines of a part that is left out, so that lines keep their numbers.
    fn keep_lines(&mut self, part: &[u8]) {
        for _ in 0..newlines(part) {
            self.trouble.append(&mut self.out, b"\n");
        }
    }

    /// Makes one change.
    fn make(&mut self, edit: &Edit, texts: &[u8]) {
        self.copy_to(edit.from);
        let part = self.part(edit.from, edit.to);
        match texts.get(edit.text.0..edit.text.1) {
            Some(text) if !text.is_empty() => {
                self.note(edit.from, usize::from(!part.is_empty()));
                self.trouble.append(&mut self.out, text);
                self.keep_lines(part);
                self.passing = false;
            }
            _ => {
                self.keep_lines(part);
                let before = self.out.last().copied().unwrap_or(b'\n');
                let next = self.source.get(edit.to).copied().unwrap_or(b'\n');
                if is_name_byte(before) && is_name_byte(next) {
                    self.trouble.append(&mut self.out, b" ");
                }
                self.passing = is_blank(before);
            }
        }
        self.at = edit.to;
    }
}

/// A file with its changes made.
pub fn applied(alloc: Global, changes: &mut Edits<'_>) -> Result<Changed, Trouble> {
    let source = changes.source;
    changes.edits.sort_by_key(|edit| edit.from)?;
    let mut page = Page {
        source,
        out: Vec::with_capacity(alloc, source.len())?,
        pieces: Vec::new(alloc),
        at: 0,
        passing: false,
        trouble: Lack { is_out: false },
    };
    for edit in &changes.edits {
        page.make(edit, &changes.texts);
    }
    page.copy_to(source.len());
    page.note(source.len(), 1);
    page.trouble.checked()?;
    let Page { out, pieces, .. } = page;
    Ok(Changed {
        text: out,
        pieces: Pieces { all: pieces },
    })
}

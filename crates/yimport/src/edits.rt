//! What is changed in a file, as it is found.

use crate::note::{How, Note, Reason};
use crate::refusal::{Refusal, Refused, Trouble};
use std::alloc::Global;
use yforeign::lexeme::{Lexeme, Span};

/// Remembers that memory ran out, so that it need not be asked for after each step.
///
/// A step that memory runs out in makes nothing, or less than it would have. The work may go on
/// after it, since `checked` says so before anything of it is used.
#[derive(Clone, Copy, Drop)]
pub struct Lack {
    /// Whether it did.
    pub is_out: bool,
}

impl Lack {
    /// A trouble, where memory ran out.
    pub fn checked(&self) -> Result<(), Trouble> {
        if self.is_out {
            Err(Trouble::Memory)
        } else {
            Ok(())
        }
    }

    /// Puts an item at the end of a list.
    pub fn push<T: Drop>(&mut self, list: &mut Vec<T>, item: T) {
        if list.push(item).is_err() {
            self.is_out = true;
        }
    }

    /// Writes a text after another one.
    pub fn append(&mut self, text: &mut Vec<u8>, more: &[u8]) {
        if text.extend_from_slice(more).is_err() {
            self.is_out = true;
        }
    }

    /// Writes a word and a space after a text.
    pub fn append_word(&mut self, text: &mut Vec<u8>, word: &[u8]) {
        self.append(text, word);
        self.append(text, b" ");
    }
}

/// A part of a file that is replaced by one of the texts written.
#[derive(Clone, Copy, Drop)]
pub struct Edit {
    /// How many bytes stand before the part.
    pub from: usize,
    /// How many bytes stand before what follows it.
    pub to: usize,
    /// Where the text begins and ends among those written.
    pub text: (usize, usize),
}

/// All changes of a file.
#[derive(Drop)]
pub struct Edits<'a> {
    /// The file.
    pub source: &'a [u8],
    /// The changes, in the order of the file.
    pub edits: Vec<Edit>,
    /// The texts written, one after the other.
    pub texts: Vec<u8>,
    /// What is said of each change.
    pub notes: Vec<Note>,
    /// Where the first mark begins.
    pub mark: Option<usize>,
    /// The declarations that go in front of it.
    pub moved: Vec<u8>,
    /// A declaration of the names made, which goes there too.
    pub made: Vec<u8>,
    /// Whether what is kept goes there.
    pub moving: bool,
    /// Whether memory ran out: then none of the changes is used.
    pub trouble: Lack,
    /// Why the file is refused.
    pub refused: Vec<Refused>,
    /// Whether what else is refused of a group would be a guess.
    pub stumbles: bool,
}

impl<'a> Edits<'a> {
    /// No changes yet.
    pub fn new(alloc: Global, source: &'a [u8]) -> Edits<'a> {
        Edits {
            source,
            edits: Vec::new(alloc),
            texts: Vec::new(alloc),
            notes: Vec::new(alloc),
            mark: None,
            moved: Vec::new(alloc),
            made: Vec::new(alloc),
            moving: false,
            trouble: Lack { is_out: false },
            refused: Vec::new(alloc),
            stumbles: false,
        }
    }

    /// Refuses the file for a lexeme, unless one of its group is misplaced.
    pub fn refuse(&mut self, refusal: Refusal, lexeme: &Lexeme) {
        if !self.stumbles {
            let span = lexeme.span;
            self.trouble
                .push(&mut self.refused, Refused { refusal, span });
        }
        self.stumbles = self.stumbles || matches!(refusal, Refusal::Misplaced);
    }

    /// Writes a text among the others.
    pub fn write(&mut self, text: &[u8]) {
        self.trouble.append(&mut self.texts, text);
    }

    /// Replaces a part of the file by the texts written from a place on.
    pub fn edit(&mut self, from: usize, to: usize, start: usize) {
        let text = (start, self.texts.len());
        self.trouble.push(&mut self.edits, Edit { from, to, text });
    }

    /// Notes how a part of the file is changed.
    pub fn note(&mut self, span: Span, how: How, reason: Reason) {
        self.trouble
            .push(&mut self.notes, Note { span, how, reason });
    }

    /// Takes a lexeme out, without a word.
    pub fn remove(&mut self, lexeme: &Lexeme) {
        let nothing = self.texts.len();
        self.edit(lexeme.span.from, lexeme.span.to, nothing);
    }

    /// Takes a lexeme out.
    pub fn take_out(&mut self, lexeme: &Lexeme, reason: Reason) {
        self.remove(lexeme);
        self.note(lexeme.span, How::Out, reason);
    }

    /// Keeps a lexeme.
    pub fn keep(&mut self, lexeme: &Lexeme) {
        if self.moving {
            let text = lexeme.text(self.source);
            self.trouble.append_word(&mut self.moved, text);
            self.remove(lexeme);
        }
    }

    /// Puts the texts written from a place on where a lexeme stands.
    pub fn replace(&mut self, lexeme: &Lexeme, start: usize, reason: Reason) {
        let end = self.texts.len();
        self.note(lexeme.span, How::Becomes(start, end), reason);
        if !self.moving {
            return self.edit(lexeme.span.from, lexeme.span.to, start);
        }
        let text = self.texts.get(start..).unwrap_or(&[]);
        self.trouble.append_word(&mut self.moved, text);
        self.remove(lexeme);
    }

    /// Lists a name that was made.
    pub fn list_made(&mut self, name: &[u8]) {
        if self.made.is_empty() {
            self.trouble.append_word(&mut self.made, b"%token");
        }
        self.trouble.append_word(&mut self.made, name);
    }

    /// Puts what goes in front of the first mark there.
    pub fn insert_moved(&mut self) {
        let Some(mark) = self.mark else {
            return;
        };
        let start = self.texts.len();
        self.trouble.append(&mut self.texts, &self.moved);
        self.trouble.append(&mut self.texts, &self.made);
        if self.texts.len() > start {
            self.edit(mark, mark, start);
        }
    }

    /// Makes a comment that begins with two slashes one of `yacc`.
    pub fn close_remark(&mut self, remark: Span) {
        let Span { from, to, .. } = remark;
        let text = self.source.get(from.saturating_add(2)..to).unwrap_or(&[]);
        let start = self.texts.len();
        self.write(b"/*");
        let mut before = 0u8;
        for b in text {
            if before == b'*' && *b == b'/' {
                // the comment would end here
                self.write(b" ");
            }
            self.write(&[*b]);
            before = *b;
        }
        self.write(b" */");
        self.edit(from, to, start);
        let how = How::Becomes(start, self.texts.len());
        self.note(remark, how, Reason::Remark);
    }
}

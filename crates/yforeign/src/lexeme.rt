//! Lexemes, and why a file isn't cut into them.

use std::alloc::{AllocError, AllocFailed};

/// What a lexeme is.
#[derive(Clone, Copy, Drop, PartialEq, Eq)]
pub enum Kind {
    /// A name, in which dashes may stand.
    Name,
    /// Digits, or hexadecimal ones after `0x`.
    Number,
    /// A literal that `yacc` reads.
    Literal,
    /// One byte between quotes that `yacc` doesn't read so.
    ByteLiteral,
    /// A string, or several characters between quotes.
    Text,
    /// A string between `_(` and `)`.
    Translated,
    /// What stands between `<` and its `>`, with these.
    Tag,
    /// A name in square brackets.
    Reference,
    /// What stands between parentheses, with these.
    Arguments,
    /// A text in braces.
    Braced,
    /// `%{` to `%}`.
    Code,
    /// `%%`.
    Mark,
    /// A percent sign and a name.
    Word,
    /// `%?`, which a condition follows.
    Predicate,
    /// `#line` up to the end of its line.
    LineMark,
    /// `:`.
    Colon,
    /// `|`.
    Bar,
    /// `;`.
    Semicolon,
    /// `,`.
    Comma,
    /// `=`.
    Equals,
}

/// A part of a file.
#[derive(Clone, Copy, Drop)]
pub struct Span {
    /// Its line, counted from 1.
    pub line: usize,
    /// How many bytes stand before it.
    pub from: usize,
    /// How many bytes stand before what follows it.
    pub to: usize,
}

/// A lexeme.
#[derive(Clone, Copy)]
pub struct Lexeme {
    /// What it is.
    pub kind: Kind,
    /// Where it stands.
    pub span: Span,
}

/// Why no lexeme stands at a place.
#[derive(Clone, Copy, Drop, PartialEq, Eq)]
pub enum Flaw {
    /// A comment, a quote, a bracket or a brace has no end.
    Unfinished,
    /// No literal of one character from 1 to 255 begins at a quote.
    BadLiteral,
    /// Digits that are no number.
    BadNumber,
    /// Square brackets without a name.
    BadReference,
    /// A byte that begins no lexeme.
    Foreign,
}

/// Why a file isn't cut into lexemes.
#[derive(Drop)]
pub enum Uncut {
    /// A flaw, and where it is: a part without bytes.
    Flaw(Flaw, Span),
    /// Memory ran out.
    Memory,
}

impl<T: Drop> From<AllocFailed<T>> for Uncut {
    fn from(_refused: AllocFailed<T>) -> Uncut {
        Uncut::Memory
    }
}

impl From<AllocError> for Uncut {
    fn from(_refused: AllocError) -> Uncut {
        Uncut::Memory
    }
}

impl Lexeme {
    /// The bytes of the lexeme.
    pub fn text<'a>(&self, source: &'a [u8]) -> &'a [u8] {
        source.get(self.span.from..self.span.to).unwrap_or(&[])
    }
}

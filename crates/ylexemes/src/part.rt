//! Parts of a grammar file: blanks, comments and lexemes.

ghost use Rattle.std.specs.Prelude.{◌≡◌};
ghost use Rattle.ylexemes.specs.Lexemes.{kind_of};
ghost use Rattle.ylexemes.specs.Views.{lexeme_view};

use crate::kind::{Kind, Sign};

/// A lexeme of a grammar file. Texts are parts of the file.
#[derive(Clone, Copy)]
pub enum Lexeme<'a> {
    /// A name that no colon follows.
    Name(&'a [u8]),
    /// A name that a colon follows, over blanks and comments.
    CIdentifier(&'a [u8]),
    /// A literal, by the value of its character, 1 to 255.
    Literal(u8),
    /// The digits of a number, any number of them.
    Number(&'a [u8]),
    /// A kept text, with its braces.
    Braced(&'a [u8]),
    /// A code block, `%{` to `%}`, without its text.
    Code,
    /// A lexeme with one spelling.
    Fixed(Sign),
}

impl Lexeme<'_> {
    /// What the lexeme is to the syntax.
    pub fn kind(&self) -> Kind
        ensures { result ≡ kind_of (lexeme_view self.now) }
    {
        match self {
            Lexeme::Name(_) => Kind::Name,
            Lexeme::CIdentifier(_) => Kind::CIdentifier,
            Lexeme::Literal(_) => Kind::Literal,
            Lexeme::Number(_) => Kind::Number,
            Lexeme::Braced(_) => Kind::Braced,
            Lexeme::Code => Kind::Code,
            Lexeme::Fixed(sign) => sign.kind(),
        }
    }
}

/// What stands at a place of a grammar file.
#[derive(Clone, Copy)]
pub enum Part<'a> {
    /// One blank.
    Blank,
    /// A comment, `/*` to `*/`.
    Comment,
    /// A lexeme.
    Lexeme(Lexeme<'a>),
}

/// Why no part begins at a place.
#[derive(Clone, Copy)]
pub enum LexicalFault {
    /// The file ends within a comment, a code block, a kept text or a literal.
    Unfinished,
    /// A quote stands there, and no literal begins.
    BadLiteral,
    /// Any other byte, or percent word, that begins no part.
    Foreign,
}

//! How the inputs of a file of messages are read: as tokens, or as texts in the language of a
//! grammar.

use std::alloc::Global;
use std::io::{self, ErrorKind};
use yinput::language::Language;
use ylalr::END;
use ylex::fault::TextFault;
use ylex::lexer::{Lexed, Lexer};
use yparse::{TokenFault, Tokens, read_tokens};
use ysymbols::Sym;
use ytables::Tables;

/// What reads inputs.
#[derive(Clone, Copy)]
pub struct Inputs<'a> {
    /// The tables.
    pub(crate) tables: &'a Tables,
    /// What cuts texts; without it, inputs are tokens.
    pub(crate) lexer: Option<&'a Lexer>,
    /// Whether an input is rather the tokens that the comment below it has, where it has one.
    pub(crate) noted: bool,
}

/// An input as tokens.
#[derive(Drop)]
pub struct Listed {
    /// Its tokens but for the end.
    pub tokens: Tokens,
    /// Whether the end stands after them, which is then the last token.
    pub ended: bool,
}

/// Why a line is no input.
#[derive(Clone, Copy, Drop)]
pub enum Wrong {
    /// It has this fault as tokens.
    Tokens(TokenFault),
    /// It is a text, and nothing matches after so many of its bytes.
    Unmatched(usize),
    /// It is a text, and a token too many begins after so many of its bytes.
    TooMany(usize),
}

/// The tokens of an input without the end, where that is its last word.
fn without_end(line: &[u8]) -> (&[u8], bool) {
    let text = line.trim_ascii_end();
    let Some(rest) = text.strip_suffix(b"$end") else {
        return (text, false);
    };
    // whether a word can begin after the rest
    match rest.last() {
        None | Some(b' ') | Some(b'\t') | Some(b'\'') => (rest, true),
        Some(_) => (text, false),
    }
}

/// The text of an input without the end, and the blank before it, where that is its last word.
fn text_without_end(line: &[u8]) -> (&[u8], bool) {
    let rest = line.trim_ascii_end().strip_suffix(b"$end");
    match rest.map(|rest| rest.split_last()) {
        Some(None) => (&[], true),
        Some(Some((b' ' | b'\t', before))) => (before, true),
        _ => (line, false),
    }
}

impl Listed {
    /// The tokens before the last one, and that.
    pub fn list(&self) -> (&[Sym], Sym) {
        let symbols = self.tokens.symbols.as_slice();
        match symbols.split_last() {
            Some((last, before)) if !self.ended => (before, *last),
            _ => (symbols, END),
        }
    }
}

impl<'a> Inputs<'a> {
    /// Inputs that are tokens.
    pub(crate) fn of_tokens(tables: &'a Tables) -> Inputs<'a> {
        Inputs {
            tables,
            lexer: None,
            noted: false,
        }
    }

    /// Texts that are cut by a SPEC; without one, tokens, which may stand below texts.
    pub(crate) fn cut_by(tables: &'a Tables, lexer: Option<&'a Lexer>) -> Inputs<'a> {
        Inputs {
            tables,
            lexer,
            noted: lexer.is_none(),
        }
    }

    /// Inputs of a language: texts, where it has a SPEC.
    pub fn of_language(language: &'a Language) -> Inputs<'a> {
        Inputs {
            tables: &language.opened.tables,
            lexer: language.lexer.as_ref(),
            noted: false,
        }
    }

    /// The input of a line, which is tokens or a text, or why that is none.
    pub fn read(self, alloc: Global, line: &[u8]) -> io::Result<Result<Listed, Wrong>> {
        let Some(lexer) = self.lexer else {
            let (text, ended) = without_end(line);
            return match read_tokens(alloc, self.tables, text) {
                Ok(tokens) => Ok(Ok(Listed { tokens, ended })),
                Err(TokenFault::Memory) => Err(io::Error::from(ErrorKind::OutOfMemory)),
                Err(fault) => Ok(Err(Wrong::Tokens(fault))),
            };
        };
        let (text, ended) = text_without_end(line);
        match lexer.lex(alloc, self.tables.automaton().grammar(), text) {
            Ok(lexed) => {
                let Lexed { tokens, .. } = lexed;
                Ok(Ok(Listed { tokens, ended }))
            }
            Err(TextFault::Unmatched(at)) => Ok(Err(Wrong::Unmatched(at))),
            Err(TextFault::TooMany(at)) => Ok(Err(Wrong::TooMany(at))),
            Err(TextFault::Memory) => Err(io::Error::from(ErrorKind::OutOfMemory)),
        }
    }
}

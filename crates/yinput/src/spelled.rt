//! What people call tokens, where that is known: by the strings of a file of bison, or as a SPEC
//! says that they look.

use std::alloc::Global;
use std::io::{self, Write};
use yexplain::reads::{Made, name_of};
use yexplain::text::Escaped;
use ylalr::END;
use ysymbols::{Grammar, Sym};

/// The most bytes of a word that are shown.
pub const MOST_OF_WORD: usize = 40;

/// What people call a symbol of which nothing else is said, and whose name says little: the end,
/// and the newline as a literal.
pub fn usual_call(grammar: &Grammar, symbol: Sym) -> Option<&'static [u8]> {
    if symbol == END {
        Some(b"end of input")
    } else if name_of(grammar, symbol) == b"'\\012'".as_slice() {
        Some(b"end of line")
    } else {
        None
    }
}

/// What symbols are called that aren't called by their names, by their numbers.
#[derive(Drop)]
pub struct Spelled {
    /// The texts; without one, a symbol is called by its name.
    pub texts: Vec<Option<Vec<u8>>>,
}

impl Spelled {
    /// What a symbol is called, unless that is its name.
    pub fn of(&self, symbol: Sym) -> Option<&[u8]> {
        let text = self.texts.get(symbol)?;
        text.as_ref().map(Vec::as_slice)
    }

    /// The same, with the texts of tokens that are called by their names so far, as strings of C.
    pub fn with_texts(&self, alloc: Global, texts: &[Option<Vec<u8>>]) -> Made<Spelled> {
        let mut all = Vec::new(alloc);
        for (symbol, text) in texts.iter().enumerate() {
            all.push(match (self.of(symbol), text) {
                (Some(called), _) => Some(Vec::from_slice(alloc, called)?),
                (None, Some(text)) => {
                    let mut quoted = Vec::from_slice(alloc, b"\"")?;
                    for byte in text {
                        if *byte == b'"' || *byte == b'\\' {
                            quoted.push(b'\\')?;
                        }
                        quoted.push(*byte)?;
                    }
                    quoted.push(b'"')?;
                    Some(quoted)
                }
                (None, None) => None,
            })?;
        }
        Ok(Spelled { texts: all })
    }

    /// The same, with what people call the other symbols, where that isn't their name.
    pub fn with_usual(&self, alloc: Global, grammar: &Grammar) -> Made<Spelled> {
        let mut all = Vec::new(alloc);
        for symbol in 0..grammar.symbols() {
            let called = match self.of(symbol) {
                Some(called) => Some(called),
                None => usual_call(grammar, symbol),
            };
            all.push(match called {
                Some(called) => Some(Vec::from_slice(alloc, called)?),
                None => None,
            })?;
        }
        Ok(Spelled { texts: all })
    }
}

/// The symbols of a grammar as people write them.
#[derive(Clone, Copy)]
pub struct Spoken<'a> {
    /// The grammar.
    pub grammar: &'a Grammar,
    /// What its symbols are called; without it, they are by their names.
    pub spelled: Option<&'a Spelled>,
}

impl<'a> Spoken<'a> {
    /// What a symbol is called.
    fn called(self, symbol: Sym) -> &'a [u8] {
        let called = match self.spelled {
            Some(spelled) => spelled.of(symbol),
            None => None,
        };
        called.unwrap_or(name_of(self.grammar, symbol))
    }

    /// Writes what a symbol is called.
    pub fn put<W: Write>(self, out: &mut W, symbol: Sym) -> io::Result<()> {
        out.write_all(self.called(symbol))
    }

    /// Writes a token that is this word of a text: what it is called, and the word, or one of them
    /// where the other says no more.
    pub fn put_met<W: Write>(self, out: &mut W, token: Sym, word: &[u8]) -> io::Result<()> {
        let (name, called) = (name_of(self.grammar, token), self.called(token));
        let inside = called.get(1..called.len().saturating_sub(1));
        if word.is_empty() || name.first() == Some(&b'\'') || inside == Some(word) {
            return out.write_all(called);
        }
        if called != name || !word.eq_ignore_ascii_case(name) {
            out.write_all(called)?;
            out.write_all(b" ")?;
        }
        let shown = Escaped(word.get(..MOST_OF_WORD).unwrap_or(word));
        let dots = if word.len() > MOST_OF_WORD { ".." } else { "" };
        write!(out, "'{shown}{dots}'")
    }
}

//! What the texts of a parser are made of.

use crate::numbering::Numbering;
use crate::spoken::Speech;
use crate::style::Style;
use ycode::Code;
use yparts::parts::Parts;
use ysymbols::{Grammar, Sym};

/// What the texts of a parser are made of.
#[derive(Clone, Copy)]
pub struct Skeleton<'a> {
    /// The path of the grammar file, as `#line` has it.
    pub path: &'a str,
    /// The path of the text that is made: the parser, or its header.
    pub own_path: &'a str,
    /// The grammar.
    pub grammar: &'a Grammar,
    /// What the file says of the parser.
    pub parts: &'a Parts<'a>,
    /// How the parser looks.
    pub style: &'a Style<'a>,
    /// The arrays of the tables.
    pub code: &'a Code,
    /// The numbers of tokens.
    pub numbering: &'a Numbering,
    /// The number that bison gives each state, and the one in which the end is shifted.
    pub states: &'a [usize],
    /// Messages for errors, where the parser has some.
    pub speech: Option<&'a Speech>,
}

impl Skeleton<'_> {
    /// The number of a symbol among tokens, what is no token, and nonterminals.
    pub fn kind_of(&self, symbol: Sym) -> usize {
        if self.grammar.is_token(symbol) {
            symbol
        } else {
            symbol.saturating_add(1)
        }
    }
}

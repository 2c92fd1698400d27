//! The parts of a file that go into its parser.

use crate::options::Options;
use crate::refusal::Refused;
use std::alloc::Global;
use yexplain::lines::is_inner;
use yexplain::reads::Made;
use ysymbols::{Grammar, Sym, let_go};

/// A text of the file.
#[derive(Clone, Copy)]
pub struct Piece<'a> {
    /// Its bytes.
    pub text: &'a [u8],
    /// How many bytes of the file stand before it.
    pub at: usize,
    /// Its line, counted from 1.
    pub line: usize,
}

/// Where code goes.
#[derive(Clone, Copy, PartialEq, Eq)]
pub enum Target {
    /// `%{ %}`: before the declarations of the parser, or after the union where it stands there.
    Prologue,
    /// `%union`: the type of values.
    Union,
    /// `%code top`: before all else.
    Top,
    /// `%code requires`: before the types, in the header too.
    Requires,
    /// `%code provides`: after the declarations, in the header too.
    Provides,
    /// `%code`: after the declarations.
    Code,
    /// `%initial-action`: before the first token is read.
    Initial,
}

/// Code of the file.
#[derive(Clone, Copy)]
pub struct Block<'a> {
    /// Where it goes.
    pub target: Target,
    /// Its text: of a union and of an action with its braces, else without.
    pub piece: Piece<'a>,
}

/// What a file says of a symbol.
#[derive(Clone, Copy)]
pub struct Looks<'a> {
    /// Its tag.
    pub tag: Option<&'a [u8]>,
    /// What stands for it in the file where that is no name: a literal or a string, with quotes.
    pub label: Option<&'a [u8]>,
    /// Whether its name was made for a string.
    pub is_made: bool,
}

/// An action.
#[derive(Clone, Copy)]
pub struct Action<'a> {
    /// Its rule.
    pub rule: usize,
    /// The body that it stands in, counted from 0 over those of the file.
    pub body: usize,
    /// Its text, with braces.
    pub piece: Piece<'a>,
}

/// The name of a value in a body.
#[derive(Clone, Copy)]
pub struct Named<'a> {
    /// The name: one in brackets, or else that of the symbol.
    pub name: &'a [u8],
    /// The name of the symbol.
    pub symbol: &'a [u8],
    /// Which symbol of the body it is, counted from 1; 0 is the left side.
    pub place: usize,
}

/// What is done with the values of symbols.
#[derive(Clone, Copy, PartialEq, Eq)]
pub enum Deed {
    /// `%destructor`: what a value needs that is thrown away.
    Destroy,
    /// `%printer`: how a value is shown by a trace.
    Print,
}

/// Whose values are meant.
#[derive(Clone, Copy, PartialEq, Eq)]
pub enum Whose<'a> {
    /// Those of a symbol.
    Symbol(Sym),
    /// Those of the symbols with this tag.
    Tag(&'a [u8]),
    /// Those of symbols with a tag, `<*>`.
    Tagged,
    /// Those of symbols without a tag, `<>`.
    Untagged,
}

/// Code for the values of some symbols.
#[derive(Clone, Copy)]
pub struct Care<'a> {
    /// What it does.
    pub deed: Deed,
    /// Whose values.
    pub whose: Whose<'a>,
    /// The code, with braces.
    pub piece: Piece<'a>,
}

/// Which functions a parameter is one of.
#[derive(Clone, Copy, PartialEq, Eq)]
pub enum Taker {
    /// `yyparse`, and `yyerror`.
    Parse,
    /// `yylex`.
    Lex,
    /// Both.
    Both,
}

/// A parameter.
#[derive(Clone, Copy)]
pub struct Param<'a> {
    /// Of which functions.
    pub taker: Taker,
    /// Its declaration.
    pub declaration: &'a [u8],
    /// Its name.
    pub name: &'a [u8],
}

/// A number that a file gives a token.
#[derive(Clone, Copy, Drop)]
pub struct Numbered {
    /// The token.
    pub token: Sym,
    /// The number.
    pub number: usize,
}

/// How a file mentions a symbol.
#[derive(Clone, Copy, Drop, PartialEq, Eq)]
pub enum By {
    /// By its name, in a list of tokens that have names.
    Token,
    /// By its name, elsewhere.
    Name,
    /// By a string that stands for it.
    Text,
}

/// A symbol that a file mentions.
#[derive(Clone, Copy, Drop)]
pub struct Mention {
    /// The symbol.
    pub symbol: Sym,
    /// How it is mentioned.
    pub by: By,
}

/// A variable that the file defines.
#[derive(Clone, Copy)]
pub struct Defined<'a> {
    /// Its name.
    pub name: &'a [u8],
    /// Its value.
    pub value: &'a [u8],
    /// Where it is defined.
    pub at: usize,
}

/// All that a file says of its parser beside its tables.
pub struct Parts<'a> {
    /// Code, in the order of the file.
    pub blocks: Vec<Block<'a>>,
    /// What the file says of each symbol.
    pub looks: Vec<Looks<'a>>,
    /// Names of the end.
    pub ends: Vec<&'a [u8]>,
    /// The actions, in the order of their rules.
    pub actions: Vec<Action<'a>>,
    /// The names of values, body after body.
    pub names: Vec<Named<'a>>,
    /// Where the names of each body begin.
    pub bodies: Vec<usize>,
    /// The line that each body begins on.
    pub lines: Vec<usize>,
    /// Code for values.
    pub cares: Vec<Care<'a>>,
    /// The parameters, in their order.
    pub params: Vec<Param<'a>>,
    /// The numbers that the file gives tokens.
    pub numbers: Vec<Numbered>,
    /// The symbols in the order in which the file mentions them, each as often as it does.
    pub mentioned: Vec<Mention>,
    /// What stands after the second mark.
    pub tail: Option<Piece<'a>>,
    /// The variables that the file defines.
    pub defined: Vec<Defined<'a>>,
    /// Wishes.
    pub options: Options<'a>,
    /// Why no parser is made, each with its place.
    pub refused: Vec<Refused<'a>>,
}

impl Drop for Parts<'_> {
    // A call in each owner, which keeps their proofs short.
    fn drop(self) {
        let_go!(self: Parts {
            blocks, looks, ends, actions, names, bodies, lines, cares, params, numbers, mentioned,
            tail, defined, options, refused
        });
    }
}

/// What is known of a symbol of which the file says nothing.
const PLAIN: Looks<'static> = Looks {
    tag: None,
    label: None,
    is_made: false,
};

impl<'a> Parts<'a> {
    /// Nothing but symbols.
    pub fn new(alloc: Global, symbols: usize) -> Made<Parts<'a>> {
        let looks = vec![in alloc; PLAIN; symbols]?;
        Ok(Parts {
            blocks: Vec::new(alloc),
            looks,
            ends: Vec::new(alloc),
            actions: Vec::new(alloc),
            names: Vec::new(alloc),
            bodies: Vec::new(alloc),
            lines: Vec::new(alloc),
            cares: Vec::new(alloc),
            params: Vec::new(alloc),
            numbers: Vec::new(alloc),
            mentioned: Vec::new(alloc),
            tail: None,
            defined: Vec::new(alloc),
            options: Options::none(),
            refused: Vec::new(alloc),
        })
    }

    /// What the file says of a symbol.
    pub fn looks_of(&self, symbol: Sym) -> Looks<'a> {
        self.looks.get(symbol).copied().unwrap_or(PLAIN)
    }

    /// The tag of a symbol, where it has one.
    pub fn tag_of(&self, symbol: Sym) -> Option<&'a [u8]> {
        self.looks_of(symbol).tag
    }

    /// Gives a symbol a tag.
    pub fn give_tag(&mut self, symbol: Sym, tag: &'a [u8]) {
        if let Some(looks) = self.looks.get_mut(symbol) {
            looks.tag = Some(tag);
        }
    }

    /// Whether the file gives any symbol a tag: then each value that is used needs one.
    pub fn has_tags(&self) -> bool {
        for looks in &self.looks {
            if looks.tag.is_some() {
                return true;
            }
        }
        false
    }

    /// The names of values in a body.
    pub fn names_in(&'a self, body: usize) -> &'a [Named<'a>] {
        let from = self.bodies.get(body).copied().unwrap_or(0);
        let next = self.bodies.get(body.saturating_add(1)).copied();
        let to = next.unwrap_or(self.names.len());
        self.names.get(from..to).unwrap_or(&[])
    }

    /// Takes in the texts of actions, in the order of the file, which is that of their rules.
    pub fn set_actions(&mut self, grammar: &Grammar, pieces: &[Piece<'a>]) -> Made<()> {
        let mut pieces = pieces.iter();
        let mut body: usize = 0;
        for rule in 1..grammar.rules() {
            if grammar.action_text(rule).is_some() {
                if let Some(piece) = pieces.next() {
                    let piece = *piece;
                    self.actions.push(Action { rule, body, piece })?;
                }
            }
            if !is_inner(grammar, rule) {
                body = body.saturating_add(1);
            }
        }
        Ok(())
    }
}

//! How a parser looks: the order of its parts, its names, and what it can do.

use crate::references::{Dialect, Piece, piece_at};
use std::alloc::Global;
use ycode::Policy;
use yexplain::reads::Made;
use yparts::options::{Errors, Options, Pull, Purity, Values};
use yparts::parts::{Deed, Parts, Target};
use ysymbols::{Grammar, Sym, let_go};

/// Whose order and names a parser has.
#[derive(Clone, Copy, PartialEq, Eq)]
pub enum Mode {
    /// byacc's.
    Byacc,
    /// bison's.
    Bison,
}

/// What is asked for by words.
#[derive(Clone, Copy)]
pub struct Wishes {
    /// Whether `#line` tells where parts are from.
    pub lines: bool,
    /// Whether the parser can trace its steps, unless YYDEBUG says otherwise.
    pub debug: bool,
    /// Whose order and names.
    pub mode: Mode,
    /// Whether the names of files are those of `yacc`, so that tokens are macros too.
    pub is_yacc: bool,
    /// Whether the tokens that could come are listed as bison lists them.
    pub lists: bool,
    /// Whether there are messages for errors.
    pub speaks: bool,
    /// Which states reduce by default.
    pub policy: Policy,
}

/// How a parser looks.
pub struct Style<'a> {
    /// What is asked for.
    pub wishes: Wishes,
    /// What the file wishes.
    pub options: Options<'a>,
    /// What names begin with.
    pub names: Vec<u8>,
    /// What types and enums begin with.
    pub types: &'a [u8],
    /// What macros begin with.
    pub macros: Vec<u8>,
    /// Whether the file gives any symbol a tag: then each value that is used needs one.
    pub has_tags: bool,
    /// Whether symbols have places.
    pub locations: bool,
    /// Whether values that are thrown away need something.
    pub destroys: bool,
    /// Whether values can be shown.
    pub prints: bool,
}

impl Drop for Style<'_> {
    // A call in each owner, which keeps their proofs short.
    fn drop(self) {
        let_go!(self: Style {
            wishes, options, names, types, macros, has_tags, locations, destroys, prints
        });
    }
}

/// Whether code names a place.
pub fn names_place(code: &[u8], dialect: Dialect) -> bool {
    let mut rest = code;
    for _ in code {
        match piece_at(rest, dialect) {
            Some((Piece::Place(_), _, _)) => return true,
            Some((_, _, after)) => rest = after,
            None => break,
        }
    }
    false
}

/// Whether an action, the one before the first token, or code for values names a place.
pub fn uses_places(parts: &Parts<'_>, dialect: Dialect) -> bool {
    for action in &parts.actions {
        if names_place(action.piece.text, dialect) {
            return true;
        }
    }
    for care in &parts.cares {
        if names_place(care.piece.text, dialect) {
            return true;
        }
    }
    for block in &parts.blocks {
        if block.target == Target::Initial && names_place(block.piece.text, dialect) {
            return true;
        }
    }
    false
}

/// How the parser of these parts looks, with names that begin with a prefix where one is given.
pub fn style_of<'a>(
    alloc: Global,
    parts: &Parts<'a>,
    wishes: Wishes,
    prefix: Option<&str>,
) -> Made<Style<'a>> {
    let options = parts.options;
    let types = options.api_prefix.unwrap_or(b"yy");
    let mut macros = Vec::from_slice(alloc, types)?;
    for byte in macros.iter_mut() {
        *byte = byte.to_ascii_uppercase();
    }
    let named = options.name_prefix.unwrap_or(types);
    let names = match prefix {
        Some(prefix) => Vec::from_slice(alloc, prefix.as_bytes())?,
        None => Vec::from_slice(alloc, named)?,
    };
    let (mut destroys, mut prints) = (false, false);
    let mut has_tags = parts.has_tags();
    for care in &parts.cares {
        destroys = destroys || care.deed == Deed::Destroy;
        prints = prints || care.deed == Deed::Print;
    }
    for block in &parts.blocks {
        let is_union = block.target == Target::Union;
        has_tags = has_tags || (is_union && wishes.mode == Mode::Bison);
    }
    let mut style = Style {
        wishes,
        options,
        names,
        types,
        macros,
        has_tags,
        locations: options.locations,
        destroys,
        prints,
    };
    style.locations = options.locations || uses_places(parts, style.dialect());
    Ok(style)
}

impl<'a> Style<'a> {
    /// Whether it is bison's.
    pub fn is_bison(&self) -> bool {
        self.wishes.mode == Mode::Bison
    }

    /// Whether each call has variables of its own.
    pub fn is_pure(&self) -> bool {
        self.options.purity != Purity::No
    }

    /// What actions may name. Names and places are bison's, but byacc has places where a file
    /// wishes for them.
    pub fn dialect(&self) -> Dialect {
        Dialect {
            names: self.is_bison(),
            places: self.is_bison() || self.locations,
        }
    }

    /// Whether the numbers of tokens are those of symbols.
    pub fn is_raw(&self) -> bool {
        self.is_bison() && self.options.raw
    }

    /// What is said of an error: in byacc's order that there is one.
    pub fn errors(&self) -> Errors {
        if self.is_bison() {
            self.options.errors
        } else {
            Errors::Simple
        }
    }

    /// Whether tokens are pushed into a parse.
    pub fn is_pushed(&self) -> bool {
        self.is_bison() && self.options.pull != Pull::Only
    }

    /// Whether a parse fetches its tokens.
    pub fn is_pulled(&self) -> bool {
        !self.is_pushed() || self.options.pull == Pull::Also
    }

    /// Whether a parser reduces by default as bison's does.
    pub fn is_most(&self) -> bool {
        matches!(self.wishes.policy, Policy::Most)
    }

    /// Whether a token is tried before the first action on it. Messages belong to states that have
    /// reduced at the token.
    pub fn looks_ahead(&self) -> bool {
        self.options.lac && self.is_bison() && !self.wishes.speaks
    }

    /// Whether tokens that could come are asked for.
    pub fn asks(&self) -> bool {
        self.wishes.speaks || self.errors() != Errors::Simple
    }

    /// Whether these are the tokens of the row of the state that the error is found in: as bison
    /// has them under the same policy.
    pub fn has_rows(&self) -> bool {
        let is_plain = !self.wishes.lists && !self.wishes.speaks;
        !self.looks_ahead() && (self.is_most() || is_plain)
    }

    /// Whether messages list the tokens that could come before anything is reduced at a wrong one.
    fn recalls(&self) -> bool {
        self.wishes.speaks && !self.has_rows() && !self.lists()
    }

    /// Whether they are those that bison would list, of a parser that has not reduced as bison's
    /// has by default.
    pub fn lists(&self) -> bool {
        let is_other = self.is_most() || self.looks_ahead();
        self.wishes.lists && !is_other && self.errors() != Errors::Simple
    }

    /// What the names of tokens begin with.
    pub fn token_prefix(&self) -> &'a [u8] {
        self.options.token_prefix.unwrap_or(b"")
    }

    /// What the name of the member for a symbol begins with: that of a token as its name in C does.
    pub fn member_prefix(&self, grammar: &Grammar, symbol: Sym) -> &'a [u8] {
        if grammar.is_token(symbol) {
            self.token_prefix()
        } else {
            b""
        }
    }

    /// What the names of the kinds of symbols begin with.
    pub fn symbol_prefix(&self) -> &'a [u8] {
        match self.options.symbol_prefix {
            Some(prefix) => prefix,
            None if self.options.is_cxx() => b"S_",
            None => b"YYSYMBOL_",
        }
    }

    /// Whether the condition of a fixed text holds that has this word.
    pub fn holds(&self, word: &str) -> bool {
        match word {
            "bison" => self.is_bison(),
            "pure" => self.is_pure(),
            "shared" => !self.is_pure(),
            "push" => self.is_pushed(),
            "pull" => !self.is_pushed(),
            "pulls" => self.is_pulled(),
            "raw" => self.is_raw(),
            // a program can ask which tokens could come
            "kinds" => match self.errors() {
                Errors::Custom => !self.options.is_cxx(),
                Errors::Simple => false,
                _ => self.is_pushed() && !self.options.is_cxx(),
            },
            "locations" => self.locations,
            "destroys" => self.destroys,
            "prints" => self.prints,
            "shows" => self.is_bison() || self.prints,
            "cleans" => self.is_bison() || self.destroys,
            "idle" => self.is_bison() && !self.destroys && !self.is_pushed(),
            "plain" => matches!(self.errors(), Errors::Detailed | Errors::Custom),
            "logs" => self.looks_ahead() && self.options.is_cxx(),
            "expecting" => matches!(self.errors(), Errors::Verbose | Errors::Detailed),
            "verbose" => self.errors() == Errors::Verbose,
            "custom" => self.errors() == Errors::Custom,
            "lists" => self.lists(),
            "again" => self.is_most() || self.looks_ahead(),
            "lac" => self.looks_ahead(),
            "recalls" => self.recalls(),
            "looks" => self.looks_ahead() || self.recalls(),
            "asks" => self.asks(),
            "rows" => self.has_rows(),
            "speaks" => self.wishes.speaks,
            "names" => self.options.has_names,
            "variant" => self.options.values == Values::Variant,
            "asserts" => self.options.class.asserts,
            "makes" => self.options.class.constructors,
            "compares" => self.options.class.compares,
            _ => false,
        }
    }
}

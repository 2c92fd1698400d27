//! The tokens of an input.

ghost use Rattle.std.specs.Prelude.{ℕ, ◌≡◌, ◌<◌, ◌≤◌, ◌↔◌, IsTrue, IfOk, List, Result};
ghost use Rattle.std.specs.Prelude.{length, slice_index};
ghost use Rattle.ytokens.specs.declared.tokens.TokenFault.{TokenFault as Fault};
ghost use Rattle.ytokens.specs.Symbols.{symbol_named, token_count, is_input};
ghost use Rattle.ytokens.specs.Tokens.{Fits, symbols_of};
ghost use Rattle.ytokens.specs.TokensFile.{by_name, Comes, most_tokens};
ghost use Rattle.ytokens.specs.TokensFile.{has_blank_end};
ghost use Rattle.std.specs.Prelude.{[], ◌∷◌, Ok, IfSome, is_some, false};
ghost use Rattle.ytokens.specs.Reading.{Gives, Agrees, TokensOf, next_view};

use crate::token_words::{Front, front_of};
use std::alloc::{AllocFailed, Global};
use thiserror::Error;
use ylalr::ERROR;
use ylexemes::bytes::is_blank;
use ysymbols::{Grammar, Sym};
use ytables::Tables;

/// The most tokens of an input.
const MOST_TOKENS: usize = 1_000_000;

/// Why a tokens file is refused. A place is that of a word, counted from 1.
#[derive(Clone, Copy, Debug, PartialEq, Eq, Error)]
pub enum TokenFault {
    /// K1: the word at this place names no symbol of the grammar.
    #[error("K1 at token {0}")]
    Unknown(usize),
    /// K2: the word at this place is `error`, `$end` or a nonterminal.
    #[error("K2 at token {0}")]
    NotInput(usize),
    /// K3: a further word comes after 1,000,000 tokens.
    #[error("K3")]
    TooMany,
    /// K4: memory ran out.
    #[error("no memory")]
    Memory,
    /// K5: the quote at this place begins no literal.
    #[error("K5 at token {0}")]
    BadLiteral(usize),
}

impl<T: Drop> From<AllocFailed<T>> for TokenFault {
    ghost use Rattle.ytokens.specs.declared.tokens.TokenFault.TheVariants.{Memory};

    ghost from_gives = { λ _ e. e ≡ Memory };

    fn from(_refused: AllocFailed<T>) -> TokenFault {
        TokenFault::Memory
    }
}

/// Whether a symbol is a token other than `$end` and `error`.
pub fn is_input(grammar: &Grammar, symbol: Sym) -> bool
    ensures { result ≡ is_input (token_count grammar.now) symbol }
{
    ERROR < symbol && grammar.is_token(symbol)
}

/// The tokens of an input, each a symbol of the tables for which it was read.
#[derive(Drop)]
pub struct Tokens {
    /// The symbols, in the order of the input.
    pub symbols: Vec<Sym>,
}

impl Tokens {
    /// How many tokens there are.
    pub fn len(&self) -> usize
        ensures { result ≡ length (symbols_of self.now) }
    {
        self.symbols.len()
    }

    /// Whether there are no tokens.
    pub fn is_empty(&self) -> bool
        ensures { IsTrue result ↔ (length (symbols_of self.now) ≡ 0) }
    {
        self.symbols.is_empty()
    }

    /// The token at this index, counted from 0.
    pub fn get(&self, index: usize) -> Sym
        requires { index < length (symbols_of self.now) }
        ensures { result ≡ slice_index (symbols_of self.now) index }
    {
        self.symbols[index]
    }

    /// Whether each is a token of these tables other than `error` and `$end`.
    pub fn fits(&self, tables: &Tables) -> bool
        ensures { IsTrue result ↔ Fits tables.now.built.grammar (symbols_of self.now) }
    {
        let grammar = tables.automaton().grammar();
        self.symbols.iter().all(|symbol| is_input(grammar, *symbol))
    }
}

/// What comes next in a tokens file.
#[derive(Clone, Copy)]
pub enum Next<'a> {
    /// The end of the file.
    End,
    /// An input token, and what follows it.
    Token(Sym, &'a [u8]),
    /// A place at fault.
    Fault(TokenFault),
}

/// The symbol that was found, where it is an input token, and what follows it; or else K1 or K2 at
/// this place.
fn next_by_name<'a>(
    grammar: &Grammar,
    found: Option<Sym>,
    place: usize,
    after: &'a [u8],
) -> Next<'a>
    ensures { next_view result ≡ by_name (token_count grammar.now) place found after.entry.now }
{
    match found {
        None => Next::Fault(TokenFault::Unknown(place)),
        Some(symbol) if is_input(grammar, symbol) => Next::Token(symbol, after),
        Some(_) => Next::Fault(TokenFault::NotInput(place)),
    }
}

/// What comes next after the tokens that were read.
fn next_in<'a>(grammar: &Grammar, read: usize, bytes: &'a [u8]) -> Next<'a>
    requires { read ≤ most_tokens }
    ensures { Comes (symbol_named grammar.now) (token_count grammar.now) read bytes.entry.now
        (next_view result) }
{
    match front_of(bytes) {
        Front::Nothing => Next::End,
        Front::Broken if read == MOST_TOKENS => Next::Fault(TokenFault::TooMany),
        Front::Broken => Next::Fault(TokenFault::BadLiteral(read + 1)),
        Front::Word(_, _) if read == MOST_TOKENS => Next::Fault(TokenFault::TooMany),
        Front::Word(name, after) => next_by_name(grammar, grammar.find(name), read + 1, after),
        Front::Literal(_, _) if read == MOST_TOKENS => Next::Fault(TokenFault::TooMany),
        Front::Literal(value, after) => {
            next_by_name(grammar, grammar.find_literal(value), read + 1, after)
        }
    }
}

/// The tokens of a file, or its first fault.
fn read_all(alloc: Global, grammar: &Grammar, bytes: &[u8]) -> Result<Tokens, TokenFault>
    ensures exact { Gives grammar.now bytes.now result }
    ensures fits { IfOk result (λ tokens. Fits grammar.now (symbols_of tokens)) }
{
    let mut symbols = Vec::new(alloc);
    let mut rest = bytes;
    loop {
        match next_in(grammar, symbols.len(), rest) {
            Next::End => return Ok(Tokens { symbols }),
            Next::Fault(fault) => return Err(fault),
            Next::Token(symbol, after) => {
                symbols.push(symbol)?;
                rest = after;
            }
        }
    }
}

/// Reads a tokens file: words between blanks, each the printed name of a token other than `error`
/// and `$end`.
///
/// A literal is looked up by its value, so it may be spelled in any way, and what follows may
/// touch it. The first place at fault decides: K1 for a word that names no symbol, K2 for a symbol
/// that is no input token, K5 for a quote that begins no literal; K3 where a further word begins
/// after 1,000,000 tokens. K4 may come in place of any answer.
pub fn read_tokens(alloc: Global, tables: &Tables, bytes: &[u8]) -> Result<Tokens, TokenFault>
    // What is answered is what the file has.
    ensures exact { Gives tables.now.built.grammar bytes.now result }
    // What the file has is answered, unless memory runs out.
    ensures only { (r : Result (List ℕ) Fault) → TokensOf tables.now.built.grammar bytes.now r
        → Agrees result r }
    ensures fits { IfOk result (λ tokens. Fits tables.now.built.grammar (symbols_of tokens)) }
{
    read_all(alloc, tables.automaton().grammar(), bytes)
}

/// The token that these bytes name, or `None` where they don't name exactly one.
pub fn only_token(grammar: &Grammar, bytes: &[u8]) -> Option<Sym>
    ensures found { IfSome result (λ token. TokensOf grammar.now bytes.now (Ok (token ∷ []))) }
    ensures none { is_some result ≡ false
        → (token : ℕ) → TokensOf grammar.now bytes.now (Ok (token ∷ [])) → ⊥ }
{
    match next_in(grammar, 0, bytes) {
        Next::Token(symbol, rest) => match next_in(grammar, 1, rest) {
            Next::End => Some(symbol),
            Next::Token(_, _) => None,
            Next::Fault(_) => None,
        },
        Next::End => None,
        Next::Fault(_) => None,
    }
}

/// Whether the first byte or the last one is a blank; false where there are no bytes.
pub fn has_blank_end(bytes: &[u8]) -> bool
    ensures { result ≡ has_blank_end bytes.now }
{
    let len = bytes.len();
    len != 0 && (is_blank(bytes[0]) || is_blank(bytes[len - 1]))
}

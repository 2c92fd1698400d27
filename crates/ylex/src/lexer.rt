//! Texts cut into tokens: at each place the longest match counts; of equal ones literals and words
//! that stand for themselves before lines, and then the first line.

use crate::fault::{SpecFault, SpecFaults, TextFault, Wrong, keep};
use crate::spec::{Rule, Spec, Word};
use crate::spelled::{Texts, plain_texts};
use regex::Error;
use regex::bytes::{Matcher, Regex};
use std::alloc::{AllocError, Global};
use yexplain::reads::{Made, is_set, name_of};
use ysymbols::{Grammar, Sym, let_go};
use ytokens::tokens::Tokens;

/// The most tokens of a text.
pub const MOST_TOKENS: usize = 1_000_000;

/// The most searches by which texts of tokens are tried: each text is by each expression.
const MOST_SEARCHES: usize = 1_000_000;

/// A text as tokens.
#[derive(Drop)]
pub struct Lexed {
    /// The tokens.
    pub tokens: Tokens,
    /// How many bytes stand before each of them.
    pub places: Vec<usize>,
    /// How many bytes stand before what follows each of them.
    pub ends: Vec<usize>,
}

/// What stands at the front of a rest: how many bytes, and the token that they are, if any.
#[derive(Clone, Copy)]
struct Found {
    length: usize,
    token: Option<Sym>,
}

impl Found {
    /// The longer of two, the first where they are equal.
    fn or(self, length: usize, token: Option<Sym>) -> Found {
        if length > self.length {
            Found { length, token }
        } else {
            self
        }
    }
}

/// What cuts texts.
pub struct Lexer {
    /// The words that stand for themselves.
    pub(crate) words: Vec<Word>,
    /// The literal of each byte.
    pub(crate) literals: Vec<Option<Sym>>,
    /// The token of each expression; `None` where what it matches is passed over.
    pub(crate) tokens: Vec<Option<Sym>>,
    /// The expressions.
    pub(crate) regexes: Vec<Regex>,
    /// Which symbols the SPEC names.
    pub named: Vec<bool>,
    /// The texts of tokens, none of them tried.
    plain: Texts,
}

impl Drop for Lexer {
    // A call in each owner, which keeps their proofs short.
    fn drop(self) {
        let_go!(self: Lexer { words, literals, tokens, regexes, named, plain });
    }
}

/// A text on its way to be cut.
#[derive(Drop)]
struct Cutting<'a> {
    lexer: &'a Lexer,
    grammar: &'a Grammar,
    matchers: Vec<Matcher<'a>>,
}

/// The expression of a line, with this after it, which matches at the front alone.
fn anchored(alloc: Global, rule: Rule<'_>, after: &str) -> Result<Regex, SpecFault> {
    let expression = rule.expression;
    let text = format!(in alloc; "^(?:{expression}{after})")?;
    match Regex::new(alloc, &text) {
        Ok(regex) => Ok(regex),
        Err(Error::OutOfMemory) => Err(SpecFault::Memory),
        Err(_) => Err(SpecFault::At(
            rule.at,
            Wrong::Expression("the expression can't stand in a group"),
        )),
    }
}

/// The expression of a line, compiled.
fn compiled(alloc: Global, rule: Rule<'_>) -> Result<Regex, SpecFault> {
    match Regex::new(alloc, rule.expression) {
        Ok(_) => {}
        Err(Error::Syntax(error)) => {
            let at = rule.at.saturating_add(error.span.start);
            return Err(SpecFault::At(at, Wrong::Expression(error.kind.message())));
        }
        Err(Error::OutOfMemory) => return Err(SpecFault::Memory),
        Err(_) => {
            let why = Wrong::Expression("the expression is too large");
            return Err(SpecFault::At(rule.at, why));
        }
    }
    // a comment at its end, which (?x) allows, would go over the end of the group; a newline ends it
    let regex = match anchored(alloc, rule, "") {
        Err(SpecFault::At(_, _)) => anchored(alloc, rule, "\n")?,
        found => found?,
    };
    let is_empty = {
        let mut matcher = regex.matcher(alloc)?;
        matcher.is_match(b"")
    };
    if is_empty {
        return Err(SpecFault::At(rule.at, Wrong::Empty));
    }
    Ok(regex)
}

impl Lexer {
    /// What cuts texts by a SPEC, but for the expressions that are refused, which are kept.
    pub fn new(
        alloc: Global,
        grammar: &Grammar,
        spec: Spec<'_>,
        faults: &mut SpecFaults,
    ) -> Made<Lexer> {
        let plain = plain_texts(alloc, grammar, &spec)?;
        let Spec {
            rules,
            words,
            named,
            absent,
        } = spec;
        let mut literals = Vec::new(alloc);
        for value in 0..=255u8 {
            let literal = grammar.find_literal(value);
            let literal = literal.filter(|token| !is_set(&absent, *token));
            literals.push(literal)?;
        }
        let (mut tokens, mut regexes) = (Vec::new(alloc), Vec::new(alloc));
        for rule in &rules {
            if let Some(regex) = keep(faults, compiled(alloc, *rule))? {
                regexes.push(regex).map_err(AllocError::from)?;
                tokens.push(rule.token)?;
            }
        }
        Ok(Lexer {
            words,
            literals,
            tokens,
            regexes,
            named,
            plain,
        })
    }

    /// Whether a text can have a token: a line gives it, or it stands for itself.
    pub fn gives(&self, token: Sym) -> bool {
        self.tokens.contains(&Some(token))
            || self.literals.contains(&Some(token))
            || self.words.iter().any(|word| word.token == token)
    }

    /// A text before it is cut.
    fn cutting<'a>(&'a self, alloc: Global, grammar: &'a Grammar) -> Made<Cutting<'a>> {
        let mut matchers = Vec::with_capacity(alloc, self.regexes.len())?;
        for regex in &self.regexes {
            let matcher = regex.matcher(alloc)?;
            matchers.push(matcher).map_err(AllocError::from)?;
        }
        Ok(Cutting {
            lexer: self,
            grammar,
            matchers,
        })
    }

    /// Cuts a text into tokens.
    pub fn lex<'a>(
        &'a self,
        alloc: Global,
        grammar: &'a Grammar,
        bytes: &[u8],
    ) -> Result<Lexed, TextFault> {
        let mut cutting = self.cutting(alloc, grammar)?;
        let mut lexed = Lexed {
            tokens: Tokens {
                symbols: Vec::new(alloc),
            },
            places: Vec::new(alloc),
            ends: Vec::new(alloc),
        };
        let mut at = 0;
        for _ in 0..bytes.len() {
            if at >= bytes.len() {
                break;
            }
            let found = cutting.front(bytes.get(at..).unwrap_or(&[]));
            if found.length == 0 {
                return Err(TextFault::Unmatched(at));
            }
            let end = at.saturating_add(found.length);
            if let Some(token) = found.token {
                lexed.push(token, at, end)?;
            }
            at = end;
        }
        Ok(lexed)
    }

    /// The texts of tokens that always look the same, each of which is cut into that token alone:
    /// this is tried of as many as the searches allow.
    pub fn texts<'a>(&'a self, alloc: Global, grammar: &'a Grammar) -> Made<Texts> {
        let most = MOST_SEARCHES.checked_div(self.regexes.len()).unwrap_or(0);
        let mut cutting = self.cutting(alloc, grammar)?;
        let mut texts = Vec::new(alloc);
        let mut tried: usize = 0;
        for (token, text) in self.plain.iter().enumerate() {
            tried = tried.saturating_add(usize::from(text.is_some()));
            let mut confirmed = None;
            if let (true, Some(text)) = (tried <= most, text) {
                let found = cutting.front(text);
                if found.length == text.len() && found.token == Some(token) {
                    confirmed = Some(Vec::from_slice(alloc, text)?);
                }
            }
            texts.push(confirmed)?;
        }
        Ok(texts)
    }
}

impl Cutting<'_> {
    /// What stands at the front of a rest: the longest of the literals, words and lines.
    fn front(&mut self, rest: &[u8]) -> Found {
        let first = rest.first().copied().unwrap_or(0);
        let (lexer, grammar) = (self.lexer, self.grammar);
        let literal = lexer.literals.get(usize::from(first)).copied().flatten();
        let mut found = Found {
            length: usize::from(literal.is_some()),
            token: literal,
        };
        for word in &lexer.words {
            let text = name_of(grammar, word.token);
            let Some(front) = rest.get(..text.len()) else {
                continue;
            };
            if word.is(text, front) {
                found = found.or(text.len(), Some(word.token));
            }
        }
        for (place, matcher) in self.matchers.iter_mut().enumerate() {
            if let (Some(part), Some(token)) = (matcher.find(rest), lexer.tokens.get(place)) {
                found = found.or(part.end(), *token);
            }
        }
        found
    }
}

impl Lexed {
    /// Adds a token from one place to another.
    fn push(&mut self, token: Sym, at: usize, end: usize) -> Result<(), TextFault> {
        if self.places.len() >= MOST_TOKENS {
            return Err(TextFault::TooMany(at));
        }
        self.tokens.symbols.push(token).map_err(AllocError::from)?;
        self.places.push(at).map_err(AllocError::from)?;
        self.ends.push(end).map_err(AllocError::from)?;
        Ok(())
    }
}

//! The shortest sentence of each symbol.

use crate::lists::Lists;
use crate::queue::Queue;
use std::alloc::Global;
use yexplain::reads::{Made, body_of, left_of, set};
use ylalr::{ERROR, Item};
use ysymbols::{Grammar, Sym, let_go};

/// What `error` counts for: no list of tokens can have it, so all else is preferred.
const ERROR_LENGTH: u64 = 10_000;

/// What stands for all lengths beyond it, so that the length of a way is no more than `u64` holds.
const LONGEST: u64 = 1_000_000_000_000;

/// Odd numbers that mix the digests of lists.
const SPREAD: u64 = 0x9e37_79b9_7f4a_7c15;

const FACTOR: u64 = 0xd129_0d3a_7c6b_2f85;

/// The most symbols that are taken while a sentence is written out.
const MOST_TAKEN: usize = 100_000;

/// A number for a list of tokens, and what it is multiplied by where the list stands before
/// another: two lists with the same digest are very likely the same.
#[derive(Clone, Copy, Drop, PartialEq, Eq, Hash)]
pub struct Digest {
    sum: u64,
    factor: u64,
}

/// The length of the shortest sentence of each symbol, at most 1,000,000,000,000, its digest, and
/// the rule with which that of a nonterminal begins; where symbols stand, and their rules.
pub struct Shortest {
    lengths: Vec<Option<u64>>,
    digests: Vec<Digest>,
    firsts: Vec<Option<usize>>,
    /// The items with their dot before each symbol, by rising rules and dots.
    pub places: Lists<Item>,
    /// The rules of each left side.
    pub rules: Lists<usize>,
}

impl Drop for Shortest {
    // A call in each owner, which keeps their proofs short.
    fn drop(self) {
        let_go!(self: Shortest { lengths, digests, firsts, places, rules });
    }
}

/// A rule whose body isn't known yet: how many of its symbols are still to come, and the length of
/// the others.
#[derive(Clone, Copy, Drop)]
struct Part {
    missing: usize,
    length: u64,
}

/// Lengths that are being found.
#[derive(Drop)]
struct Making {
    parts: Vec<Part>,
    queue: Queue,
    found: Shortest,
}

/// The digest of no tokens.
pub const NO_TOKENS: Digest = Digest { sum: 0, factor: 1 };

impl Digest {
    /// The digest of this list and another after it.
    pub fn before(self, rest: Digest) -> Digest {
        Digest {
            sum: self.sum.wrapping_mul(rest.factor).wrapping_add(rest.sum),
            factor: self.factor.wrapping_mul(rest.factor),
        }
    }
}

impl Making {
    /// Takes in a rule: where symbols stand in its body, how many these are, and its left side.
    fn add(&mut self, grammar: &Grammar, rule: usize) -> Made<()> {
        let body = body_of(grammar, rule);
        let missing = body.len();
        for (dot, symbol) in body.iter().enumerate() {
            self.found.places.push(*symbol, Item { rule, dot })?;
        }
        if let Some(left) = left_of(grammar, rule) {
            self.found.rules.push(left, rule)?;
        }
        if missing == 0 {
            self.queue.put(0, rule)?;
        }
        self.parts.push(Part { missing, length: 0 })?;
        Ok(())
    }

    /// Notes the length of a symbol, where it has none yet: so more is known of each body in which
    /// it stands.
    fn settle(
        &mut self,
        symbol: Sym,
        length: u64,
        digest: Digest,
        first: Option<usize>,
    ) -> Made<()> {
        if self.found.lengths.get(symbol).copied().flatten().is_some() {
            return Ok(());
        }
        set(&mut self.found.lengths, symbol, Some(length));
        set(&mut self.found.digests, symbol, digest);
        set(&mut self.found.firsts, symbol, first);
        for item in self.found.places.of(symbol) {
            if let Some(part) = self.parts.get_mut(item.rule) {
                part.missing = part.missing.saturating_sub(1);
                part.length = part.length.saturating_add(length).min(LONGEST);
                if part.missing == 0 {
                    self.queue.put(part.length, item.rule)?;
                }
            }
        }
        Ok(())
    }

    /// The lengths of the nonterminals, the shortest first. Each rule waits at most once.
    fn settle_rules(&mut self, grammar: &Grammar) -> Made<()> {
        for _ in 0..grammar.rules() {
            let Some((length, rule)) = self.queue.take() else {
                break;
            };
            let mut digest = NO_TOKENS;
            for symbol in body_of(grammar, rule) {
                digest = digest.before(self.found.digest(*symbol));
            }
            if let Some(left) = left_of(grammar, rule) {
                self.settle(left, length, digest, Some(rule))?;
            }
        }
        Ok(())
    }
}

impl Shortest {
    /// The shortest sentences of a grammar.
    pub fn new(alloc: Global, grammar: &Grammar) -> Made<Shortest> {
        let symbols = grammar.symbols();
        let mut making = Making {
            parts: Vec::new(alloc),
            queue: Queue::new(alloc),
            found: Shortest {
                lengths: vec![in alloc; None; symbols]?,
                digests: vec![in alloc; NO_TOKENS; symbols]?,
                firsts: vec![in alloc; None; symbols]?,
                places: Lists::new(alloc, symbols)?,
                rules: Lists::new(alloc, symbols)?,
            },
        };
        for rule in 0..grammar.rules() {
            making.add(grammar, rule)?;
        }
        for token in 0..symbols {
            if grammar.is_token(token) {
                let length = if token == ERROR { ERROR_LENGTH } else { 1 };
                let sum = (token as u64).wrapping_add(1).wrapping_mul(SPREAD);
                let factor = FACTOR;
                making.settle(token, length, Digest { sum, factor }, None)?;
            }
        }
        making.settle_rules(grammar)?;
        let Making { found, .. } = making;
        Ok(found)
    }

    /// The length of the shortest sentence of a symbol; each symbol of a grammar has one.
    pub fn length(&self, symbol: Sym) -> u64 {
        self.lengths.get(symbol).copied().flatten().unwrap_or(0)
    }

    /// The length of the shortest sentence of a form.
    pub fn length_of(&self, form: &[Sym]) -> u64 {
        let mut length: u64 = 0;
        for symbol in form {
            length = length.saturating_add(self.length(*symbol));
        }
        length
    }

    /// The digest of the shortest sentence of a symbol.
    pub fn digest(&self, symbol: Sym) -> Digest {
        self.digests.get(symbol).copied().unwrap_or(NO_TOKENS)
    }

    /// The rule with which the shortest sentence of a nonterminal begins; none for a token.
    pub fn first(&self, symbol: Sym) -> Option<usize> {
        self.firsts.get(symbol).copied().flatten()
    }

    /// The shortest sentence of a form, or none where it is too long to be written out.
    pub fn sentence(
        &self,
        alloc: Global,
        grammar: &Grammar,
        form: &[Sym],
    ) -> Made<Option<Vec<Sym>>> {
        let (mut tokens, mut open) = (Vec::new(alloc), Vec::new(alloc));
        push_back(&mut open, form)?;
        for _ in 0..MOST_TAKEN {
            let Some(symbol) = open.pop() else {
                return Ok(Some(tokens));
            };
            match self.first(symbol) {
                Some(rule) => push_back(&mut open, body_of(grammar, rule))?,
                None => tokens.push(symbol)?,
            }
        }
        Ok(None)
    }
}

/// Adds symbols, the first of them last.
pub fn push_back(open: &mut Vec<Sym>, form: &[Sym]) -> Made<()> {
    for symbol in form.iter().rev() {
        open.push(*symbol)?;
    }
    Ok(())
}

//! Rules that are written otherwise: a nonterminal in place of another one, its rules in its place,
//! a list from left to right, a token that is told apart.

use std::alloc::Global;
use yexplain::lines::{Lines, is_inner};
use yexplain::reads::{Made, body_of, left_of};
use ysymbols::{Grammar, Sym};

/// How rules are written otherwise.
#[derive(Clone, Copy, Drop, PartialEq, Eq)]
pub enum Rewriting {
    /// A rule once for each rule of a nonterminal in its body, with that one's body in its place.
    Inlined {
        /// The nonterminal.
        symbol: Sym,
        /// The rule.
        rule: usize,
    },
    /// A nonterminal in place of another one everywhere, with the rules of both.
    Merged {
        /// The one that goes.
        symbol: Sym,
        /// The one that stays.
        by: Sym,
    },
    /// A nonterminal in place of another one in a rule.
    Replaced {
        /// The one that goes.
        symbol: Sym,
        /// The one that comes in its place.
        by: Sym,
        /// The rule.
        rule: usize,
    },
    /// Each rule with one of two nonterminals in its body once for each rule of that one, with that
    /// one's body in its place.
    Opened {
        /// A nonterminal.
        one: Sym,
        /// The other one.
        two: Sym,
    },
    /// A list whose separator may be empty: without the separator between elements, and with one
    /// that isn't empty in a rule of its own.
    Separated {
        /// The separator.
        symbol: Sym,
        /// The rule that ends the list with it.
        rule: usize,
    },
    /// A rule in front of another one.
    First {
        /// The rule.
        rule: usize,
        /// The other one.
        before: usize,
    },
    /// A rule with its left side at both ends as a list from left to right, of a new nonterminal
    /// that has the other rules of the left side.
    Listed {
        /// The rule.
        rule: usize,
    },
    /// A new token in place of one that stands before another symbol.
    Token {
        /// The token.
        token: Sym,
        /// The symbol after it.
        next: Sym,
    },
}

/// A rule as it is written. A symbol that is new has the number after those of all others.
#[derive(Drop)]
pub struct Written {
    /// The left side.
    pub left: Sym,
    /// The body.
    pub body: Vec<Sym>,
    /// The token that gives it a precedence.
    pub giver: Option<Sym>,
}

/// What writes rules otherwise.
#[derive(Drop)]
struct Writer<'a> {
    alloc: Global,
    grammar: &'a Grammar,
    lines: &'a Lines,
    written: Vec<Written>,
}

/// A symbol, or what comes in its place.
fn swapped(symbol: Sym, (from, to): (Sym, Sym)) -> Sym {
    if symbol == from { to } else { symbol }
}

/// Whether a body is this symbol alone.
fn is_alone(body: &[Sym], symbol: Sym) -> bool {
    body.len() == 1 && body.first() == Some(&symbol)
}

impl Writer<'_> {
    /// Adds a rule, with the precedence of one of the grammar.
    fn push(&mut self, rule: usize, left: Sym, body: Vec<Sym>) -> Made<()> {
        let giver = self.lines.giver(self.grammar, rule);
        self.written.push(Written { left, body, giver })?;
        Ok(())
    }

    /// The body of a rule with a symbol in place of another one.
    fn body(&self, rule: usize, swap: (Sym, Sym)) -> Made<Vec<Sym>> {
        let mut body = Vec::new(self.alloc);
        for symbol in body_of(self.grammar, rule) {
            body.push(swapped(*symbol, swap))?;
        }
        Ok(body)
    }

    /// Adds a rule of the grammar as it stands.
    fn keep(&mut self, rule: usize) -> Made<()> {
        let left = left_of(self.grammar, rule).unwrap_or(0);
        let body = Vec::from_slice(self.alloc, body_of(self.grammar, rule))?;
        self.push(rule, left, body)
    }

    /// Adds a rule once for each rule of a nonterminal, whose body comes in its first place; without
    /// one that derives its left side alone.
    fn inline(&mut self, rule: usize, symbol: Sym) -> Made<()> {
        let (grammar, left) = (self.grammar, left_of(self.grammar, rule).unwrap_or(0));
        let whole = body_of(grammar, rule);
        let mut places = whole.iter();
        let Some(dot) = places.position(|it| *it == symbol) else {
            return self.keep(rule);
        };
        for other in 1..grammar.rules() {
            if left_of(grammar, other) != Some(symbol) {
                continue;
            }
            let mut body = Vec::from_slice(self.alloc, whole.get(..dot).unwrap_or(&[]))?;
            body.extend_from_slice(body_of(grammar, other))?;
            body.extend_from_slice(whole.get(dot.saturating_add(1)..).unwrap_or(&[]))?;
            if !is_alone(&body, left) {
                self.push(rule, left, body)?;
            }
        }
        Ok(())
    }

    /// Adds a rule with a nonterminal in place of another one, unless it is there or derives its
    /// left side alone.
    fn merge(&mut self, rule: usize, swap: (Sym, Sym)) -> Made<()> {
        let left = swapped(left_of(self.grammar, rule).unwrap_or(0), swap);
        let body = self.body(rule, swap)?;
        for it in &self.written {
            if it.left == left && it.body.as_slice() == body.as_slice() {
                return Ok(());
            }
        }
        if !is_alone(&body, left) {
            self.push(rule, left, body)?;
        }
        Ok(())
    }

    /// Adds a rule with a nonterminal in place of another one, also where that is there already.
    fn replace(&mut self, rule: usize, swap: (Sym, Sym)) -> Made<()> {
        let body = self.body(rule, swap)?;
        self.push(rule, left_of(self.grammar, rule).unwrap_or(0), body)
    }

    /// Adds a rule of a list without a symbol, or once for each rule of that.
    fn separate(&mut self, rule: usize, (symbol, list): (Sym, usize)) -> Made<()> {
        let (grammar, left) = (self.grammar, left_of(self.grammar, rule));
        if rule == list {
            return self.inline(rule, symbol);
        }
        let mut body = Vec::new(self.alloc);
        for it in body_of(grammar, rule) {
            if *it != symbol || left != left_of(grammar, list) {
                body.push(*it)?;
            }
        }
        self.push(rule, left.unwrap_or(0), body)
    }

    /// Adds a rule once for each rule of the first of two nonterminals in its body.
    fn open(&mut self, rule: usize, (one, two): (Sym, Sym)) -> Made<()> {
        for symbol in body_of(self.grammar, rule) {
            if *symbol == one || *symbol == two {
                return self.inline(rule, *symbol);
            }
        }
        self.keep(rule)
    }

    /// Whether a nonterminal has an empty rule.
    fn is_empty(&self, symbol: Sym) -> bool {
        for rule in 1..self.grammar.rules() {
            let is_its = left_of(self.grammar, rule) == Some(symbol);
            if is_its && body_of(self.grammar, rule).is_empty() {
                return true;
            }
        }
        false
    }

    /// Adds a rule as one of a list: the one with its left side at both ends has the new nonterminal
    /// at its end, which has the others; but an empty one stays, and begins the list.
    fn list(&mut self, rule: usize, list: usize) -> Made<()> {
        let (grammar, fresh) = (self.grammar, self.grammar.symbols());
        let symbol = left_of(grammar, list).unwrap_or(0);
        let mut body = Vec::from_slice(self.alloc, body_of(grammar, rule))?;
        if rule == list {
            if let Some(last) = body.last_mut() {
                *last = fresh;
            }
            self.push(rule, symbol, body)?;
            if self.is_empty(symbol) {
                return Ok(());
            }
            let alone = Vec::from_slice(self.alloc, &[fresh])?;
            return self.push(rule, symbol, alone);
        }
        let left = left_of(grammar, rule).unwrap_or(0);
        let is_first = body.is_empty() && left == symbol;
        let to = if is_first { symbol } else { fresh };
        self.push(rule, swapped(left, (symbol, to)), body)
    }

    /// Adds a rule with a new token in place of one before a symbol.
    fn part(&mut self, rule: usize, (token, next): (Sym, Sym)) -> Made<()> {
        let (grammar, fresh) = (self.grammar, self.grammar.symbols());
        let (whole, mut body) = (body_of(grammar, rule), Vec::new(self.alloc));
        for (dot, symbol) in whole.iter().enumerate() {
            let is_before = whole.get(dot.saturating_add(1)) == Some(&next);
            let is_meant = *symbol == token && is_before;
            body.push(if is_meant { fresh } else { *symbol })?;
        }
        self.push(rule, left_of(grammar, rule).unwrap_or(0), body)
    }

    /// Adds a rule as it is written.
    fn add(&mut self, rule: usize, rewriting: Rewriting) -> Made<()> {
        match rewriting {
            Rewriting::Inlined { symbol, rule: it } if it == rule => self.inline(rule, symbol),
            Rewriting::Merged { symbol, by } => self.merge(rule, (symbol, by)),
            Rewriting::Replaced {
                symbol,
                by,
                rule: it,
            } if it == rule => self.replace(rule, (symbol, by)),
            Rewriting::Opened { one, two } => self.open(rule, (one, two)),
            Rewriting::Separated { symbol, rule: list } => self.separate(rule, (symbol, list)),
            Rewriting::First { rule: it, .. } if it == rule => Ok(()),
            Rewriting::First { rule: it, before } if before == rule => {
                self.keep(it)?;
                self.keep(rule)
            }
            Rewriting::Listed { rule: list } => self.list(rule, list),
            Rewriting::Token { token, next } => self.part(rule, (token, next)),
            _ => self.keep(rule),
        }
    }
}

/// The rules of a grammar as they are written otherwise, but for those of inner actions.
pub fn rewritten(
    alloc: Global,
    grammar: &Grammar,
    lines: &Lines,
    rewriting: Rewriting,
) -> Made<Vec<Written>> {
    let mut writer = Writer {
        alloc,
        grammar,
        lines,
        written: Vec::new(alloc),
    };
    for rule in 1..grammar.rules() {
        if !is_inner(grammar, rule) {
            writer.add(rule, rewriting)?;
        }
    }
    let Writer { written, .. } = writer;
    Ok(written)
}

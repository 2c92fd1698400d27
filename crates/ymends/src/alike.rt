//! Nonterminals with the same rules, where nonterminals that have the same rules count as one.

use std::alloc::Global;
use yexplain::reads::{Made, body_of, is_reachable, name_of};
use ysearch::shortest::Shortest;
use ysymbols::{Grammar, Sym};

/// The most symbols of a grammar in which they are sought, and the most rounds.
const MOST_SYMBOLS: usize = 500;

const MOST_ROUNDS: usize = 40;

/// The classes of symbols while they are refined: each by its first member.
#[derive(Clone, Copy)]
struct Classes<'a> {
    grammar: &'a Grammar,
    shortest: &'a Shortest,
    of: &'a [Sym],
}

impl Classes<'_> {
    /// The class of a symbol.
    fn class(&self, symbol: Sym) -> Sym {
        self.of.get(symbol).copied().unwrap_or(symbol)
    }

    /// Whether two bodies are the same but for members of one class.
    fn are_equal(&self, one: &[Sym], other: &[Sym]) -> bool {
        if one.len() != other.len() {
            return false;
        }
        for (place, ours) in one.iter().enumerate() {
            let theirs = other.get(place).copied().unwrap_or(*ours);
            if self.class(*ours) != self.class(theirs) {
                return false;
            }
        }
        true
    }

    /// Whether each body of a nonterminal is one of another nonterminal.
    fn has_all(&self, one: Sym, other: Sym) -> bool {
        for rule in self.shortest.rules.of(one) {
            let body = body_of(self.grammar, *rule);
            let mut is_there = false;
            for it in self.shortest.rules.of(other) {
                is_there = is_there || self.are_equal(body, body_of(self.grammar, *it));
            }
            if !is_there {
                return false;
            }
        }
        true
    }

    /// The class of a symbol after one more round, by the classes that others have got so far.
    fn refined(&self, next: &[Sym], symbol: Sym) -> Sym {
        if self.grammar.is_token(symbol) || self.class(symbol) == symbol {
            return symbol;
        }
        for (other, class) in next.iter().enumerate() {
            let is_first = *class == other && self.class(other) == self.class(symbol);
            if is_first && self.has_all(symbol, other) && self.has_all(other, symbol) {
                return other;
            }
        }
        symbol
    }
}

/// Whether a symbol is a nonterminal that can be one of several: reached, with rules that its file
/// has.
fn is_meant(grammar: &Grammar, symbol: Sym) -> bool {
    let is_inner = name_of(grammar, symbol).starts_with(b"$");
    !grammar.is_token(symbol) && !is_inner && is_reachable(grammar, symbol)
}

/// The class of each symbol to begin with: all nonterminals are in one.
fn first_classes(alloc: Global, grammar: &Grammar) -> Made<Vec<Sym>> {
    let (mut classes, mut first) = (Vec::new(alloc), None);
    for symbol in 0..grammar.symbols() {
        if !is_meant(grammar, symbol) {
            classes.push(symbol)?;
            continue;
        }
        let class = first.unwrap_or(symbol);
        first = Some(class);
        classes.push(class)?;
    }
    Ok(classes)
}

/// The classes after one more round.
fn refine<'a>(
    alloc: Global,
    grammar: &'a Grammar,
    shortest: &'a Shortest,
    classes: &'a [Sym],
) -> Made<Vec<Sym>> {
    let before = Classes {
        grammar,
        shortest,
        of: classes,
    };
    let mut next = Vec::new(alloc);
    for symbol in 0..grammar.symbols() {
        let class = before.refined(&next, symbol);
        next.push(class)?;
    }
    Ok(next)
}

/// For each symbol the first nonterminal that has the same rules, or itself; `None` where that
/// would take too long.
pub fn classes_of(alloc: Global, grammar: &Grammar, shortest: &Shortest) -> Made<Option<Vec<Sym>>> {
    if grammar.symbols() > MOST_SYMBOLS {
        return Ok(None);
    }
    let mut classes = first_classes(alloc, grammar)?;
    for _ in 0..MOST_ROUNDS {
        let next = refine(alloc, grammar, shortest, &classes)?;
        if next.as_slice() == classes.as_slice() {
            return Ok(Some(classes));
        }
        classes = next;
    }
    Ok(None)
}

//! Sentences that are drawn at random, the same ones for the same seed.

use crate::seek::MOST_TOKENS;
use std::alloc::Global;
use yexplain::reads::{Made, body_of};
use ysearch::shortest::{Shortest, push_back};
use ysymbols::{Grammar, Sym};

/// The most symbols that are taken for one sentence, beside 20 for each of its tokens.
const MOST_TAKEN: usize = 1_000;

/// Of so many draws, all but one take a rule that makes a sentence longer, as long as it has less
/// than half of its tokens.
const GROWING: usize = 4;

/// What the number of 64 bits is multiplied by, and what is then added, modulo 2 to the 64.
const FACTOR: u64 = 6_364_136_223_846_793_005;

const STEP: u64 = 1_442_695_040_888_963_407;

/// The lower half and a bit of it, which aren't drawn: 2 to the 33.
const LOW: u64 = 8_589_934_592;

/// Numbers that are drawn one after the other.
#[derive(Clone, Copy, Drop)]
pub struct Numbers {
    /// The number of 64 bits that was drawn last; at first the seed.
    pub now: u64,
}

impl Numbers {
    /// The next number, of 31 bits, modulo a count; 0 where that is 0.
    pub fn below(&mut self, count: usize) -> usize {
        self.now = self.now.wrapping_mul(FACTOR).wrapping_add(STEP);
        match (self.now / LOW).checked_rem(count as u64) {
            Some(number) => number as usize,
            None => 0,
        }
    }
}

/// A sentence that is being drawn.
#[derive(Drop)]
struct Drawing<'a> {
    alloc: Global,
    grammar: &'a Grammar,
    shortest: &'a Shortest,
    tokens: Vec<Sym>,
    /// The symbols that are still to come, the next one last.
    open: Vec<Sym>,
    /// How many tokens there are at least in the end.
    least: u64,
    /// How many there may be.
    most: u64,
}

impl Drawing<'_> {
    /// The rules of a left side that may be taken, each with how many tokens there are then at
    /// least; with `longer`, those that make the sentence longer.
    fn rules(&self, left: Sym, longer: bool) -> Made<Vec<(usize, u64)>> {
        let (shortest, mut rules) = (self.shortest, Vec::new(self.alloc));
        let beside = self.least.saturating_sub(shortest.length(left));
        for rule in shortest.rules.of(left) {
            let body = shortest.length_of(body_of(self.grammar, *rule));
            let least = beside.saturating_add(body);
            if least <= self.most && (least > self.least || !longer) {
                rules.push((*rule, least))?;
            }
        }
        Ok(rules)
    }

    /// Draws a rule for a left side, where one may be taken.
    fn rule(&self, numbers: &mut Numbers, left: Sym) -> Made<Option<(usize, u64)>> {
        let is_short = self.least.saturating_mul(2) < self.most;
        if is_short && numbers.below(GROWING) > 0 {
            let rules = self.rules(left, true)?;
            if !rules.is_empty() {
                return Ok(rules.get(numbers.below(rules.len())).copied());
            }
        }
        let rules = self.rules(left, false)?;
        Ok(rules.get(numbers.below(rules.len())).copied())
    }

    /// Takes symbols as long as there are some and a rule may be taken, and then the shortest
    /// sentence of those that are still to come, and says whether all were taken.
    fn take_all(&mut self, numbers: &mut Numbers) -> Made<bool> {
        let most = usize::try_from(self.most).unwrap_or(0);
        for _ in 0..most.saturating_mul(20).saturating_add(MOST_TAKEN) {
            let Some(symbol) = self.open.pop() else {
                break;
            };
            if self.grammar.is_token(symbol) {
                self.tokens.push(symbol)?;
                continue;
            }
            let Some((rule, least)) = self.rule(numbers, symbol)? else {
                self.open.push(symbol)?;
                break;
            };
            self.least = least;
            push_back(&mut self.open, body_of(self.grammar, rule))?;
        }
        self.open.reverse();
        match self
            .shortest
            .sentence(self.alloc, self.grammar, &self.open)?
        {
            Some(rest) => {
                self.tokens.extend_from_slice(&rest)?;
                Ok(true)
            }
            None => Ok(false),
        }
    }
}

/// A sentence of so many tokens at most, where the shortest one hasn't more; else that one. `None`
/// where that has `error`, or too many tokens.
pub fn draw(
    alloc: Global,
    grammar: &Grammar,
    shortest: &Shortest,
    numbers: &mut Numbers,
    most: u64,
) -> Made<Option<Vec<Sym>>> {
    let form = body_of(grammar, 0).get(..1).unwrap_or(&[]);
    let least = shortest.length_of(form);
    if least > MOST_TOKENS {
        return Ok(None);
    }
    let mut drawing = Drawing {
        alloc,
        grammar,
        shortest,
        tokens: Vec::new(alloc),
        open: Vec::from_slice(alloc, form)?,
        least,
        most,
    };
    let is_whole = drawing.take_all(numbers)?;
    let Drawing { tokens, .. } = drawing;
    if is_whole { Ok(Some(tokens)) } else { Ok(None) }
}

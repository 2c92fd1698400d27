//! An automaton by bison's numbers of states and rules, and what its states do.

use crate::manner::Manner;
use std::alloc::Global;
use ycode::Code;
use yexplain::reads::{
    Made, action_of, goto_of, grammar_of, is_complete, items_of, left_of, shift_of,
};
use yfindings::walk::{Walk, left_in};
use ylalr::{Item, token_count};
use yskeleton::Numbering;
use ysymbols::{Grammar, Sym};
use ytables::{Action, Tables};

/// The bits of a byte.
const BITS: [usize; 8] = [1, 2, 4, 8, 16, 32, 64, 128];

/// An automaton that is laid out.
#[derive(Clone, Copy)]
pub struct Layout<'a> {
    /// What allocates.
    pub alloc: Global,
    /// The tables.
    pub tables: &'a Tables,
    /// Their grammar.
    pub grammar: &'a Grammar,
    /// What symbols are called, and signs.
    pub manner: Manner<'a>,
    /// The arrays of the parser.
    pub code: &'a Code,
    /// The numbers that bison gives the states, and the one in which the end is shifted.
    pub states: &'a [usize],
    /// Those that it gives rules and tokens, and its order of symbols.
    pub numbering: &'a Numbering,
    /// The tokens in that order.
    pub tokens: &'a [Sym],
    /// The nonterminals in that order.
    pub nonterminals: &'a [Sym],
}

/// An automaton that is laid out with these names and signs.
pub fn layout_of<'x>(
    alloc: Global,
    tables: &'x Tables,
    manner: Manner<'x>,
    (code, states): (&'x Code, &'x [usize]),
    numbering: &'x Numbering,
) -> Layout<'x> {
    let grammar = grammar_of(tables);
    let (order, count) = (numbering.order.as_slice(), token_count(grammar));
    Layout {
        alloc,
        tables,
        grammar,
        manner,
        code,
        states,
        numbering,
        tokens: order.get(..count).unwrap_or(order),
        nonterminals: order.get(count..).unwrap_or(&[]),
    }
}

impl Layout<'_> {
    /// The number that bison gives a state.
    pub fn number(&self, state: usize) -> usize {
        self.states.get(state).copied().unwrap_or(state)
    }

    /// The number that bison gives a rule.
    pub fn rule(&self, rule: usize) -> usize {
        self.numbering.rules.get(rule).copied().unwrap_or(rule)
    }

    /// The states that a parse comes to, each after its number, in the order of these. After all of
    /// ours comes the state in which the end was shifted.
    pub fn drawn(&self) -> Made<Vec<(usize, usize)>> {
        let walk = Walk::new(self.alloc, self.tables)?;
        let (end, mut drawn) = (self.code.states, Vec::new(self.alloc));
        for state in 0..end.saturating_add(1) {
            if state == end || walk.comes_to(state) {
                drawn.push((self.number(state), state))?;
            }
        }
        drawn.sort()?;
        Ok(drawn)
    }

    /// Where a symbol leads from a state: by a shift, which may be that of the end, or by a goto.
    pub fn way(&self, state: usize, symbol: Sym) -> Option<usize> {
        if !self.grammar.is_token(symbol) {
            return goto_of(self.tables.automaton(), state, symbol);
        }
        match action_of(self.tables, state, symbol) {
            Action::Shift(next) => Some(next),
            Action::Accept => Some(self.code.states),
            _ => None,
        }
    }

    /// The rule that a state reduces by default, where it does: what is no token is in its set.
    pub fn default_rule(&self, state: usize) -> Option<usize> {
        let code = self.code;
        let number = *code.sets.as_slice().get(state)?;
        let place = number
            .saturating_mul(code.span)
            .saturating_add(code.tokens / 8);
        let byte = code.bits.as_slice().get(place).copied().unwrap_or(0);
        if number == 0 || byte & *BITS.get(code.tokens % 8)? != 0 {
            code.usual.as_slice().get(state).copied()
        } else {
            None
        }
    }

    /// The complete items of a state, whose rules it may reduce by.
    pub fn ready(&self, state: usize) -> Made<Vec<Item>> {
        let (grammar, mut ready) = (self.grammar, Vec::new(self.alloc));
        for item in items_of(self.tables.automaton(), state) {
            if item.rule > 0 && is_complete(grammar, *item) {
                ready.push(*item)?;
            }
        }
        Ok(ready)
    }

    /// Whether a rule is left in a cell, whatever else is done there.
    pub fn is_left(&self, state: usize, token: Sym, rule: usize) -> bool {
        left_in(self.tables, state, token, rule).has_rule
    }

    /// Whether bison looks at the next token in a state, precedences aside: where it could reduce by
    /// several rules, or by one and shift.
    pub fn looks_ahead(&self, state: usize, ready: &[Item]) -> bool {
        if ready.len() != 1 {
            return !ready.is_empty();
        }
        for token in self.tokens {
            if shift_of(self.tables, state, *token).is_some() {
                return true;
            }
        }
        false
    }

    /// The left side of a rule, unless it is that of the rule before.
    pub fn new_left(&self, rule: usize, before: Option<usize>) -> Option<Sym> {
        let left = left_of(self.grammar, rule);
        match before {
            Some(before) if left_of(self.grammar, before) == left => None,
            _ => left,
        }
    }
}

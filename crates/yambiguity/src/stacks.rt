//! Stacks of states as a parse has them, each kept once: equal stacks have one number.

use std::alloc::Global;
use yexplain::distinct::Distinct;
use yexplain::reads::{Made, body_of, goto_of, left_of};
use ylalr::Automaton;
use ysymbols::{Sym, let_go};

/// The number of the stack of the first state alone.
pub const BOTTOM: usize = 0;

/// What a parse does.
#[derive(Clone, Copy, Drop)]
pub enum Deed {
    /// It shifts a symbol; a nonterminal stands for any sentence of it.
    Shift(Sym),
    /// It reduces by a rule.
    Reduce(usize),
}

/// Stacks by their numbers.
pub struct Stacks {
    /// The top state of each, and the number of what is below it.
    entries: Distinct<(usize, usize)>,
}

impl Drop for Stacks {
    // A call in each owner, which keeps their proofs short.
    fn drop(self) {
        let_go!(self: Stacks { entries });
    }
}

impl Stacks {
    /// The stacks of a parse after symbols from the first state on, where they can come, and the
    /// number of the last one.
    pub fn over(
        alloc: Global,
        automaton: &Automaton,
        way: &[Sym],
    ) -> Made<Option<(Stacks, usize)>> {
        let mut stacks = Stacks {
            entries: Distinct::new(alloc),
        };
        stacks.entries.add((0, BOTTOM))?;
        let mut stack = BOTTOM;
        for symbol in way {
            match stacks.shifted(automaton, stack, *symbol)? {
                Some(next) => stack = next,
                None => return Ok(None),
            }
        }
        Ok(Some((stacks, stack)))
    }

    /// The top state of a stack.
    pub fn top(&self, stack: usize) -> usize {
        self.entries.at(stack).map_or(0, |entry| entry.0)
    }

    /// What is left of a stack without so many entries.
    fn below(&self, stack: usize, count: usize) -> usize {
        let mut at = stack;
        for _ in 0..count {
            at = self.entries.at(at).map_or(BOTTOM, |entry| entry.1);
        }
        at
    }

    /// The states of a stack, the first one at its bottom.
    pub fn states(&self, alloc: Global, stack: usize) -> Made<Vec<usize>> {
        let mut states = Vec::new(alloc);
        let mut at = stack;
        for _ in 0..self.entries.len() {
            if at == BOTTOM {
                break;
            }
            states.push(self.top(at))?;
            at = self.below(at, 1);
        }
        states.push(0)?;
        states.reverse();
        Ok(states)
    }

    /// The stack after a symbol, where it can come.
    pub fn shifted(
        &mut self,
        automaton: &Automaton,
        stack: usize,
        symbol: Sym,
    ) -> Made<Option<usize>> {
        let Some(state) = goto_of(automaton, self.top(stack), symbol) else {
            return Ok(None);
        };
        let (number, _) = self.entries.add((state, stack))?;
        Ok(Some(number))
    }

    /// The stack after a reduction by a rule of which its top state has the complete item.
    pub fn reduced(
        &mut self,
        automaton: &Automaton,
        stack: usize,
        rule: usize,
    ) -> Made<Option<usize>> {
        let grammar = automaton.grammar();
        let below = self.below(stack, body_of(grammar, rule).len());
        match left_of(grammar, rule) {
            Some(left) => self.shifted(automaton, below, left),
            None => Ok(None),
        }
    }
}

//! The ways between states, and the shortest way to each.

use crate::lists::Lists;
use crate::queue::Nearest;
use crate::shortest::Shortest;
use std::alloc::Global;
use yexplain::reads::{Made, goto_of, items_of, next_of, set};
use ylalr::Automaton;
use ysymbols::{Sym, let_go};

/// The ways between states.
pub struct Moves {
    /// The symbol that leads to a state: each way to it is over this one.
    symbols: Vec<Sym>,
    /// The states from which a way leads to a state, and those to which one leads from it.
    pub before: Lists<usize>,
    after: Lists<usize>,
    /// The length of the shortest way to a state, and the state before it on that way.
    pub lengths: Nearest,
    from: Vec<usize>,
}

impl Drop for Moves {
    // A call in each owner, which keeps their proofs short.
    fn drop(self) {
        let_go!(self: Moves { symbols, before, after, lengths, from });
    }
}

impl Moves {
    /// The ways of an automaton, by the shortest sentences of its symbols.
    pub fn new(alloc: Global, automaton: &Automaton, shortest: &Shortest) -> Made<Moves> {
        let states = automaton.states();
        let mut moves = Moves {
            symbols: vec![in alloc; 0usize; states]?,
            before: Lists::new(alloc, states)?,
            after: Lists::new(alloc, states)?,
            lengths: Nearest::new(alloc, states)?,
            from: vec![in alloc; 0usize; states]?,
        };
        let mut seen = vec![in alloc; 0usize; automaton.grammar().symbols()]?;
        for state in 0..states {
            moves.note(automaton, &mut seen, state)?;
        }
        moves.measure(shortest)?;
        Ok(moves)
    }

    /// Notes the ways from a state, where each symbol has the state for which it was seen last,
    /// plus one.
    fn note(&mut self, automaton: &Automaton, seen: &mut [usize], state: usize) -> Made<()> {
        let stamp = state.saturating_add(1);
        for item in items_of(automaton, state) {
            let Some(symbol) = next_of(automaton.grammar(), *item) else {
                continue;
            };
            let is_new = seen.get(symbol).copied().unwrap_or(stamp) != stamp;
            set(seen, symbol, stamp);
            if let Some(to) = goto_of(automaton, state, symbol) {
                if is_new {
                    set(&mut self.symbols, to, symbol);
                    self.before.push(to, state)?;
                    self.after.push(state, to)?;
                }
            }
        }
        Ok(())
    }

    /// Finds the shortest way to each state, the nearest first.
    fn measure(&mut self, shortest: &Shortest) -> Made<()> {
        self.lengths.shorten(0, 0)?;
        // ends: each way makes a state wait once at most
        for _ in 0..usize::MAX {
            let Some((length, state)) = self.lengths.take() else {
                break;
            };
            for to in self.after.of(state) {
                let symbol = self.symbols.get(*to).copied().unwrap_or(0);
                let length = length.saturating_add(shortest.length(symbol));
                if self.lengths.shorten(*to, length)? {
                    set(&mut self.from, *to, state);
                }
            }
        }
        Ok(())
    }

    /// The symbol that leads to a state.
    pub fn symbol(&self, state: usize) -> Sym {
        self.symbols.get(state).copied().unwrap_or(0)
    }

    /// The symbols of the shortest way to a state.
    pub fn way(&self, alloc: Global, state: usize) -> Made<Vec<Sym>> {
        let (mut symbols, mut at) = (Vec::new(alloc), state);
        for _ in 0..self.from.len() {
            if at == 0 {
                break;
            }
            symbols.push(self.symbol(at))?;
            at = self.from.get(at).copied().unwrap_or(0);
        }
        symbols.reverse();
        Ok(symbols)
    }
}

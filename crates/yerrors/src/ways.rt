//! What the tables say of the ways between states: where a nonterminal leads, which items it is
//! before, and at which tokens a rule is reduced.

use std::alloc::Global;
use yexplain::distinct::Distinct;
use yexplain::reads::{Made, action_of, body_of, goto_of, items_of, next_of};
use ylalr::{Automaton, ERROR, Item};
use ysearch::moves::Moves;
use ysearch::shortest::Shortest;
use ysymbols::{Grammar, Sym, let_go};
use ytables::{Action, Tables};

/// The gotos of an automaton by number, those of a state side by side.
pub struct Gotos {
    /// The state and the nonterminal of each.
    pairs: Distinct<(usize, Sym)>,
    /// Where each leads.
    targets: Vec<usize>,
    /// The number of the first one of each state, and in the end how many there are.
    starts: Vec<usize>,
    /// The items of the state that have their dot before the nonterminal.
    items: Vec<Vec<Item>>,
}

impl Drop for Gotos {
    // A call in each owner, which keeps their proofs short.
    fn drop(self) {
        let_go!(self: Gotos { pairs, targets, starts, items });
    }
}

/// Tables with their ways.
#[derive(Drop)]
pub struct Ways<'a> {
    /// The tables.
    pub tables: &'a Tables,
    /// The states before each state.
    pub moves: Moves,
    /// The gotos.
    pub gotos: Gotos,
}

/// The symbol before the dot of an item; none where the dot is at 0.
pub fn before_dot(grammar: &Grammar, item: Item) -> Option<Sym> {
    let place = item.dot.checked_sub(1)?;
    body_of(grammar, item.rule).get(place).copied()
}

impl Gotos {
    /// The gotos of an automaton.
    fn new(alloc: Global, automaton: &Automaton) -> Made<Gotos> {
        let mut gotos = Gotos {
            pairs: Distinct::new(alloc),
            targets: Vec::new(alloc),
            starts: Vec::new(alloc),
            items: Vec::new(alloc),
        };
        for state in 0..automaton.states() {
            gotos.starts.push(gotos.targets.len())?;
            for item in items_of(automaton, state) {
                gotos.note(alloc, automaton, state, *item)?;
            }
        }
        gotos.starts.push(gotos.targets.len())?;
        Ok(gotos)
    }

    /// Notes the goto that an item of a state asks for, where it asks for one.
    fn note(&mut self, alloc: Global, automaton: &Automaton, state: usize, item: Item) -> Made<()> {
        let grammar = automaton.grammar();
        let symbol = match next_of(grammar, item) {
            Some(symbol) if !grammar.is_token(symbol) => symbol,
            _ => return Ok(()),
        };
        let Some(to) = goto_of(automaton, state, symbol) else {
            return Ok(());
        };
        let (number, is_new) = self.pairs.add((state, symbol))?;
        if is_new {
            self.targets.push(to)?;
            self.items.push(Vec::new(alloc))?;
        }
        match self.items.get_mut(number) {
            Some(items) => Ok(items.push(item)?),
            None => Ok(()),
        }
    }

    /// The number of the goto of a state over a nonterminal.
    pub fn number(&self, state: usize, symbol: Sym) -> Option<usize> {
        self.pairs.number((state, symbol))
    }

    /// The state of a goto, and the one to which it leads.
    pub fn ends(&self, number: usize) -> Option<(usize, usize)> {
        let (state, _) = self.pairs.at(number)?;
        Some((state, self.targets.get(number).copied()?))
    }

    /// The items of its state that have their dot before the nonterminal of a goto.
    pub fn items(&self, number: usize) -> &[Item] {
        self.items.get(number).map_or(&[], |items| items.as_slice())
    }

    /// The first number of the gotos of a state, and the one after the last.
    pub fn of_state(&self, state: usize) -> (usize, usize) {
        let start = self.starts.get(state).copied().unwrap_or(0);
        let end = self.starts.get(state.saturating_add(1)).copied();
        (start, end.unwrap_or(start))
    }
}

impl<'a> Ways<'a> {
    /// The ways of tables.
    pub fn new(alloc: Global, tables: &'a Tables) -> Made<Ways<'a>> {
        let automaton = tables.automaton();
        let shortest = Shortest::new(alloc, automaton.grammar())?;
        Ok(Ways {
            tables,
            moves: Moves::new(alloc, automaton, &shortest)?,
            gotos: Gotos::new(alloc, automaton)?,
        })
    }

    /// What is done in a state with a token of an input ahead.
    pub fn action(&self, state: usize, token: Sym) -> Action {
        if token == ERROR {
            Action::Error
        } else {
            action_of(self.tables, state, token)
        }
    }
}

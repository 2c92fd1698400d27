//! The filled cells of tables, numbered by states and tokens.

use std::alloc::Global;
use yexplain::reads::{Made, action_of, default_of, grammar_of};
use ylalr::{ERROR, token_count};
use ysymbols::Sym;
use ytables::{Action, Tables};

/// A filled cell, which is a line `a` or `d` of a table, unless it reduces at `error`: a state and
/// a token.
#[derive(Clone, Copy, Drop)]
pub struct Cell {
    /// The state.
    pub state: usize,
    /// The token; none where the default rule of the state is taken at every token.
    pub token: Option<Sym>,
}

/// The filled cells of tables.
#[derive(Drop)]
pub struct Cells {
    /// By states, and those of a state by tokens.
    cells: Vec<Cell>,
    /// How many cells stand before those of each state, and how many there are.
    starts: Vec<usize>,
}

impl Cells {
    /// The filled cells of tables, in which something is done. No parse has `error` ahead, which is
    /// only shifted.
    pub fn new(alloc: Global, tables: &Tables) -> Made<Cells> {
        let mut found = Cells {
            cells: Vec::new(alloc),
            starts: Vec::new(alloc),
        };
        for state in 0..tables.automaton().states() {
            found.starts.push(found.cells.len())?;
            if default_of(tables, state).is_some() {
                let token = None;
                found.cells.push(Cell { state, token })?;
                continue;
            }
            for token in 0..token_count(grammar_of(tables)) {
                let is_filled = match action_of(tables, state, token) {
                    Action::Shift(_) => true,
                    Action::Reduce(_) | Action::Accept => token != ERROR,
                    Action::Error => false,
                };
                if is_filled {
                    let token = Some(token);
                    found.cells.push(Cell { state, token })?;
                }
            }
        }
        found.starts.push(found.cells.len())?;
        Ok(found)
    }

    /// How many there are.
    pub fn count(&self) -> usize {
        self.cells.len()
    }

    /// The cell of a number.
    pub fn at(&self, number: usize) -> Option<Cell> {
        self.cells.get(number).copied()
    }

    /// The number of the cell by which a state goes at a token, where that is filled.
    pub fn number(&self, state: usize, token: Sym) -> Option<usize> {
        let start = self.starts.get(state).copied()?;
        let end = self.starts.get(state.saturating_add(1)).copied()?;
        let row = self.cells.get(start..end)?;
        let place = match row.first() {
            Some(first) if first.token.is_none() => 0,
            _ => row
                .binary_search_by_key(&Some(token), |cell| cell.token)
                .ok()?,
        };
        Some(start.saturating_add(place))
    }
}

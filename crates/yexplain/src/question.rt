//! A cell that is asked for.

use crate::lines::Lines;
use crate::reads::{Candidates, candidates_of, items_of, shift_of};
use crate::text::Name;
use ylalr::Item;
use ysymbols::{Grammar, Sym};
use ytables::{Action, Tables};

/// A cell to be explained: that of a state and a token.
#[derive(Clone, Copy)]
pub struct Question<'a> {
    /// The tables.
    pub tables: &'a Tables,
    /// Where rules stand in the grammar's file.
    pub lines: &'a Lines,
    /// The state.
    pub state: usize,
    /// The token.
    pub token: Sym,
}

impl<'a> Question<'a> {
    /// The grammar.
    pub fn grammar(self) -> &'a Grammar {
        self.tables.automaton().grammar()
    }

    /// The name of the token.
    pub fn name(self) -> Name<'a> {
        Name(self.grammar(), self.token)
    }

    /// The items of the state.
    pub fn items(self) -> &'a [Item] {
        items_of(self.tables.automaton(), self.state)
    }

    /// The shift that is a candidate in the cell, where one is.
    pub fn shift(self) -> Option<Action> {
        shift_of(self.tables, self.state, self.token)
    }

    /// The rules that are candidates in the cell.
    pub fn candidates(self) -> Candidates<'a> {
        candidates_of(self.tables, self.state, self.token)
    }
}

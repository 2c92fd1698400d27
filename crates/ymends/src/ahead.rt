//! What the second token of lookahead tells in a conflict: the tokens that can come after the one of
//! the conflict, for each rival. States alone are looked at, so they may be too many, never too few.

use std::alloc::Global;
use yexplain::reads::{Made, body_of, candidates_of, goto_of, left_of, set, shift_of};
use ylalr::{END, ERROR, token_count};
use ysearch::moves::Moves;
use ysymbols::Sym;
use ytables::Tables;

/// A search for the tokens that can come after one.
#[derive(Drop)]
struct Search<'a> {
    alloc: Global,
    tables: &'a Tables,
    moves: &'a Moves,
    token: Sym,
    /// The states in which the token comes, each once.
    waiting: Vec<usize>,
    met: Vec<bool>,
    /// The tokens that can come after it.
    second: Vec<bool>,
}

impl Search<'_> {
    /// A state waits, where it is new.
    fn put(&mut self, state: usize) -> Made<()> {
        if self.met.get(state).copied().unwrap_or(true) {
            return Ok(());
        }
        set(&mut self.met, state, true);
        self.waiting.push(state)?;
        Ok(())
    }

    /// The states from which so many symbols lead to a state.
    fn back(&self, state: usize, count: usize) -> Made<Vec<usize>> {
        let mut states = Vec::from_slice(self.alloc, &[state])?;
        for _ in 0..count {
            let mut marks = vec![in self.alloc; false; self.met.len()]?;
            let mut before = Vec::new(self.alloc);
            for it in &states {
                for from in self.moves.before.of(*it) {
                    if marks.get(*from) == Some(&false) {
                        set(&mut marks, *from, true);
                        before.push(*from)?;
                    }
                }
            }
            states = before;
        }
        Ok(states)
    }

    /// A rule is reduced in a state, after any symbols before it.
    fn reduce(&mut self, state: usize, rule: usize) -> Made<()> {
        let automaton = self.tables.automaton();
        let grammar = automaton.grammar();
        let left = left_of(grammar, rule).unwrap_or(0);
        for from in &self.back(state, body_of(grammar, rule).len())? {
            if let Some(to) = goto_of(automaton, *from, left) {
                self.put(to)?;
            }
        }
        Ok(())
    }

    /// Notes the tokens that can come in a state.
    fn note(&mut self, state: usize) {
        for token in END..token_count(self.tables.automaton().grammar()) {
            let rules = candidates_of(self.tables, state, token).take(1).count();
            let can_come = rules > 0 || shift_of(self.tables, state, token).is_some();
            if can_come && token != ERROR {
                set(&mut self.second, token, true);
            }
        }
    }

    /// Goes on from all states that wait, by each rule that can be reduced, until the token is
    /// shifted.
    fn go(&mut self) -> Made<()> {
        let (tables, token) = (self.tables, self.token);
        for place in 0..self.met.len() {
            let Some(state) = self.waiting.get(place).copied() else {
                break;
            };
            if shift_of(tables, state, token).is_some() {
                if let Some(to) = goto_of(tables.automaton(), state, token) {
                    self.note(to);
                }
            }
            for candidate in candidates_of(tables, state, token) {
                self.reduce(state, candidate.rule)?;
            }
        }
        Ok(())
    }
}

/// A search in which nothing waits yet.
fn search_for<'a>(
    alloc: Global,
    tables: &'a Tables,
    moves: &'a Moves,
    token: Sym,
) -> Made<Search<'a>> {
    let automaton = tables.automaton();
    Ok(Search {
        alloc,
        tables,
        moves,
        token,
        waiting: Vec::new(alloc),
        met: vec![in alloc; false; automaton.states()]?,
        second: vec![in alloc; false; automaton.grammar().symbols()]?,
    })
}

/// The tokens that can come after the one of a cell, where a rule is reduced there, or without one
/// where the token is shifted.
pub fn second_after(
    alloc: Global,
    tables: &Tables,
    moves: &Moves,
    (state, token): (usize, Sym),
    rule: Option<usize>,
) -> Made<Vec<Sym>> {
    let mut search = search_for(alloc, tables, moves, token)?;
    match rule {
        Some(rule) => {
            search.reduce(state, rule)?;
            search.go()?;
        }
        None => {
            if let Some(to) = goto_of(tables.automaton(), state, token) {
                search.note(to);
            }
        }
    }
    let mut tokens = Vec::new(alloc);
    for (token, comes) in search.second.iter().enumerate() {
        if *comes {
            tokens.push(token)?;
        }
    }
    Ok(tokens)
}

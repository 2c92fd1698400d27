//! What a search in tables has found, and what it knows from the start: where empty rules leave the
//! token ahead, and where a rest that is nothing lets its rule be reduced.

use crate::rows::{Key, NOTHING, Rows, Spot, Taken};
use crate::sets::Source;
use crate::ways::{Ways, before_dot};
use std::alloc::Global;
use std::collections::HashMap;
use yexplain::reads::{Made, grammar_of, is_complete, is_set, items_of, left_of, set};
use ylalr::{END, ERROR, Item, token_count};
use ysymbols::{Sym, let_go};
use ytables::Action;

/// The tokens at which errors are detected in a state first, and how many are taken before.
#[derive(Clone, Copy, Drop)]
pub struct Detected {
    /// How many tokens are taken before.
    pub cost: u64,
    /// The set of the tokens.
    pub at: usize,
}

/// A search in tables.
pub struct Search<'a> {
    /// The tables.
    pub ways: Ways<'a>,
    /// The tokens that no input has.
    absent: &'a [bool],
    /// What is found.
    pub rows: Rows,
    /// For each state, and each rule that it reduces, the set of the tokens at which it does.
    pub masks: HashMap<(usize, usize), usize>,
    /// The set of all tokens that an input can have.
    pub inputs: usize,
    /// The set of each alone.
    alone: Vec<usize>,
    detected: Vec<Option<Detected>>,
}

impl Drop for Search<'_> {
    // A call in each owner, which keeps their proofs short.
    fn drop(self) {
        let_go!(self: Search { ways, absent, rows, masks, inputs, alone, detected });
    }
}

/// Whether an input can have a token, where it can't have those that are marked.
pub fn can_stand(absent: &[bool], token: Sym) -> bool {
    token != ERROR && !is_set(absent, token)
}

/// The row of a state.
pub fn state_key(state: usize) -> Key {
    Key {
        spot: Spot::State(state),
        first: None,
    }
}

impl<'a> Search<'a> {
    /// A search in tables for inputs without the tokens that are marked, which is still to be run.
    pub fn new(alloc: Global, ways: Ways<'a>, absent: &'a [bool]) -> Made<Search<'a>> {
        let tokens = token_count(grammar_of(ways.tables));
        let states = ways.tables.automaton().states();
        let mut rows = Rows::new(alloc, tokens);
        let inputs = rows.make_set()?;
        Ok(Search {
            ways,
            absent,
            rows,
            masks: HashMap::new(alloc),
            inputs,
            alone: Vec::new(alloc),
            detected: vec![in alloc; None; states]?,
        })
    }

    /// The errors that a state detects first, where some were found.
    pub fn detected(&self, state: usize) -> Option<Detected> {
        self.detected.get(state).copied().flatten()
    }

    /// The row of a state, where a parse comes to that before any error.
    pub fn row(&self, state: usize) -> Option<usize> {
        let row = self.rows.keys.number(state_key(state))?;
        if self.rows.levels(row).is_empty() {
            None
        } else {
            Some(row)
        }
    }

    /// Makes the set of the tokens at which a state reduces a rule.
    fn make_mask(&mut self, state: usize, rule: usize) -> Made<usize> {
        let mask = self.rows.make_set()?;
        let tokens = token_count(grammar_of(self.ways.tables));
        self.rows.spend(tokens);
        for token in 0..tokens {
            let reduces = self.ways.action(state, token) == Action::Reduce(rule);
            if can_stand(self.absent, token) && reduces {
                self.rows.sets.add(mask, token);
            }
        }
        self.masks.insert((state, rule), mask)?;
        Ok(mask)
    }

    /// Puts what an item of a state says, where it is complete: an empty rule leaves the token
    /// ahead.
    fn put_item(&mut self, state: usize, item: Item) -> Made<()> {
        let tables = self.ways.tables;
        let grammar = grammar_of(tables);
        if !is_complete(grammar, item) {
            return Ok(());
        }
        let mask = self.make_mask(state, item.rule)?;
        if let Some(symbol) = before_dot(grammar, item) {
            let spot = Spot::Rest(state, item);
            let key = Key { spot, first: None };
            return if grammar.is_token(symbol) {
                self.rows.put(key, 0, Source::all(mask), NOTHING)
            } else {
                Ok(())
            };
        }
        for token in 0..self.alone.len() {
            if self.rows.sets.has(mask, token) {
                let alone = self.alone.get(token).copied().unwrap_or(mask);
                let key = self.key_of(state, item, token);
                self.give(key, 0, Source::all(alone), NOTHING)?;
            }
        }
        Ok(())
    }

    /// Makes the sets of the tokens of an input, and puts what is known from the start.
    pub fn begin(&mut self) -> Made<()> {
        let (inputs, tables) = (self.inputs, self.ways.tables);
        for token in 0..token_count(grammar_of(tables)) {
            let alone = self.rows.make_set()?;
            self.alone.push(alone)?;
            if can_stand(self.absent, token) {
                self.rows.sets.add(alone, token);
                self.rows.sets.add(inputs, token);
            }
        }
        let automaton = tables.automaton();
        for state in 0..automaton.states() {
            if self.rows.has_steps() {
                for item in items_of(automaton, state) {
                    self.put_item(state, *item)?;
                }
            }
        }
        let first = Some(state_key(0));
        self.give(first, 0, Source::all(inputs), NOTHING)
    }

    /// Tokens are ahead in a row, where there is one, after so many.
    pub fn give(&mut self, key: Option<Key>, cost: u64, source: Source, taken: Taken) -> Made<()> {
        match key {
            Some(key) => self.rows.put(key, cost, source, taken),
            None => Ok(()),
        }
    }

    /// The row of what is after the dot of an item, with a token ahead before; of an item with its
    /// dot at 0 that of the goto of its left side.
    pub fn key_of(&self, state: usize, item: Item, first: Sym) -> Option<Key> {
        let grammar = grammar_of(self.ways.tables);
        match before_dot(grammar, item) {
            None => {
                let left = left_of(grammar, item.rule)?;
                Some(Key {
                    spot: Spot::Goto(self.ways.gotos.number(state, left)?),
                    first: Some(first),
                })
            }
            Some(symbol) => Some(Key {
                spot: Spot::Rest(state, item),
                first: if grammar.is_token(symbol) {
                    None
                } else {
                    Some(first)
                },
            }),
        }
    }

    /// Notes an error at a token after so many others, unless one after fewer is noted.
    pub fn note(&mut self, state: usize, cost: u64, token: Sym) -> Made<()> {
        match self.detected(state) {
            Some(known) if known.cost < cost => return Ok(()),
            Some(known) if known.cost == cost => {
                self.rows.sets.add(known.at, token);
                return Ok(());
            }
            _ => {}
        }
        let at = self.rows.make_set()?;
        self.rows.sets.add(at, token);
        set(&mut self.detected, state, Some(Detected { cost, at }));
        Ok(())
    }

    /// Of the tokens of a set the one that was used least so far; of equals the one with the least
    /// number, the end last.
    pub fn least_used(&self, at: usize, uses: &[usize]) -> Sym {
        let (mut best, mut least) = (END, usize::MAX);
        for (token, count) in uses.iter().enumerate().skip(1) {
            if *count < least && self.rows.sets.has(at, token) {
                best = token;
                least = *count;
            }
        }
        match uses.first() {
            Some(count) if *count < least && self.rows.sets.has(at, END) => END,
            _ => best,
        }
    }
}

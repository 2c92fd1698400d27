//! What a grammar doesn't use: rules that are never reduced, precedences that settle nothing.

use std::alloc::Global;
use std::mem;
use yexplain::lines::{Lines, last_token};
use yexplain::reads::{
    Made, action_of, body_of, candidate_of, default_of, grammar_of, items_of, level_of, next_of,
    ready_of, rule_of, set, shift_of,
};
use ylalr::token_count;
use yprovenance::{Rival, settle};
use ysymbols::{Grammar, Sym, let_go};
use ytables::{Action, Class, Tables, standing_between};

/// The most steps of all trials: one for each rule of a cell.
const MOST_STEPS: usize = 2_000_000;

/// What is done somewhere: which rules are reduced, which tokens and rules a precedence settled.
///
/// Where a precedence is never compared with another one, a conflict stays one without it. Only a
/// `%prec` can do something there: it can hide the precedence that its rule would have without it.
pub struct Done {
    alloc: Global,
    /// For each rule, whether it is reduced anywhere.
    pub reduced: Vec<bool>,
    /// For each token, whether its precedence settled a cell.
    pub by_token: Vec<bool>,
    /// For each rule, whether its precedence settled a cell, or its `%prec` left one open.
    pub by_rule: Vec<bool>,
    /// Whether all cells were tried in which a `%prec` could have left one open.
    pub all_tried: bool,
    /// The rules of the cell.
    rivals: Vec<Rival>,
    /// How many steps trials may still take.
    steps: usize,
    /// Where the complete items of a state stand among its items.
    ready: Vec<usize>,
}

impl Drop for Done {
    // A call in each owner, which keeps their proofs short.
    fn drop(self) {
        let_go!(self: Done { alloc, reduced, by_token, by_rule, all_tried, rivals, steps, ready });
    }
}

impl Done {
    /// What is done in the cells of tables.
    pub fn new(alloc: Global, tables: &Tables, lines: &Lines) -> Made<Done> {
        let grammar = grammar_of(tables);
        let mut done = Done {
            alloc,
            reduced: vec![in alloc; false; grammar.rules()]?,
            by_token: vec![in alloc; false; grammar.symbols()]?,
            by_rule: vec![in alloc; false; grammar.rules()]?,
            all_tried: true,
            rivals: Vec::new(alloc),
            steps: MOST_STEPS,
            ready: Vec::new(alloc),
        };
        for state in 0..tables.automaton().states() {
            done.look_at(tables, lines, state)?;
        }
        Ok(done)
    }

    /// Notes what is done in the cells of a state.
    fn look_at(&mut self, tables: &Tables, lines: &Lines, state: usize) -> Made<()> {
        if let Some(rule) = default_of(tables, state) {
            set(&mut self.reduced, rule, true);
            return Ok(());
        }
        self.ready = ready_of(self.alloc, tables.automaton(), state)?;
        if !self.ready.is_empty() {
            for token in 0..token_count(grammar_of(tables)) {
                if let Action::Reduce(rule) = action_of(tables, state, token) {
                    set(&mut self.reduced, rule, true);
                }
            }
            self.look_at_shifts(tables, lines, state)?;
        }
        Ok(())
    }

    /// Notes which precedences are compared in the cells with a shift.
    fn look_at_shifts(&mut self, tables: &Tables, lines: &Lines, state: usize) -> Made<()> {
        let grammar = grammar_of(tables);
        for item in items_of(tables.automaton(), state) {
            if let Some(token) = next_of(grammar, *item) {
                if level_of(grammar, token).is_some() {
                    self.gather(tables, state, token)?;
                    self.try_each(tables, lines, state, token);
                }
            }
        }
        Ok(())
    }

    /// Takes in the rules of a cell, and notes which precedences are compared there.
    fn gather(&mut self, tables: &Tables, state: usize, token: Sym) -> Made<()> {
        self.rivals.clear();
        for index in &self.ready {
            if let Some(candidate) = candidate_of(tables, state, token, *index) {
                let (rule, standing) = (candidate.rule, candidate.standing);
                self.rivals.push(Rival { rule, standing })?;
                if standing.class() != Class::Rest {
                    set(&mut self.by_token, token, true);
                    set(&mut self.by_rule, rule, true);
                }
            }
        }
        Ok(())
    }

    /// Notes the rules of the cell that would settle it otherwise without their `%prec`.
    fn try_each(&mut self, tables: &Tables, lines: &Lines, state: usize, token: Sym) {
        let grammar = grammar_of(tables);
        let shift = shift_of(tables, state, token);
        for place in 0..self.rivals.len() {
            let Some(other) = self.without_prec(grammar, lines, token, place) else {
                continue;
            };
            if self.steps < self.rivals.len() {
                self.all_tried = false;
                break;
            }
            self.steps = self.steps.saturating_sub(self.rivals.len());
            if settles(shift, &mut self.rivals, place, other) {
                set(&mut self.by_rule, other.rule, true);
            }
        }
    }

    /// The rule at a place of the cell as it would stand to the token without its `%prec`, where
    /// that hides a precedence and isn't known to do something.
    fn without_prec(
        &self,
        grammar: &Grammar,
        lines: &Lines,
        token: Sym,
        place: usize,
    ) -> Option<Rival> {
        let rule = self.rivals.get(place)?.rule;
        if self.by_rule.get(rule).copied().unwrap_or(true) {
            return None;
        }
        if lines.prec(rule).is_none() || rule_of(grammar, rule)?.precedence().is_some() {
            return None;
        }
        let hidden = level_of(grammar, last_token(grammar, body_of(grammar, rule))?)?;
        let standing = standing_between(level_of(grammar, token), Some(hidden));
        Some(Rival { rule, standing })
    }

    /// Notes the tokens that gave a precedence to rules that settled a cell.
    pub fn spread(&mut self, grammar: &Grammar, lines: &Lines) {
        for rule in 0..grammar.rules() {
            let Some(own) = rule_of(grammar, rule) else {
                continue;
            };
            let has_settled = self.by_rule.get(rule).copied().unwrap_or(false);
            if has_settled && own.precedence().is_some() {
                if let Some(token) = lines.giver(grammar, rule) {
                    set(&mut self.by_token, token, true);
                }
            }
        }
    }
}

/// Whether a cell does something else, or counts other conflicts, where one of its rules stands
/// otherwise to the token.
fn settles(shift: Option<Action>, rivals: &mut [Rival], place: usize, other: Rival) -> bool {
    let before = settle(shift, rivals);
    let Some(rival) = rivals.get_mut(place) else {
        return false;
    };
    let kept = mem::replace(rival, other);
    let after = settle(shift, rivals);
    if let Some(rival) = rivals.get_mut(place) {
        *rival = kept;
    }
    before != after
}

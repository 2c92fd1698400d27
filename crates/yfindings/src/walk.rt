//! The states that a parse can come to, the rules that are reduced there, their conflicts as bison
//! counts them, and the numbers that bison gives the states.

use std::alloc::Global;
use yexplain::reads::{Made, action_of, candidates_of, goto_of, grammar_of, is_set, set, shift_of};
use ylalr::END;
use ysymbols::Sym;
use ytables::{Action, Class, Tables};

/// A walk over the states that a parse can come to.
#[derive(Drop)]
pub struct Walk {
    /// These states, in the order in which they were met.
    reached: Vec<usize>,
    is_reached: Vec<bool>,
    /// The rules that are reduced in them.
    pub reduced: Vec<bool>,
}

/// Shift/reduce and reduce/reduce conflicts.
#[derive(Clone, Copy, Drop)]
pub struct Conflicts {
    /// Those with a shift.
    pub shifts: usize,
    /// Those between rules.
    pub reduces: usize,
}

/// What precedences leave of a cell.
#[derive(Clone, Copy, Drop)]
pub struct Left {
    /// Whether a shift is left.
    pub has_shift: bool,
    /// How many rules are left.
    pub rules: usize,
    /// Whether the rule that is asked for is among them.
    pub has_rule: bool,
}

/// What is left of a cell: its rules are compared with the shift one after the other, as long as it
/// is there.
pub fn left_in(tables: &Tables, state: usize, token: Sym, rule: usize) -> Left {
    let mut left = Left {
        has_shift: shift_of(tables, state, token).is_some(),
        rules: 0,
        has_rule: false,
    };
    for candidate in candidates_of(tables, state, token) {
        let class = if left.has_shift {
            candidate.standing.class()
        } else {
            Class::Rest
        };
        left.has_shift = left.has_shift && matches!(class, Class::Rest | Class::Lose);
        if matches!(class, Class::Rest | Class::Beat) {
            left.rules = left.rules.saturating_add(1);
            left.has_rule = left.has_rule || candidate.rule == rule;
        }
    }
    left
}

/// The conflicts in a state, as bison counts them: a shift that meets two rules makes one of each
/// kind.
pub fn conflicts_in(tables: &Tables, state: usize) -> Conflicts {
    let mut found = Conflicts {
        shifts: 0,
        reduces: 0,
    };
    for token in 0..grammar_of(tables).symbols() {
        let left = left_in(tables, state, token, 0);
        let is_met = left.has_shift && left.rules > 0;
        found.shifts = found.shifts.saturating_add(usize::from(is_met));
        found.reduces = found.reduces.saturating_add(left.rules.saturating_sub(1));
    }
    found
}

impl Walk {
    /// Comes to a state.
    fn come_to(&mut self, state: usize) -> Made<()> {
        if self.is_reached.get(state) == Some(&false) {
            set(&mut self.is_reached, state, true);
            self.reached.push(state)?;
        }
        Ok(())
    }

    /// Whether a parse can come to a state.
    pub fn comes_to(&self, state: usize) -> bool {
        is_set(&self.is_reached, state)
    }

    /// Looks at a state.
    fn look_at(&mut self, tables: &Tables, state: usize) -> Made<()> {
        let grammar = grammar_of(tables);
        for symbol in 0..grammar.symbols() {
            if grammar.is_token(symbol) {
                match action_of(tables, state, symbol) {
                    Action::Reduce(rule) => set(&mut self.reduced, rule, true),
                    Action::Shift(next) => self.come_to(next)?,
                    _ => {}
                }
            } else if let Some(next) = goto_of(tables.automaton(), state, symbol) {
                self.come_to(next)?;
            }
        }
        Ok(())
    }

    /// The walk over all of them.
    pub fn new(alloc: Global, tables: &Tables) -> Made<Walk> {
        let states = tables.automaton().states();
        let mut walk = Walk {
            reached: Vec::new(alloc),
            is_reached: vec![in alloc; false; states]?,
            reduced: vec![in alloc; false; grammar_of(tables).rules()]?,
        };
        walk.come_to(0)?;
        for at in 0..states {
            let Some(state) = walk.reached.get(at).copied() else {
                break;
            };
            walk.look_at(tables, state)?;
        }
        Ok(walk)
    }

    /// Comes from a state to the next ones in bison's order: by the symbols in this order, also
    /// where conflicts leave no shift; the end, which is the first, leads to one beside ours.
    fn go_on(&mut self, tables: &Tables, order: &[Sym], state: usize) -> Made<()> {
        let automaton = tables.automaton();
        if matches!(action_of(tables, state, END), Action::Accept) {
            self.come_to(automaton.states())?;
        }
        for symbol in order {
            if let Some(next) = goto_of(automaton, state, *symbol) {
                self.come_to(next)?;
            }
        }
        Ok(())
    }

    /// The numbers that bison gives the states, where it numbers symbols in this order, and after
    /// them that of the one in which the end is shifted; those that no parse comes to have none.
    pub fn bison_numbers(alloc: Global, tables: &Tables, order: &[Sym]) -> Made<Vec<usize>> {
        let states = tables.automaton().states();
        let kept = Walk::new(alloc, tables)?;
        let mut walk = Walk {
            reached: Vec::new(alloc),
            is_reached: vec![in alloc; false; states.saturating_add(1)]?,
            reduced: Vec::new(alloc),
        };
        walk.come_to(0)?;
        for at in 0..states.saturating_add(1) {
            let Some(state) = walk.reached.get(at).copied() else {
                break;
            };
            walk.go_on(tables, order, state)?;
        }
        let mut numbers = vec![in alloc; 0; states.saturating_add(1)]?;
        let mut next = 0usize;
        for state in &walk.reached {
            if *state == states || kept.comes_to(*state) {
                set(&mut numbers, *state, next);
                next = next.saturating_add(1);
            }
        }
        Ok(numbers)
    }

    /// The conflicts in them.
    pub fn conflicts(&self, tables: &Tables) -> Conflicts {
        let mut found = Conflicts {
            shifts: 0,
            reduces: 0,
        };
        for state in &self.reached {
            let more = conflicts_in(tables, *state);
            found.shifts = found.shifts.saturating_add(more.shifts);
            found.reduces = found.reduces.saturating_add(more.reduces);
        }
        found
    }
}

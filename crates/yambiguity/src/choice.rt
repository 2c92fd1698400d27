//! A cell with a conflict, and what can be chosen in it.

use crate::stacks::Stacks;
use std::alloc::Global;
use yexplain::reads::{Made, candidates_of, is_complete, items_of};
use ylalr::Automaton;
use ysymbols::Sym;
use ytables::Tables;

/// A rival of a conflict.
#[derive(Clone, Copy, Drop, PartialEq, Eq)]
pub enum Choice {
    /// The token is shifted; where it is the end, the input is accepted.
    Shift,
    /// A rule is reduced.
    Reduce(usize),
}

/// A cell with a conflict.
#[derive(Clone, Copy, Drop)]
pub struct Cell {
    /// The state.
    pub state: usize,
    /// The token.
    pub token: Sym,
}

impl Choice {
    /// The rule that is reduced, where one is.
    pub fn rule(self) -> Option<usize> {
        match self {
            Choice::Shift => None,
            Choice::Reduce(rule) => Some(rule),
        }
    }

    /// The stack after it, where it was made on a stack.
    pub fn made(
        self,
        automaton: &Automaton,
        stacks: &mut Stacks,
        stack: usize,
    ) -> Made<Option<usize>> {
        match self {
            Choice::Shift => Ok(Some(stack)),
            Choice::Reduce(rule) => stacks.reduced(automaton, stack, rule),
        }
    }
}

/// The rules that can be reduced in a state before a token, whatever precedences say; without a
/// token, those before some token.
pub fn rules_in(
    alloc: Global,
    tables: &Tables,
    state: usize,
    token: Option<Sym>,
) -> Made<Vec<usize>> {
    let mut rules = Vec::new(alloc);
    if let Some(token) = token {
        for candidate in candidates_of(tables, state, token) {
            rules.push(candidate.rule)?;
        }
        return Ok(rules);
    }
    let automaton = tables.automaton();
    for item in items_of(automaton, state) {
        if is_complete(automaton.grammar(), *item) {
            rules.push(item.rule)?;
        }
    }
    Ok(rules)
}

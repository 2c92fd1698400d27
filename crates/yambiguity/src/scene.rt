//! A conflict with two of its rivals, and what parses do that come to it and choose one.

use crate::choice::{Cell, Choice};
use crate::leaves::MOST_TOKENS;
use crate::stacks::{Deed, Stacks};
use std::alloc::Global;
use yexplain::reads::{Made, body_of, left_of};
use ylalr::END;
use ysearch::completion::{End, Ties, end_over, rest_of};
use ysearch::search::Target;
use ysearch::shortest::Shortest;
use ysymbols::Sym;
use ytables::Tables;

/// A conflict, and two of its rivals.
#[derive(Clone, Copy, Drop)]
pub struct Rivals {
    /// The state and the token.
    pub cell: Cell,
    /// What is taken.
    pub first: Choice,
    /// A rule that isn't.
    pub second: usize,
}

/// What sentences are made by for a conflict: the tables, the shortest sentences, the rivals, and a
/// way to the conflict.
#[derive(Clone, Copy)]
pub struct Scene<'a> {
    /// The tables.
    pub tables: &'a Tables,
    /// The shortest sentences of symbols.
    pub shortest: &'a Shortest,
    /// The rivals.
    pub rivals: Rivals,
    /// The way: the symbols on the stack of a parse.
    pub way: &'a [Sym],
}

/// The symbols that a parse shifts.
pub fn form_of(alloc: Global, deeds: &[Deed]) -> Made<Vec<Sym>> {
    let mut form = Vec::new(alloc);
    for deed in deeds {
        if let Deed::Shift(symbol) = deed {
            form.push(*symbol)?;
        }
    }
    Ok(form)
}

/// The symbols on the stack of a parse.
pub fn way_of(alloc: Global, tables: &Tables, deeds: &[Deed]) -> Made<Vec<Sym>> {
    let (grammar, mut way) = (tables.automaton().grammar(), Vec::new(alloc));
    for deed in deeds {
        match deed {
            Deed::Shift(symbol) => way.push(*symbol)?,
            Deed::Reduce(rule) => {
                let kept = way.len().saturating_sub(body_of(grammar, *rule).len());
                way.truncate(kept);
                way.push(left_of(grammar, *rule).unwrap_or(0))?;
            }
        }
    }
    Ok(way)
}

impl Rivals {
    /// The cell as one that a way is sought to, on which these rules can be reduced.
    pub fn target(self, first: Option<usize>, second: Option<usize>) -> Target {
        Target {
            state: self.cell.state,
            token: self.cell.token,
            first,
            second,
        }
    }
}

impl<'a> Scene<'a> {
    /// The same with another way.
    pub fn over(self, way: &'a [Sym]) -> Scene<'a> {
        Scene { way, ..self }
    }

    /// What a parse does from a stack on until its input can end, with as few tokens as there can
    /// be: for each rest of an item it shifts the symbols, and reduces.
    pub fn rest(self, alloc: Global, stacks: &Stacks, stack: usize) -> Made<Option<Vec<Deed>>> {
        let (states, automaton) = (stacks.states(alloc, stack)?, self.tables.automaton());
        let is_end = self.rivals.cell.token == END;
        // nothing follows after the end, which counts for a token
        let most = if is_end { 0 } else { MOST_TOKENS };
        let (shortest, most) = (self.shortest, most.saturating_add(1));
        let end = end_over(alloc, shortest, automaton, &states, Ties::First, most)?;
        let End { items, .. } = end;
        let Some(items) = items else {
            return Ok(None);
        };
        let mut deeds = Vec::new(alloc);
        for item in &items {
            if item.rule > 0 {
                for symbol in rest_of(automaton.grammar(), *item) {
                    deeds.push(Deed::Shift(*symbol))?;
                }
                deeds.push(Deed::Reduce(item.rule))?;
            }
        }
        Ok(Some(deeds))
    }

    /// What a parse does in all: it comes to the conflict, makes a choice, goes on, and ends.
    pub fn course(
        self,
        alloc: Global,
        choice: Choice,
        (deeds, rest): (&[Deed], &[Deed]),
    ) -> Made<Vec<Deed>> {
        let mut course = Vec::new(alloc);
        for symbol in self.way {
            course.push(Deed::Shift(*symbol))?;
        }
        if let Some(rule) = choice.rule() {
            course.push(Deed::Reduce(rule))?;
        }
        course.extend_from_slice(deeds)?;
        course.extend_from_slice(rest)?;
        Ok(course)
    }
}

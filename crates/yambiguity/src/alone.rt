//! One parse from a rival of a conflict until the token of the conflict can be shifted.

use crate::choice::{Cell, Choice, rules_in};
use crate::stacks::{Deed, Stacks};
use std::alloc::Global;
use yexplain::distinct::Distinct;
use yexplain::reads::{Made, shift_of};
use ylalr::{Automaton, END};
use ysymbols::let_go;
use ytables::Tables;

/// The most stacks that are met.
const MOST_STACKS: usize = 1_000;

/// What a parse does from a conflict until its token was shifted, or the input accepted, and the
/// stack after that.
#[derive(Drop)]
pub struct Alone {
    /// What it does.
    pub deeds: Vec<Deed>,
    /// The stack.
    pub stack: usize,
}

/// The stacks that were met, and how each came up: the number of the one before it, and the rule of
/// the reduction; the first one has none.
struct Met {
    stacks: Distinct<usize>,
    links: Vec<(usize, usize)>,
}

impl Drop for Met {
    // A call in each owner, which keeps their proofs short.
    fn drop(self) {
        let_go!(self: Met { stacks, links });
    }
}

impl Met {
    /// Adds a stack that wasn't met yet.
    fn add(&mut self, stack: usize, link: (usize, usize)) -> Made<()> {
        if self.stacks.add(stack)?.1 {
            self.links.push(link)?;
        }
        Ok(())
    }

    /// The reductions that lead to the stack of a number.
    fn reductions(&self, alloc: Global, number: usize) -> Made<Vec<Deed>> {
        let (mut deeds, mut at) = (Vec::new(alloc), number);
        for _ in 0..self.links.len() {
            let Some(link) = self.links.get(at) else {
                break;
            };
            if at == 0 {
                break;
            }
            deeds.push(Deed::Reduce(link.1))?;
            at = link.0;
        }
        deeds.reverse();
        Ok(deeds)
    }

    /// Adds the stacks after the reductions that the token allows on the stack of a number.
    fn reduce(
        &mut self,
        rules: &[usize],
        automaton: &Automaton,
        stacks: &mut Stacks,
        (number, stack): (usize, usize),
    ) -> Made<()> {
        for rule in rules {
            if let Some(next) = stacks.reduced(automaton, stack, *rule)? {
                self.add(next, (number, *rule))?;
            }
        }
        Ok(())
    }
}

/// The reductions from a stack to the first one on which the token can be shifted, and that one.
fn until_shift(
    alloc: Global,
    tables: &Tables,
    stacks: &mut Stacks,
    stack: usize,
    cell: Cell,
) -> Made<Option<Alone>> {
    let mut met = Met {
        stacks: Distinct::new(alloc),
        links: Vec::new(alloc),
    };
    met.add(stack, (0, 0))?;
    for number in 0..MOST_STACKS {
        let Some(stack) = met.stacks.at(number) else {
            break;
        };
        let state = stacks.top(stack);
        if shift_of(tables, state, cell.token).is_some() {
            let deeds = met.reductions(alloc, number)?;
            return Ok(Some(Alone { deeds, stack }));
        }
        let rules = rules_in(alloc, tables, state, Some(cell.token))?;
        met.reduce(&rules, tables.automaton(), stacks, (number, stack))?;
    }
    Ok(None)
}

/// What a parse does that makes a choice on a stack, until the token was shifted.
pub fn alone_of(
    alloc: Global,
    tables: &Tables,
    stacks: &mut Stacks,
    stack: usize,
    cell: Cell,
    choice: Choice,
) -> Made<Option<Alone>> {
    let automaton = tables.automaton();
    let Some(begun) = choice.made(automaton, stacks, stack)? else {
        return Ok(None);
    };
    let Some(alone) = until_shift(alloc, tables, stacks, begun, cell)? else {
        return Ok(None);
    };
    if cell.token == END {
        return Ok(Some(alone));
    }
    let Alone { deeds, stack } = alone;
    let mut deeds = deeds;
    deeds.push(Deed::Shift(cell.token))?;
    match stacks.shifted(automaton, stack, cell.token)? {
        Some(stack) => Ok(Some(Alone { deeds, stack })),
        None => Ok(None),
    }
}

//! Two parses that go on from a conflict by its two rivals over the same symbols: sought are two
//! that come to the same stack, the cheapest first.

use crate::choice::{Cell, Choice, rules_in};
use crate::stacks::{Deed, Stacks};
use std::alloc::Global;
use yexplain::distinct::Distinct;
use yexplain::reads::{Made, items_of, next_of};
use ylalr::{Automaton, END, ERROR};
use ysearch::queue::Queue;
use ysearch::shortest::Shortest;
use ysymbols::{Sym, let_go};
use ytables::Tables;

/// What a reduction costs, and what a token does.
const REDUCTION: u64 = 1;

const TOKEN: u64 = 3;

/// What comes next.
#[derive(Clone, Copy, Drop, PartialEq, Eq, Hash)]
enum Stage {
    /// The token of the conflict is to be shifted.
    Before,
    /// It was shifted, and any symbol can be.
    After,
    /// The input ends, so nothing is shifted.
    End,
}

/// The stacks of two parses.
#[derive(Clone, Copy, Drop, PartialEq, Eq, Hash)]
struct Pair {
    first: usize,
    second: usize,
    stage: Stage,
    /// Whether the first parse may reduce: it does so before the second one.
    may_reduce: bool,
}

/// Which of two parses does something.
#[derive(Clone, Copy, Drop, PartialEq, Eq)]
enum Side {
    First,
    Second,
    Both,
}

/// How a pair is come to: from which pair, and by what.
#[derive(Clone, Copy, Drop)]
struct Link {
    from: usize,
    side: Side,
    deed: Deed,
}

/// What two parses do from a conflict until they have one stack, which may go on to the end.
#[derive(Drop)]
pub struct Joined {
    /// What the first one does.
    pub first: Vec<Deed>,
    /// What the second one does.
    pub second: Vec<Deed>,
    /// The stack.
    pub stack: usize,
}

/// A search for two parses.
pub struct Search {
    alloc: Global,
    cell: Cell,
    pairs: Distinct<Pair>,
    links: Vec<Link>,
    queue: Queue,
    /// How many steps may still be taken: items that are looked at.
    pub left: usize,
}

impl Drop for Search {
    // A call in each owner, which keeps their proofs short.
    fn drop(self) {
        let_go!(self: Search { alloc, cell, pairs, links, queue, left });
    }
}

impl Search {
    /// A search from a stack whose top state has a conflict, by two of its rivals, in so many
    /// steps.
    pub fn new(
        alloc: Global,
        tables: &Tables,
        stacks: &mut Stacks,
        stack: usize,
        cell: Cell,
        choices: (Choice, Choice),
        steps: usize,
    ) -> Made<Search> {
        let mut search = Search {
            alloc,
            cell,
            pairs: Distinct::new(alloc),
            links: Vec::new(alloc),
            queue: Queue::new(alloc),
            left: steps,
        };
        let automaton = tables.automaton();
        let first = choices.0.made(automaton, stacks, stack)?;
        let second = choices.1.made(automaton, stacks, stack)?;
        if let (Some(first), Some(second)) = (first, second) {
            let pair = Pair {
                first,
                second,
                stage: if cell.token == END {
                    Stage::End
                } else {
                    Stage::Before
                },
                may_reduce: choices.0 != Choice::Shift,
            };
            let link = Link {
                from: 0,
                side: Side::Both,
                deed: Deed::Shift(cell.token),
            };
            search.put(pair, 0, link)?;
        }
        Ok(search)
    }

    /// A pair waits, where it is new.
    fn put(&mut self, pair: Pair, cost: u64, link: Link) -> Made<()> {
        self.left = self.left.saturating_sub(1);
        let (number, is_new) = self.pairs.add(pair)?;
        if is_new {
            self.links.push(link)?;
            self.queue.put(cost, number)?;
        }
        Ok(())
    }

    /// The next two parses with one stack, as long as there are steps.
    pub fn next(
        &mut self,
        tables: &Tables,
        stacks: &mut Stacks,
        shortest: &Shortest,
    ) -> Made<Option<Joined>> {
        for _ in 0..self.left {
            if self.left == 0 {
                break;
            }
            let Some((cost, number)) = self.queue.take() else {
                break;
            };
            let Some(pair) = self.pairs.at(number) else {
                break;
            };
            if pair.first == pair.second && pair.stage != Stage::Before {
                return Ok(Some(self.joined(number, pair.first)?));
            }
            if pair.may_reduce {
                self.reduce(tables, stacks, (number, pair, cost), Side::First)?;
            }
            self.reduce(tables, stacks, (number, pair, cost), Side::Second)?;
            self.shift_all(tables, stacks, shortest, (number, pair, cost))?;
        }
        Ok(None)
    }

    /// One of the parses reduces, by each rule that it can: after the second one has, the first one
    /// reduces no more before a symbol is shifted.
    fn reduce(
        &mut self,
        tables: &Tables,
        stacks: &mut Stacks,
        (number, pair, cost): (usize, Pair, u64),
        side: Side,
    ) -> Made<()> {
        let is_first = side == Side::First;
        let stack = if is_first { pair.first } else { pair.second };
        let (automaton, state) = (tables.automaton(), stacks.top(stack));
        self.left = self.left.saturating_sub(items_of(automaton, state).len());
        let token = match pair.stage {
            Stage::After => None,
            Stage::Before | Stage::End => Some(self.cell.token),
        };
        for rule in &rules_in(self.alloc, tables, state, token)? {
            let Some(reduced) = stacks.reduced(automaton, stack, *rule)? else {
                continue;
            };
            let next = Pair {
                first: if is_first { reduced } else { pair.first },
                second: if is_first { pair.second } else { reduced },
                may_reduce: pair.may_reduce && is_first,
                ..pair
            };
            let link = Link {
                from: number,
                side,
                deed: Deed::Reduce(*rule),
            };
            self.put(next, cost.saturating_add(REDUCTION), link)?;
        }
        Ok(())
    }

    /// Both parses shift a symbol: each one that they can.
    fn shift_all(
        &mut self,
        tables: &Tables,
        stacks: &mut Stacks,
        shortest: &Shortest,
        from: (usize, Pair, u64),
    ) -> Made<()> {
        let (automaton, pair) = (tables.automaton(), from.1);
        match pair.stage {
            Stage::End => Ok(()),
            Stage::Before => self.shift(automaton, stacks, shortest, from, self.cell.token),
            Stage::After => {
                for item in items_of(automaton, stacks.top(pair.first)) {
                    let symbol = next_of(automaton.grammar(), *item).unwrap_or(END);
                    if symbol != END && symbol != ERROR {
                        self.shift(automaton, stacks, shortest, from, symbol)?;
                    }
                }
                Ok(())
            }
        }
    }

    /// Both parses shift a symbol, where they can.
    fn shift(
        &mut self,
        automaton: &Automaton,
        stacks: &mut Stacks,
        shortest: &Shortest,
        (number, pair, cost): (usize, Pair, u64),
        symbol: Sym,
    ) -> Made<()> {
        let first = stacks.shifted(automaton, pair.first, symbol)?;
        let second = stacks.shifted(automaton, pair.second, symbol)?;
        if let (Some(first), Some(second)) = (first, second) {
            let length = shortest.length(symbol).max(1);
            let link = Link {
                from: number,
                side: Side::Both,
                deed: Deed::Shift(symbol),
            };
            let pair = Pair {
                first,
                second,
                stage: Stage::After,
                may_reduce: true,
            };
            let cost = cost.saturating_add(length.saturating_mul(TOKEN));
            self.put(pair, cost, link)?;
        }
        Ok(())
    }

    /// What two parses did that have come to a stack.
    fn joined(&self, number: usize, stack: usize) -> Made<Joined> {
        let mut joined = Joined {
            first: Vec::new(self.alloc),
            second: Vec::new(self.alloc),
            stack,
        };
        let mut at = number;
        for _ in 0..self.links.len() {
            let Some(link) = self.links.get(at) else {
                break;
            };
            if at == 0 {
                break;
            }
            if link.side != Side::Second {
                joined.first.push(link.deed)?;
            }
            if link.side != Side::First {
                joined.second.push(link.deed)?;
            }
            at = link.from;
        }
        joined.first.reverse();
        joined.second.reverse();
        Ok(joined)
    }
}

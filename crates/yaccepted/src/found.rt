//! The conflicts of tables, each as what settles it and one rule that is not taken.

use crate::conflict::{Conflict, Conflicts};
use crate::items::{Dotted, Hosts};
use std::alloc::Global;
use std::io;
use yexplain::distinct::Distinct;
use yexplain::lines::{Lines, Spot};
use yexplain::reads::{
    Made, body_of, candidates_of, conflicts_of, grammar_of, items_of, name_of, next_of, shift_of,
};
use yfiles::category::Category;
use ysymbols::{Sym, let_go};
use ytables::{Class, Tables};

/// The most conflicts that are told apart.
pub const MOST_FOUND: usize = 100_000;

/// A conflict between two items of a token.
#[derive(Clone, Copy, Drop, PartialEq, Eq, Hash)]
struct Pair {
    token: Sym,
    taken: Dotted,
    other: usize,
}

/// The pairs of items that are rivals, in the order of their states.
struct Pairs {
    all: Distinct<Pair>,
}

impl Drop for Pairs {
    // A call in each owner, which keeps their proofs short.
    fn drop(self) {
        let_go!(self: Pairs { all });
    }
}

impl Pairs {
    /// Whether there are too many.
    fn is_full(&self) -> bool {
        self.all.len() > MOST_FOUND
    }

    /// Adds what an item is taken before at a token.
    fn add(&mut self, token: Sym, taken: Dotted, others: &[usize]) -> Made<()> {
        for other in others {
            let pair = Pair {
                token,
                taken,
                other: *other,
            };
            if !self.is_full() {
                self.all.add(pair)?;
            }
        }
        Ok(())
    }

    /// Adds the conflicts of a state: the rules that each shift of a cell is taken before, or those
    /// that another rule is.
    fn add_state(&mut self, alloc: Global, tables: &Tables, state: usize) -> Made<()> {
        let grammar = grammar_of(tables);
        for conflict in conflicts_of(tables, state) {
            // the rules that don't lose to the shift, where there is one
            let shifts = shift_of(tables, state, conflict.token).is_some();
            let mut rules = Vec::new(alloc);
            for candidate in candidates_of(tables, state, conflict.token) {
                if !shifts || candidate.standing.class() != Class::Lose {
                    rules.push(candidate.rule)?;
                }
            }
            if conflict.shift_reduce > 0 {
                for item in items_of(tables.automaton(), state) {
                    if next_of(grammar, *item) == Some(conflict.token) {
                        self.add(conflict.token, (item.rule, item.dot), &rules)?;
                    }
                }
            } else if let Some((first, others)) = rules.split_first() {
                let dot = body_of(grammar, *first).len();
                self.add(conflict.token, (*first, dot), others)?;
            }
        }
        Ok(())
    }
}

/// A pair as texts.
fn conflict_of(
    alloc: Global,
    tables: &Tables,
    lines: &Lines,
    hosts: &Hosts,
    pair: &Pair,
) -> io::Result<Conflict> {
    let grammar = grammar_of(tables);
    let other = (pair.other, body_of(grammar, pair.other).len());
    let is_shift = pair.taken.1 < body_of(grammar, pair.taken.0).len();
    Ok(Conflict {
        spot: lines.spot(pair.other).unwrap_or(Spot {
            line: 1,
            column: None,
        }),
        token: Vec::from_slice(alloc, name_of(grammar, pair.token))?,
        taken: hosts.text(alloc, grammar, pair.taken)?,
        other: hosts.text(alloc, grammar, other)?,
        category: Some(if is_shift {
            Category::ConflictsSr
        } else {
            Category::ConflictsRr
        }),
    })
}

/// The conflicts of tables as texts, in the order of their states; `None` where there are more than
/// can be told apart.
pub fn found_in(alloc: Global, tables: &Tables, lines: &Lines) -> io::Result<Option<Conflicts>> {
    let mut pairs = Pairs {
        all: Distinct::new(alloc),
    };
    for state in 0..tables.automaton().states() {
        pairs.add_state(alloc, tables, state)?;
        if pairs.is_full() {
            return Ok(None);
        }
    }
    let hosts = Hosts::new(alloc, grammar_of(tables))?;
    let mut found = Conflicts::new(alloc);
    for pair in pairs.all.all() {
        let conflict = conflict_of(alloc, tables, lines, &hosts, pair)?;
        found.add(alloc, conflict)?;
    }
    Ok(Some(found))
}

//! Which other conflicts what a hint asks for settles: each is tried.

use crate::blocks::{Blocks, Entry};
use crate::tried::{Marks, Tried, counted, tried_of};
use std::alloc::Global;
use yexplain::advice::{Advice, Hint};
use yexplain::lines::Lines;
use yexplain::reads::{Made, grammar_of, level_of, set};
use ysearch::groups::Conflicts;
use ysymbols::{Grammar, Sym};
use ytables::Tables;

/// The most kinds of conflicts over which hints are tried.
const MOST_KINDS: usize = 2_000;

/// What tries hints over the cells of all kinds, with lines of `%left` after all others.
#[derive(Drop)]
struct Trials<'a> {
    grammar: &'a Grammar,
    lines: &'a Lines,
    cells: &'a [Tried],
    marks: Marks,
}

impl Trials<'_> {
    /// Marks what an advice about a token and a rule asks for, or takes the marks back.
    fn mark(&mut self, (token, rule): (Sym, usize), advice: Advice, is_set: bool) {
        let tokens = &mut self.marks.tokens;
        match advice {
            Advice::End | Advice::Inner | Advice::General => {}
            Advice::Both { .. } | Advice::Token(_) => set(tokens, token, is_set),
            Advice::Rule(giver) => set(tokens, giver, is_set),
            Advice::Lines { words, .. } => {
                set(tokens, token, is_set);
                set(tokens, words.giver, is_set);
            }
            Advice::Own => {
                if level_of(self.grammar, token).is_none() {
                    set(tokens, token, is_set);
                }
                set(&mut self.marks.rules, rule, is_set);
            }
        }
    }

    /// Whether a kind of conflict counts none with what is marked.
    fn is_settled(&self, number: usize) -> bool {
        let cells = self.cells.get(number..number.saturating_add(1));
        let cells = cells.unwrap_or(&[]);
        !cells.is_empty() && counted(self.grammar, self.lines, &self.marks, cells) == 0
    }

    /// The kinds that the hint for one settles beside it; none where it doesn't settle this one.
    fn also(&mut self, alloc: Global, entry: Entry, hint: Option<Hint>) -> Made<Vec<usize>> {
        let mut settled = Vec::new(alloc);
        let Some(Hint::Settle(rule, advice)) = hint else {
            return Ok(settled);
        };
        if !entry.kind.shift {
            return Ok(settled);
        }
        let pair = (entry.kind.token, rule);
        self.mark(pair, advice, true);
        if self.is_settled(entry.number) {
            for other in 0..self.cells.len() {
                if other != entry.number && self.is_settled(other) {
                    settled.push(other)?;
                }
            }
        }
        self.mark(pair, advice, false);
        Ok(settled)
    }
}

/// Tries the hints of all blocks, unless there are too many kinds of conflicts.
pub fn try_hints(
    alloc: Global,
    tables: &Tables,
    lines: &Lines,
    found: &Conflicts,
    blocks: &mut Blocks,
) -> Made<()> {
    if found.groups.len() > MOST_KINDS {
        return Ok(());
    }
    let grammar = grammar_of(tables);
    let cells = tried_of(alloc, tables, lines, found)?;
    let mut trials = Trials {
        grammar,
        lines,
        cells: cells.as_slice(),
        marks: Marks::new(alloc, grammar)?,
    };
    for block in blocks.list.iter_mut() {
        for class in block.classes.iter_mut() {
            if let Some(entry) = class.entries.first().copied() {
                class.also = trials.also(alloc, entry, class.settled.hint)?;
            }
        }
    }
    Ok(())
}

//! Cells with conflicts, and how many they would count with other precedences.

use std::alloc::Global;
use yexplain::lines::Lines;
use yexplain::reads::{Made, set};
use yexplain::supposed::{Contest, Supposed};
use ysearch::groups::Conflicts;
use ysymbols::{Grammar, Sym};
use ytables::Tables;

/// A cell that counts conflicts.
#[derive(Clone, Copy, Drop)]
pub struct Tried {
    /// Its token, its shift and its rules.
    pub contest: Contest,
    /// How many states have the same.
    states: usize,
    /// How many conflicts it counts.
    rivals: usize,
}

/// What gets a precedence: marks of tokens, and of rules that get a name of their own.
#[derive(Drop)]
pub struct Marks {
    /// By tokens.
    pub tokens: Vec<bool>,
    /// By rules.
    pub rules: Vec<bool>,
}

impl Marks {
    /// Nothing is marked.
    pub fn new(alloc: Global, grammar: &Grammar) -> Made<Marks> {
        Ok(Marks {
            tokens: vec![in alloc; false; grammar.symbols()]?,
            rules: vec![in alloc; false; grammar.rules()]?,
        })
    }

    /// The same marks, and those of some tokens and of a rule.
    pub fn with(&self, alloc: Global, tokens: &[Sym], rule: Option<usize>) -> Made<Marks> {
        let mut marks = Marks {
            tokens: Vec::from_slice(alloc, &self.tokens)?,
            rules: Vec::from_slice(alloc, &self.rules)?,
        };
        for token in tokens {
            set(&mut marks.tokens, *token, true);
        }
        if let Some(rule) = rule {
            set(&mut marks.rules, rule, true);
        }
        Ok(marks)
    }
}

impl Tried {
    /// How many conflicts it counts in all its states.
    pub fn weight(&self) -> usize {
        self.rivals.saturating_mul(self.states)
    }

    /// How many conflicts it would count in all its states with these precedences.
    fn counted(&self, supposed: Supposed<'_>) -> usize {
        match self.contest.settled(supposed) {
            Some(cell) => {
                let each = cell.shift_reduce.max(cell.reduce_reduce);
                each.saturating_mul(self.states)
            }
            None => self.weight(),
        }
    }
}

/// The cells of all kinds.
pub fn tried_of(
    alloc: Global,
    tables: &Tables,
    lines: &Lines,
    found: &Conflicts,
) -> Made<Vec<Tried>> {
    let mut cells = Vec::new(alloc);
    for (kind, group) in &found.groups {
        cells.push(Tried {
            contest: Contest::of(kind.cell(*group, tables, lines)),
            states: group.states,
            rivals: kind.rivals,
        })?;
    }
    Ok(cells)
}

/// How many conflicts the cells would count where what is marked got precedences.
pub fn counted<'a>(
    grammar: &'a Grammar,
    lines: &'a Lines,
    marks: &'a Marks,
    cells: &[Tried],
) -> usize {
    let supposed = Supposed {
        grammar,
        lines,
        token: None,
        other: None,
        rule: None,
        tokens: marks.tokens.as_slice(),
        rules: marks.rules.as_slice(),
    };
    let mut sum = 0usize;
    for cell in cells {
        sum = sum.saturating_add(cell.counted(supposed));
    }
    sum
}

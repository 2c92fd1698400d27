//! Copies of nonterminals that split states which were merged: each was tried by tables of its own.

use std::alloc::Global;
use std::io::{self, Write};
use yexplain::lines::{Lines, is_inner};
use yexplain::reads::{Made, body_of, grammar_of, left_of};
use yexplain::text::{Name, Numbered};
use ylists::list_text::is_merged;
use ymends::changed::conflicts_after;
use ymends::changed_text::Change;
use ymends::words::are_left;
use ysearch::finding::Finding;
use ysearch::groups::Kind;
use ysymbols::{Grammar, Sym};
use ytables::Tables;
use yview::page::Page;

/// The most copies that are tried for a conflict.
const MOST_COPIES: usize = 12;

/// The most states of tables that are made anew.
const MOST_STATES: usize = 800;

/// The most conflicts of a report for which copies are tried.
const MOST_SPLITS: usize = 2;

/// A copy of a nonterminal for the body of a rule.
#[derive(Clone, Copy, Drop)]
pub struct Split {
    /// The nonterminal.
    pub symbol: Sym,
    /// The rule.
    pub rule: usize,
    /// How many conflicts are left with it.
    pub left: usize,
    /// How many there are.
    pub all: usize,
}

/// The rules whose bodies have a nonterminal, where there are several.
fn users_of(alloc: Global, grammar: &Grammar, symbol: Sym) -> Made<Vec<usize>> {
    let mut users = Vec::new(alloc);
    for rule in 1..grammar.rules() {
        if body_of(grammar, rule).contains(&symbol) {
            users.push(rule)?;
        }
    }
    if users.len() < 2 {
        users.clear();
    }
    Ok(users)
}

/// The copies that may split a state: of the left sides of these rules.
fn copies_of(alloc: Global, grammar: &Grammar, rules: &[usize]) -> Made<Vec<(Sym, usize)>> {
    let mut copies = Vec::new(alloc);
    for rule in rules {
        let Some(symbol) = left_of(grammar, *rule) else {
            continue;
        };
        let mut is_there = is_inner(grammar, *rule);
        for (it, _) in &copies {
            is_there = is_there || *it == symbol;
        }
        if is_there {
            continue;
        }
        for user in &users_of(alloc, grammar, symbol)? {
            copies.push((symbol, *user))?;
        }
    }
    Ok(copies)
}

/// The copy that leaves the fewest conflicts, where one leaves fewer than there are: of the left
/// sides of the rules of a kind of conflict, for the bodies that have them.
fn split_of(alloc: Global, tables: &Tables, lines: &Lines, kind: &Kind) -> Made<Option<Split>> {
    let (grammar, counts) = (grammar_of(tables), tables.conflicts());
    let all = counts.shift_reduce.saturating_add(counts.reduce_reduce) as usize;
    if tables.automaton().states() > MOST_STATES {
        return Ok(None);
    }
    let mut best: Option<Split> = None;
    for (symbol, rule) in copies_of(alloc, grammar, kind.rules())?
        .iter()
        .take(MOST_COPIES)
    {
        let (symbol, rule) = (*symbol, *rule);
        let change = Change::Copied { symbol, rule };
        let left = conflicts_after(alloc, grammar, lines, change)?.unwrap_or(all);
        if left < best.map_or(all, |split| split.left) {
            best = Some(Split {
                symbol,
                rule,
                left,
                all,
            });
        }
    }
    Ok(best)
}

/// What tries copies for the first conflicts of merged states.
#[derive(Clone, Copy, Drop)]
pub struct Splitter {
    /// For how many conflicts more.
    tries: usize,
}

impl Splitter {
    /// One that tried none.
    pub fn new() -> Splitter {
        Splitter { tries: MOST_SPLITS }
    }

    /// The copy for a kind of conflict, where this was found for it.
    pub fn split(
        &mut self,
        alloc: Global,
        (tables, lines): (&Tables, &Lines),
        kind: &Kind,
        finding: &Finding,
    ) -> Made<Option<Split>> {
        if self.tries == 0 || !is_merged(finding) {
            return Ok(None);
        }
        self.tries = self.tries.saturating_sub(1);
        split_of(alloc, tables, lines, kind)
    }
}

impl Split {
    /// Writes how states are split.
    pub fn put<W: Write>(self, out: &mut W, grammar: &Grammar, lines: &Lines) -> io::Result<()> {
        let mut page = Page::new(&mut *out, false);
        page.put("  With a copy of ");
        page.show(Name(grammar, self.symbol));
        page.put(", which has the same rules, in ");
        page.show(Numbered(lines, self.rule));
        page.put(" ");
        page.number(self.left);
        page.put(" of ");
        page.number(self.all);
        page.put(" ");
        page.put(are_left(self.left, self.all));
        page.line(" left.");
        page.checked()
    }
}

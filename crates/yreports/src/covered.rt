//! Rules that others cover: what they derive comes of those too, so the language stays the same
//! without them.

use std::alloc::Global;
use yexplain::lines::Lines;
use yexplain::reads::{Made, body_of, grammar_of, left_of, set};
use ymends::changed::conflicts_after;
use ymends::changed_text::Change;
use ysymbols::{Grammar, Sym};
use ytables::Tables;

/// The most rules of one symbol between a rule and the one that covers it.
const MOST_LINKS: usize = 20;

/// The most states of tables that are made anew.
const MOST_STATES: usize = 1_500;

/// A rule that others cover.
#[derive(Drop)]
pub struct Covered {
    /// The rule.
    pub rule: usize,
    /// Those by which its left side derives its body too, in their order.
    pub by: Vec<usize>,
    /// How many conflicts go without it.
    pub settles: usize,
}

/// The rules of one symbol that lead from a nonterminal to others without a rule: for each the last
/// one.
fn links_from(
    alloc: Global,
    grammar: &Grammar,
    from: Sym,
    without: usize,
) -> Made<Vec<Option<usize>>> {
    let mut reached = vec![in alloc; None; grammar.symbols()]?;
    for _ in 0..MOST_LINKS {
        for rule in 1..grammar.rules() {
            let to = match body_of(grammar, rule) {
                [only] if *only < grammar.symbols() && !grammar.is_token(*only) => *only,
                _ => continue,
            };
            let Some(left) = left_of(grammar, rule) else {
                continue;
            };
            let reaches = |symbol: Sym| reached.get(symbol).copied().flatten().is_some();
            let is_new = to != from && !reaches(to);
            if rule != without && is_new && (left == from || reaches(left)) {
                set(&mut reached, to, Some(rule));
            }
        }
    }
    Ok(reached)
}

/// The rules by which a rule's left side derives another rule's left side without it, and that
/// other rule; `None` where it doesn't.
fn cover_by(
    alloc: Global,
    grammar: &Grammar,
    rule: usize,
    other: usize,
) -> Made<Option<Vec<usize>>> {
    let (Some(from), Some(to)) = (left_of(grammar, rule), left_of(grammar, other)) else {
        return Ok(None);
    };
    let reached = links_from(alloc, grammar, from, rule)?;
    let mut by = Vec::new(alloc);
    by.push(other)?;
    let mut at = to;
    for _ in 0..=MOST_LINKS {
        if at == from {
            by.reverse();
            return Ok(Some(by));
        }
        let Some(link) = reached.get(at).copied().flatten() else {
            return Ok(None);
        };
        by.push(link)?;
        at = left_of(grammar, link).unwrap_or(from);
    }
    Ok(None)
}

/// One of two rules, where the other covers it, and fewer than so many conflicts are left without
/// it: tables are made for that.
pub fn covered_of(
    alloc: Global,
    tables: &Tables,
    lines: &Lines,
    (one, other): (usize, usize),
    all: usize,
) -> Made<Option<Covered>> {
    let grammar = grammar_of(tables);
    let is_same = body_of(grammar, one) == body_of(grammar, other);
    if !is_same || tables.automaton().states() > MOST_STATES {
        return Ok(None);
    }
    for (rule, other) in [(one, other), (other, one)] {
        let Some(by) = cover_by(alloc, grammar, rule, other)? else {
            continue;
        };
        let changed = conflicts_after(alloc, grammar, lines, Change::Without(rule))?;
        let left = changed.unwrap_or(all);
        if left < all {
            let settles = all.saturating_sub(left);
            return Ok(Some(Covered { rule, by, settles }));
        }
    }
    Ok(None)
}

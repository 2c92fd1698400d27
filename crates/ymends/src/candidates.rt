//! The changes that may settle a conflict or mend an idiom, to be tried.

use crate::changed_text::Change;
use crate::idioms::{Form, Idiom, can_vanish};
use crate::rewriting::Rewriting;
use std::alloc::Global;
use yexplain::lines::is_inner;
use yexplain::reads::{Made, body_of, left_of, vanishes};
use ysymbols::{Grammar, Sym};
use ytables::Tables;

/// The most changes that are tried for a conflict.
const MOST_CHANGES: usize = 32;

/// The most rules with a nonterminal in their bodies that are changed.
const MOST_USERS: usize = 6;

/// A change to be tried.
#[derive(Clone, Copy, Drop)]
pub struct Candidate {
    /// The change.
    pub change: Change,
    /// Whether the language stays the same by what it is.
    pub is_kept: bool,
}

/// The first rules whose bodies have a symbol.
fn users_of(alloc: Global, grammar: &Grammar, symbol: Sym) -> Made<Vec<usize>> {
    let mut users = Vec::new(alloc);
    for rule in 1..grammar.rules() {
        let body = body_of(grammar, rule);
        if users.len() < MOST_USERS && body.contains(&symbol) {
            users.push(rule)?;
        }
    }
    Ok(users)
}

/// Adds a change to be tried.
fn push(list: &mut Vec<Candidate>, change: Change, is_kept: bool) -> Made<()> {
    if list.len() < MOST_CHANGES {
        list.push(Candidate { change, is_kept })?;
    }
    Ok(())
}

/// Adds a rewriting to be tried.
pub fn push_rewriting(list: &mut Vec<Candidate>, rewriting: Rewriting, is_kept: bool) -> Made<()> {
    push(list, Change::Rewritten(rewriting), is_kept)
}

/// The changes that mend an idiom.
pub fn for_idiom(alloc: Global, tables: &Tables, idiom: &Idiom) -> Made<Vec<Candidate>> {
    let (automaton, mut list) = (tables.automaton(), Vec::new(alloc));
    let grammar = automaton.grammar();
    let (first, symbol) = (idiom.rules.first().copied().unwrap_or(0), idiom.symbol);
    let other = idiom.other.unwrap_or(symbol);
    match idiom.form {
        Form::Twice => push(&mut list, Change::Without(first), true)?,
        Form::Alike => {
            let by = other;
            push_rewriting(&mut list, Rewriting::Merged { symbol, by }, true)?;
        }
        Form::ListOfLists => {
            let is_kept = !vanishes(automaton, symbol);
            push_rewriting(&mut list, Rewriting::Listed { rule: first }, is_kept)?;
        }
        Form::Cycle | Form::TwoEmpty => {
            for rule in idiom.rules.iter().rev() {
                push(&mut list, Change::Without(*rule), false)?;
            }
        }
        Form::EmptyInList | Form::HiddenLeft => {
            for rule in 1..grammar.rules() {
                let is_empty = can_vanish(automaton, body_of(grammar, rule));
                let left = left_of(grammar, rule).unwrap_or(0);
                if idiom.empty.contains(&left) && is_empty {
                    push(&mut list, Change::Without(rule), false)?;
                }
            }
            let (symbol, rule) = (other, first);
            if idiom.form == Form::EmptyInList {
                push_rewriting(&mut list, Rewriting::Separated { symbol, rule }, false)?;
            }
            push_rewriting(&mut list, Rewriting::Inlined { symbol, rule }, true)?;
        }
    }
    Ok(list)
}

/// Adds that the rules of a nonterminal are written out where it stands.
fn push_inlined(
    alloc: Global,
    grammar: &Grammar,
    list: &mut Vec<Candidate>,
    symbol: Sym,
) -> Made<()> {
    for rule in &users_of(alloc, grammar, symbol)? {
        let rule = *rule;
        push_rewriting(list, Rewriting::Inlined { symbol, rule }, true)?;
    }
    Ok(())
}

/// The changes that may settle a conflict between two rules.
pub fn for_rules(
    alloc: Global,
    grammar: &Grammar,
    (taken, other): (usize, usize),
) -> Made<Vec<Candidate>> {
    let mut list = Vec::new(alloc);
    let (Some(one), Some(two)) = (left_of(grammar, taken), left_of(grammar, other)) else {
        return Ok(list);
    };
    for rule in [other, taken] {
        if !is_inner(grammar, rule) {
            push(&mut list, Change::Without(rule), false)?;
        }
    }
    if one == two || is_inner(grammar, taken) || is_inner(grammar, other) {
        return Ok(list);
    }
    for (symbol, by) in [(two, one), (one, two)] {
        for rule in &users_of(alloc, grammar, symbol)? {
            let rule = *rule;
            push_rewriting(&mut list, Rewriting::Replaced { symbol, by, rule }, false)?;
            push(&mut list, Change::Without(rule), false)?;
        }
    }
    let merged = Rewriting::Merged {
        symbol: two,
        by: one,
    };
    push_rewriting(&mut list, merged, false)?;
    push_rewriting(&mut list, Rewriting::Opened { one, two }, true)?;
    Ok(list)
}

/// The changes that may settle a conflict between a shift and a rule.
pub fn for_shift(alloc: Global, grammar: &Grammar, rule: usize) -> Made<Vec<Candidate>> {
    let mut list = Vec::new(alloc);
    if let (Some(left), false) = (left_of(grammar, rule), is_inner(grammar, rule)) {
        push_inlined(alloc, grammar, &mut list, left)?;
        let (one, two) = (left, left);
        push_rewriting(&mut list, Rewriting::Opened { one, two }, true)?;
    }
    Ok(list)
}
